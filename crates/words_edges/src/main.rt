// The program `words` on lines at the edges of its rule: its `stdin` has an empty line, upper-case digits, too few and too many, a space, a CR, a NUL, and a last line without a newline.
#![tactic(auto)]

use line_answers::Words;
use std::io;

fn main(rt: HostRuntime) -> io::Result<()> {
    line_answers::answer_input::<Words, _>(&rt)
}
