// Which build each stored word names, or what it doesn't tell: a line for each line of standard input.
#![tactic(auto)]

use line_answers::Words;
use std::io;

fn main(rt: HostRuntime) -> io::Result<()> {
    line_answers::answer_input::<Words, _>(&rt)
}
