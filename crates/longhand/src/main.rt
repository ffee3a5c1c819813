// Longhand records, in hexadecimal, and settings: a line for each line of standard input. A record is read; settings are checked and written as a record.
#![tactic(auto)]

use line_answers::Longhand;
use std::io;

fn main(rt: HostRuntime) -> io::Result<()> {
    line_answers::answer_input::<Longhand, _>(&rt)
}
