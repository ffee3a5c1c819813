// The programs `words` and `longhand`: what they print for a whole input, and the programs themselves, as a function.
// First the two programs, each by the line that it prints for a line; then a text put into a lent slice, all lines, and the whole output; last `answer_input`, which reads, and writes that. Input and output lie in arrays of fixed size: nothing here is on a heap.
#![tactic(auto)]

ghost use Rattle.std.specs.Prelude.{◌≡◌, ℕ, suc, List, ◌++◌, ◌+◌, ◌≤◌, length, take, drop};
ghost use Rattle.lines.specs.Limits.{most_printed};
ghost use Rattle.lines.specs.Text.{line_out, Printed};
ghost use Rattle.lines.specs.Parting.{before, lines_of};
ghost use Rattle.longhand_lines.specs.Longhand.{longhand_line};
ghost use Rattle.line_answers.specs.Output.{lines_for, output_of, Front};

use input::read_full;
use lines::limits::{MOST_INPUT, MOST_OUTPUT};
use lines::parting::bytes_before;
use lines::text::{Line, line_out};
use longhand_lines::longhand::longhand_line;
use std::io;

// A program that answers each line of its input by itself.
pub trait Program {
    // The line that it prints for a line.
    ghost line_for: { List ℕ → List ℕ };

    fn line_for(line: &[u8]) -> Line
        ensures { Printed (length line.now) result (line_for line.now) };
}

// Which build each stored word names.
#[derive(Clone, Copy)]
pub struct Words;

impl Program for Words {
    ghost line_for = { line_out };

    fn line_for(line: &[u8]) -> Line {
        line_out(line)
    }
}

// Longhand records and settings.
#[derive(Clone, Copy)]
pub struct Longhand;

impl Program for Longhand {
    ghost line_for = { longhand_line };

    fn line_for(line: &[u8]) -> Line {
        longhand_line(line)
    }
}

// The text from place `at` on; answers the place after it.
fn put(out: &mut [u8], at: usize, text: &[u8]) -> usize
    requires { at + length text.now ≤ length out.old }
    ensures { (result ≡ at + length text.now) × (out.new ≡ take at out.old ++ text.now ++ drop (at + length text.now) out.old) }
{
    let end = at + text.len();
    out[at..end].copy_from_slice(text);
    end
}

// The first line, and what comes after its newline.
fn parted(input: &[u8]) -> (&[u8], &[u8])
    ensures line { result.0.now ≡ take (before 10 input.now) input.now }
    ensures others { result.1.now ≡ drop (suc (before 10 input.now)) input.now }
{
    let end = bytes_before(input, b'\n');
    (&input[..end], input.get(end + 1..).unwrap_or(&[]))
}

fn put_lines<P: Program>(input: &[u8], out: &mut [u8]) -> usize
    requires { most_printed (length input.now + 1) ≤ length out.old }
    ensures { Front (lines_for P.line_for (lines_of input.now)) out.old result out.new }
{
    let mut rest = input;
    let mut n = 0;
    while !rest.is_empty() {
        let (line, others) = parted(rest);
        n = put(out, n, P::line_for(line).as_bytes());
        rest = others;
    }
    n
}

// The whole output, to the front of `out`; answers how many bytes it has.
pub fn output<P: Program>(input: &[u8], out: &mut [u8; MOST_OUTPUT]) -> usize
    ensures { Front (output_of P.line_for input.now) out.old result out.new }
{
    if input.len() > MOST_INPUT {
        return put(out, 0, b"too long\n");
    }
    put_lines::<P>(input, out)
}

pub fn answer_input<P: Program, R: Input + Print>(rt: &R) -> io::Result<()> {
    // A byte more than is taken tells an input that is too long.
    let mut input = [0u8; MOST_INPUT + 1];
    let n = read_full(rt, &mut input)?;
    let mut out = [0u8; MOST_OUTPUT];
    let k = output::<P>(&input[..n], &mut out);
    rt.write_all(&out[..k])
}
