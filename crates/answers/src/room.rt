// An answer put at the front of a lent slice, and its number: 15 where the slice is too short, which comes after 1 to 14 and before the rest.
// First the numbers of a test and of a refusal, and whether two slices are too short; last what is told put, and a layout.
ghost use Rattle.std.specs.Prelude.{◌≡◌, ltb};
ghost use Rattle.settings.specs.Answers.{answer, number, tested};
ghost use Rattle.stored.specs.Layout.{stored_of};
ghost use Rattle.answers.specs.Lent.{lowest, no_room, tells};

use crate::record::FIELDS;
use layouts::fitting::Fitting;
use settings::refusal::Refusal;
use stored::layout::{LAYOUT, fill};

// C's number where a slice is too short for what goes into it: `BadLonghand::Short` has it too.
pub const TOO_SHORT: u32 = 15;

pub fn number(t: Result<(), Refusal>) -> u32
    ensures { result ≡ tested t }
{
    match t {
        Ok(()) => 0,
        Err(f) => f.number(),
    }
}

// The number where a call refuses by f, its answer has need numbers and len are lent for it.
pub fn lowest(f: Refusal, len: usize, need: usize) -> u32
    ensures { result ≡ lowest (number f) (ltb len need) }
{
    let no = f.number();
    if no < TOO_SHORT {
        return no;
    }
    if len < need {
        return TOO_SHORT;
    }
    no
}

// A record that is read is told in two slices, its numbers and the place after it.
pub fn no_room(fields: usize, after: usize) -> bool
    ensures { result ≡ no_room fields after }
{
    (fields < FIELDS) | (after < 1)
}

pub fn put<T: Copy>(out: &mut [T], values: &[T]) -> u32
    ensures { answer result out.new ≡ tells 0 values.now out.old }
{
    if out.len() < values.len() {
        return TOO_SHORT;
    }
    // By index: with `copy_from_slice` the compiler lays two numbers beside each other in memory and reads them as one, which the processor waits for.
    for i in 0..values.len() {
        out[i] = values[i];
    }
    0
}

// A layout, made where it is told.
pub fn put_layout(out: &mut [usize], fitting: Fitting) -> u32
    ensures { answer result out.new ≡ tells 0 (stored_of fitting.layout) out.old }
{
    if out.len() < LAYOUT {
        return TOO_SHORT;
    }
    fill(&mut out[..LAYOUT], fitting);
    0
}
