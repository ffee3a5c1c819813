// Later levels from the level before, inside the frame: open-svpflow's `reduce` and `reduce_cubic`.
// The loops over rows here, in separate.rt and in refining.rt are one each for a kind of row: a loop for all would take the row as a closure, and ask of it all that the row's function promises.
// `reduce_within` and `reduce_cubic` are lent the frame alone, so that the laws about them (`functions_picture`) need no spill: hence rows of their own, beside those of separate.rt.
// `Within`, as `Spread` and `Planes` beside it, is one clause about lengths of slices that are lent: a type that said it would hold the slices.
// `pitch` stands beside `target`, as in the Rust: it is the layout's, one for all its regions, and the definitions take both.
// First a row of the target before and after it is halved; then the generic level; last the fused one.
ghost use Rattle.std.specs.Prelude.{◌≡◌, ◌+◌, ◌*◌, ◌-◌, ◌≤◌, ◌<◌, length, replicate};
ghost use Rattle.filters.specs.declared.halving.ReduceFilter.TheVariants.{Cubic};
ghost use Rattle.layouts.specs.Storing.{put};
ghost use Rattle.builder.specs.Halving.{whole_of, vertical_line, vertical_rows, halve_run, horizontal_rows, from_stored, fused_line, fused};
ghost use Rattle.builder.specs.Room.{Within};

use crate::canvas::{put, span, zero_run};
use crate::vertical::vertical_line;
use filters::halving::{ReduceFilter, deinterleave};
use layouts::layout::Region;

fn vertical_row(
    filter: ReduceFilter,
    frame: &mut [u8],
    scratch: &mut [u8],
    base: usize,
    pitch: usize,
    target: Region,
    y: usize,
)
    requires { Within (length frame.old) (length scratch.old) base pitch target × (y < target.height) }
    ensures { frame.new ≡ put frame.old (target.offset + y * pitch) (vertical_line filter (whole_of filter (2 * target.width)) (2 * target.width) target.height frame.old base pitch y) }
{
    let line = &mut scratch[..2 * target.width];
    vertical_line(filter, line, frame, base, pitch, target.height, y);
    put(frame, target.offset + y * pitch, line);
}

// The row at `at` of the frame, halved in its own place.
#[tactic(auto, using(crate::proofs::Halves::halve_lent))]
fn halve_row(filter: ReduceFilter, frame: &mut [u8], scratch: &mut [u8], at: usize, w: usize)
    requires { (1 ≤ w) × (at + 2 * w ≤ length frame.old) × (2 * w + 2 ≤ length scratch.old) }
    ensures { frame.new ≡ halve_run filter w at frame.old }
{
    deinterleave(scratch, span(frame, at, 2 * w), w);
    filter.reduce_row(&mut frame[at..at + w], scratch);
}

// The row halved, and zeros after its vertical values up to `end`: none after a generic row, the margin after a fused one.
fn finish_row(
    filter: ReduceFilter,
    frame: &mut [u8],
    scratch: &mut [u8],
    at: usize,
    w: usize,
    end: usize,
)
    requires { (1 ≤ w) × (at + 2 * w ≤ end) × (end ≤ length frame.old) × (2 * w + 2 ≤ length scratch.old) }
    ensures { frame.new ≡ put (halve_run filter w at frame.old) (at + 2 * w) (replicate (end - (at + 2 * w)) 0) }
{
    halve_row(filter, frame, scratch, at, w);
    zero_run(frame, at + 2 * w, end);
}

#[tactic(auto, using(layouts::proofs::Loops::walked_whole), unfolding(crate::specs::Halving::vertical_rows))]
fn vertical_rows(
    filter: ReduceFilter,
    frame: &mut [u8],
    scratch: &mut [u8],
    base: usize,
    pitch: usize,
    target: Region,
)
    requires { Within (length frame.old) (length scratch.old) base pitch target }
    ensures { frame.new ≡ vertical_rows filter (λ d. d) base pitch target pitch frame.old }
{
    for y in 0..target.height {
        vertical_row(filter, frame, scratch, base, pitch, target, y);
    }
}

#[tactic(auto, using(layouts::proofs::Loops::walked_whole), unfolding(crate::specs::Halving::horizontal_rows))]
fn horizontal_rows(
    filter: ReduceFilter,
    frame: &mut [u8],
    scratch: &mut [u8],
    pitch: usize,
    target: Region,
)
    requires { (1 ≤ target.width) × (2 * target.width ≤ pitch) × (target.offset + target.height * pitch ≤ length frame.old) × (2 * target.width + 2 ≤ length scratch.old) }
    ensures { frame.new ≡ horizontal_rows filter target pitch frame.old }
{
    for y in 0..target.height {
        let at = target.offset + y * pitch;
        let w = target.width;
        finish_row(filter, frame, scratch, at, w, at + 2 * w);
    }
}

#[tactic(auto, unfolding(crate::specs::Halving::from_stored))]
pub fn reduce_within(
    filter: ReduceFilter,
    frame: &mut [u8],
    scratch: &mut [u8],
    base: usize,
    pitch: usize,
    target: Region,
)
    requires { Within (length frame.old) (length scratch.old) base pitch target }
    ensures { frame.new ≡ from_stored filter base pitch target frame.old }
{
    vertical_rows(filter, frame, scratch, base, pitch, target);
    horizontal_rows(filter, frame, scratch, pitch, target);
}

fn fused_row(
    frame: &mut [u8],
    scratch: &mut [u8],
    base: usize,
    pitch: usize,
    target: Region,
    y: usize,
)
    requires { Within (length frame.old) (length scratch.old) base pitch target × (y < target.height) }
    ensures { frame.new ≡ put frame.old (target.offset + y * pitch) (fused_line pitch target.width (vertical_line Cubic (whole_of Cubic (2 * target.width)) (2 * target.width) target.height frame.old base pitch y)) }
{
    vertical_row(ReduceFilter::Cubic, frame, scratch, base, pitch, target, y);
    let at = target.offset + y * pitch;
    finish_row(
        ReduceFilter::Cubic,
        frame,
        scratch,
        at,
        target.width,
        at + pitch,
    );
}

#[tactic(auto, using(layouts::proofs::Loops::walked_whole), unfolding(crate::specs::Halving::fused))]
pub fn reduce_cubic(frame: &mut [u8], scratch: &mut [u8], base: usize, pitch: usize, target: Region)
    requires { Within (length frame.old) (length scratch.old) base pitch target × (whole_of Cubic (2 * target.width) ≡ 2 * target.width) }
    ensures { frame.new ≡ fused base pitch target frame.old }
{
    for y in 0..target.height {
        fused_row(frame, scratch, base, pitch, target, y);
    }
}
