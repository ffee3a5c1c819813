// Level 1 from the source plane, where level 0 isn't stored: open-svpflow's `reduce` with a `Source::Separate`, its rows first 2 * pitch apart in frame and spill.
// First the vertical rows; then the halved rows; then the rows close up; last the level. The source's rows lie src_pitch apart.
ghost use Rattle.std.specs.Prelude.{◌+◌, ◌*◌, ◌≤◌, ◌<◌, length};
ghost use Rattle.settings.specs.Limits.{most_side};
ghost use Rattle.filters.specs.Halve.{headed};
ghost use Rattle.filters.specs.Inner.{Apart};
ghost use Rattle.layouts.specs.Storing.{put};
ghost use Rattle.builder.specs.Canvas.{fetch, copy_run, bytes_of, Staged};
ghost use Rattle.builder.specs.Halving.{whole_of, vertical_line, vertical_rows, halve_run, horizontal_rows, close_up, from_source};
ghost use Rattle.builder.specs.Room.{Spread};

use crate::canvas::{Canvas, window};
use crate::vertical::vertical_line;
use filters::halving::{ReduceFilter, deinterleave};
use layouts::layout::Region;
use settings::limits::MOST_SIDE;

// The most bytes of a row taken apart, 2 more than those of the row: twice level 1's width is at most the width of the widest picture.
const MOST_SPLIT: usize = MOST_SIDE as usize + 2;

fn spread_vertical_row(
    filter: ReduceFilter,
    canvas: &mut Canvas,
    scratch: &mut [u8],
    src: &[u8],
    src_pitch: usize,
    pitch: usize,
    target: Region,
    y: usize,
)
    requires { Spread (length src.now) src_pitch (length canvas.old.frame.now) (length canvas.old.spill.now) (length scratch.old) pitch target × (y < target.height) }
    ensures { Staged (λ c. put c (target.offset + y * (2 * pitch)) (vertical_line filter (whole_of filter (2 * target.width)) (2 * target.width) target.height src.now 0 src_pitch y)) canvas.old canvas.new }
{
    let line = &mut scratch[..2 * target.width];
    vertical_line(filter, line, src, 0, src_pitch, target.height, y);
    canvas.store(target.offset + y * (2 * pitch), line);
}

#[tactic(auto, using(crate::proofs::Runs::passed_whole), unfolding(crate::specs::Halving::vertical_rows))]
fn spread_vertical(
    filter: ReduceFilter,
    canvas: &mut Canvas,
    scratch: &mut [u8],
    src: &[u8],
    src_pitch: usize,
    pitch: usize,
    target: Region,
)
    requires { Spread (length src.now) src_pitch (length canvas.old.frame.now) (length canvas.old.spill.now) (length scratch.old) pitch target }
    ensures { Staged (vertical_rows filter (λ d. src.now) 0 src_pitch target (2 * pitch)) canvas.old canvas.new }
{
    for y in 0..target.height {
        spread_vertical_row(filter, canvas, scratch, src, src_pitch, pitch, target, y);
    }
}

// The 2 * w bytes at `at`, taken apart: from the frame or, where they leave it, through scratch.
fn take_row(split: &mut [u8], canvas: &Canvas, scratch: &mut [u8], at: usize, w: usize)
    requires { (1 ≤ w) × (2 * w ≤ length scratch.old) × (2 * w + 2 ≤ length split.old) }
    ensures { Apart w w (headed (fetch (bytes_of canvas.now) at (2 * w))) split.new }
{
    let row = window(canvas.frame, canvas.spill, scratch, at, 2 * w);
    deinterleave(split, row, w);
}

#[tactic(auto, using(crate::proofs::Spreads::half_line, crate::proofs::Spreads::halved_run))]
fn spread_halve_row(
    filter: ReduceFilter,
    canvas: &mut Canvas,
    scratch: &mut [u8],
    split: &mut [u8],
    at: usize,
    w: usize,
)
    requires { (1 ≤ w) × (at + w ≤ length canvas.old.frame.now + length canvas.old.spill.now) × (2 * w ≤ length scratch.old) × (2 * w + 2 ≤ length split.old) }
    ensures { Staged (halve_run filter w at) canvas.old canvas.new }
{
    take_row(split, canvas, scratch, at, w);
    let row = &mut scratch[..w];
    filter.reduce_row(row, split);
    canvas.store(at, row);
}

#[tactic(auto, using(crate::proofs::Runs::passed_whole), unfolding(crate::specs::Halving::horizontal_rows))]
fn spread_horizontal(
    filter: ReduceFilter,
    canvas: &mut Canvas,
    scratch: &mut [u8],
    split: &mut [u8],
    pitch: usize,
    target: Region,
)
    requires { (1 ≤ target.width) × (target.width ≤ pitch) × (2 * pitch ≤ length scratch.old) × (2 * target.width + 2 ≤ length split.old) × (target.offset + target.height * (2 * pitch) ≤ length canvas.old.frame.now + length canvas.old.spill.now) }
    ensures { Staged (horizontal_rows filter target (2 * pitch)) canvas.old canvas.new }
{
    for y in 0..target.height {
        let at = target.offset + y * (2 * pitch);
        spread_halve_row(filter, canvas, scratch, split, at, target.width);
    }
}

// Scratch holds the window of a row that leaves the frame, so that the row taken apart needs room of its own.
fn spread_halves(
    filter: ReduceFilter,
    canvas: &mut Canvas,
    scratch: &mut [u8],
    pitch: usize,
    target: Region,
)
    requires { (1 ≤ target.width) × (target.width ≤ pitch) × (2 * pitch ≤ length scratch.old) × (2 * target.width ≤ most_side) × (target.offset + target.height * (2 * pitch) ≤ length canvas.old.frame.now + length canvas.old.spill.now) }
    ensures { Staged (horizontal_rows filter target (2 * pitch)) canvas.old canvas.new }
{
    let mut split = [0u8; MOST_SPLIT];
    spread_horizontal(filter, canvas, scratch, &mut split, pitch, target);
}

// A line of n bytes, moved.
#[tactic(auto, unfolding(crate::specs::Canvas::copy_run))]
fn close_row(canvas: &mut Canvas, scratch: &mut [u8], from: usize, to: usize, n: usize)
    requires { (n ≤ length scratch.old) × (to + n ≤ length canvas.old.frame.now + length canvas.old.spill.now) }
    ensures { Staged (copy_run from to n) canvas.old canvas.new }
{
    let line = &mut scratch[..n];
    canvas.fetch(line, from);
    canvas.store(to, line);
}

#[tactic(auto, using(crate::proofs::Runs::passed_whole), unfolding(crate::specs::Halving::close_up))]
fn close_up(canvas: &mut Canvas, scratch: &mut [u8], pitch: usize, target: Region)
    requires { (pitch ≤ length scratch.old) × (target.offset + target.height * (2 * pitch) ≤ length canvas.old.frame.now + length canvas.old.spill.now) }
    ensures { Staged (close_up target.offset pitch target.height) canvas.old canvas.new }
{
    for y in 1..target.height {
        let from = target.offset + y * (2 * pitch);
        let to = target.offset + y * pitch;
        close_row(canvas, scratch, from, to, pitch);
    }
}

#[tactic(auto, unfolding(crate::specs::Halving::from_source))]
pub fn reduce_separate(
    filter: ReduceFilter,
    canvas: &mut Canvas,
    scratch: &mut [u8],
    src: &[u8],
    src_pitch: usize,
    pitch: usize,
    target: Region,
)
    requires { Spread (length src.now) src_pitch (length canvas.old.frame.now) (length canvas.old.spill.now) (length scratch.old) pitch target }
    ensures { Staged (from_source filter src.now src_pitch pitch target) canvas.old canvas.new }
{
    spread_vertical(filter, canvas, scratch, src, src_pitch, pitch, target);
    spread_halves(filter, canvas, scratch, pitch, target);
    close_up(canvas, scratch, pitch, target);
}
