// All three planes of a frame: where they lie, a row of one, and the build.
ghost use Rattle.std.specs.Prelude.{◌≡◌};
ghost use Rattle.settings.specs.Answers.{answer};
ghost use Rattle.frames.specs.Build.{three, FrameLeaves};
ghost use Rattle.answers.specs.Fields.{record_of};
ghost use Rattle.exports.specs.Calls.{parts_tells, row_in_tells};

use answers::record::record_of;
use answers::room::{lowest, number, put};
use answers::sizes::{PARTS, parts_numbers};
use frames::build::build_frame;
use frames::parts::{frame_parts, frame_row_place};

// Tells of Y, U and V where its part starts, its pitch and its length, then the length of all three, then the bytes that a build needs of spill and of scratch. Refusals 6, 15, 23, 24.
#[unsafe(no_mangle)]
pub extern "C" fn sill_frame_parts(fields: &[i32], parts: &mut [usize]) -> u32
    ensures { answer result parts.new ≡ parts_tells (record_of fields.now) parts.old }
{
    let opts = record_of(fields);
    match frame_parts(opts) {
        Ok(p) => put(parts, &parts_numbers(p)),
        Err(f) => lowest(f, parts.len(), PARTS),
    }
}

// Tells the offset and the length of a row of a part, in a frame of so many bytes. Refusals 6, 11, 15, 19, 23, 24.
#[unsafe(no_mangle)]
pub extern "C" fn sill_frame_row(
    frame: usize,
    fields: &[i32],
    part: u32,
    level: u32,
    plane: usize,
    y: usize,
    place: &mut [usize],
) -> u32
    ensures { answer result place.new ≡ row_in_tells (record_of fields.now) frame part level plane y place.old }
{
    let opts = record_of(fields);
    match frame_row_place(opts, frame, part, level, plane, y) {
        Ok(run) => put(place, &[run.offset, run.length]),
        Err(f) => lowest(f, place.len(), 2),
    }
}

// Refusals 6, 9 to 13, 23, 24.
#[unsafe(no_mangle)]
pub extern "C" fn sill_build_frame(
    frame: &mut [u8],
    spill: &mut [u8],
    scratch: &mut [u8],
    fields: &[i32],
    y: &[u8],
    y_pitch: usize,
    u: &[u8],
    u_pitch: usize,
    v: &[u8],
    v_pitch: usize,
) -> u32
    ensures { FrameLeaves (record_of fields.now) (three y.now u.now v.now) (three y_pitch u_pitch v_pitch) frame.old spill.old scratch.old result frame.new spill.new scratch.new }
{
    let opts = record_of(fields);
    number(build_frame(
        frame, spill, scratch, opts, y, y_pitch, u, u_pitch, v, v_pitch,
    ))
}
