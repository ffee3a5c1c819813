// A plane of a frame: its layout, made and changed; where its levels end, what a build needs, clearing margins, where a row and a level's plane lie, and the build.
ghost use Rattle.std.specs.Prelude.{◌≡◌};
ghost use Rattle.settings.specs.Answers.{answer};
ghost use Rattle.lookups.specs.Answers.{clear_answer};
ghost use Rattle.planes.specs.Build.{BuildLeaves};
ghost use Rattle.answers.specs.Fields.{record_of};
ghost use Rattle.exports.specs.Calls.{layout_of, layout_tells, change_tells, end_tells, needs_tells, row_tells, plane_tells};

use answers::record::record_of;
use answers::room::{lowest, number, put, put_layout};
use answers::sizes::{NEEDS, PLANE, need_numbers, plane_numbers};
use layouts::fitting::Fitting;
use layouts::layout::Layout;
use lookups::ends;
use lookups::margins::clear_margins;
use lookups::rows::{level_plane, row_place};
use planes::build::build_plane;
use stored::layout::{LAYOUT, change};

fn layout_of(fields: &[i32], x_shift: u32, y_shift: u32, pitch: usize) -> Layout
    ensures { result ≡ layout_of fields.now x_shift y_shift pitch }
{
    Layout {
        opts: record_of(fields),
        x_shift,
        y_shift,
        pitch,
    }
}

// Tells the layout. Refusals 6, 7, 8, 15.
#[unsafe(no_mangle)]
pub extern "C" fn sill_layout(
    fields: &[i32],
    x_shift: u32,
    y_shift: u32,
    pitch: usize,
    layout: &mut [usize],
) -> u32
    ensures { answer result layout.new ≡ layout_tells (layout_of fields.now x_shift y_shift pitch) layout.old }
{
    let q = layout_of(fields, x_shift, y_shift, pitch);
    match Fitting::of(q) {
        Ok(fitting) => put_layout(layout, fitting),
        Err(f) => lowest(f, layout.len(), LAYOUT),
    }
}

// Changes the layout in its own slice. Refusals 6, 32, 7, 8.
#[unsafe(no_mangle)]
pub extern "C" fn sill_layout_change(
    fields: &[i32],
    layout: &mut [usize],
    x_shift: u32,
    y_shift: u32,
    pitch: usize,
) -> u32
    ensures { answer result layout.new ≡ change_tells (record_of fields.now) x_shift y_shift pitch layout.old }
{
    match change(record_of(fields), layout, x_shift, y_shift, pitch) {
        Ok(made) => put(layout, &made),
        Err(f) => f.number(),
    }
}

// Tells the written end. Refusals 6, 15, 32.
#[unsafe(no_mangle)]
pub extern "C" fn sill_written_end(fields: &[i32], layout: &[usize], end: &mut [usize]) -> u32
    ensures { answer result end.new ≡ end_tells (record_of fields.now) layout.now end.old }
{
    match ends::written_end(record_of(fields), layout) {
        Ok(n) => put(end, &[n]),
        Err(f) => lowest(f, end.len(), 1),
    }
}

// Tells the bytes that a build needs of spill, then of scratch. Refusals 6, 15, 32.
#[unsafe(no_mangle)]
pub extern "C" fn sill_needs(fields: &[i32], layout: &[usize], needs: &mut [usize]) -> u32
    ensures { answer result needs.new ≡ needs_tells (record_of fields.now) layout.now needs.old }
{
    match ends::needs(record_of(fields), layout) {
        Ok(n) => put(needs, &need_numbers(n)),
        Err(f) => lowest(f, needs.len(), NEEDS),
    }
}

// Refusals 6, 32, 11.
#[unsafe(no_mangle)]
pub extern "C" fn sill_clear_margins(frame: &mut [u8], fields: &[i32], layout: &[usize]) -> u32
    ensures { answer result frame.new ≡ clear_answer (record_of fields.now) layout.now frame.old }
{
    number(clear_margins(frame, record_of(fields), layout))
}

// Tells the offset and the length of a row, in a frame of so many bytes. Refusals 6, 32, 11, 19, and 15.
#[unsafe(no_mangle)]
pub extern "C" fn sill_row(
    frame: usize,
    fields: &[i32],
    layout: &[usize],
    level: u32,
    plane: usize,
    y: usize,
    place: &mut [usize],
) -> u32
    ensures { answer result place.new ≡ row_tells (record_of fields.now) layout.now frame level plane y place.old }
{
    match row_place(record_of(fields), layout, frame, level, plane, y) {
        Ok(run) => put(place, &[run.offset, run.length]),
        Err(f) => lowest(f, place.len(), 2),
    }
}

// Tells the start, the width, the height and the pitch of a level's plane, in a frame of so many bytes. Refusals 6, 32, 11, 19, and 15.
#[unsafe(no_mangle)]
pub extern "C" fn sill_level_plane(
    frame: usize,
    fields: &[i32],
    layout: &[usize],
    level: u32,
    plane: usize,
    place: &mut [usize],
) -> u32
    ensures { answer result place.new ≡ plane_tells (record_of fields.now) layout.now frame level plane place.old }
{
    match level_plane(record_of(fields), layout, frame, level, plane) {
        Ok(p) => put(place, &plane_numbers(p)),
        Err(f) => lowest(f, place.len(), PLANE),
    }
}

// Refusals 6, 32, 9 to 13.
#[unsafe(no_mangle)]
pub extern "C" fn sill_build_plane(
    frame: &mut [u8],
    spill: &mut [u8],
    scratch: &mut [u8],
    fields: &[i32],
    layout: &[usize],
    src: &[u8],
    src_pitch: usize,
) -> u32
    ensures { BuildLeaves (record_of fields.now) layout.now src.now src_pitch frame.old spill.old scratch.old result frame.new spill.new scratch.new }
{
    let opts = record_of(fields);
    number(build_plane(frame, spill, scratch, opts, layout, src, src_pitch))
}
