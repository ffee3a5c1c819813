// A row of a frame, for a row now and then; and a level's plane, for many: its rows are its pitch apart.
// First where a row lies, whether there is one, and its bytes, which are the caller's own; then the plane.
ghost use Rattle.std.specs.Prelude.{◌≡◌, length};
ghost use Rattle.settings.specs.Answers.{tested};
ghost use Rattle.layouts.specs.Storing.{part_at};
ghost use Rattle.layouts.specs.Answers.{placed};
ghost use Rattle.lookups.specs.Refusals.{row_no};
ghost use Rattle.lookups.specs.Answers.{place_answer, row_part, row_from, planed, level_plane_answer};

use layouts::levels::stored as planes;
use layouts::rows::{Run, hand_out};
use settings::refusal::{BadLent, Refusal};
use settings::super_opts::SuperOpts;
use stored::passed::Stored;

// Row y of it begins y pitches after its start, and has width bytes.
#[derive(Clone, Copy)]
pub struct Plane {
    pub start: usize,
    pub width: usize,
    pub height: usize,
    pub pitch: usize,
}

// In a frame of len bytes. Refusals 11 and 19.
fn row_within(
    stored: Stored,
    len: usize,
    level: u32,
    plane: usize,
    y: usize,
) -> Result<Run, Refusal>
    ensures { placed result ≡ place_answer stored.entry.opts stored.entry.numbers.now len level plane y }
{
    if len < stored.end() {
        return Err(Refusal::Lent(BadLent::Frame));
    }
    if stored.levels() <= level {
        return Err(Refusal::NoRow);
    }
    stored.level(level).row(plane, y)
}

// Where row y of a plane of a level lies, in a frame of len bytes. Refusals 6, 32, 11 and 19.
pub fn row_place(
    opts: SuperOpts,
    layout: &[usize],
    len: usize,
    level: u32,
    plane: usize,
    y: usize,
) -> Result<Run, Refusal>
    ensures { placed result ≡ place_answer opts layout.now len level plane y }
{
    let stored = Stored::of(opts, layout)?;
    row_within(stored, len, level, plane, y)
}

// What that row is refused with: 6, 32, 11 or 19.
pub fn row_tested(
    opts: SuperOpts,
    layout: &[usize],
    len: usize,
    level: u32,
    plane: usize,
    y: usize,
) -> Result<(), Refusal>
    ensures { tested result ≡ row_no opts layout.now len level plane y }
{
    row_place(opts, layout, len, level, plane, y)?;
    Ok(())
}

// Row y of a plane of a level: a part of the frame, empty when refused.
pub fn row<'a>(
    frame: &'a [u8],
    opts: SuperOpts,
    layout: &[usize],
    level: u32,
    plane: usize,
    y: usize,
) -> &'a [u8]
    ensures { (result.now ≡ row_part opts layout.now frame.now level plane y) × (result.ref_ptr ≡ part_at frame.entry (row_from opts layout.now (length frame.now) level plane y)) }
{
    let at = row_place(opts, layout, frame.len(), level, plane, y);
    hand_out(frame, at)
}

// In a frame of len bytes. Refusals 11 and 19.
fn plane_within(stored: Stored, len: usize, level: u32, plane: usize) -> Result<Plane, Refusal>
    ensures { planed result ≡ level_plane_answer stored.entry.opts stored.entry.numbers.now len level plane }
{
    if len < stored.end() {
        return Err(Refusal::Lent(BadLent::Frame));
    }
    if stored.levels() <= level {
        return Err(Refusal::NoRow);
    }
    let at = stored.level(level);
    let layout = at.fitting.layout;
    if planes(layout, level) <= plane {
        return Err(Refusal::NoRow);
    }
    let r = at.region;
    Ok(Plane {
        start: r.offset + plane * r.height * layout.pitch,
        width: r.width,
        height: r.height,
        pitch: layout.pitch,
    })
}

// Where a plane of a level lies, in a frame of len bytes: asked once, the caller steps from row to row. Refusals 6, 32, 11 and 19.
pub fn level_plane(
    opts: SuperOpts,
    layout: &[usize],
    len: usize,
    level: u32,
    plane: usize,
) -> Result<Plane, Refusal>
    ensures { planed result ≡ level_plane_answer opts layout.now len level plane }
{
    let stored = Stored::of(opts, layout)?;
    plane_within(stored, len, level, plane)
}
