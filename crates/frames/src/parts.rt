// The planes of a frame, Y, U and V, by the numbers 0, 1 and 2, which C gives for them: where the part of each lies.
// First a plane's layout, and the length of its part; then the refusals; then where the parts lie; last a row of one.
ghost use Rattle.std.specs.Prelude.{◌≡◌, length};
ghost use Rattle.settings.specs.Answers.{tested};
ghost use Rattle.layouts.specs.Storing.{part_at};
ghost use Rattle.layouts.specs.Answers.{placed};
ghost use Rattle.frames.specs.Parts.{plane_of, length_of, planes_no, parts_of, parted, parts_answer, place_in_answer, row_in_part, row_in_from};

use crate::framed::Framed;
use layouts::fitting::Fitting;
use layouts::layout::{Layout, Needs};
use layouts::rows::{Run, hand_out};
use settings::refusal::{BadLent, BadPlanes, Refusal, refuse_if};
use settings::super_opts::SuperOpts;

// The part of a frame that is a plane's.
#[derive(Clone, Copy)]
pub struct Part {
    pub start: usize,
    pub pitch: usize,
    pub length: usize,
}

// The three parts, how long they are together, and what a build needs beside them.
#[derive(Clone, Copy)]
pub struct Parts {
    pub y: Part,
    pub u: Part,
    pub v: Part,
    pub length: usize,
    pub needs: Needs,
}

// U and V have half the picture's sides: the pitches and shifts of `SuperFrame::view`.
pub(crate) fn plane_of(opts: SuperOpts, part: u32) -> Layout
    ensures { result ≡ plane_of opts part }
{
    let w = opts.naturals().width as usize;
    if part == 0 {
        return Layout {
            opts,
            x_shift: 0,
            y_shift: 0,
            pitch: w,
        };
    }
    Layout {
        opts,
        x_shift: 1,
        y_shift: 1,
        pitch: w / 2,
    }
}

// Refusals 6, 23 and 24.
#[tactic(auto, unfolding(crate::specs::Parts::planes_no))]
pub(crate) fn planes_tested(opts: SuperOpts) -> Result<(), Refusal>
    ensures { tested result ≡ planes_no opts }
{
    refuse_if(!opts.accepted(), Refusal::NoRecord)?;
    let n = opts.naturals();
    refuse_if((n.width < 2) | (n.height < 2), BadPlanes::Side)?;
    refuse_if(!opts.full, BadPlanes::Full)?;
    Ok(())
}

impl Framed {
    pub(crate) fn plane(self, part: u32) -> Fitting
        ensures { result.layout ≡ plane_of self.opts part }
    {
        let layout = plane_of(self.opts, part);
        Fitting { layout }
    }

    fn part_length(self, part: u32) -> usize
        ensures { result ≡ length_of self.opts part }
    {
        self.plane(part).offset(self.opts.naturals().levels)
    }

    // Two walks down the levels tell it all: V is as long as U.
    pub(crate) fn parts(self) -> Parts
        ensures { result ≡ parts_of self.opts }
    {
        let luma = self.plane(0);
        let pitch = self.plane(1).layout.pitch;
        let long = self.part_length(0);
        let short = self.part_length(1);
        Parts {
            y: Part {
                start: 0,
                pitch: luma.layout.pitch,
                length: long,
            },
            u: Part {
                start: long,
                pitch,
                length: short,
            },
            v: Part {
                start: long + short,
                pitch,
                length: short,
            },
            length: long + short + short,
            needs: Needs {
                spill: luma.spill_need(),
                scratch: luma.scratch_need(),
            },
        }
    }
}

impl Parts {
    ghost use Rattle.frames.specs.Build.{three};

    // By its number.
    pub(crate) fn part(self, part: u32) -> Part
        ensures { result ≡ three self.y self.u self.v part }
    {
        if part == 0 {
            return self.y;
        }
        if part == 1 {
            return self.u;
        }
        self.v
    }
}

// Where the planes lie, and what a build of all three needs. Refusals 6, 23, 24.
pub fn frame_parts(opts: SuperOpts) -> Result<Parts, Refusal>
    ensures { parted result ≡ parts_answer opts }
{
    let framed = Framed::of(opts)?;
    Ok(framed.parts())
}

impl Framed {
    // The row in its part, and the part in the frame. Refusals 11 and 19.
    fn place_in(
        self,
        len: usize,
        part: u32,
        level: u32,
        plane: usize,
        y: usize,
    ) -> Result<Run, Refusal>
        ensures { placed result ≡ place_in_answer self.opts len part level plane y }
    {
        let parts = self.parts();
        if len < parts.length {
            return Err(Refusal::Lent(BadLent::Frame));
        }
        if part > 2 {
            return Err(Refusal::NoRow);
        }
        let own = parts.part(part);
        let run = self.plane(part).row_in(level, plane, y)?;
        Ok(Run {
            offset: own.start + run.offset,
            length: run.length,
        })
    }
}

// Where row y of a plane of a level of a part lies, in a frame of len bytes. Refusals 6, 23, 24, 11, 19.
pub fn frame_row_place(
    opts: SuperOpts,
    len: usize,
    part: u32,
    level: u32,
    plane: usize,
    y: usize,
) -> Result<Run, Refusal>
    ensures { placed result ≡ place_in_answer opts len part level plane y }
{
    let framed = Framed::of(opts)?;
    framed.place_in(len, part, level, plane, y)
}

// That row: a part of the frame, empty when refused.
pub fn frame_row(
    frame: &[u8],
    opts: SuperOpts,
    part: u32,
    level: u32,
    plane: usize,
    y: usize,
) -> &[u8]
    ensures { (result.now ≡ row_in_part opts frame.now part level plane y) × (result.ref_ptr ≡ part_at frame.entry (row_in_from opts (length frame.now) part level plane y)) }
{
    let at = frame_row_place(opts, frame.len(), part, level, plane, y);
    hand_out(frame, at)
}
