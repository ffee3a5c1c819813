// All three planes of a frame, built in one call: open-svpflow's `SuperBuilder::build`.
// First the refusals, by the lengths of what is lent; then a plane in its part; then the three; last the public call.
ghost use Rattle.std.specs.Prelude.{◌≡◌, ◌≤◌, ltb, length};
ghost use Rattle.settings.specs.Limits.{most_pitch};
ghost use Rattle.settings.specs.Answers.{tested};
ghost use Rattle.layouts.specs.Layout.{width_at};
ghost use Rattle.layouts.specs.Refusals.{bad_pitch, source_need};
ghost use Rattle.layouts.specs.Room.{Ready};
ghost use Rattle.frames.specs.Parts.{plane_of, length_of, joined_end};
ghost use Rattle.frames.specs.Build.{three, lent_frame_no, build_frame_no, part_built, frame_left, FrameLeaves};

use crate::framed::Framed;
use crate::parts::plane_of;
use filters::rows::zero_row;
use layouts::levels::{bad_pitch, width};
use planes::build::build_spilled;
use settings::refusal::{BadLent, Refusal, refuse_if};
use settings::super_opts::SuperOpts;

fn bad_source_pitch(opts: SuperOpts, part: u32, pitch: usize) -> bool
    ensures { result ≡ bad_pitch pitch (width_at (plane_of opts part) 0) }
{
    bad_pitch(pitch, width(plane_of(opts, part), 0))
}

fn short_source(framed: Framed, part: u32, len: usize, pitch: usize) -> bool
    requires { pitch ≤ most_pitch }
    ensures { result ≡ ltb len (source_need (plane_of framed.opts part) pitch) }
{
    len < framed.plane(part).source_need(pitch)
}

// Refusals 10 to 13. Only accepted pitches have needs that fit.
#[tactic(auto, unfolding(crate::specs::Build::lent_frame_no))]
fn lent_tested(
    framed: Framed,
    y: usize,
    y_pitch: usize,
    u: usize,
    u_pitch: usize,
    v: usize,
    v_pitch: usize,
    frame: usize,
    spill: usize,
    scratch: usize,
) -> Result<(), Refusal>
    requires { (y_pitch ≤ most_pitch) × (u_pitch ≤ most_pitch) × (v_pitch ≤ most_pitch) }
    ensures { tested result ≡ lent_frame_no framed.opts (three y u v) (three y_pitch u_pitch v_pitch) frame spill scratch }
{
    let source = short_source(framed, 0, y, y_pitch)
        | short_source(framed, 1, u, u_pitch)
        | short_source(framed, 2, v, v_pitch);
    let parts = framed.parts();
    let needs = parts.needs;
    refuse_if(source, BadLent::Source)?;
    refuse_if(frame < parts.length, BadLent::Frame)?;
    refuse_if(spill < needs.spill, BadLent::Spill)?;
    refuse_if(scratch < needs.scratch, BadLent::Scratch)?;
    Ok(())
}

// Refusals 9 to 13.
fn build_tested(
    framed: Framed,
    y: usize,
    y_pitch: usize,
    u: usize,
    u_pitch: usize,
    v: usize,
    v_pitch: usize,
    frame: usize,
    spill: usize,
    scratch: usize,
) -> Result<(), Refusal>
    ensures { tested result ≡ build_frame_no framed.opts (three y u v) (three y_pitch u_pitch v_pitch) frame spill scratch }
{
    let opts = framed.opts;
    let bad = bad_source_pitch(opts, 0, y_pitch)
        | bad_source_pitch(opts, 1, u_pitch)
        | bad_source_pitch(opts, 2, v_pitch);
    if bad {
        return Err(Refusal::Lent(BadLent::SourcePitch));
    }
    lent_tested(
        framed, y, y_pitch, u, u_pitch, v, v_pitch, frame, spill, scratch,
    )
}

// A store past the part goes to the spill, not into the next part.
fn build_part(
    frame: &mut [u8],
    spill: &mut [u8],
    scratch: &mut [u8],
    framed: Framed,
    part: u32,
    src: &[u8],
    src_pitch: usize,
)
    requires { (part ≤ 2) × (joined_end framed.opts ≤ length frame.old) × Ready (plane_of framed.opts part) (length src.now) src_pitch (length_of framed.opts part) (length spill.old) (length scratch.old) }
    ensures { frame.new ≡ part_built framed.opts part src.now src_pitch frame.old }
{
    let own = framed.parts().part(part);
    let start = own.start;
    let end = start + own.length;
    let bytes = &mut frame[start..end];
    build_spilled(
        true,
        bytes,
        spill,
        scratch,
        framed.plane(part),
        src,
        src_pitch,
    );
}

fn build_parts(
    frame: &mut [u8],
    spill: &mut [u8],
    scratch: &mut [u8],
    framed: Framed,
    y: &[u8],
    y_pitch: usize,
    u: &[u8],
    u_pitch: usize,
    v: &[u8],
    v_pitch: usize,
)
    requires { build_frame_no framed.opts (three (length y.now) (length u.now) (length v.now)) (three y_pitch u_pitch v_pitch) (length frame.old) (length spill.old) (length scratch.old) ≡ 0 }
    ensures { frame.new ≡ frame_left framed.opts (three y.now u.now v.now) (three y_pitch u_pitch v_pitch) frame.old }
{
    build_part(frame, spill, scratch, framed, 0, y, y_pitch);
    build_part(frame, spill, scratch, framed, 1, u, u_pitch);
    build_part(frame, spill, scratch, framed, 2, v, v_pitch);
}

// Builds Y, U and V, each from a source whose rows are its pitch apart, one after the other in the frame; what was lent for it holds zeros after. Refusals 6, 23, 24, 9 to 13; all are looked for before a byte is stored.
pub fn build_frame(
    frame: &mut [u8],
    spill: &mut [u8],
    scratch: &mut [u8],
    opts: SuperOpts,
    y: &[u8],
    y_pitch: usize,
    u: &[u8],
    u_pitch: usize,
    v: &[u8],
    v_pitch: usize,
) -> Result<(), Refusal>
    ensures { FrameLeaves opts (three y.now u.now v.now) (three y_pitch u_pitch v_pitch) frame.old spill.old scratch.old (tested result) frame.new spill.new scratch.new }
{
    let framed = Framed::of(opts)?;
    build_tested(
        framed,
        y.len(),
        y_pitch,
        u.len(),
        u_pitch,
        v.len(),
        v_pitch,
        frame.len(),
        spill.len(),
        scratch.len(),
    )?;
    build_parts(
        frame, spill, scratch, framed, y, y_pitch, u, u_pitch, v, v_pitch,
    );
    zero_row(spill);
    zero_row(scratch);
    Ok(())
}
