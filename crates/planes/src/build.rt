// A plane of a frame, built whole: open-svpflow's `build_plane`.
// `src` and `src_pitch` stay two parameters, as C lends them: of a struct each clause would say `rows.entry.src.now` for `src.now`.
// First level 0; then the refining of it; then all stages; last the call with a switch for the fused path, and the public one.
ghost use Rattle.std.specs.Prelude.{◌≡◌, cond, ◌≤◌, length};
ghost use Rattle.settings.specs.Answers.{tested};
ghost use Rattle.layouts.specs.Layout.{levels_of, written_end, spill_need, scratch_need};
ghost use Rattle.layouts.specs.Room.{Ready};
ghost use Rattle.builder.specs.Canvas.{Staged};
ghost use Rattle.planes.specs.Build.{copied, refined, built_by, frame_by, LeavesBy, BuildLeaves};

use crate::later::reduce_levels;
use crate::level0::source_row;
use builder::canvas::{Canvas, put};
use builder::refining::{Interp, refine};
use filters::half_pel::HalfPel;
use filters::rows::zero_row;
use layouts::fitting::Fitting;
use layouts::layout::Layout;
use layouts::levels::{height, width};
use lookups::lent::build_tested;
use settings::refusal::Refusal;
use settings::super_opts::SuperOpts;
use stored::passed::Stored;

// Level 0, where it is stored: the source plane's rows, src_pitch apart.
fn copy_rows(frame: &mut [u8], layout: Layout, src: &[u8], src_pitch: usize)
    requires { (1 ≤ levels_of layout) × (Ready layout (length src.now) src_pitch (length frame.old) (spill_need layout) (scratch_need layout)) }
    ensures { frame.new ≡ cond layout.opts.full (copied layout src.now src_pitch frame.old) frame.old }
{
    if !layout.opts.full {
        return;
    }
    let w = width(layout, 0);
    let h = height(layout, 0);
    for y in 0..h {
        put(frame, y * layout.pitch, source_row(src, src_pitch, w, h, y));
    }
}

// Whether level 0's planes are refined, and the refining.
fn refine_planes(canvas: &mut Canvas, scratch: &mut [u8], fitting: Fitting)
    requires { (1 ≤ levels_of fitting.layout) × (written_end fitting.layout ≤ length canvas.old.frame.now) × (spill_need fitting.layout ≤ length canvas.old.spill.now) × (scratch_need fitting.layout ≤ length scratch.old) }
    ensures { Staged (refined fitting.layout) canvas.old canvas.new }
{
    let layout = fitting.layout;
    let opts = layout.opts;
    let n = opts.naturals();
    let refines = (n.pel > 1) & (n.gpu < 2) & opts.full;
    if !refines {
        return;
    }
    let i = Interp {
        pitch: layout.pitch,
        width: width(layout, 0),
        height: height(layout, 0),
    };
    let upscale = HalfPel::from_option(opts.scale_up);
    refine(canvas, scratch, i, n.pel, upscale);
}

fn build_levels(
    fuse: bool,
    canvas: &mut Canvas,
    scratch: &mut [u8],
    fitting: Fitting,
    src: &[u8],
    src_pitch: usize,
)
    requires { Ready fitting.layout (length src.now) src_pitch (length canvas.old.frame.now) (length canvas.old.spill.now) (length scratch.old) }
    ensures { Staged (built_by fuse fitting.layout src.now src_pitch (length canvas.old.frame.now)) canvas.old canvas.new }
{
    if fitting.layout.opts.naturals().levels == 0 {
        return;
    }
    copy_rows(canvas.frame, fitting.layout, src, src_pitch);
    reduce_levels(fuse, canvas, scratch, fitting, src, src_pitch);
    refine_planes(canvas, scratch, fitting);
}

// The build itself, for calls that have tested what they are lent. As much of the spill as it may read holds zeros before.
pub fn build_spilled(
    fuse: bool,
    frame: &mut [u8],
    spill: &mut [u8],
    scratch: &mut [u8],
    fitting: Fitting,
    src: &[u8],
    src_pitch: usize,
)
    requires { Ready fitting.layout (length src.now) src_pitch (length frame.old) (length spill.old) (length scratch.old) }
    ensures { frame.new ≡ frame_by fuse fitting.layout src.now src_pitch frame.old }
{
    let need = fitting.spill_need();
    let beyond = &mut spill[..need];
    zero_row(beyond);
    let mut canvas = Canvas {
        frame,
        spill: beyond,
    };
    build_levels(fuse, &mut canvas, scratch, fitting, src, src_pitch);
}

// For a site that turned the fused path off and asks what it may compare: the comparison with the Rust runs both with the path off.
pub fn build_plane_by(
    fuse: bool,
    frame: &mut [u8],
    spill: &mut [u8],
    scratch: &mut [u8],
    opts: SuperOpts,
    layout: &[usize],
    src: &[u8],
    src_pitch: usize,
) -> Result<(), Refusal>
    ensures { LeavesBy fuse opts layout.now src.now src_pitch frame.old spill.old scratch.old (tested result) frame.new spill.new scratch.new }
{
    build_tested(
        opts,
        layout,
        src.len(),
        src_pitch,
        frame.len(),
        spill.len(),
        scratch.len(),
    )?;
    let stored = Stored {
        opts,
        numbers: layout,
    };
    build_spilled(fuse, frame, spill, scratch, stored.layout(), src, src_pitch);
    zero_row(spill);
    zero_row(scratch);
    Ok(())
}

// Builds a plane's levels from the source plane, its rows src_pitch apart; what was lent for it holds zeros after. Refusals 6, 32, 9 to 13.
pub fn build_plane(
    frame: &mut [u8],
    spill: &mut [u8],
    scratch: &mut [u8],
    opts: SuperOpts,
    layout: &[usize],
    src: &[u8],
    src_pitch: usize,
) -> Result<(), Refusal>
    ensures { BuildLeaves opts layout.now src.now src_pitch frame.old spill.old scratch.old (tested result) frame.new spill.new scratch.new }
{
    build_plane_by(true, frame, spill, scratch, opts, layout, src, src_pitch)
}
