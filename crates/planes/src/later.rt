// Later levels, each from the level before it or from the source plane: open-svpflow's `reduce`, and the walk over the levels.
ghost use Rattle.std.specs.Prelude.{◌≡◌, ◌≤◌, length, Some};
ghost use Rattle.filters.specs.Halve.{chosen};
ghost use Rattle.layouts.specs.Room.{Ready};
ghost use Rattle.builder.specs.Canvas.{Staged};
ghost use Rattle.planes.specs.Build.{level_by, halved_by};

use builder::canvas::Canvas;
use builder::halving::{reduce_cubic, reduce_within};
use builder::separate::reduce_separate;
use filters::halving::ReduceFilter;
use layouts::descent::Descent;
use layouts::fitting::Fitting;
use layouts::level::Later;

fn reduce(
    fuse: bool,
    filter: ReduceFilter,
    canvas: &mut Canvas,
    scratch: &mut [u8],
    later: Later,
    src: &[u8],
    src_pitch: usize,
)
    requires { Ready later.at.fitting.layout (length src.now) src_pitch (length canvas.old.frame.now) (length canvas.old.spill.now) (length scratch.old) × (1 ≤ later.at.level) }
    ensures { Staged (level_by fuse later.at.fitting.layout src.now src_pitch (length canvas.old.frame.now) filter later.at.level) canvas.old canvas.new }
{
    let layout = later.at.fitting.layout;
    let pitch = layout.pitch;
    let target = later.at.region;
    if fuse & later.fuses(canvas.frame.len()) {
        reduce_cubic(canvas.frame, scratch, later.base, pitch, target);
        return;
    }
    if layout.opts.full | (later.at.level >= 2) {
        reduce_within(filter, canvas.frame, scratch, later.base, pitch, target);
        return;
    }
    reduce_separate(filter, canvas, scratch, src, src_pitch, pitch, target);
}

fn reduce_each(
    fuse: bool,
    filter: ReduceFilter,
    canvas: &mut Canvas,
    scratch: &mut [u8],
    fitting: Fitting,
    src: &[u8],
    src_pitch: usize,
)
    requires { Ready fitting.layout (length src.now) src_pitch (length canvas.old.frame.now) (length canvas.old.spill.now) (length scratch.old) }
    ensures { Staged (halved_by fuse fitting.layout src.now src_pitch (length canvas.old.frame.now) (Some filter)) canvas.old canvas.new }
{
    let levels = fitting.layout.opts.naturals().levels;
    let mut above = Descent::top(fitting.layout);
    for level in 1..levels {
        let at = above.next();
        let later = Later {
            base: above.offset,
            at: at.here(),
        };
        reduce(fuse, filter, canvas, scratch, later, src, src_pitch);
        above = at;
    }
}

pub fn reduce_levels(
    fuse: bool,
    canvas: &mut Canvas,
    scratch: &mut [u8],
    fitting: Fitting,
    src: &[u8],
    src_pitch: usize,
)
    requires { Ready fitting.layout (length src.now) src_pitch (length canvas.old.frame.now) (length canvas.old.spill.now) (length scratch.old) }
    ensures { Staged (halved_by fuse fitting.layout src.now src_pitch (length canvas.old.frame.now) (chosen fitting.layout.opts.scale_down)) canvas.old canvas.new }
{
    let Some(filter) = ReduceFilter::from_option(fitting.layout.opts.scale_down) else {
        return;
    };
    reduce_each(fuse, filter, canvas, scratch, fitting, src, src_pitch);
}
