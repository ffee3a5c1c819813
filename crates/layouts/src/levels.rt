// A plane's levels by their numbers: what the calls are made of.
// A level's width, height and planes; refusals 6, 7 and 8; offsets. Only an accepted layout has offsets that fit.
ghost use Rattle.std.specs.Prelude.{◌≡◌, ◌/◌, ◌^◌, ◌≤◌};
ghost use Rattle.settings.specs.Limits.{most_levels};
ghost use Rattle.settings.specs.Answers.{tested};
ghost use Rattle.layouts.specs.Layout.{width_at, height_at, stored_at, offset_at};
ghost use Rattle.layouts.specs.Refusals.{least_pitch, bad_pitch, layout_no};

use crate::descent::Descent;
use crate::fitting::Fitting;
use crate::layout::Layout;
use settings::limits::MOST_PITCH;
use settings::refusal::{BadLayout, Refusal, refuse_if};
use settings::super_opts::reduce_dim;

// By any shift.
fn shifted(n: u32, shift: u32) -> u32
    ensures { result ≡ n / 2 ^ shift }
{
    if shift < 32 {
        return n >> shift;
    }
    0
}

pub fn bad_pitch(pitch: usize, least: usize) -> bool
    ensures { result ≡ bad_pitch pitch least }
{
    (pitch < 1) | (pitch < least) | (pitch > MOST_PITCH)
}

pub fn width(layout: Layout, level: u32) -> usize
    ensures { result ≡ width_at layout level }
{
    let n = layout.opts.naturals();
    shifted(reduce_dim(n.width, level), layout.x_shift) as usize
}

pub fn height(layout: Layout, level: u32) -> usize
    ensures { result ≡ height_at layout level }
{
    let n = layout.opts.naturals();
    shifted(reduce_dim(n.height, level), layout.y_shift) as usize
}

// The planes that a level keeps.
pub fn stored(layout: Layout, level: u32) -> usize
    ensures { result ≡ stored_at layout level }
{
    if level != 0 {
        return 1;
    }
    if !layout.opts.full {
        return 0;
    }
    let n = layout.opts.naturals();
    n.pel as usize * n.pel as usize
}

// Level 1's width counts where level 0 isn't stored, even if there is no level 1.
pub fn least_pitch(layout: Layout) -> usize
    ensures { result ≡ least_pitch layout }
{
    if layout.opts.full {
        return width(layout, 0);
    }
    width(layout, 1)
}

// Refusals 6, 7 and 8.
#[tactic(auto, unfolding(crate::specs::Refusals::layout_no))]
pub fn tested(layout: Layout) -> Result<(), Refusal>
    ensures { tested result ≡ layout_no layout }
{
    refuse_if(!layout.opts.accepted(), Refusal::NoRecord)?;
    refuse_if(
        (layout.x_shift > 1) | (layout.y_shift > 1),
        BadLayout::Shift,
    )?;
    let least = least_pitch(layout);
    refuse_if(bad_pitch(layout.pitch, least), BadLayout::Pitch)?;
    Ok(())
}

impl Fitting {
    // Where a level lies; at the count of levels, where the last one ends.
    pub fn offset(self, level: u32) -> usize
        requires { level ≤ most_levels }
        ensures { result ≡ offset_at self.layout level }
    {
        Descent::top(self.layout).down(level).offset
    }
}
