// A walk down a plane's levels, which carries what it has reached: each level's size and place come from those of the level above, and none is reduced from the full size again.
// First where it starts; then one level further, and down to a level; last the region of the level that it has reached, and that level where there is one.
ghost use Rattle.std.specs.Prelude.{◌≡◌, ◌+◌, ◌≤◌, ◌<◌};
ghost use Rattle.settings.specs.Limits.{most_levels};
ghost use Rattle.settings.specs.Sizes.{reduced};
ghost use Rattle.settings.specs.Check.{luma_w, luma_h};
ghost use Rattle.layouts.specs.Layout.{levels_of, offset_at, region_at};
ghost use Rattle.layouts.specs.Refusals.{layout_no};

use crate::fitting::Fitting;
use crate::layout::{Layout, Region};
use crate::level::Level;
use crate::levels::stored;
use settings::super_opts::reduce_once;

// Where a level lies, and the picture's sides, reduced so often. At the count of levels it is where the last one ends.
// It starts in any layout; only of one that isn't refused do the next places fit, and can the sides be shifted.
#[derive(Clone, Copy)]
pub struct Descent {
    pub layout: Layout,
    pub level: u32,
    pub offset: usize,
    pub width: u32,
    pub height: u32,
    pub ghost place: { offset ≡ offset_at layout level },
    pub ghost sides: { (width ≡ reduced (luma_w layout.opts) level) × (height ≡ reduced (luma_h layout.opts) level) },
}

impl Descent {
    pub fn top(layout: Layout) -> Descent
        ensures { (result.layout ≡ layout) × (result.level ≡ 0) }
    {
        let n = layout.opts.naturals();
        Descent {
            layout,
            level: 0,
            offset: 0,
            width: n.width,
            height: n.height,
        }
    }

    pub fn next(self) -> Descent
        requires { (layout_no self.layout ≡ 0) × (self.level < most_levels) }
        ensures { (result.layout ≡ self.layout) × (result.level ≡ self.level + 1) }
    {
        let layout = self.layout;
        let above = self.height;
        let below = reduce_once(above);
        let rows = stored(layout, self.level) * (above >> layout.y_shift) as usize;
        Descent {
            layout,
            level: self.level + 1,
            offset: self.offset + rows * layout.pitch,
            width: reduce_once(self.width),
            height: below,
        }
    }

    pub fn down(self, to: u32) -> Descent
        requires { (layout_no self.layout ≡ 0) × (self.level ≤ to) × (to ≤ most_levels) }
        ensures { (result.layout ≡ self.layout) × (result.level ≡ to) }
    {
        let mut at = self;
        while at.level < to {
            at = at.next();
        }
        at
    }

    pub fn region(self) -> Region
        requires { layout_no self.layout ≡ 0 }
        ensures { result ≡ region_at self.layout self.level }
    {
        let layout = self.layout;
        Region {
            offset: self.offset,
            width: (self.width >> layout.x_shift) as usize,
            height: (self.height >> layout.y_shift) as usize,
        }
    }

    pub fn here(self) -> Level
        requires { (layout_no self.layout ≡ 0) × (self.level < levels_of self.layout) }
        ensures { (result.fitting.layout ≡ self.layout) × (result.level ≡ self.level) }
    {
        let layout = self.layout;
        Level {
            fitting: Fitting { layout },
            level: self.level,
            region: self.region(),
        }
    }
}
