// A level that is there, with its region; and a later one, with where the level above it lies, which it is halved from.
// Last where a level ends; a row of one is in `rows`, and whether a later one is fused in `margins`.
ghost use Rattle.std.specs.Prelude.{◌≡◌, ◌+◌, ◌-◌, ◌<◌};
ghost use Rattle.layouts.specs.Layout.{levels_of, offset_at, region_at};

use crate::fitting::Fitting;
use crate::layout::Region;
use crate::levels::stored;

#[derive(Clone, Copy)]
pub struct Level {
    pub fitting: Fitting,
    pub level: u32,
    pub region: Region,
    pub ghost there: { level < levels_of fitting.layout },
    pub ghost lies: { region ≡ region_at fitting.layout level },
}

#[derive(Clone, Copy)]
pub struct Later {
    pub base: usize,
    pub at: Level,
    pub ghost above: { base ≡ offset_at at.fitting.layout (at.level - 1) },
}

impl Level {
    // Where it ends, and a level after it lies.
    pub fn end(self) -> usize
        ensures { result ≡ offset_at self.fitting.layout (self.level + 1) }
    {
        let layout = self.fitting.layout;
        let target = self.region;
        target.offset + stored(layout, self.level) * target.height * layout.pitch
    }
}
