// A row of a frame: where it lies, or that there is none, and its bytes, which are the caller's own.
ghost use Rattle.std.specs.Prelude.{◌≡◌, ◌+◌, ◌≤◌, length, take, drop};
ghost use Rattle.settings.specs.Numbers.{refuse};
ghost use Rattle.settings.specs.Answers.{if_done};
ghost use Rattle.layouts.specs.Storing.{part_at};
ghost use Rattle.layouts.specs.Refusals.{no_row};
ghost use Rattle.layouts.specs.Answers.{placed, run_of, no_run};

use crate::descent::Descent;
use crate::fitting::Fitting;
use crate::level::Level;
use crate::levels::stored;
use settings::refusal::Refusal;

// A run of bytes in a frame.
#[derive(Clone, Copy)]
pub struct Run {
    pub offset: usize,
    pub length: usize,
}

impl Level {
    // Row y of a plane. Refusal 19.
    pub fn row(self, plane: usize, y: usize) -> Result<Run, Refusal>
        ensures { placed result ≡ if_done (refuse (no_row self.fitting.layout self.level plane y) 19) (run_of self.fitting.layout self.level plane y) no_run }
    {
        let layout = self.fitting.layout;
        let target = self.region;
        if (stored(layout, self.level) <= plane) | (target.height <= y) {
            return Err(Refusal::NoRow);
        }
        Ok(Run {
            offset: target.offset + (plane * target.height + y) * layout.pitch,
            length: target.width,
        })
    }
}

impl Fitting {
    // Row y of a plane of a level, in a frame that is long enough. A level that isn't there is told first: no walk reaches it. Refusal 19.
    pub fn row_in(self, level: u32, plane: usize, y: usize) -> Result<Run, Refusal>
        ensures { placed result ≡ if_done (refuse (no_row self.layout level plane y) 19) (run_of self.layout level plane y) no_run }
    {
        if self.layout.opts.naturals().levels <= level {
            return Err(Refusal::NoRow);
        }
        Descent::top(self.layout).down(level).here().row(plane, y)
    }
}

// The frame's own bytes where an answer says that they lie, none where it is refused.
pub fn hand_out(frame: &[u8], at: Result<Run, Refusal>) -> &[u8]
    requires { (placed at).value.offset + (placed at).value.length ≤ length frame.now }
    ensures { (result.now ≡ take (placed at).value.length (drop (placed at).value.offset frame.now)) × (result.ref_ptr ≡ part_at frame.entry (placed at).value.offset) }
{
    match at {
        Ok(run) => &frame[run.offset..run.offset + run.length],
        Err(_) => &frame[..0],
    }
}
