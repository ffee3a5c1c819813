// The margins of a frame's levels, from the width to the pitch: open-svpflow's `clear_margins` and `cubic_fits`, their names kept.
// First when the fused cubic fits, and the rows of a region cleared; then which levels are fused, and a level's margins.
ghost use Rattle.std.specs.Prelude.{◌≡◌, ◌+◌, ◌*◌, ◌-◌, ◌≤◌, length};
ghost use Rattle.settings.specs.Limits.{most_side, most_pitch};
ghost use Rattle.layouts.specs.Layout.{written_end};
ghost use Rattle.layouts.specs.Margins.{cubic_fits, fused_at, clear_rows, clear_level};
ghost use Rattle.layouts.specs.Room.{most_offset};

use crate::layout::Region;
use crate::level::Later;
use filters::rows::zero_row;

// Whether the fused cubic has room between its source, at base, and the frame's end.
fn cubic_fits(base: usize, pitch: usize, target: Region, len: usize) -> bool
    requires { (base ≤ most_offset) × (pitch ≤ most_pitch) × (target.offset ≤ most_offset) × (target.width ≤ most_side) × (target.height ≤ most_side) }
    ensures { result ≡ cubic_fits base pitch target len }
{
    if target.width < 8 {
        return false;
    }
    if target.height < 2 {
        return false;
    }
    let width2 = 2 * target.width;
    let source_end = base + (2 * target.height - 1) * pitch + width2;
    let target_end = target.offset + (target.height - 1) * pitch + width2;
    (width2 % 8 == 0) & (width2 <= pitch) & (source_end <= target.offset) & (target_end <= len)
}

fn clear_rows(frame: &mut [u8], target: Region, pitch: usize)
    requires { (target.width ≤ pitch) × (target.offset + target.height * pitch ≤ length frame.old) }
    ensures { frame.new ≡ clear_rows target pitch frame.old }
{
    let height = target.height;
    for y in 0..height {
        let start = target.offset + y * pitch;
        let from = start + target.width;
        let end = start + pitch;
        zero_row(&mut frame[from..end]);
    }
}

impl Later {
    // Whether the fused cubic halves it, in a frame of len bytes.
    pub fn fuses(self, len: usize) -> bool
        ensures { result ≡ fused_at self.at.fitting.layout len self.at.level }
    {
        let layout = self.at.fitting.layout;
        let opts = layout.opts;
        let fits = cubic_fits(self.base, layout.pitch, self.at.region, len);
        (opts.scale_down == 4) & (opts.full | (self.at.level >= 2)) & fits
    }

    pub fn clear(self, frame: &mut [u8])
        requires { (1 ≤ self.at.level) × (written_end self.at.fitting.layout ≤ length frame.old) }
        ensures { frame.new ≡ clear_level self.at.fitting.layout self.at.level frame.old }
    {
        if self.fuses(frame.len()) {
            return;
        }
        clear_rows(frame, self.at.region, self.at.fitting.layout.pitch);
    }
}
