// What a build needs of the slices that it is lent: refusals 10 to 13.
// First the needs; then the refusals.
ghost use Rattle.std.specs.Prelude.{◌≡◌, ◌≤◌};
ghost use Rattle.settings.specs.Limits.{most_pitch};
ghost use Rattle.settings.specs.Answers.{tested};
ghost use Rattle.layouts.specs.Layout.{written_end, spill_need, scratch_need};
ghost use Rattle.layouts.specs.Refusals.{source_need, lent_no};

use crate::fitting::Fitting;
use crate::levels::{height, width};
use settings::refusal::{BadLent, Refusal, refuse_if};

impl Fitting {
    pub fn source_need(self, src_pitch: usize) -> usize
        requires { src_pitch ≤ most_pitch }
        ensures { result ≡ source_need self.layout src_pitch }
    {
        let w = width(self.layout, 0);
        let h = height(self.layout, 0);
        if (w == 0) | (h == 0) {
            return 0;
        }
        (h - 1) * src_pitch + w
    }

    // Level 1's rows, laid twice as far apart, where level 0 isn't stored; else what a pair's last row leaves past the frame.
    pub fn spill_need(self) -> usize
        ensures { result ≡ spill_need self.layout }
    {
        let layout = self.layout;
        if layout.opts.full {
            return 16;
        }
        if layout.opts.naturals().levels < 2 {
            return 16;
        }
        height(layout, 1) * layout.pitch
    }

    pub fn scratch_need(self) -> usize
        ensures { result ≡ scratch_need self.layout }
    {
        16 * (self.layout.pitch + 16)
    }

    // Refusals 10 to 13, by the lengths, where the last level ends at end. Only an accepted source pitch has needs that fit.
    #[tactic(auto, unfolding(crate::specs::Refusals::lent_no))]
    pub fn lent_tested(
        self,
        end: usize,
        src: usize,
        src_pitch: usize,
        frame: usize,
        spill: usize,
        scratch: usize,
    ) -> Result<(), Refusal>
        requires { (src_pitch ≤ most_pitch) × (end ≡ written_end self.layout) }
        ensures { tested result ≡ lent_no self.layout src src_pitch frame spill scratch }
    {
        refuse_if(src < self.source_need(src_pitch), BadLent::Source)?;
        refuse_if(frame < end, BadLent::Frame)?;
        refuse_if(spill < self.spill_need(), BadLent::Spill)?;
        refuse_if(scratch < self.scratch_need(), BadLent::Scratch)?;
        Ok(())
    }
}
