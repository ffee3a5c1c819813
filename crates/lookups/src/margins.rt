// The margins of a frame's levels, from the width to the pitch: open-svpflow's `clear_margins`.
ghost use Rattle.std.specs.Prelude.{◌≡◌, ◌≤◌, length};
ghost use Rattle.settings.specs.Answers.{answer, tested};
ghost use Rattle.layouts.specs.Layout.{written_end};
ghost use Rattle.layouts.specs.Margins.{cleared};
ghost use Rattle.lookups.specs.Answers.{clear_answer};

use layouts::descent::Descent;
use layouts::fitting::Fitting;
use layouts::level::Later;
use settings::refusal::{BadLent, Refusal};
use settings::super_opts::SuperOpts;
use stored::passed::Stored;

fn clear_levels(frame: &mut [u8], fitting: Fitting)
    requires { written_end fitting.layout ≤ length frame.old }
    ensures { frame.new ≡ cleared fitting.layout frame.old }
{
    let levels = fitting.layout.opts.naturals().levels;
    let mut above = Descent::top(fitting.layout);
    for level in 1..levels {
        let at = above.next();
        let later = Later {
            base: above.offset,
            at: at.here(),
        };
        later.clear(frame);
        above = at;
    }
}

// Zeroes the margins of later levels that aren't fused. Refusals 6, 32 and 11.
pub fn clear_margins(frame: &mut [u8], opts: SuperOpts, layout: &[usize]) -> Result<(), Refusal>
    ensures { answer (tested result) frame.new ≡ clear_answer opts layout.now frame.old }
{
    let stored = Stored::of(opts, layout)?;
    if frame.len() < stored.end() {
        return Err(Refusal::Lent(BadLent::Frame));
    }
    clear_levels(frame, stored.layout());
    Ok(())
}
