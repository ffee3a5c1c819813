// A layout that passed its tests: no refusal of 6, 7 or 8. Only such a layout has offsets and needs that fit, so what tells those takes it; a walk down the levels, which starts in any layout, asks the same by a clause.
ghost use Rattle.std.specs.Prelude.{◌≡◌};
ghost use Rattle.layouts.specs.Refusals.{layout_no};

use crate::layout::Layout;
use crate::levels::tested;
use settings::refusal::Refusal;

#[derive(Clone, Copy)]
pub struct Fitting {
    pub layout: Layout,
    pub ghost fits: { layout_no layout ≡ 0 },
}

impl Fitting {
    ghost use Rattle.settings.specs.Answers.{answer, outcome};
    ghost use Rattle.layouts.specs.Fitting.{plainly};

    // Refusals 6, 7 and 8. Inlined, since the compiler else hands the layout back in memory: 504 instructions for the 487 of a layout made.
    #[inline(always)]
    pub fn of(layout: Layout) -> Result<Fitting, Refusal>
        ensures { outcome layout (plainly result) ≡ answer (layout_no layout) layout }
    {
        tested(layout)?;
        Ok(Fitting { layout })
    }
}
