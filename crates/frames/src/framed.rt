// A record that passed the tests of a frame of three planes: no refusal of 6, 23 or 24. Of such a record neither plane's layout is refused.
ghost use Rattle.std.specs.Prelude.{◌≡◌};
ghost use Rattle.frames.specs.Parts.{planes_no};

use crate::parts::planes_tested;
use settings::refusal::Refusal;
use settings::super_opts::SuperOpts;

#[derive(Clone, Copy)]
pub(crate) struct Framed {
    pub(crate) opts: SuperOpts,
    ghost takes: { planes_no opts ≡ 0 },
}

impl Framed {
    ghost use Rattle.settings.specs.Answers.{answer, outcome};
    ghost use Rattle.frames.specs.Framed.{plainly};

    // Refusals 6, 23 and 24.
    pub(crate) fn of(opts: SuperOpts) -> Result<Framed, Refusal>
        ensures { outcome opts (plainly result) ≡ answer (planes_no opts) opts }
    {
        planes_tested(opts)?;
        Ok(Framed { opts })
    }
}
