// What a build is refused for, by a record, a stored layout, and the lengths of what it is lent.
ghost use Rattle.std.specs.Prelude.{◌≡◌};
ghost use Rattle.settings.specs.Answers.{tested};
ghost use Rattle.lookups.specs.Refusals.{stored_build_no};

use layouts::levels::{bad_pitch, width};
use settings::refusal::{BadLent, Refusal};
use settings::super_opts::SuperOpts;
use stored::passed::Stored;

// Refusals 6, 32, 9 to 13.
pub fn build_tested(
    opts: SuperOpts,
    layout: &[usize],
    src: usize,
    src_pitch: usize,
    frame: usize,
    spill: usize,
    scratch: usize,
) -> Result<(), Refusal>
    ensures { tested result ≡ stored_build_no opts layout.now src src_pitch frame spill scratch }
{
    let stored = Stored::of(opts, layout)?;
    let q = stored.layout();
    if bad_pitch(src_pitch, width(q.layout, 0)) {
        return Err(Refusal::Lent(BadLent::SourcePitch));
    }
    q.lent_tested(stored.end(), src, src_pitch, frame, spill, scratch)
}
