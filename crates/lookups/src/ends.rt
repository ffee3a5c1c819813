// Where the levels of a stored layout end, and what a build by it needs beside the frame.
ghost use Rattle.std.specs.Prelude.{◌≡◌};
ghost use Rattle.lookups.specs.Answers.{ended, end_answer, needed, needs_answer};

use layouts::layout::Needs;
use settings::refusal::Refusal;
use settings::super_opts::SuperOpts;
use stored::passed::Stored;

// Refusals 6 and 32.
pub fn written_end(opts: SuperOpts, layout: &[usize]) -> Result<usize, Refusal>
    ensures { ended result ≡ end_answer opts layout.now }
{
    let stored = Stored::of(opts, layout)?;
    Ok(stored.end())
}

// Refusals 6 and 32.
pub fn needs(opts: SuperOpts, layout: &[usize]) -> Result<Needs, Refusal>
    ensures { needed result ≡ needs_answer opts layout.now }
{
    let stored = Stored::of(opts, layout)?;
    let q = stored.layout();
    Ok(Needs {
        spill: q.spill_need(),
        scratch: q.scratch_need(),
    })
}
