// A caller's numbers that passed the test, with the record that they are the layout of: what is asked by a stored layout goes by this.
ghost use Rattle.std.specs.Prelude.{◌≡◌};
ghost use Rattle.stored.specs.Refusals.{stored_no};

use crate::layout::{COUNT, region_in, tested, view};
use layouts::fitting::Fitting;
use layouts::level::Level;
use settings::refusal::Refusal;
use settings::super_opts::SuperOpts;

#[derive(Clone, Copy)]
pub struct Stored<'a> {
    pub opts: SuperOpts,
    pub numbers: &'a [usize],
    pub ghost passes: { stored_no opts numbers.now ≡ 0 },
}

impl<'a> Stored<'a> {
    ghost use Rattle.std.specs.Prelude.{◌<◌};
    ghost use Rattle.settings.specs.Answers.{answer, outcome};
    ghost use Rattle.layouts.specs.Layout.{levels_of, written_end};
    ghost use Rattle.stored.specs.Layout.{view_of};
    ghost use Rattle.stored.specs.Passed.{plainly};

    // Refusals 6 and 32.
    pub fn of(opts: SuperOpts, numbers: &'a [usize]) -> Result<Stored<'a>, Refusal>
        ensures { outcome (opts, numbers.entry) (plainly result) ≡ answer (stored_no opts numbers.now) (opts, numbers.entry) }
    {
        tested(opts, numbers)?;
        Ok(Stored { opts, numbers })
    }

    pub fn layout(self) -> Fitting
        ensures { result.layout ≡ view_of self.entry.opts self.entry.numbers.now }
    {
        let layout = view(self.opts, self.numbers);
        Fitting { layout }
    }

    pub fn levels(self) -> u32
        ensures { result ≡ levels_of (view_of self.entry.opts self.entry.numbers.now) }
    {
        self.numbers[COUNT] as u32
    }

    // As the numbers have it.
    pub fn level(self, level: u32) -> Level
        requires { level < levels_of (view_of self.opts self.numbers.now) }
        ensures { (result.fitting.layout ≡ view_of self.entry.opts self.entry.numbers.now) × (result.level ≡ level) }
    {
        Level {
            fitting: self.layout(),
            level,
            region: region_in(self.numbers, level),
        }
    }

    // Where the last level ends.
    pub fn end(self) -> usize
        ensures { result ≡ written_end (view_of self.entry.opts self.entry.numbers.now) }
    {
        let levels = self.levels();
        if levels == 0 {
            return 0;
        }
        self.level(levels - 1).end()
    }
}
