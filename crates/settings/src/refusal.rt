// Why a call is refused, as documents 01 and 02 number it.
// First the refusals, by groups, each case with its number; then the number of a refusal, and a refusal of each group; last a test of a row of tests.
// No group has more than 16 cases: up to that the checker finds the proof of its numbers by itself.
ghost use Rattle.std.specs.Prelude.{◌≡◌, cond, Ok, Err};
ghost use Rattle.settings.specs.declared.refusal.Refusal.TheVariants.{Setting, Layout, Lent, Longhand, Word, Planes};
ghost use Rattle.settings.specs.Answers.{number};

// Why a call is refused: "Numbers a call can give" of document 01, and those of document 02, by what is at fault.
#[derive(Clone, Copy, Debug, PartialEq, Eq)]
pub enum Refusal {
    Setting(BadSetting),
    NoRecord,
    Layout(BadLayout),
    Lent(BadLent),
    Levels,
    Longhand(BadLonghand),
    NoRow,
    Word(BadWord),
    Planes(BadPlanes),
}

#[derive(Clone, Copy, Debug, PartialEq, Eq)]
pub enum BadSetting {
    Pel = 1,
    Gpu = 2,
    Finest = 3,
    Lean = 4,
    Side = 5,
}

#[derive(Clone, Copy, Debug, PartialEq, Eq)]
pub enum BadLayout {
    Shift = 7,
    Pitch = 8,
    Stored = 32,
}

// Of what a call is lent.
#[derive(Clone, Copy, Debug, PartialEq, Eq)]
pub enum BadLent {
    SourcePitch = 9,
    Source = 10,
    Frame = 11,
    Spill = 12,
    Scratch = 13,
}

#[derive(Clone, Copy, Debug, PartialEq, Eq)]
pub enum BadLonghand {
    Short = 15,
    Length = 17,
    Contents = 18,
}

#[derive(Clone, Copy, Debug, PartialEq, Eq)]
pub enum BadWord {
    NoCode = 20,
    Halving = 21,
    Upscale = 22,
}

// Of a record that a frame of three planes is asked for.
#[derive(Clone, Copy, Debug, PartialEq, Eq)]
pub enum BadPlanes {
    Side = 23,
    Full = 24,
}

impl Refusal {
    // A refusal that is the only one of its kind has no enum of its own, and so its number here.
    pub fn number(self) -> u32
        ensures { result ≡ number self }
    {
        match self {
            Refusal::Setting(f) => f as u32,
            Refusal::NoRecord => 6,
            Refusal::Layout(f) => f as u32,
            Refusal::Lent(f) => f as u32,
            Refusal::Levels => 14,
            Refusal::Longhand(f) => f as u32,
            Refusal::NoRow => 19,
            Refusal::Word(f) => f as u32,
            Refusal::Planes(f) => f as u32,
        }
    }
}

impl From<BadSetting> for Refusal {
    ghost from_gives = { λ f r. r ≡ Setting f };

    fn from(f: BadSetting) -> Refusal {
        Refusal::Setting(f)
    }
}

impl From<BadLayout> for Refusal {
    ghost from_gives = { λ f r. r ≡ Layout f };

    fn from(f: BadLayout) -> Refusal {
        Refusal::Layout(f)
    }
}

impl From<BadLent> for Refusal {
    ghost from_gives = { λ f r. r ≡ Lent f };

    fn from(f: BadLent) -> Refusal {
        Refusal::Lent(f)
    }
}

impl From<BadLonghand> for Refusal {
    ghost from_gives = { λ f r. r ≡ Longhand f };

    fn from(f: BadLonghand) -> Refusal {
        Refusal::Longhand(f)
    }
}

impl From<BadWord> for Refusal {
    ghost from_gives = { λ f r. r ≡ Word f };

    fn from(f: BadWord) -> Refusal {
        Refusal::Word(f)
    }
}

impl From<BadPlanes> for Refusal {
    ghost from_gives = { λ f r. r ≡ Planes f };

    fn from(f: BadPlanes) -> Refusal {
        Refusal::Planes(f)
    }
}

// A row of tests is a chain of these, each with a `?`: the first that applies is told.
pub fn refuse_if<E: Drop>(test: bool, f: E) -> Result<(), E>
    ensures { result ≡ cond test (Err f) (Ok tt) }
{
    if test { Err(f) } else { Ok(()) }
}
