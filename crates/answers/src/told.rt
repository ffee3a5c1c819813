// What a word tells, as numbers.
ghost use Rattle.std.specs.Prelude.{◌≡◌};
ghost use Rattle.answers.specs.Fields.{told_numbers};

use crate::record::flag;
use settings::word::Description;

// How many numbers a word tells.
pub const TOLD: usize = 12;

pub fn told_numbers(d: Description) -> [i32; TOLD]
    ensures { result ≡ told_numbers d }
{
    [
        d.width,
        d.height,
        d.pel,
        d.levels,
        d.gpu,
        flag(d.full),
        flag(d.rc),
        flag(d.lean),
        flag(d.down.is_some()),
        d.down.unwrap_or(0),
        flag(d.up.is_some()),
        d.up.unwrap_or(0),
    ]
}
