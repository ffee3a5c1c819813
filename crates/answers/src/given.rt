// Settings by the numbers that a call takes: each present or absent by a bit.
ghost use Rattle.std.specs.Prelude.{◌≡◌, ◌/◌, ◌%◌, ◌≤◌, eqb};
ghost use Rattle.answers.specs.Fields.{settings_of};

use settings::super_opts::Settings;

fn is_present(given: u32, place: u32) -> bool
    requires { 1 ≤ place }
    ensures { result ≡ eqb (given / place % 2) 1 }
{
    given / place % 2 == 1
}

pub fn settings_of(
    given: u32,
    pel: i32,
    gpu: i32,
    down: i32,
    up: i32,
    full: i32,
    rc: i32,
    lean: i32,
) -> Settings
    ensures { result ≡ settings_of given pel gpu down up full rc lean }
{
    Settings {
        pel: is_present(given, 1).then_some(pel),
        gpu: is_present(given, 2).then_some(gpu),
        down: is_present(given, 4).then_some(down),
        up: is_present(given, 8).then_some(up),
        full: is_present(given, 16).then_some(full != 0),
        rc: is_present(given, 32).then_some(rc != 0),
        lean: is_present(given, 64).then_some(lean != 0),
    }
}
