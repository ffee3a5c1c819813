// A record that the settings check can return. Only such a record has a word and super sizes: what tells those is a method of it, in `super_opts`.
ghost use Rattle.std.specs.Prelude.{◌≡◌, true};
ghost use Rattle.settings.specs.Check.{accepted};

use crate::super_opts::SuperOpts;

#[derive(Clone, Copy)]
pub struct Accepted {
    pub opts: SuperOpts,
    pub ghost good: { accepted opts ≡ true },
}
