// An entry as it was judged.
ghost use Rattle.std.specs.Prelude.{◌≡◌};

use crate::objection::Objection;
use wire::{Configuration, Entry, Pair};

#[derive(Clone, Copy, PartialEq, Eq, Debug)]
pub struct Judged {
    pub entry: Entry,
    // whether what the entry carries is genuine
    // Stays: a flag, since an entry that is not genuine is decided on too, and most objections come before this one.
    pub genuine: bool,
}

impl Judged {
    ghost use Rattle.rules.specs.Judged.{genuine_only};
    ghost use Rattle.wire.specs.Entries.{pair_of, configuration_of};

    // What it carries, if that is genuine.
    fn only<T: Copy>(&self, carried: T) -> Result<T, Objection>
        ensures { result ≡ genuine_only self.now.genuine carried }
    {
        self.genuine.then_some(carried).ok_or(Objection::NotGenuine)
    }

    // The pair that it carries, if that is genuine.
    pub fn pair(&self) -> Result<Pair, Objection>
        ensures { result ≡ genuine_only self.now.genuine (pair_of self.now.entry) }
    {
        self.only(self.entry.pair())
    }

    // The configuration that it carries, if that is genuine.
    pub fn configuration(&self) -> Result<Configuration, Objection>
        ensures { result ≡ genuine_only self.now.genuine (configuration_of self.now.entry) }
    {
        self.only(self.entry.configuration())
    }
}
