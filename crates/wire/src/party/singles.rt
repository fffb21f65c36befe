// Replicas and clients by their numbers.
ghost use Rattle.std.specs.Prelude.{◌≡◌, Some};
ghost use Rattle.wire.specs.Parties.{Numbers, numbered};

use crate::party::{Numbered, UnknownParty};

impl<const FIRST: u8, const LAST: u8> TryFrom<u64> for Numbered<FIRST, LAST> {
    type Error = UnknownParty;

    ghost try_from_gives = { Numbers FIRST LAST };

    fn try_from(number: u64) -> Result<Self, UnknownParty> {
        match u8::try_from(number) {
            Ok(number) if FIRST <= number && number <= LAST => Ok(Numbered { number }),
            _ => Err(UnknownParty(number)),
        }
    }
}

impl<const FIRST: u8, const LAST: u8> Numbered<FIRST, LAST> {
    pub fn number(self) -> u8
        ensures value { result ≡ self.entry.number }
        ensures back { numbered FIRST LAST result ≡ Some self.entry }
    {
        self.number
    }
}
