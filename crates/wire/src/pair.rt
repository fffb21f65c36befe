// Stamps, pairs and configurations.
ghost use Rattle.std.specs.Prelude.{◌≡◌};
ghost use Rattle.wire.specs.Stamps.{above};

use crate::set::ReplicaSet;
use kinds::Word;

// What a sealer gives for a text: a signature or an authenticator.
#[derive(Clone, Copy, PartialEq, Eq, Debug, Default)]
pub struct Seal(pub u64);

// The timestamp of a write: a count, and the client that writes. Counts compare first, then writers.
#[derive(Clone, Copy, PartialEq, Eq, PartialOrd, Ord, Debug, Default)]
pub struct Stamp {
    pub count: u32,
    // Stays: a number, no `Client`: a stamp that a liar posts can name anybody.
    pub writer: u8,
}

// A written value: its stamp, its word and the writer's seal.
#[derive(Clone, Copy, PartialEq, Eq, Debug, Default)]
pub struct Pair {
    pub stamp: Stamp,
    pub word: Word,
    pub seal: Seal,
}

// The replica set of an epoch, with the source's seal.
#[derive(Clone, Copy, PartialEq, Eq, Debug, Default)]
pub struct Configuration {
    pub epoch: u32,
    pub set: ReplicaSet,
    pub seal: Seal,
}

impl Stamp {
    // Whether this stamp is higher.
    pub fn is_above(self, other: Stamp) -> bool
        ensures { result ≡ above self other }
    {
        self > other
    }
}
