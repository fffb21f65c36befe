// Entries: the messages that parties post.
ghost use Rattle.std.specs.Prelude.{◌≡◌};
ghost use Rattle.wire.specs.Entries.{Decodes, Encodes, pair_of, configuration_of};

use crate::pair::{Configuration, Pair, Seal, Stamp};
use crate::set::ReplicaSet;
use kinds::Word;

#[derive(Clone, Copy, PartialEq, Eq, Debug)]
pub enum EntryKind {
    // client to any replica: asks for its pair
    Read = 1,
    // client to any replica: asks to store a pair
    Write = 2,
    // replica to any replica: asks for its pair of an earlier epoch, state transfer
    Transfer = 3,
    // replica to a client: answers READ
    Pair = 4,
    // replica to a client: answers WRITE
    Ack = 5,
    // replica to a replica: answers TRANSFER
    Stock = 6,
    // anyone to any client or replica: a configuration
    Config = 7,
    // replica to a client or a replica: has not heard of the epoch asked for
    Behind = 8,
}

// A posted entry; a field that a kind does not use is 0.
// Stays: plain numbers, no parties and no kind, and flat: a liar can post any nine numbers, and they are kept as they came.
#[derive(Clone, Copy, PartialEq, Eq, Debug, Default)]
pub struct Entry {
    pub sender: u8,
    pub kind: u8,
    pub addressee: u8,
    pub round: u32,
    pub epoch: u32,
    pub count: u32,
    pub writer: u8,
    pub word: Word,
    pub seal: Seal,
}

// A number that no kind of entry has.
#[derive(Clone, Copy, PartialEq, Eq, Debug)]
pub struct UnknownKind(pub u8);

impl TryFrom<u8> for EntryKind {
    type Error = UnknownKind;

    ghost try_from_gives = { Decodes };

    fn try_from(number: u8) -> Result<EntryKind, UnknownKind> {
        match number {
            1 => Ok(EntryKind::Read),
            2 => Ok(EntryKind::Write),
            3 => Ok(EntryKind::Transfer),
            4 => Ok(EntryKind::Pair),
            5 => Ok(EntryKind::Ack),
            6 => Ok(EntryKind::Stock),
            7 => Ok(EntryKind::Config),
            8 => Ok(EntryKind::Behind),
            _ => Err(UnknownKind(number)),
        }
    }
}

impl From<EntryKind> for u8 {
    ghost from_gives = { Encodes };

    fn from(kind: EntryKind) -> u8 {
        kind as u8
    }
}

impl Entry {
    // The pair that it carries.
    pub fn pair(&self) -> Pair
        ensures { result ≡ pair_of self.now }
    {
        Pair {
            stamp: Stamp {
                count: self.count,
                writer: self.writer,
            },
            word: self.word,
            seal: self.seal,
        }
    }

    // The configuration that it carries: the set stands in the word.
    pub fn configuration(&self) -> Configuration
        ensures { result ≡ configuration_of self.now }
    {
        Configuration {
            epoch: self.epoch,
            set: ReplicaSet(self.word.0),
            seal: self.seal,
        }
    }
}
