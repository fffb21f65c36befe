// The entries that parties post, made of a heading, a kind and what is carried.
ghost use Rattle.std.specs.Prelude.{◌≡◌};
ghost use Rattle.wire.specs.Entries.{kind_number};
ghost use Rattle.rules.specs.Posts.{plain, paired, configured};

use kinds::Word;
use wire::{Configuration, Entry, EntryKind, Pair};

// Who posts an entry, for whom, and to which round and epoch it belongs; the addressee is 0 where any replica may answer.
// Stays: numbers of parties: 0 as the addressee stands for anyone, and an answer goes to whatever number has asked.
#[derive(Clone, Copy, PartialEq, Eq, Debug)]
pub struct Heading {
    pub sender: u8,
    pub addressee: u8,
    pub round: u32,
    pub epoch: u32,
}

impl Heading {
    ghost use Rattle.rules.specs.Headings.{answering};

    // An answer goes to the sender of what was asked, and repeats its round and epoch.
    pub fn answering(sender: u8, asked: &Entry) -> Heading
        ensures { result ≡ answering sender asked.now }
    {
        Heading {
            sender,
            addressee: asked.sender,
            round: asked.round,
            epoch: asked.epoch,
        }
    }

    // An entry that carries neither a pair nor a configuration: READ, ACK, BEHIND.
    pub fn plain(self, kind: EntryKind) -> Entry
        ensures { result ≡ plain self.sender (kind_number kind) self.addressee self.round self.epoch }
    {
        self.paired(kind, Pair::default())
    }

    // An entry with a pair: WRITE, PAIR, STOCK.
    pub fn paired(self, kind: EntryKind, pair: Pair) -> Entry
        ensures { result ≡ paired self.sender (kind_number kind) self.addressee self.round self.epoch pair }
    {
        Entry {
            sender: self.sender,
            kind: u8::from(kind),
            addressee: self.addressee,
            round: self.round,
            epoch: self.epoch,
            count: pair.stamp.count,
            writer: pair.stamp.writer,
            word: pair.word,
            seal: pair.seal,
        }
    }
}

// An entry that shows a configuration, the set in the word: TRANSFER, CONFIG.
pub fn configured(sender: u8, kind: EntryKind, configuration: Configuration) -> Entry
    ensures { result ≡ configured sender (kind_number kind) configuration }
{
    Entry {
        sender,
        kind: u8::from(kind),
        epoch: configuration.epoch,
        word: Word(configuration.set.0),
        seal: configuration.seal,
        ..Entry::default()
    }
}
