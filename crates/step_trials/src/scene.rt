// What the steps are tried on: the rules of a hall, sealers, configurations and pairs with their seals, entries.
use clients::{Line, Stage};
use kinds::Word;
use rules::Rules;
use sealers::{KeyRow, Keyed, Sealer, SealerFault};
use siphash::Key;
use std::alloc::Global;
use std::test::Fail;
use stores::Card;
use wire::{Configuration, Entry, Pair, ReplicaSet, Seal, Stamp, Text};

// One replica of four may lie, so that three are a quorum; the register opens with 0 g of lot 0.
pub(crate) const RULES: Rules = Rules {
    faults: 1,
    replicas: 8,
    clients: 3,
    first: ReplicaSet(15),
    opening: Word(100_000_000_000_000),
};

// The pair that nobody wrote.
pub(crate) const OPENING: Pair = Pair {
    stamp: Stamp {
        count: 0,
        writer: 0,
    },
    word: Word(100_000_000_000_000),
    seal: Seal(0),
};

// The configuration that nobody sealed.
pub(crate) const FIRST: Configuration = Configuration {
    epoch: 0,
    set: ReplicaSet(15),
    seal: Seal(0),
};

// Genuine configurations and pairs.
#[derive(Clone, Copy)]
pub(crate) struct Scene {
    // epoch 1: the replicas 0 to 3
    pub(crate) before: Configuration,
    // epoch 2: the replicas 1 to 4
    pub(crate) present: Configuration,
    // epoch 3: the replicas 2 to 5
    pub(crate) next: Configuration,
    // count 4, by client 1
    pub(crate) low: Pair,
    // count 5, by client 2, and another with the same stamp
    pub(crate) middle: Pair,
    pub(crate) twin: Pair,
    // count 5, by client 3
    pub(crate) high: Pair,
}

impl Scene {
    pub(crate) fn sealed<L: Sealer>(sealer: &mut L) -> Result<Scene, SealerFault> {
        Ok(Scene {
            before: configuration(sealer, 1, 15)?,
            present: configuration(sealer, 2, 30)?,
            next: configuration(sealer, 3, 60)?,
            low: pair(sealer, 4, 1, 104)?,
            middle: pair(sealer, 5, 2, 205)?,
            twin: pair(sealer, 5, 2, 206)?,
            high: pair(sealer, 5, 3, 305)?,
        })
    }

    // The card of a replica in epoch 2, after it heard these.
    pub(crate) fn card(&self, heard: u64, ready: bool, pair: Pair) -> Card {
        Card {
            epoch: 2,
            set: ReplicaSet(30),
            seal: self.present.seal,
            previous: ReplicaSet(15),
            previous_seal: self.before.seal,
            heard: ReplicaSet(heard),
            ready,
            pair,
        }
    }

    // The line of a client in epoch 2 and round 8, with nothing counted; its latest stamp has count 3.
    pub(crate) fn line(&self, stage: Stage, word: Option<Word>) -> Line {
        Line {
            stage,
            word,
            configuration: self.present,
            round: 8,
            counted: ReplicaSet(0),
            highest: Pair::default(),
            agree: true,
            last_count: 3,
        }
    }
}

pub(crate) fn configuration<L: Sealer>(
    sealer: &mut L,
    epoch: u32,
    set: u64,
) -> Result<Configuration, SealerFault> {
    let text = Text {
        tag: 67,
        party: 0,
        number: epoch,
        body: set,
    };
    Ok(Configuration {
        epoch,
        set: ReplicaSet(set),
        seal: sealer.seal(text)?,
    })
}

// A pair of bin weights: kind 1.
pub(crate) fn pair<L: Sealer>(
    sealer: &mut L,
    count: u32,
    writer: u8,
    word: u64,
) -> Result<Pair, SealerFault> {
    let text = Text {
        tag: 1,
        party: writer,
        number: count,
        body: word,
    };
    Ok(Pair {
        stamp: Stamp { count, writer },
        word: Word(word),
        seal: sealer.seal(text)?,
    })
}

// A keyed sealer with 100 seals for each party.
pub(crate) fn keyed(heap: Global) -> Result<Keyed, Fail> {
    let key = Key {
        low: 0x0706_0504_0302_0100,
        high: 0x0f0e_0d0c_0b0a_0908,
    };
    Ok(Keyed::open(vec![in heap; KeyRow { key, left: 100 }; 97]?)?)
}

// An entry for anyone, with no pair and no configuration.
pub(crate) fn plain(sender: u8, kind: u8, round: u32, epoch: u32) -> Entry {
    Entry {
        sender,
        kind,
        round,
        epoch,
        ..Entry::default()
    }
}

pub(crate) fn to(addressee: u8, entry: Entry) -> Entry {
    Entry { addressee, ..entry }
}

pub(crate) fn carrying(entry: Entry, pair: Pair) -> Entry {
    Entry {
        count: pair.stamp.count,
        writer: pair.stamp.writer,
        word: pair.word,
        seal: pair.seal,
        ..entry
    }
}

pub(crate) fn showing(sender: u8, kind: u8, configuration: Configuration) -> Entry {
    Entry {
        sender,
        kind,
        epoch: configuration.epoch,
        word: Word(configuration.set.0),
        seal: configuration.seal,
        ..Entry::default()
    }
}

// The same entry with another seal.
pub(crate) fn forged(entry: Entry) -> Entry {
    Entry {
        seal: Seal(entry.seal.0 ^ 1),
        ..entry
    }
}
