// The register: the lines of its clients, the cards of its replicas, the seals of all, and what they have posted.
mod steps;

use crate::deed::{Deed, Opening};
use clients::Line;
use kinds::{BinWeight, Kind};
use refusals::{Fault, Layer, Refusal};
use rules::{Rules, configured};
use sealers::{KeyRow, Keyed};
use source::Source;
use std::alloc::{AllocError, Global};
use stores::{Cabinet, Card, Store};
use wire::{Entry, EntryKind, Party, Replica, ReplicaSet, Seal};

#[derive(Drop)]
pub(crate) struct Register {
    rules: Rules,
    source: Source,
    lines: [Line; 2],
    cabinet: Cabinet,
    sealer: Keyed,
    post: Vec<Entry>,
}

// The refusal of a number that is no party's, or of whom nothing is posted.
fn no_such(number: u8) -> Refusal {
    Refusal::new(5, Layer::Hall).at(u64::from(number))
}

// The card that a replica begins with: it is ready if it is a member.
fn first_card(rules: &Rules, replica: Replica) -> Card {
    let first = rules.first_configuration();
    Card {
        epoch: first.epoch,
        set: first.set,
        seal: first.seal,
        previous: ReplicaSet(0),
        previous_seal: Seal(0),
        heard: ReplicaSet(0),
        ready: first.set.contains(replica),
        pair: rules.opening_pair(),
    }
}

// The cards of all replicas.
fn first_cabinet(rules: &Rules) -> Result<Cabinet, Refusal> {
    let mut cabinet = Cabinet::new();
    for number in 0..rules.replicas {
        let replica = Replica::try_from(u64::from(number)).map_err(|_| no_such(number))?;
        cabinet
            .save(replica, first_card(rules, replica))
            .map_err(|fault| fault.told())?;
    }
    Ok(cabinet)
}

impl Register {
    // One replica of a set may lie, four of the five replicas are members at first,
    // and the register opens with 50,000 g of lot 412.
    pub(crate) fn open(heap: Global, keys: Vec<KeyRow>) -> Result<Register, Refusal> {
        let sealer = Keyed::open(keys).map_err(|fault| fault.told())?;
        let opening = BinWeight::new(50_000, 412).map_err(|fault| fault.told())?;
        let rules = Rules {
            faults: 1,
            replicas: 5,
            clients: 2,
            first: ReplicaSet(0b1111),
            opening: opening.to_word(),
        };
        Ok(Register {
            rules,
            source: Source::new(),
            lines: [Line::new(rules.first_configuration()); 2],
            cabinet: first_cabinet(&rules)?,
            sealer,
            post: Vec::new(heap),
        })
    }

    pub(crate) fn opening(&self) -> Opening {
        Opening {
            configuration: self.rules.first_configuration(),
            word: self.rules.opening,
        }
    }

    pub(crate) fn read(&mut self, client: u8) -> Result<Deed, AllocError> {
        let asked = self.begin(client, None);
        self.posted(client, asked)
    }

    pub(crate) fn write(&mut self, client: u8, grams: i64, lot: u64) -> Result<Deed, AllocError> {
        let asked = match BinWeight::new(grams, lot) {
            Ok(weight) => self.begin(client, Some(weight)),
            Err(fault) => Err(fault.told()),
        };
        self.posted(client, asked)
    }

    pub(crate) fn issue(&mut self, set: ReplicaSet) -> Result<Deed, AllocError> {
        let source = u8::from(Party::Source);
        let issued = self.source.issue(set, &mut self.sealer);
        let shown = issued
            .map(|configuration| configured(source, EntryKind::Config, configuration))
            .map_err(|fault| fault.told());
        self.posted(source, shown)
    }

    // Hands the newest entry of this kind and sender to a party.
    pub(crate) fn carry(&mut self, kind: EntryKind, from: u8, to: u8) -> Result<Deed, AllocError> {
        match self.newest(kind, from) {
            Some(entry) => self.deliver(entry, to),
            None => self.posted(to, Err(no_such(from))),
        }
    }

    // Takes what a client has read or written out of its line, and leaves the client idle.
    pub(crate) fn collect(&mut self, client: u8) -> Deed {
        match self.collected(client) {
            Ok((end, weight)) => Deed::HandsOver(client, end, weight),
            Err(why) => Deed::Refuses(client, None, why),
        }
    }

    fn newest(&self, kind: EntryKind, from: u8) -> Option<Entry> {
        let number = u8::from(kind);
        self.post
            .iter()
            .rev()
            .find(|entry| entry.kind == number && entry.sender == from)
            .copied()
    }

    fn posted(&mut self, who: u8, entry: Result<Entry, Refusal>) -> Result<Deed, AllocError> {
        match entry {
            Ok(entry) => {
                self.post.push(entry)?;
                Ok(Deed::Posts(entry))
            }
            Err(why) => Ok(Deed::Refuses(who, None, why)),
        }
    }

    fn deliver(&mut self, entry: Entry, to: u8) -> Result<Deed, AllocError> {
        match self.step(&entry, to) {
            Ok(Some(answer)) => self.posted(to, Ok(answer)),
            Ok(None) => Ok(Deed::Takes(to, entry, self.end(to))),
            Err(why) => Ok(Deed::Refuses(to, Some(entry), why)),
        }
    }
}
