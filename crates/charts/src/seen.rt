// What has been seen of a run up to some row: of its entries, of the epochs of its parties, of its operations.
ghost use Rattle.std.specs.Prelude.{◌≡◌};
ghost use Rattle.charts.specs.Seen.{place_in, stroke_of, weight_of, name_of, delivery_of, stay_after, end_of, work_of};

use crate::caption::Caption;
use crate::layout::Place;
use halls::Operation;
use kinds::{BinWeight, Kind};
use picture::Stroke;
use wire::{Entry, EntryKind, Party, ReplicaSet};

// An entry of the post, in which row it was posted, and whether anybody was handed it.
#[derive(Clone, Copy, PartialEq, Eq, Debug)]
pub struct Posted {
    pub entry: Entry,
    pub row: u16,
    pub handed: bool,
}

// An entry was handed over: its name, where it was posted, where it came, how its arrow is drawn, and whether it was refused.
#[derive(Clone, Copy, PartialEq, Eq, Debug)]
pub struct Delivery {
    pub name: Caption,
    pub from: Place,
    pub to: Place,
    pub stroke: Stroke,
    pub refused: bool,
}

// A party is in this epoch since some row.
#[derive(Clone, Copy, PartialEq, Eq, Debug)]
pub struct Stay {
    pub party: Party,
    pub epoch: u32,
    pub since: u16,
}

// Where a party was before a row, and the epoch that it is in after it.
#[derive(Clone, Copy, PartialEq, Eq, Debug)]
pub struct Move {
    pub stay: Stay,
    pub epoch: u32,
}

// An operation as the log has it, and the rows in which it began, and in which it ended or was called off.
#[derive(Clone, Copy, PartialEq, Eq, Debug)]
pub struct Work {
    pub operation: Operation,
    pub began: u16,
    pub ended: Option<u16>,
}

// Where the lane of the party of this number meets a row, if there is such a party.
pub fn place_of(number: u64, row: u16) -> Option<Place>
    ensures { result ≡ place_in number row }
{
    let party = Party::try_from(number).ok()?;
    Some(Place { party, row })
}

// How the arrows of a party's entries are drawn: those of a marked replica stand apart.
pub fn stroke_of(marked: ReplicaSet, party: Party) -> Stroke
    ensures { result ≡ stroke_of marked party }
{
    match party {
        Party::Replica(replica) if marked.contains(replica) => Stroke::Dashed,
        _ => Stroke::Whole,
    }
}

// The weight that an operation writes, or has read.
pub fn weight_of(operation: Operation) -> Option<BinWeight>
    ensures { result ≡ weight_of operation }
{
    if operation.writes || operation.ended.is_some() {
        BinWeight::from_word(operation.pair.word)
    } else {
        None
    }
}

// The name of an entry that has this number.
pub fn name_of(entry: Entry, number: u64) -> Caption
    ensures { result ≡ name_of entry number }
{
    let kind = EntryKind::try_from(entry.kind).ok();
    Caption::Entry { kind, number }
}

impl Posted {
    // Where it was posted.
    pub fn place(self) -> Option<Place>
        ensures { result ≡ place_in self.entry.sender self.row }
    {
        place_of(u64::from(self.entry.sender), self.row)
    }

    // It is handed over as the entry of this number, and comes to this place.
    pub fn delivery(
        self,
        number: u64,
        to: Place,
        marked: ReplicaSet,
        refused: bool,
    ) -> Option<Delivery>
        ensures { result ≡ delivery_of self number to marked refused }
    {
        let from = self.place()?;
        Some(Delivery {
            name: name_of(self.entry, number),
            from,
            to,
            stroke: stroke_of(marked, from.party),
            refused,
        })
    }
}

impl Stay {
    // Where the party is after a row that has left it in this epoch.
    pub fn after(self, epoch: u32, row: u16) -> Stay
        ensures { result ≡ stay_after self epoch row }
    {
        if epoch == self.epoch {
            self
        } else {
            Stay {
                epoch,
                since: row,
                ..self
            }
        }
    }
}

// The row in which an operation ended, if it was not known before: it is this one, if the log has an end by now.
fn end(known: Option<u16>, operation: Operation, row: u16) -> Option<u16>
    ensures { result ≡ end_of known operation row }
{
    if known.is_none() && operation.ended.is_some() {
        Some(row)
    } else {
        known
    }
}

impl Work {
    // An operation after a row that has left it so: it began there if it was not known before.
    pub fn of(known: Option<Work>, operation: Operation, row: u16) -> Work
        ensures { result ≡ work_of known operation row }
    {
        match known {
            Some(work) => Work {
                operation,
                began: work.began,
                ended: end(work.ended, operation, row),
            },
            None => Work {
                operation,
                began: row,
                ended: end(None, operation, row),
            },
        }
    }

    // Where it began.
    pub fn place(self) -> Option<Place>
        ensures { result ≡ place_in self.operation.client self.began }
    {
        place_of(u64::from(self.operation.client), self.began)
    }
}
