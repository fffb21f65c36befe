// What is written on a chart.
ghost use Rattle.std.specs.Prelude.{◌≡◌, IfOk, string_bytes};
ghost use Rattle.charts.specs.Captions.{kind_name, letter, party_text, entry_text, operation_text, caption_text};

use crate::sign::Sign;
use kinds::BinWeight;
use picture::Label;
use refusals::Refusal;
use std::alloc::{AllocError, Global};
use wire::{EntryKind, Party};

// The hall of a run, as its set-up asks for it.
#[derive(Clone, Copy, PartialEq, Eq, Debug)]
pub struct Size {
    pub faults: u64,
    pub replicas: u64,
    pub clients: u64,
}

#[derive(Clone, Copy, PartialEq, Eq, Debug)]
pub enum Caption {
    // the title of a chart, and that of one without a hall
    Title(Size),
    Unopened,
    Row(u16),
    Epoch(u32),
    // the head of a lane, and that of a replica that may lie
    Party(Party),
    Liar(Party),
    // an entry by its number; without a kind where a liar has made it up
    Entry {
        kind: Option<EntryKind>,
        number: u64,
    },
    // what a client reads or writes, if there is a weight yet
    Operation {
        writes: bool,
        weight: Option<BinWeight>,
    },
    Lot(BinWeight),
    CalledOff,
    // by number and layer
    Refusal(Refusal),
    Meaning(Sign),
}

fn kind_name(kind: EntryKind) -> &'static str
    ensures { result.now ≡ kind_name kind }
{
    match kind {
        EntryKind::Read => "READ",
        EntryKind::Write => "WRITE",
        EntryKind::Transfer => "TRANSFER",
        EntryKind::Pair => "PAIR",
        EntryKind::Ack => "ACK",
        EntryKind::Stock => "STOCK",
        EntryKind::Config => "CONFIG",
        EntryKind::Behind => "BEHIND",
    }
}

fn letter(writes: bool) -> &'static str
    ensures { result.now ≡ letter writes }
{
    if writes { "W" } else { "R" }
}

fn party_text(heap: Global, party: Party) -> Result<String, AllocError>
    ensures { IfOk result (λ s. string_bytes s ≡ party_text party) }
{
    match party {
        Party::Source => format!(in heap; "source"),
        Party::Client(client) => {
            let number = client.number();
            format!(in heap; "client {number}")
        }
        Party::Replica(replica) => {
            let number = replica.number();
            format!(in heap; "replica {number}")
        }
    }
}

fn entry_text(heap: Global, kind: Option<EntryKind>, number: u64) -> Result<String, AllocError>
    ensures { IfOk result (λ s. string_bytes s ≡ entry_text kind number) }
{
    let name = match kind {
        Some(kind) => kind_name(kind),
        None => "no kind",
    };
    format!(in heap; "{name} {number}")
}

fn operation_text(
    heap: Global,
    writes: bool,
    weight: Option<BinWeight>,
) -> Result<String, AllocError>
    ensures { IfOk result (λ s. string_bytes s ≡ operation_text writes weight) }
{
    let letter = letter(writes);
    match weight {
        Some(weight) => {
            let grams = weight.grams();
            format!(in heap; "{letter} {grams} g")
        }
        None => format!(in heap; "{letter}"),
    }
}

impl Label for Caption {
    ghost said = { caption_text };

    fn text(&self, heap: Global) -> Result<String, AllocError> {
        match *self {
            Caption::Title(size) => {
                let (faults, replicas, clients) = (size.faults, size.replicas, size.clients);
                format!(in heap; "f {faults}, replicas {replicas}, clients {clients}")
            }
            Caption::Unopened => format!(in heap; "no hall was opened"),
            Caption::Row(number) => format!(in heap; "{number}"),
            Caption::Epoch(number) => format!(in heap; "{number}"),
            Caption::Party(party) => party_text(heap, party),
            Caption::Liar(party) => {
                let name = party_text(heap, party)?;
                format!(in heap; "{name} (liar)")
            }
            Caption::Entry { kind, number } => entry_text(heap, kind, number),
            Caption::Operation { writes, weight } => operation_text(heap, writes, weight),
            Caption::Lot(weight) => {
                let lot = weight.lot();
                format!(in heap; "lot {lot}")
            }
            Caption::CalledOff => format!(in heap; "called off"),
            Caption::Refusal(refusal) => {
                let (number, layer) = (refusal.number, refusal.layer);
                format!(in heap; "{number} {layer}")
            }
            Caption::Meaning(sign) => {
                let meaning = sign.meaning();
                format!(in heap; "{meaning}")
            }
        }
    }
}
