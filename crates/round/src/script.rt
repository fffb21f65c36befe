// What happens, in five acts. Parties stand by their numbers: 1 and 2 are clients, 100 to 104 the replicas 0 to 4.
use wire::{EntryKind, ReplicaSet};

// Parties are numbers here, since a constant can hold no party: what is no party's number is refused when it is met.
#[derive(Clone, Copy)]
pub(crate) enum Event {
    // this client begins to read
    Read(u8),
    // this client begins to write these grams of this lot
    Write(u8, i64, u64),
    // the source issues this set
    Issue(ReplicaSet),
    // the newest entry of this kind of each party in the first list comes to each party in the second
    Carry(EntryKind, &'static [u8], &'static [u8]),
    // what this client has read or written is collected
    Collect(u8),
}

pub(crate) struct Act {
    pub(crate) title: &'static str,
    pub(crate) events: &'static [Event],
}

pub(crate) const ACTS: [Act; 5] = [
    Act {
        title: "Client 1 writes, and replica 3 hears nothing of it.",
        events: &WRITE,
    },
    Act {
        title: "Client 2 reads, and writes back what replica 3 lacks.",
        events: &READ,
    },
    Act {
        title: "Client 1 writes again, and meanwhile the source changes the members.",
        events: &CHANGE,
    },
    Act {
        title: "The new members fetch the stock of epoch 0, and the write ends with the stamp that it had.",
        events: &STOCK,
    },
    Act {
        title: "Client 2 reads in epoch 1, of which replica 3 has not heard.",
        events: &READ_AFTER,
    },
];

const WRITE: [Event; 6] = [
    Event::Write(1, 51_000, 412),
    Event::Carry(EntryKind::Read, &[1], &[100, 101, 102]),
    Event::Carry(EntryKind::Pair, &[100, 101, 102], &[1]),
    Event::Carry(EntryKind::Write, &[1], &[100, 101, 102]),
    Event::Carry(EntryKind::Ack, &[100, 101, 102], &[1]),
    Event::Collect(1),
];

// The PAIR of replica 3 comes twice.
const READ: [Event; 6] = [
    Event::Read(2),
    Event::Carry(EntryKind::Read, &[2], &[103, 102, 101]),
    Event::Carry(EntryKind::Pair, &[103, 103, 102, 101], &[2]),
    Event::Carry(EntryKind::Write, &[2], &[103, 102, 101]),
    Event::Carry(EntryKind::Ack, &[103, 102, 101], &[2]),
    Event::Collect(2),
];

// The source's CONFIG comes to replica 1 twice, and to replica 3 never; replica 2 hears of the epoch from replica 4.
// At the end client 1 is asked for what it has written, and to read, while it still writes.
const CHANGE: [Event; 15] = [
    Event::Write(1, 49_500, 413),
    Event::Carry(EntryKind::Read, &[1], &[100, 101, 102]),
    Event::Carry(EntryKind::Pair, &[100, 101, 102], &[1]),
    Event::Carry(EntryKind::Write, &[1], &[103]),
    Event::Issue(ReplicaSet(0b11110)),
    Event::Carry(EntryKind::Config, &[0], &[104, 101, 101, 100]),
    Event::Carry(EntryKind::Transfer, &[104], &[102]),
    Event::Carry(EntryKind::Behind, &[102], &[104]),
    Event::Carry(EntryKind::Config, &[104], &[102]),
    Event::Carry(EntryKind::Write, &[1], &[101]),
    Event::Carry(EntryKind::Config, &[101], &[1]),
    Event::Carry(EntryKind::Ack, &[103], &[1]),
    Event::Carry(EntryKind::Write, &[1], &[104]),
    Event::Collect(1),
    Event::Read(1),
];

// The STOCK of replica 1 comes to replica 4 twice, and replica 4, which was no member before, is asked for its stock.
const STOCK: [Event; 10] = [
    Event::Carry(EntryKind::Transfer, &[104], &[100, 101, 102]),
    Event::Carry(EntryKind::Stock, &[100, 101, 101, 102], &[104]),
    Event::Carry(EntryKind::Transfer, &[101], &[104]),
    Event::Carry(EntryKind::Transfer, &[101], &[100, 101, 102]),
    Event::Carry(EntryKind::Stock, &[100, 101, 102], &[101]),
    Event::Carry(EntryKind::Transfer, &[102], &[100, 101, 102]),
    Event::Carry(EntryKind::Stock, &[100, 101, 102], &[102]),
    Event::Carry(EntryKind::Write, &[1], &[104, 101, 102]),
    Event::Carry(EntryKind::Ack, &[104, 101, 102], &[1]),
    Event::Collect(1),
];

const READ_AFTER: [Event; 10] = [
    Event::Read(2),
    Event::Carry(EntryKind::Read, &[2], &[101]),
    Event::Carry(EntryKind::Config, &[101], &[2]),
    Event::Carry(EntryKind::Read, &[2], &[103]),
    Event::Carry(EntryKind::Behind, &[103], &[2]),
    Event::Carry(EntryKind::Config, &[2], &[103]),
    Event::Carry(EntryKind::Read, &[2], &[103, 100]),
    Event::Carry(EntryKind::Read, &[2], &[104, 102, 101]),
    Event::Carry(EntryKind::Pair, &[104, 102, 101], &[2]),
    Event::Collect(2),
];
