// Both steps as they are tried: a fault told as its refusal, and what a refusal leaves as it was.
use crate::scene::RULES;
use clients::{Line, begin, client_step};
use kinds::{BinWeight, Word};
use refusals::{Fault, Layer, Refusal};
use replicas::replica_step;
use sealers::Sealer;
use std::process::Abort;
use stores::Store;
use wire::{Client, Entry, Replica};

pub(crate) fn refusal(number: u8, layer: Layer, place: u64) -> Refusal {
    Refusal {
        number,
        layer,
        place,
    }
}

// The step of a replica.
pub(crate) fn replica_takes<S: Store, L: Sealer>(
    replica: Replica,
    store: &mut S,
    sealer: &L,
    entry: Entry,
) -> Result<Option<Entry>, Refusal> {
    replica_step::<BinWeight, S, L>(&RULES, replica, &entry, store, sealer).map_err(|f| f.told())
}

// The replica says this to the entry; its card and the saves left stay.
pub(crate) fn replica_stays<S: Store, L: Sealer>(
    rt: &impl Abort,
    replica: Replica,
    store: &mut S,
    sealer: &L,
    entry: Entry,
    said: Result<Option<Entry>, Refusal>,
) {
    let card = store.load(replica);
    let left = store.left();
    let answer = replica_takes(replica, store, sealer, entry);
    assert_eq!(rt; answer, said, "to {entry:?}");
    assert_eq!(rt; store.load(replica), card, "to {entry:?}");
    assert_eq!(rt; store.left(), left, "to {entry:?}");
}

// The replica refuses each entry by its number, and stays as it was.
pub(crate) fn replica_refuses<S: Store, L: Sealer>(
    rt: &impl Abort,
    replica: Replica,
    store: &mut S,
    sealer: &L,
    cases: &[(u8, Entry)],
) {
    let place = 100 + u64::from(replica.number());
    for &(number, entry) in cases {
        let said = Err(refusal(number, Layer::Replica, place));
        replica_stays(rt, replica, store, sealer, entry, said);
    }
}

// The replica answers each entry with the other, and stays as it was.
pub(crate) fn replica_answers<S: Store, L: Sealer>(
    rt: &impl Abort,
    replica: Replica,
    store: &mut S,
    sealer: &L,
    cases: &[(Entry, Entry)],
) {
    for &(entry, answer) in cases {
        replica_stays(rt, replica, store, sealer, entry, Ok(Some(answer)));
    }
}

// The begin of a read, or of a write of this word.
pub(crate) fn begins<L: Sealer>(
    client: Client,
    line: &mut Line,
    word: Option<Word>,
    sealer: &L,
) -> Result<Entry, Refusal> {
    begin(client, line, word, sealer).map_err(|f| f.told())
}

// The step of a client.
pub(crate) fn client_takes<L: Sealer>(
    client: Client,
    line: &mut Line,
    sealer: &mut L,
    entry: Entry,
) -> Result<Option<Entry>, Refusal> {
    client_step::<BinWeight, L>(&RULES, client, line, &entry, sealer).map_err(|f| f.told())
}

// At each line the client refuses the entry by its number; the line and the client's seals left stay.
pub(crate) fn client_refuses<L: Sealer>(
    rt: &impl Abort,
    client: Client,
    sealer: &mut L,
    cases: &[(u8, Line, Entry)],
) {
    let left = sealer.left(client.number());
    let place = u64::from(client.number());
    for &(number, line, entry) in cases {
        let mut kept = line;
        let refused = Err(refusal(number, Layer::Client, place));
        let answer = client_takes(client, &mut kept, sealer, entry);
        assert_eq!(rt; answer, refused, "to {entry:?}");
        assert_eq!(rt; kept, line, "to {entry:?}");
        assert_eq!(rt; sealer.left(client.number()), left, "to {entry:?}");
    }
}
