// Cabinet and tape: what is kept, what is replaced, what is refused, and the layout of a record.
ghost use Rattle.std.specs.Prelude.{◌≡◌, if◌then◌else◌, Some, Ok, Err};
ghost use Rattle.stores.specs.declared.fault.StoreFault.TheVariants.{NoSave};
ghost use Rattle.stores.specs.Saved.{none_left};

use kinds::Word;
use refusals::{Fault, Layer, Refusal};
use std::process::Abort;
use std::test::Fail;
use stores::{Cabinet, Card, Store, StoreFault};
use tapes::Tape;
use wire::{Pair, Replica, ReplicaSet, Seal, Stamp};

// The record of replica 5 with the card of epoch 258.
const RECORD: &[u8; 72] = b"BIN1\x05\x01\x09\x00\
    \x02\x01\x00\x00\x03\x02\x01\x00\
    \x15\x00\x00\x00\x00\x00\x00\x00\
    \x08\x07\x06\x05\x04\x03\x02\x01\
    \x07\x00\x00\x00\x00\x00\x00\x00\
    \xe8\x03\x00\x00\x00\x00\x00\x00\
    \x04\x00\x00\x00\x00\x00\x00\x00\
    \x70\x11\x01\x00\x00\x00\x00\x00\
    \xff\x00\x00\x00\x00\x00\x00\x00";

fn card(epoch: u32, ready: bool) -> Card {
    Card {
        epoch,
        set: ReplicaSet(21),
        seal: Seal(0x0102_0304_0506_0708),
        previous: ReplicaSet(7),
        previous_seal: Seal(1000),
        heard: ReplicaSet(4),
        ready,
        pair: Pair {
            stamp: Stamp {
                count: 66051,
                writer: 9,
            },
            word: Word(70000),
            seal: Seal(255),
        },
    }
}

// In any store a card that was saved is loaded.
fn save_and_load<S: Store>(
    store: &mut S,
    replica: Replica,
    card: Card,
) -> Result<Option<Card>, StoreFault>
    ensures { result ≡ (if none_left (S.Store.shelf store.old).saves then Err (NoSave (S.Store.shelf store.old).next) else Ok (Some card)) }
{
    store.save(replica, card)?;
    Ok(store.load(replica))
}

// Three saves for two replicas.
fn keeps_cards<S: Store>(rt: &impl Abort, store: &mut S, first: Replica, last: Replica) {
    assert_eq!(rt; store.load(first), None);
    for (replica, epoch) in [(first, 1), (last, 2), (first, 3)] {
        let kept = card(epoch, epoch == 2);
        assert_eq!(rt; save_and_load(store, replica, kept), Ok(Some(kept)));
    }
    assert_eq!(rt;
        store.load(last),
        Some(card(2, true)),
        "the other replica's stays"
    );
}

#[test]
fn a_cabinet_keeps_cards(rt: HostRuntime) -> Result<(), Fail> {
    let mut cabinet = Cabinet::new();
    keeps_cards(
        &rt,
        &mut cabinet,
        Replica::try_from(0)?,
        Replica::try_from(63)?,
    );
    assert_eq!(rt; cabinet.left(), None);
    Ok(())
}

#[test]
fn a_tape_keeps_cards_until_it_is_full(rt: HostRuntime) -> Result<(), Fail> {
    let first = Replica::try_from(0)?;
    let mut bytes = [170; 220];
    let mut tape = Tape::open(&mut bytes, 0)?;
    assert_eq!(rt; tape.left(), Some(3));
    keeps_cards(&rt, &mut tape, first, Replica::try_from(63)?);
    assert_eq!(rt; tape.left(), Some(0));
    assert_eq!(rt; tape.save(first, card(4, true)), Err(StoreFault::NoSave(3)));
    assert_eq!(rt; tape.load(first), Some(card(3, false)), "as it was");
    assert_eq!(rt;
        &bytes[215..220],
        [0, 170, 170, 170, 170].as_slice(),
        "the bytes behind the last record"
    );
    let refusal = Refusal {
        number: 9,
        layer: Layer::Store,
        place: 3,
    };
    assert_eq!(rt; StoreFault::NoSave(3).told(), refusal);
    Ok(())
}

#[test]
fn a_record_has_its_layout(rt: HostRuntime) -> Result<(), Fail> {
    let five = Replica::try_from(5)?;
    let mut bytes = [170; 72];
    let mut tape = Tape::open(&mut bytes, 0)?;
    tape.save(five, card(258, true))?;
    assert_eq!(rt; &bytes, RECORD);
    bytes[5] = 7;
    bytes[7] = 1;
    let tape = Tape::open(&mut bytes, 72)?;
    assert_eq!(rt;
        tape.load(five),
        Some(card(258, false)),
        "only 1 is ready, and the zero is not looked at"
    );
    bytes[4] = 200;
    let tape = Tape::open(&mut bytes, 72)?;
    assert_eq!(rt; tape.load(five), None, "a record of no replica");
    Ok(())
}

#[test]
fn a_damaged_tape_is_refused(rt: HostRuntime) -> Result<(), Fail> {
    let mut bytes = [0; 200];
    assert_eq!(rt;
        Tape::open(&mut bytes, 201).err(),
        Some(StoreFault::Damaged(2)),
        "beyond the bytes"
    );
    assert_eq!(rt;
        Tape::open(&mut bytes, 100).err(),
        Some(StoreFault::Damaged(1)),
        "no whole records"
    );
    assert_eq!(rt;
        Tape::open(&mut bytes, 72).err(),
        Some(StoreFault::Damaged(0)),
        "no mark"
    );
    let five = Replica::try_from(5)?;
    Tape::open(&mut bytes, 0)?.save(five, card(1, true))?;
    assert_eq!(rt;
        Tape::open(&mut bytes, 144).err(),
        Some(StoreFault::Damaged(1)),
        "no second mark"
    );
    assert_eq!(rt; Tape::open(&mut bytes, 72)?.load(five), Some(card(1, true)));
    Ok(())
}
