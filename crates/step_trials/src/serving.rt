// A replica that is asked to read and to write.
use crate::scene::{Scene, carrying, forged, keyed, plain, showing, to};
use crate::trying::{refusal, replica_answers, replica_refuses, replica_stays, replica_takes};
use refusals::Layer;
use sealers::Book;
use std::test::Fail;
use stores::{Cabinet, Store};
use tapes::Tape;
use wire::{Pair, Replica, Text};

// Before anything else: an earlier epoch gets CONFIG, a later one BEHIND.
#[test]
fn other_epochs_are_answered(rt: HostRuntime) -> Result<(), Fail> {
    let mut sealer = keyed(rt.alloc())?;
    let scene = Scene::sealed(&mut sealer)?;
    let mut bytes = [0; 360];
    let mut tape = Tape::open(&mut bytes, 0)?;
    // ready, not ready, and not in its set
    for (number, ready) in [(2, true), (3, false), (0, false)] {
        let replica = Replica::try_from(number)?;
        let party = 100 + replica.number();
        tape.save(replica, scene.card(7, ready, scene.middle))?;
        let config = showing(party, 7, scene.present);
        let behind = to(1, plain(party, 8, 9, 3));
        replica_answers(
            &rt,
            replica,
            &mut tape,
            &sealer,
            &[
                (plain(1, 1, 9, 1), config),
                (forged(carrying(plain(1, 2, 9, 1), scene.high)), config),
                (plain(1, 1, 9, 3), behind),
                (forged(carrying(plain(1, 2, 9, 3), scene.high)), behind),
            ],
        );
    }
    assert_eq!(rt; tape.left(), Some(2));
    Ok(())
}

// A replica without a card refuses all kinds alike.
#[test]
fn nothing_is_served_without_a_card(rt: HostRuntime) -> Result<(), Fail> {
    let mut sealer = keyed(rt.alloc())?;
    let scene = Scene::sealed(&mut sealer)?;
    let unknown = Replica::try_from(7)?;
    let mut cabinet = Cabinet::new();
    replica_refuses(
        &rt,
        unknown,
        &mut cabinet,
        &sealer,
        &[
            (13, plain(1, 1, 9, 2)),
            (13, forged(carrying(plain(1, 2, 9, 2), scene.high))),
            (13, showing(0, 7, scene.next)),
            (13, plain(1, 9, 9, 2)),
        ],
    );
    Ok(())
}

// Whoever is not in the set and not ready hears of the set first; a seal is looked at last.
#[test]
fn reads_and_writes_are_refused(rt: HostRuntime) -> Result<(), Fail> {
    let mut rows = [Text::default(); 656];
    let mut book = Book::open(&mut rows, 4)?;
    let scene = Scene::sealed(&mut book)?;
    let read = plain(1, 1, 9, 2);
    let write = carrying(plain(1, 2, 9, 2), scene.high);
    let mut cabinet = Cabinet::new();
    // not in its set, and not ready; not ready
    for (number, refused) in [(0, 13), (2, 17)] {
        let replica = Replica::try_from(number)?;
        cabinet.save(replica, scene.card(7, false, scene.low))?;
        replica_refuses(
            &rt,
            replica,
            &mut cabinet,
            &book,
            &[(refused, read), (refused, write), (refused, forged(write))],
        );
    }
    let member = Replica::try_from(2)?;
    cabinet.save(member, scene.card(7, true, scene.low))?;
    replica_refuses(
        &rt,
        member,
        &mut cabinet,
        &book,
        &[(12, forged(write)), (12, carrying(write, Pair::default()))],
    );
    Ok(())
}

#[test]
fn kinds_that_no_replica_awaits(rt: HostRuntime) -> Result<(), Fail> {
    let mut rows = [Text::default(); 656];
    let mut book = Book::open(&mut rows, 4)?;
    let scene = Scene::sealed(&mut book)?;
    let member = Replica::try_from(2)?;
    let mut cabinet = Cabinet::new();
    cabinet.save(member, scene.card(7, true, scene.low))?;
    for kind in [0, 4, 5, 9, 255] {
        let entry = carrying(plain(101, kind, 9, 2), scene.high);
        replica_refuses(
            &rt,
            member,
            &mut cabinet,
            &book,
            &[(15, entry), (15, forged(entry))],
        );
    }
    Ok(())
}

// A tape of two records: the card, and one higher pair.
#[test]
fn only_a_higher_stamp_is_saved(rt: HostRuntime) -> Result<(), Fail> {
    let mut sealer = keyed(rt.alloc())?;
    let scene = Scene::sealed(&mut sealer)?;
    let member = Replica::try_from(2)?;
    let mut bytes = [0; 144];
    let mut tape = Tape::open(&mut bytes, 0)?;
    tape.save(member, scene.card(7, true, scene.low))?;
    let write = plain(1, 2, 9, 2);
    let ack = to(1, plain(102, 5, 9, 2));
    let middle = carrying(write, scene.middle);
    assert_eq!(rt;
        replica_takes(member, &mut tape, &sealer, middle),
        Ok(Some(ack))
    );
    assert_eq!(rt; tape.load(member), Some(scene.card(7, true, scene.middle)));
    assert_eq!(rt; tape.left(), Some(0));
    let pair = carrying(to(3, plain(102, 4, 7, 2)), scene.middle);
    replica_answers(
        &rt,
        member,
        &mut tape,
        &sealer,
        &[
            (carrying(write, scene.low), ack),
            (carrying(write, scene.twin), ack),
            (middle, ack),
            (plain(3, 1, 7, 2), pair),
        ],
    );
    let high = carrying(write, scene.high);
    let full = Err(refusal(9, Layer::Store, 2));
    replica_stays(&rt, member, &mut tape, &sealer, high, full);
    replica_refuses(&rt, member, &mut tape, &sealer, &[(12, forged(high))]);
    Ok(())
}
