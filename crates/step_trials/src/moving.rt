// A replica that is shown configurations: its own next one, and those that others come from.
use crate::scene::{
    FIRST, OPENING, Scene, carrying, configuration, forged, keyed, plain, showing, to,
};
use crate::trying::{refusal, replica_answers, replica_refuses, replica_stays, replica_takes};
use refusals::Layer;
use sealers::Book;
use std::test::Fail;
use stores::{Cabinet, Card, Store};
use tapes::Tape;
use wire::{Configuration, Entry, Replica, ReplicaSet, Seal, Text};

// The card of a replica that has just come to epoch 3; it keeps its pair.
fn moved(scene: &Scene) -> Card {
    Card {
        epoch: 3,
        set: ReplicaSet(60),
        seal: scene.next.seal,
        previous: ReplicaSet(30),
        previous_seal: scene.present.seal,
        heard: ReplicaSet(0),
        ready: false,
        pair: scene.middle,
    }
}

#[test]
fn the_next_configuration_is_taken(rt: HostRuntime) -> Result<(), Fail> {
    let mut sealer = keyed(rt.alloc())?;
    let scene = Scene::sealed(&mut sealer)?;
    let mut bytes = [0; 720];
    let mut tape = Tape::open(&mut bytes, 0)?;
    // ready, in both sets; ready, in the present one; not ready: in the next one, in none
    for (number, ready, is_next) in [
        (2, true, true),
        (1, true, false),
        (5, false, true),
        (0, false, false),
    ] {
        let replica = Replica::try_from(number)?;
        let transfer = showing(100 + replica.number(), 3, scene.present);
        let posted = is_next.then_some(transfer);
        tape.save(replica, scene.card(7, ready, scene.middle))?;
        let answer = replica_takes(replica, &mut tape, &sealer, showing(0, 7, scene.next));
        assert_eq!(rt; answer, Ok(posted), "replica {number}");
        assert_eq!(rt; tape.load(replica), Some(moved(&scene)), "replica {number}");
    }
    assert_eq!(rt; tape.left(), Some(2));
    Ok(())
}

#[test]
fn configurations_are_refused(rt: HostRuntime) -> Result<(), Fail> {
    let mut sealer = keyed(rt.alloc())?;
    let scene = Scene::sealed(&mut sealer)?;
    let later = showing(0, 7, configuration(&mut sealer, 4, 120)?);
    let next = showing(0, 7, scene.next);
    let member = Replica::try_from(2)?;
    let mut bytes = [0; 144];
    let mut tape = Tape::open(&mut bytes, 0)?;
    tape.save(member, scene.card(7, false, scene.middle))?;
    replica_refuses(
        &rt,
        member,
        &mut tape,
        &sealer,
        &[
            (16, showing(0, 7, scene.before)),
            (16, showing(0, 7, scene.present)),
            (16, later),
            (16, forged(later)),
            (12, forged(next)),
            (17, next),
        ],
    );
    tape.save(member, scene.card(7, true, scene.middle))?;
    replica_refuses(
        &rt,
        member,
        &mut tape,
        &sealer,
        &[(16, later), (16, forged(later)), (12, forged(next))],
    );
    let full = Err(refusal(9, Layer::Store, 2));
    replica_stays(&rt, member, &mut tape, &sealer, next, full);
    Ok(())
}

// After the last epoch there is none: epoch 0 is not the next.
#[test]
fn nothing_follows_the_last_epoch(rt: HostRuntime) -> Result<(), Fail> {
    let sealer = keyed(rt.alloc())?;
    let member = Replica::try_from(2)?;
    let mut cabinet = Cabinet::new();
    let last = Card {
        epoch: u32::MAX,
        set: ReplicaSet(30),
        seal: Seal(0),
        previous: ReplicaSet(15),
        previous_seal: Seal(0),
        heard: ReplicaSet(0),
        ready: true,
        pair: OPENING,
    };
    cabinet.save(member, last)?;
    replica_refuses(
        &rt,
        member,
        &mut cabinet,
        &sealer,
        &[(16, showing(0, 7, FIRST))],
    );
    Ok(())
}

// STOCK goes to whoever asked, with the round that a liar may have put there; a replica that is not ready gives it too.
#[test]
fn whoever_left_an_epoch_gives_stock(rt: HostRuntime) -> Result<(), Fail> {
    let mut rows = [Text::default(); 656];
    let mut book = Book::open(&mut rows, 4)?;
    let scene = Scene::sealed(&mut book)?;
    let member = Replica::try_from(2)?;
    let mut cabinet = Cabinet::new();
    for ready in [true, false] {
        cabinet.save(member, scene.card(7, ready, scene.middle))?;
        for (sender, round, shown) in [(104, 0, scene.before), (105, 7, FIRST)] {
            let asked = Entry {
                round,
                ..showing(sender, 3, shown)
            };
            let stock = to(sender, plain(102, 6, round, shown.epoch));
            let answer = carrying(stock, scene.middle);
            replica_answers(&rt, member, &mut cabinet, &book, &[(asked, answer)]);
        }
    }
    Ok(())
}

// BEHIND for its own epoch and for a later one; whoever is behind is shown the configuration.
#[test]
fn whoever_is_behind(rt: HostRuntime) -> Result<(), Fail> {
    let mut rows = [Text::default(); 656];
    let mut book = Book::open(&mut rows, 4)?;
    let scene = Scene::sealed(&mut book)?;
    let member = Replica::try_from(2)?;
    let config = showing(102, 7, scene.present);
    let mut cabinet = Cabinet::new();
    for ready in [true, false] {
        cabinet.save(member, scene.card(7, ready, scene.middle))?;
        replica_answers(
            &rt,
            member,
            &mut cabinet,
            &book,
            &[
                (showing(104, 3, scene.present), to(104, plain(102, 8, 0, 2))),
                (showing(105, 3, scene.next), to(105, plain(102, 8, 0, 3))),
                (plain(104, 8, 0, 3), config),
                (plain(1, 8, 9, 7), config),
            ],
        );
    }
    Ok(())
}

#[test]
fn transfers_are_refused(rt: HostRuntime) -> Result<(), Fail> {
    let mut rows = [Text::default(); 656];
    let mut book = Book::open(&mut rows, 4)?;
    let scene = Scene::sealed(&mut book)?;
    let before = showing(104, 3, scene.before);
    let wider = Configuration {
        set: ReplicaSet(31),
        ..FIRST
    };
    let mut cabinet = Cabinet::new();
    let member = Replica::try_from(2)?;
    cabinet.save(member, scene.card(7, true, scene.middle))?;
    replica_refuses(
        &rt,
        member,
        &mut cabinet,
        &book,
        &[
            (12, forged(before)),
            (12, forged(showing(104, 3, FIRST))),
            (12, showing(104, 3, wider)),
        ],
    );
    // the replicas 4 and 1 are in epoch 2; 4 was not in epoch 1, and 1 is not in epoch 3
    for (number, shown) in [(4, scene.before), (1, scene.next)] {
        let replica = Replica::try_from(number)?;
        cabinet.save(replica, scene.card(7, true, scene.middle))?;
        let transfer = showing(105, 3, shown);
        replica_refuses(
            &rt,
            replica,
            &mut cabinet,
            &book,
            &[(13, transfer), (12, forged(transfer))],
        );
    }
    Ok(())
}
