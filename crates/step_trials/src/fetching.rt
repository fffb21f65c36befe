// A replica that fetches stock from the members of the set before.
use crate::scene::{OPENING, Scene, carrying, forged, keyed, plain};
use crate::trying::{refusal, replica_refuses, replica_stays, replica_takes};
use refusals::Layer;
use sealers::Book;
use std::test::Fail;
use stores::{Cabinet, Store};
use tapes::Tape;
use wire::{Entry, Pair, Replica, Text};

fn stock(sender: u8, epoch: u32, pair: Pair) -> Entry {
    carrying(plain(sender, 6, 0, epoch), pair)
}

// Stock comes one by one; after each, whom the replica has heard, whether it is ready, and its pair.
#[test]
fn three_make_it_ready(rt: HostRuntime) -> Result<(), Fail> {
    let mut sealer = keyed(rt.alloc())?;
    let scene = Scene::sealed(&mut sealer)?;
    let four = Replica::try_from(4)?;
    let mut bytes = [0; 288];
    let mut tape = Tape::open(&mut bytes, 0)?;
    tape.save(four, scene.card(0, false, OPENING))?;
    for (sender, pair, heard, ready, kept) in [
        (103, scene.low, 8, false, scene.low),
        (100, scene.high, 9, false, scene.high),
        (101, scene.middle, 11, true, scene.high),
    ] {
        let answer = replica_takes(four, &mut tape, &sealer, stock(sender, 1, pair));
        assert_eq!(rt; answer, Ok(None), "from {sender}");
        let expected = scene.card(heard, ready, kept);
        assert_eq!(rt; tape.load(four), Some(expected), "from {sender}");
    }
    let fourth = stock(102, 1, scene.high);
    replica_refuses(
        &rt,
        four,
        &mut tape,
        &sealer,
        &[(15, fourth), (15, forged(fourth))],
    );
    Ok(())
}

#[test]
fn of_equal_stamps_the_first_is_kept(rt: HostRuntime) -> Result<(), Fail> {
    let mut sealer = keyed(rt.alloc())?;
    let scene = Scene::sealed(&mut sealer)?;
    let four = Replica::try_from(4)?;
    let mut cabinet = Cabinet::new();
    cabinet.save(four, scene.card(0, false, scene.low))?;
    for (sender, pair, heard) in [(100, scene.twin, 1), (101, scene.middle, 3)] {
        let answer = replica_takes(four, &mut cabinet, &sealer, stock(sender, 1, pair));
        assert_eq!(rt; answer, Ok(None), "from {sender}");
        let expected = scene.card(heard, false, scene.twin);
        assert_eq!(rt; cabinet.load(four), Some(expected), "from {sender}");
    }
    Ok(())
}

#[test]
fn stock_that_nobody_awaits(rt: HostRuntime) -> Result<(), Fail> {
    let mut rows = [Text::default(); 656];
    let mut book = Book::open(&mut rows, 4)?;
    let scene = Scene::sealed(&mut book)?;
    let good = stock(101, 1, scene.high);
    let mut cabinet = Cabinet::new();
    // not in its set; ready
    for (number, ready) in [(0, false), (2, true)] {
        let replica = Replica::try_from(number)?;
        cabinet.save(replica, scene.card(0, ready, scene.low))?;
        replica_refuses(
            &rt,
            replica,
            &mut cabinet,
            &book,
            &[
                (15, good),
                (15, stock(105, 1, scene.high)),
                (15, forged(good)),
            ],
        );
    }
    // of its own epoch, and of the one before the last
    let four = Replica::try_from(4)?;
    cabinet.save(four, scene.card(0, false, scene.low))?;
    replica_refuses(
        &rt,
        four,
        &mut cabinet,
        &book,
        &[
            (15, stock(101, 2, scene.high)),
            (15, stock(101, 0, scene.high)),
            (15, stock(101, u32::MAX, scene.high)),
            (15, forged(stock(105, 2, scene.high))),
        ],
    );
    Ok(())
}

#[test]
fn stock_is_refused(rt: HostRuntime) -> Result<(), Fail> {
    let mut rows = [Text::default(); 656];
    let mut book = Book::open(&mut rows, 4)?;
    let scene = Scene::sealed(&mut book)?;
    let four = Replica::try_from(4)?;
    let mut bytes = [0; 72];
    let mut tape = Tape::open(&mut bytes, 0)?;
    // it has heard the replica 1
    tape.save(four, scene.card(2, false, scene.low))?;
    for sender in [104, 105, 99, 1, 0, 255] {
        let strange = stock(sender, 1, scene.high);
        replica_refuses(
            &rt,
            four,
            &mut tape,
            &book,
            &[(13, strange), (13, forged(strange))],
        );
    }
    let again = stock(101, 1, scene.high);
    let good = stock(100, 1, scene.high);
    replica_refuses(
        &rt,
        four,
        &mut tape,
        &book,
        &[(14, again), (14, forged(again)), (12, forged(good))],
    );
    let full = Err(refusal(9, Layer::Store, 1));
    replica_stays(&rt, four, &mut tape, &book, good, full);
    Ok(())
}
