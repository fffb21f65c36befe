// Answers that a client does not count.
use crate::scene::{OPENING, Scene, carrying, forged, keyed, pair, plain};
use crate::trying::{client_refuses, client_takes};
use clients::{Line, Stage};
use sealers::Book;
use std::test::Fail;
use wire::{Client, Entry, Pair, ReplicaSet, Seal, Text};

// A reading client in epoch 2 and round 8, which has counted the replica 1.
fn line(scene: &Scene) -> Line {
    Line {
        counted: ReplicaSet(2),
        highest: scene.low,
        ..scene.line(Stage::Reading, None)
    }
}

fn paired(sender: u8, round: u32, pair: Pair) -> Entry {
    carrying(plain(sender, 4, round, 2), pair)
}

fn at(stage: Stage, line: Line) -> Line {
    Line { stage, ..line }
}

#[test]
fn pairs_that_nobody_awaits(rt: HostRuntime) -> Result<(), Fail> {
    let mut sealer = keyed(rt.alloc())?;
    let scene = Scene::sealed(&mut sealer)?;
    let client = Client::try_from(1)?;
    let reading = line(&scene);
    let good = paired(102, 8, scene.high);
    let strange = forged(paired(100, 8, scene.high));
    client_refuses(
        &rt,
        client,
        &mut sealer,
        &[
            (15, at(Stage::Idle, reading), good),
            (15, at(Stage::Writing, reading), good),
            (15, at(Stage::WritingBack, reading), good),
            (15, at(Stage::Over, reading), good),
            (15, at(Stage::Over, reading), strange),
            (15, reading, paired(102, 7, scene.high)),
            (15, reading, paired(102, 9, scene.high)),
            (15, reading, forged(paired(100, 7, scene.high))),
        ],
    );
    Ok(())
}

#[test]
fn pairs_are_refused(rt: HostRuntime) -> Result<(), Fail> {
    let mut rows = [Text::default(); 656];
    let mut book = Book::open(&mut rows, 4)?;
    let scene = Scene::sealed(&mut book)?;
    let client = Client::try_from(1)?;
    let reading = line(&scene);
    let good = paired(102, 8, scene.high);
    let again = paired(101, 8, scene.high);
    for sender in [100, 105, 99, 2, 0, 255] {
        let strange = paired(sender, 8, scene.high);
        client_refuses(
            &rt,
            client,
            &mut book,
            &[(13, reading, strange), (13, reading, forged(strange))],
        );
    }
    client_refuses(
        &rt,
        client,
        &mut book,
        &[
            (14, reading, again),
            (14, reading, forged(again)),
            (12, reading, forged(good)),
        ],
    );
    Ok(())
}

// The opening pair has the seal 0; any other is a client's, and the hall has three of them.
#[test]
fn pairs_that_no_client_wrote(rt: HostRuntime) -> Result<(), Fail> {
    let mut sealer = keyed(rt.alloc())?;
    let scene = Scene::sealed(&mut sealer)?;
    let client = Client::try_from(1)?;
    let opening = Pair {
        seal: Seal(1),
        ..OPENING
    };
    for unwritten in [
        opening,
        Pair::default(),
        pair(&mut sealer, 6, 0, 6)?,
        pair(&mut sealer, 6, 4, 406)?,
        pair(&mut sealer, 6, 100, 10006)?,
    ] {
        let answer = paired(102, 8, unwritten);
        client_refuses(&rt, client, &mut sealer, &[(12, line(&scene), answer)]);
    }
    Ok(())
}

#[test]
fn acks_are_refused(rt: HostRuntime) -> Result<(), Fail> {
    let mut sealer = keyed(rt.alloc())?;
    let scene = Scene::sealed(&mut sealer)?;
    let client = Client::try_from(1)?;
    let reading = line(&scene);
    let ack = plain(102, 5, 8, 2);
    client_refuses(
        &rt,
        client,
        &mut sealer,
        &[
            (15, at(Stage::Idle, reading), ack),
            (15, reading, ack),
            (15, at(Stage::Over, reading), ack),
            (15, reading, plain(100, 5, 8, 2)),
        ],
    );
    for stage in [Stage::Writing, Stage::WritingBack] {
        let writing = at(stage, reading);
        client_refuses(
            &rt,
            client,
            &mut sealer,
            &[
                (15, writing, plain(102, 5, 7, 2)),
                (15, writing, plain(102, 5, 9, 2)),
                (15, writing, plain(100, 5, 7, 2)),
                (13, writing, plain(100, 5, 8, 2)),
                (13, writing, plain(105, 5, 8, 2)),
                (13, writing, plain(2, 5, 8, 2)),
                (14, writing, plain(101, 5, 8, 2)),
            ],
        );
    }
    Ok(())
}

#[test]
fn kinds_that_no_client_takes(rt: HostRuntime) -> Result<(), Fail> {
    let mut sealer = keyed(rt.alloc())?;
    let scene = Scene::sealed(&mut sealer)?;
    let client = Client::try_from(1)?;
    let reading = line(&scene);
    for kind in [0, 1, 2, 3, 6, 9, 255] {
        let entry = carrying(plain(102, kind, 8, 2), scene.high);
        client_refuses(
            &rt,
            client,
            &mut sealer,
            &[
                (15, reading, entry),
                (15, at(Stage::Writing, reading), forged(entry)),
            ],
        );
    }
    Ok(())
}

// One more ACK than none is counted, and nothing is posted.
#[test]
fn an_ack_is_counted(rt: HostRuntime) -> Result<(), Fail> {
    let mut sealer = keyed(rt.alloc())?;
    let scene = Scene::sealed(&mut sealer)?;
    let client = Client::try_from(1)?;
    for stage in [Stage::Writing, Stage::WritingBack] {
        let mut writing = at(stage, line(&scene));
        let ack = plain(104, 5, 8, 2);
        assert_eq!(rt;
            client_takes(client, &mut writing, &mut sealer, ack),
            Ok(None)
        );
        let expected = Line {
            counted: ReplicaSet(18),
            ..at(stage, line(&scene))
        };
        assert_eq!(rt; writing, expected);
    }
    Ok(())
}
