// A client that is shown configurations, and one that is ahead of a replica.
use crate::scene::{Scene, carrying, configuration, forged, keyed, plain, showing};
use crate::trying::{client_refuses, client_takes};
use clients::{Line, Stage};
use kinds::Word;
use sealers::Book;
use std::test::Fail;
use wire::{Client, Pair, ReplicaSet, Text};

const WRITES: Option<Word> = Some(Word(104));

// A client in epoch 2 and round 8, which has counted the replicas 1 and 2.
fn line(scene: &Scene, stage: Stage, word: Option<Word>) -> Line {
    Line {
        counted: ReplicaSet(6),
        highest: scene.low,
        agree: false,
        ..scene.line(stage, word)
    }
}

// Without an open round nothing but the configuration changes, in the last round too.
#[test]
fn a_client_without_an_open_round(rt: HostRuntime) -> Result<(), Fail> {
    let mut sealer = keyed(rt.alloc())?;
    let scene = Scene::sealed(&mut sealer)?;
    let client = Client::try_from(1)?;
    let shown = showing(103, 7, scene.next);
    for (stage, round) in [
        (Stage::Idle, 8),
        (Stage::Over, 8),
        (Stage::Idle, u32::MAX),
        (Stage::Over, u32::MAX),
    ] {
        let before = Line {
            round,
            ..line(&scene, stage, WRITES)
        };
        let mut after = before;
        assert_eq!(rt;
            client_takes(client, &mut after, &mut sealer, shown),
            Ok(None)
        );
        let expected = Line {
            configuration: scene.next,
            ..before
        };
        assert_eq!(rt; after, expected);
    }
    Ok(())
}

// A writing client keeps its pair; all else is read again, with nothing counted or heard.
#[test]
fn an_open_round_begins_anew(rt: HostRuntime) -> Result<(), Fail> {
    let mut sealer = keyed(rt.alloc())?;
    let scene = Scene::sealed(&mut sealer)?;
    let client = Client::try_from(1)?;
    let shown = showing(0, 7, scene.next);
    let no_pair = Pair::default();
    let read = plain(1, 1, 9, 3);
    let write = carrying(plain(1, 2, 9, 3), scene.low);
    for (stage, word, again, highest, posted) in [
        (Stage::Reading, None, Stage::Reading, no_pair, read),
        (Stage::Reading, WRITES, Stage::Reading, no_pair, read),
        (Stage::WritingBack, None, Stage::Reading, no_pair, read),
        (Stage::Writing, WRITES, Stage::Writing, scene.low, write),
    ] {
        let mut after = line(&scene, stage, word);
        let answer = client_takes(client, &mut after, &mut sealer, shown);
        assert_eq!(rt; answer, Ok(Some(posted)));
        let expected = Line {
            configuration: scene.next,
            round: 9,
            highest,
            ..scene.line(again, word)
        };
        assert_eq!(rt; after, expected);
    }
    Ok(())
}

#[test]
fn configurations_are_refused(rt: HostRuntime) -> Result<(), Fail> {
    let mut rows = [Text::default(); 656];
    let mut book = Book::open(&mut rows, 4)?;
    let scene = Scene::sealed(&mut book)?;
    let client = Client::try_from(1)?;
    let same = showing(0, 7, scene.present);
    let next = showing(0, 7, scene.next);
    for stage in [
        Stage::Idle,
        Stage::Reading,
        Stage::Writing,
        Stage::WritingBack,
        Stage::Over,
    ] {
        let line = line(&scene, stage, WRITES);
        client_refuses(
            &rt,
            client,
            &mut book,
            &[
                (16, line, showing(0, 7, scene.before)),
                (16, line, same),
                (16, line, forged(same)),
                (12, line, forged(next)),
            ],
        );
    }
    Ok(())
}

// After the last round an open one cannot begin anew, and the configuration is not taken.
#[test]
fn no_round_is_left(rt: HostRuntime) -> Result<(), Fail> {
    let mut sealer = keyed(rt.alloc())?;
    let scene = Scene::sealed(&mut sealer)?;
    let client = Client::try_from(1)?;
    let same = showing(0, 7, scene.present);
    let next = showing(0, 7, scene.next);
    for stage in [Stage::Reading, Stage::Writing, Stage::WritingBack] {
        let last = Line {
            round: u32::MAX,
            ..line(&scene, stage, WRITES)
        };
        client_refuses(
            &rt,
            client,
            &mut sealer,
            &[(10, last, next), (12, last, forged(next)), (16, last, same)],
        );
    }
    Ok(())
}

#[test]
fn a_client_may_skip_configurations(rt: HostRuntime) -> Result<(), Fail> {
    let mut sealer = keyed(rt.alloc())?;
    let scene = Scene::sealed(&mut sealer)?;
    let client = Client::try_from(1)?;
    let later = configuration(&mut sealer, 7, 240)?;
    let mut skips = line(&scene, Stage::Idle, None);
    let shown = showing(0, 7, later);
    assert_eq!(rt;
        client_takes(client, &mut skips, &mut sealer, shown),
        Ok(None)
    );
    assert_eq!(rt; skips.configuration, later);
    Ok(())
}

#[test]
fn a_replica_behind_is_shown_the_configuration(rt: HostRuntime) -> Result<(), Fail> {
    let mut sealer = keyed(rt.alloc())?;
    let scene = Scene::sealed(&mut sealer)?;
    let client = Client::try_from(1)?;
    let behind = plain(103, 8, 8, 2);
    for stage in [Stage::Reading, Stage::Writing, Stage::WritingBack] {
        let open = line(&scene, stage, WRITES);
        let mut kept = open;
        let answer = client_takes(client, &mut kept, &mut sealer, behind);
        assert_eq!(rt; answer, Ok(Some(showing(1, 7, scene.present))));
        assert_eq!(rt; kept, open);
        client_refuses(
            &rt,
            client,
            &mut sealer,
            &[
                (15, open, plain(103, 8, 7, 2)),
                (15, open, plain(103, 8, 9, 2)),
            ],
        );
    }
    for stage in [Stage::Idle, Stage::Over] {
        let closed = line(&scene, stage, WRITES);
        client_refuses(&rt, client, &mut sealer, &[(15, closed, behind)]);
    }
    Ok(())
}
