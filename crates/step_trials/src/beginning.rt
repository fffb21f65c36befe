// The begin of a read and of a write.
use crate::scene::{Scene, configuration, keyed, pair, plain};
use crate::trying::{begins, refusal};
use clients::{Line, Stage};
use kinds::Word;
use refusals::Layer;
use sealers::{Book, Sealer, SealerFault};
use std::test::Fail;
use wire::{Client, ReplicaSet, Text};

// The line of a new client, and a seal of client 1 that is used.
fn spent<L: Sealer>(sealer: &mut L) -> Result<Line, SealerFault> {
    let line = Line::new(configuration(sealer, 2, 30)?);
    pair(sealer, 3, 1, 103)?;
    Ok(line)
}

#[test]
fn the_next_round_asks_for_pairs(rt: HostRuntime) -> Result<(), Fail> {
    let mut sealer = keyed(rt.alloc())?;
    let scene = Scene::sealed(&mut sealer)?;
    let client = Client::try_from(1)?;
    // what was heard in an earlier operation is forgotten
    let used = Line {
        counted: ReplicaSet(14),
        highest: scene.high,
        agree: false,
        word: Some(Word(300)),
        ..scene.line(Stage::Idle, None)
    };
    for word in [None, Some(Word(412))] {
        let mut begun = used;
        let read = plain(1, 1, 9, 2);
        assert_eq!(rt; begins(client, &mut begun, word, &sealer), Ok(read));
        let expected = Line {
            round: 9,
            ..scene.line(Stage::Reading, word)
        };
        assert_eq!(rt; begun, expected);
    }
    let mut last = Line {
        round: 4_294_967_294,
        ..scene.line(Stage::Idle, None)
    };
    let read = plain(1, 1, 4_294_967_295, 2);
    assert_eq!(rt; begins(client, &mut last, None, &sealer), Ok(read));
    Ok(())
}

// A new client has had no round and has written nothing.
#[test]
fn the_first_round_is_1(rt: HostRuntime) -> Result<(), Fail> {
    let mut sealer = keyed(rt.alloc())?;
    let scene = Scene::sealed(&mut sealer)?;
    let client = Client::try_from(1)?;
    let mut line = Line::new(scene.present);
    let read = plain(1, 1, 1, 2);
    assert_eq!(rt; begins(client, &mut line, None, &sealer), Ok(read));
    let expected = Line {
        round: 1,
        last_count: 0,
        ..scene.line(Stage::Reading, None)
    };
    assert_eq!(rt; line, expected);
    Ok(())
}

// In any other stage, for a read and for a write, and before all else.
#[test]
fn one_operation_at_a_time(rt: HostRuntime) -> Result<(), Fail> {
    let mut rows = [Text::default(); 164];
    let mut book = Book::open(&mut rows, 1)?;
    let new = spent(&mut book)?;
    let client = Client::try_from(1)?;
    for stage in [
        Stage::Reading,
        Stage::Writing,
        Stage::WritingBack,
        Stage::Over,
    ] {
        for (round, word) in [(8, None), (8, Some(Word(412))), (u32::MAX, Some(Word(412)))] {
            let busy = Line {
                stage,
                round,
                ..new
            };
            let mut kept = busy;
            let refused = Err(refusal(7, Layer::Client, 1));
            assert_eq!(rt; begins(client, &mut kept, word, &book), refused);
            assert_eq!(rt; kept, busy);
        }
    }
    Ok(())
}

// A client that has used its only seal, in the last round and before it.
#[test]
fn begins_are_refused(rt: HostRuntime) -> Result<(), Fail> {
    let mut rows = [Text::default(); 164];
    let mut book = Book::open(&mut rows, 1)?;
    let new = spent(&mut book)?;
    let client = Client::try_from(1)?;
    let word = Some(Word(412));
    let too_high = refusal(10, Layer::Client, 1);
    let no_seal = refusal(8, Layer::Sealer, 1);
    for (round, word, refused) in [
        (u32::MAX, None, too_high),
        (u32::MAX, word, too_high),
        (8, word, no_seal),
    ] {
        let before = Line { round, ..new };
        let mut kept = before;
        assert_eq!(rt; begins(client, &mut kept, word, &book), Err(refused));
        assert_eq!(rt; kept, before);
    }
    let mut read = new;
    assert!(rt;
        begins(client, &mut read, None, &book).is_ok(),
        "a read needs no seal"
    );
    let mut other = new;
    let two = Client::try_from(2)?;
    assert!(rt;
        begins(two, &mut other, word, &book).is_ok(),
        "client 2 has a seal"
    );
    Ok(())
}
