// Rounds of a client that close: what was heard, and what comes of it.
use crate::scene::{OPENING, Scene, carrying, configuration, keyed, pair, plain};
use crate::trying::{client_refuses, client_takes, refusal};
use clients::{Line, Stage};
use kinds::Word;
use refusals::Layer;
use sealers::{Book, Sealer};
use std::process::Abort;
use std::test::Fail;
use wire::{Client, Entry, Pair, ReplicaSet, Seal, Stamp, Text};

const WRITES: Option<Word> = Some(Word(412));

// The last round, and the highest count.
const LAST: u32 = 4_294_967_295;

fn paired(sender: u8, round: u32, pair: Pair) -> Entry {
    carrying(plain(sender, 4, round, 2), pair)
}

// The client hears these pairs from the replicas 1, 2 and so on, and posts nothing.
fn hears<L: Sealer>(
    rt: &impl Abort,
    client: Client,
    line: &mut Line,
    sealer: &mut L,
    pairs: &[Pair],
) {
    for (sender, &pair) in (101..).zip(pairs) {
        let entry = paired(sender, line.round, pair);
        assert_eq!(rt;
            client_takes(client, line, sealer, entry),
            Ok(None),
            "from {sender}"
        );
    }
}

// ACKs from three replicas: after two the round is still open, after the third the operation is over with its pair.
fn ends_by_acks<L: Sealer>(rt: &impl Abort, client: Client, line: &mut Line, sealer: &mut L) {
    let open = *line;
    for (sender, counted, stage) in [
        (104, 16, open.stage),
        (101, 18, open.stage),
        (102, 22, Stage::Over),
    ] {
        let ack = plain(sender, 5, open.round, 2);
        assert_eq!(rt;
            client_takes(client, line, sealer, ack),
            Ok(None),
            "from {sender}"
        );
        let expected = Line {
            stage,
            counted: ReplicaSet(counted),
            ..open
        };
        assert_eq!(rt; *line, expected, "from {sender}");
    }
}

// Two answers leave the round open; a third with the same stamp ends the read, with the pair that came first.
#[test]
fn equal_stamps_end_a_read(rt: HostRuntime) -> Result<(), Fail> {
    let mut sealer = keyed(rt.alloc())?;
    let scene = Scene::sealed(&mut sealer)?;
    let client = Client::try_from(1)?;
    for pairs in [
        [OPENING, OPENING, OPENING],
        [scene.high, scene.high, scene.high],
        [scene.middle, scene.twin, scene.twin],
        [scene.twin, scene.middle, scene.middle],
    ] {
        let mut reading = scene.line(Stage::Reading, None);
        hears(&rt, client, &mut reading, &mut sealer, &pairs[0..2]);
        let two = Line {
            counted: ReplicaSet(6),
            highest: pairs[0],
            ..scene.line(Stage::Reading, None)
        };
        assert_eq!(rt; reading, two);
        let third = paired(103, 8, pairs[2]);
        assert_eq!(rt;
            client_takes(client, &mut reading, &mut sealer, third),
            Ok(None)
        );
        let over = Line {
            stage: Stage::Over,
            counted: ReplicaSet(14),
            ..two
        };
        assert_eq!(rt; reading, over);
    }
    Ok(())
}

// The highest pair goes out in the next round, of equal ones the first heard; three ACKs end the read.
#[test]
fn unequal_stamps_are_written_back(rt: HostRuntime) -> Result<(), Fail> {
    let mut sealer = keyed(rt.alloc())?;
    let scene = Scene::sealed(&mut sealer)?;
    let client = Client::try_from(1)?;
    let Scene {
        low,
        middle,
        twin,
        high,
        ..
    } = scene;
    for (pairs, highest) in [
        ([low, high, middle], high),
        ([low, low, high], high),
        ([low, high, high], high),
        ([high, low, low], high),
        ([low, OPENING, OPENING], low),
        ([low, middle, twin], middle),
        ([twin, middle, low], twin),
    ] {
        let mut reading = scene.line(Stage::Reading, None);
        hears(&rt, client, &mut reading, &mut sealer, &pairs[0..2]);
        let third = paired(103, 8, pairs[2]);
        let answer = client_takes(client, &mut reading, &mut sealer, third);
        let write = carrying(plain(1, 2, 9, 2), highest);
        assert_eq!(rt; answer, Ok(Some(write)));
        let back = Line {
            stage: Stage::WritingBack,
            round: 9,
            highest,
            ..scene.line(Stage::Reading, None)
        };
        assert_eq!(rt; reading, back);
        ends_by_acks(&rt, client, &mut reading, &mut sealer);
    }
    Ok(())
}

// The count is one above the larger of the highest heard and the client's own last; the book's seals say which row they are.
#[test]
fn a_write_takes_its_stamp(rt: HostRuntime) -> Result<(), Fail> {
    let mut rows = [Text::default(); 1312];
    let mut book = Book::open(&mut rows, 8)?;
    let scene = Scene::sealed(&mut book)?;
    let first = pair(&mut book, 1, 3, 301)?;
    let client = Client::try_from(1)?;
    // client 1 has used its row 8; the next ones are 9, 10 and 11
    for (heard, last_count, count, seal) in [
        ([first, OPENING, first], 3, 4, 9),
        ([scene.low, scene.high, OPENING], 3, 6, 10),
        ([scene.high, scene.high, scene.high], 5, 6, 11),
    ] {
        let begun = Line {
            last_count,
            ..scene.line(Stage::Reading, WRITES)
        };
        let mut line = begun;
        hears(&rt, client, &mut line, &mut book, &heard[0..2]);
        let third = paired(103, 8, heard[2]);
        let answer = client_takes(client, &mut line, &mut book, third);
        let written = Pair {
            stamp: Stamp { count, writer: 1 },
            word: Word(412),
            seal: Seal(seal),
        };
        assert_eq!(rt; answer, Ok(Some(carrying(plain(1, 2, 9, 2), written))));
        assert_eq!(rt; book.left(1), 15 - seal);
        let writing = Line {
            stage: Stage::Writing,
            round: 9,
            highest: written,
            last_count: count,
            ..begun
        };
        assert_eq!(rt; line, writing);
        ends_by_acks(&rt, client, &mut line, &mut book);
    }
    Ok(())
}

// A key's seal is checked by the sealer itself.
#[test]
fn a_write_is_genuine(rt: HostRuntime) -> Result<(), Fail> {
    let mut sealer = keyed(rt.alloc())?;
    let scene = Scene::sealed(&mut sealer)?;
    let client = Client::try_from(1)?;
    let mut line = scene.line(Stage::Reading, WRITES);
    hears(&rt, client, &mut line, &mut sealer, &[OPENING, OPENING]);
    let third = paired(103, 8, OPENING);
    let write = client_takes(client, &mut line, &mut sealer, third)
        .ok()
        .flatten()
        .unwrap_or_default();
    let text = Text {
        tag: 1,
        party: 1,
        number: 4,
        body: 412,
    };
    assert_eq!(rt; sealer.check(text, write.seal), true);
    assert_eq!(rt; sealer.left(1), 98);
    Ok(())
}

// There is no next round, or no next count: the third answer is refused, and not counted.
#[test]
fn a_round_that_cannot_close(rt: HostRuntime) -> Result<(), Fail> {
    let mut sealer = keyed(rt.alloc())?;
    let scene = Scene::sealed(&mut sealer)?;
    let Scene { low, high, .. } = scene;
    let top = pair(&mut sealer, LAST, 2, 412)?;
    let client = Client::try_from(1)?;
    for (word, round, last_count, highest, heard) in [
        (None, LAST, 3, low, high),
        (WRITES, LAST, 3, low, high),
        (WRITES, 8, LAST, low, high),
        (WRITES, 8, 3, low, top),
        (WRITES, 8, 3, top, high),
    ] {
        let open = Line {
            round,
            counted: ReplicaSet(6),
            highest,
            last_count,
            ..scene.line(Stage::Reading, word)
        };
        let third = paired(103, round, heard);
        client_refuses(&rt, client, &mut sealer, &[(10, open, third)]);
    }
    Ok(())
}

// A read whose stamps agree needs no further round.
#[test]
fn the_last_round_can_end_a_read(rt: HostRuntime) -> Result<(), Fail> {
    let mut sealer = keyed(rt.alloc())?;
    let scene = Scene::sealed(&mut sealer)?;
    let client = Client::try_from(1)?;
    let mut line = Line {
        round: LAST,
        ..scene.line(Stage::Reading, None)
    };
    hears(&rt, client, &mut line, &mut sealer, &[scene.low; 3]);
    let over = Line {
        round: LAST,
        counted: ReplicaSet(14),
        highest: scene.low,
        ..scene.line(Stage::Over, None)
    };
    assert_eq!(rt; line, over);
    Ok(())
}

// The client's only seal is used.
#[test]
fn a_write_without_a_seal(rt: HostRuntime) -> Result<(), Fail> {
    let mut rows = [Text::default(); 164];
    let mut book = Book::open(&mut rows, 1)?;
    let present = configuration(&mut book, 2, 30)?;
    let low = pair(&mut book, 4, 1, 104)?;
    let client = Client::try_from(1)?;
    let writing = Line {
        stage: Stage::Reading,
        word: WRITES,
        round: 8,
        counted: ReplicaSet(6),
        highest: low,
        ..Line::new(present)
    };
    let no_seal = Err(refusal(8, Layer::Sealer, 1));
    let mut kept = writing;
    for sender in [103, 103, 104] {
        let third = paired(sender, 8, low);
        assert_eq!(rt; client_takes(client, &mut kept, &mut book, third), no_seal);
        assert_eq!(rt; kept, writing);
        assert_eq!(rt; book.left(1), 0);
    }
    let highest = Line {
        last_count: LAST,
        ..writing
    };
    client_refuses(
        &rt,
        client,
        &mut book,
        &[(10, highest, paired(103, 8, low))],
    );
    Ok(())
}
