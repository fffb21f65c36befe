// Numbers of parties, sets, the order of stamps, and the bytes of sealed texts.
use kinds::Word;
use std::test::Fail;
use wire::{
    Client, Configuration, Entry, EntryKind, Pair, Party, Replica, ReplicaSet, Seal, Stamp, Text,
    UnknownKind,
};

#[test]
fn parties_have_numbers(rt: HostRuntime) -> Result<(), Fail> {
    for number in [0, 1, 32, 100, 163] {
        let party = Party::try_from(number)?;
        assert_eq!(rt; u64::from(u8::from(party)), number);
    }
    for number in [33, 99, 164, 255, 256, u64::MAX] {
        assert!(rt; Party::try_from(number).is_err());
    }
    assert!(rt; Replica::try_from(63).is_ok());
    assert!(rt; Replica::try_from(64).is_err());
    assert!(rt; Client::try_from(0).is_err());
    assert!(rt; Client::try_from(32).is_ok());
    assert!(rt; Client::try_from(33).is_err());
    Ok(())
}

#[test]
fn replicas_and_clients_are_shown_by_their_names(rt: HostRuntime) -> Result<(), Fail> {
    let replica = Replica::try_from(3)?;
    let client = Client::try_from(3)?;
    let shown = format!(in rt.alloc(); "{replica:?}, {client:?}")?;
    assert_eq!(rt;
        shown.as_str(),
        "Replica { number: 3 }, Client { number: 3 }"
    );
    Ok(())
}

#[test]
fn sets_hold_what_was_put_in(rt: HostRuntime) -> Result<(), Fail> {
    let first = Replica::try_from(0)?;
    let last = Replica::try_from(63)?;
    let set = ReplicaSet(14);
    assert_eq!(rt; set.contains(first), false);
    assert_eq!(rt; set.with(first), ReplicaSet(15));
    assert_eq!(rt; set.with(first).with(first).count(), 4);
    let high = set.with(last);
    assert_eq!(rt; high, ReplicaSet(9_223_372_036_854_775_822));
    assert_eq!(rt; high.contains(last), true);
    assert_eq!(rt; high.contains(first), false);
    assert_eq!(rt; high.count(), 4);
    Ok(())
}

#[test]
fn counts_compare_before_writers(rt: HostRuntime) {
    let low = Stamp {
        count: 3,
        writer: 9,
    };
    let high = Stamp {
        count: 4,
        writer: 1,
    };
    let higher = Stamp {
        count: 4,
        writer: 2,
    };
    assert_eq!(rt; high.is_above(low), true);
    assert_eq!(rt; low.is_above(high), false);
    assert_eq!(rt; higher.is_above(high), true);
    assert_eq!(rt; high.is_above(high), false);
}

#[test]
fn entries_carry_configurations(rt: HostRuntime) {
    let mut entry = Entry::default();
    entry.epoch = 2;
    entry.word = Word(15);
    entry.seal = Seal(7);
    let expected = Configuration {
        epoch: 2,
        set: ReplicaSet(15),
        seal: Seal(7),
    };
    assert_eq!(rt; entry.configuration(), expected);
    assert_eq!(rt; EntryKind::try_from(0), Err(UnknownKind(0)));
    assert_eq!(rt; EntryKind::try_from(8), Ok(EntryKind::Behind));
    assert_eq!(rt; EntryKind::try_from(9), Err(UnknownKind(9)));
    assert_eq!(rt; u8::from(EntryKind::Stock), 6);
}

#[test]
fn texts_have_fourteen_bytes(rt: HostRuntime) {
    let pair = Pair {
        stamp: Stamp {
            count: 0x0403_0201,
            writer: 32,
        },
        word: Word(0x0c0b_0a09_0807_0605),
        seal: Seal(99),
    };
    assert_eq!(rt;
        Text::of_pair(1, pair).bytes(),
        [1, 32, 1, 2, 3, 4, 5, 6, 7, 8, 9, 10, 11, 12]
    );
    let configuration = Configuration {
        epoch: 258,
        set: ReplicaSet(15),
        seal: Seal(99),
    };
    assert_eq!(rt;
        Text::from(configuration).bytes(),
        [67, 0, 2, 1, 0, 0, 15, 0, 0, 0, 0, 0, 0, 0]
    );
}
