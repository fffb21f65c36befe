// Values, words and refusals at the ends of each range, one past them, and in words that no value has.
ghost use Rattle.std.specs.Prelude.{◌≡◌, Some};

use kinds::{BinWeight, Kind, KindFault, Word};
use lots::{Day, LotCard, Reason};
use refusals::{Fault, Layer, Refusal};
use std::test::Fail;

// Code for every kind rests on the kind's laws: a value's word gives back that value.
fn there_and_back<K: Kind>(value: K) -> Option<K>
    ensures { result ≡ Some value }
{
    K::from_word(value.to_word())
}

#[test]
fn weights_have_words(rt: HostRuntime) -> Result<(), Fail> {
    let cases = [
        (50_000, 412, 100_005_000_000_412),
        (0, 0, 100_000_000_000_000),
        (1_000_000_000, 99_999, 200_000_000_099_999),
        (-1_000_000_000, 0, 0),
        (-1, 99_999, 99_999_999_999_999),
    ];
    for (grams, lot, word) in cases {
        let weight = BinWeight::new(grams, lot)?;
        assert_eq!(rt; weight.to_word(), Word(word));
        assert_eq!(rt; BinWeight::from_word(Word(word)), Some(weight));
        assert_eq!(rt; there_and_back(weight), Some(weight));
        assert_eq!(rt; i64::from(weight.grams()), grams);
        assert_eq!(rt; u64::from(weight.lot()), lot);
    }
    assert_eq!(rt; BinWeight::NUMBER, 1);
    Ok(())
}

#[test]
fn numbers_outside_make_no_weight(rt: HostRuntime) {
    let cases = [
        (1_000_000_001, 0),
        (-1_000_000_001, 0),
        (0, 100_000),
        (i64::MAX, 0),
        (i64::MIN, 0),
        (0, u64::MAX),
    ];
    for (grams, lot) in cases {
        assert_eq!(rt; BinWeight::new(grams, lot), Err(KindFault::NoValue));
    }
    for word in [200_000_000_100_000, u64::MAX] {
        assert_eq!(rt; BinWeight::from_word(Word(word)), None);
    }
}

#[test]
fn cards_have_words(rt: HostRuntime) -> Result<(), Fail> {
    let cases = [
        (LotCard::quarantined(0)?, 4_294_967_296),
        (LotCard::quarantined(65_535)?, 4_295_032_831),
        (LotCard::released(300)?, 8_589_934_892),
        (LotCard::released(65_535)?, 8_590_000_127),
        (LotCard::blocked(7, 10)?, 12_885_360_650),
        (LotCard::blocked(0, 0)?, 12_884_901_888),
        (LotCard::blocked(255, 65_535)?, 12_901_679_103),
    ];
    for (card, word) in cases {
        assert_eq!(rt; card.to_word(), Word(word));
        assert_eq!(rt; LotCard::from_word(Word(word)), Some(card));
        assert_eq!(rt; there_and_back(card), Some(card));
    }
    assert_eq!(rt; LotCard::NUMBER, 2);
    Ok(())
}

#[test]
fn numbers_outside_make_no_card(rt: HostRuntime) {
    for day in [65_536, u64::MAX] {
        assert_eq!(rt; LotCard::quarantined(day), Err(KindFault::NoValue));
        assert_eq!(rt; LotCard::released(day), Err(KindFault::NoValue));
        assert_eq!(rt; LotCard::blocked(7, day), Err(KindFault::NoValue));
        assert_eq!(rt; Day::try_from(day), Err(KindFault::NoValue));
    }
    for reason in [256, u64::MAX] {
        assert_eq!(rt; LotCard::blocked(reason, 10), Err(KindFault::NoValue));
        assert_eq!(rt; Reason::try_from(reason), Err(KindFault::NoValue));
    }
}

#[test]
fn other_words_are_no_cards(rt: HostRuntime) {
    let words = [
        // the tags 0 and 4, and the largest
        0,
        300,
        4_294_967_295,
        17_179_869_184,
        u64::MAX,
        // a reason on a lot that is quarantined, and on one that is released
        4_294_967_296 + 65_536,
        8_589_934_592 + 7 * 65_536 + 300,
        // the reason 256
        12_884_901_888 + 256 * 65_536,
        12_884_901_888 + 65_535 * 65_536 + 65_535,
    ];
    for word in words {
        assert_eq!(rt; LotCard::from_word(Word(word)), None);
    }
}

#[test]
fn lots_are_drawn_before_their_day(rt: HostRuntime) -> Result<(), Fail> {
    let cases = [
        (LotCard::released(300)?, 299, true),
        (LotCard::released(300)?, 300, false),
        (LotCard::released(300)?, 301, false),
        (LotCard::released(0)?, 0, false),
        (LotCard::released(65_535)?, 65_534, true),
        (LotCard::released(65_535)?, 65_535, false),
        (LotCard::quarantined(300)?, 299, false),
        (LotCard::blocked(7, 300)?, 299, false),
    ];
    for (card, day, may) in cases {
        let day = Day::try_from(day)?;
        assert_eq!(rt; card.may_be_drawn(day), may);
    }
    Ok(())
}

#[test]
fn a_kind_refuses_by_21(rt: HostRuntime) {
    let refusal = Refusal {
        number: 21,
        layer: Layer::Kind,
        place: 0,
    };
    assert_eq!(rt; KindFault::NoValue.told(), refusal);
    assert_eq!(rt; Layer::Kind.name(), "kind");
}

#[test]
fn values_are_printed(rt: HostRuntime) -> Result<(), Fail> {
    let heap = rt.alloc();
    let weight = BinWeight::new(-50_000, 412)?;
    assert_eq!(rt; weight.to_string(heap)?.as_str(), "-50000 g, lot 412");
    let card = LotCard::blocked(7, 10)?;
    assert_eq!(rt;
        card.to_string(heap)?.as_str(),
        "blocked for reason 7 since day 10"
    );
    let card = LotCard::quarantined(5)?;
    assert_eq!(rt; card.to_string(heap)?.as_str(), "quarantined since day 5");
    let card = LotCard::released(300)?;
    assert_eq!(rt; card.to_string(heap)?.as_str(), "released until day 300");
    Ok(())
}
