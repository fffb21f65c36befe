// The sealers: what they give, what they know again, and what they refuse.
ghost use Rattle.std.specs.Prelude.{◌≡◌, IfOk, true};
ghost use Rattle.sealers.specs.Sealing.{checked};

use crate::drawn::{Dice, Drawn, Note};
use refusals::{Fault, Layer, Refusal};
use sealers::{Book, KeyRow, Keyed, Sealer, SealerFault};
use siphash::Key;
use std::alloc::{AllocError, Global};
use std::test::Fail;
use wire::{Party, Seal, Text};

// For every sealer: what it seals it knows again.
fn sealed_and_checked<S: Sealer>(sealer: &mut S, text: Text) -> Result<bool, SealerFault>
    ensures { result ≡ checked ((S.Sealer.desk sealer.old).seals text.party) text.party }
{
    let seal = sealer.seal(text)?;
    Ok(sealer.check(text, seal))
}

// For every sealer: of two seals it knows each again once both are given.
fn both_checked<S: Sealer>(sealer: &mut S, first: Text, second: Text) -> Result<bool, SealerFault>
    ensures { IfOk result (λ known. known ≡ true) }
{
    let one = sealer.seal(first)?;
    let two = sealer.seal(second)?;
    Ok(sealer.check(first, one) && sealer.check(second, two))
}

fn text(party: u8, number: u32) -> Text {
    Text {
        tag: 1,
        party,
        number,
        body: 412,
    }
}

#[test]
fn a_book_gives_row_numbers(rt: HostRuntime) -> Result<(), Fail> {
    let mut rows = [Text::default(); 328];
    let mut book = Book::open(&mut rows, 2)?;
    assert_eq!(rt; book.left(1), 2);
    assert_eq!(rt; book.seal(text(1, 7)), Ok(Seal(2)));
    assert_eq!(rt; book.seal(text(1, 8)), Ok(Seal(3)));
    assert_eq!(rt; book.seal(text(163, 7)), Ok(Seal(326)));
    assert_eq!(rt; book.left(1), 0);
    assert_eq!(rt; book.seal(text(1, 9)), Err(SealerFault::NoSeal(1)));
    assert_eq!(rt; book.seal(text(33, 9)), Err(SealerFault::NoSeal(33)));
    assert_eq!(rt; book.check(text(1, 7), Seal(2)), true);
    assert_eq!(rt; book.check(text(1, 8), Seal(3)), true);
    assert_eq!(rt; book.check(text(1, 8), Seal(2)), false);
    assert_eq!(rt; book.check(text(2, 7), Seal(2)), false);
    assert_eq!(rt; book.check(text(1, 7), Seal(u64::MAX)), false);
    assert_eq!(rt; sealed_and_checked(&mut book, text(32, 1)), Ok(true));
    Ok(())
}

#[test]
fn a_book_has_its_limits(rt: HostRuntime) {
    assert!(rt; Book::open(&mut [Text::default(); 0], 0).is_err());
    assert!(rt; Book::open(&mut [Text::default(); 163], 1).is_err());
    assert!(rt; Book::open(&mut [Text::default(); 165], 1).is_err());
    assert!(rt; Book::open(&mut [Text::default(); 164], 2).is_err());
    assert!(rt; Book::open(&mut [Text::default(); 164], 1).is_ok());
    let limit = Refusal {
        number: 1,
        layer: Layer::Hall,
        place: 0,
    };
    assert_eq!(rt; SealerFault::Limit.told(), limit);
    let none = Refusal {
        number: 8,
        layer: Layer::Sealer,
        place: 132,
    };
    assert_eq!(rt; SealerFault::NoSeal(132).told(), none);
}

fn keys(heap: Global, rows: u8, left: u32) -> Result<Vec<KeyRow>, AllocError> {
    let key = Key {
        low: 0x0706_0504_0302_0100,
        high: 0x0f0e_0d0c_0b0a_0908,
    };
    vec![in heap; KeyRow { key, left }; usize::from(rows)]
}

#[test]
fn a_key_gives_hashes(rt: HostRuntime) -> Result<(), Fail> {
    let mut sealer = Keyed::open(keys(rt.alloc(), 97, 1)?)?;
    let seal = Seal(1_250_022_845_330_951_320);
    assert_eq!(rt; sealer.seal(text(2, 3)), Ok(seal));
    assert_eq!(rt; sealer.seal(text(2, 3)), Err(SealerFault::NoSeal(2)));
    assert_eq!(rt; sealer.left(2), 0);
    assert_eq!(rt; sealer.left(3), 1);
    assert_eq!(rt; sealer.left(163), 1);
    assert_eq!(rt; sealer.left(99), 0);
    assert_eq!(rt; sealer.check(text(2, 3), seal), true);
    assert_eq!(rt; sealer.check(text(2, 4), seal), false);
    assert_eq!(rt; sealer.check(text(99, 3), seal), false);
    assert_eq!(rt; sealed_and_checked(&mut sealer, text(100, 1)), Ok(true));
    assert_eq!(rt;
        sealed_and_checked(&mut sealer, text(100, 1)),
        Err(SealerFault::NoSeal(100))
    );
    Ok(())
}

#[test]
fn keys_have_their_limits(rt: HostRuntime) -> Result<(), Fail> {
    let heap = rt.alloc();
    assert!(rt; Keyed::open(keys(heap, 97, 1_000_000)?).is_ok());
    assert!(rt; Keyed::open(keys(heap, 97, 1_000_001)?).is_err());
    assert!(rt; Keyed::open(keys(heap, 96, 1)?).is_err());
    assert!(rt; Keyed::open(keys(heap, 98, 1)?).is_err());
    Ok(())
}

// Rolls 9 and 4 in turn.
#[derive(Drop)]
struct Turns {
    nine: bool,
}

impl Dice for Turns {
    fn roll(&mut self) -> u64 {
        self.nine = !self.nine;
        if self.nine { 9 } else { 4 }
    }
}

#[test]
fn drawn_seals_are_noted(rt: HostRuntime) -> Result<(), Fail> {
    let mut notes = [Note::default(); 2];
    let mut sealer = Drawn::open(Turns { nine: false }, Party::try_from(1)?, &mut notes);
    assert_eq!(rt; sealer.check(Text::default(), Seal(0)), false);
    assert_eq!(rt; sealer.seal(text(2, 7)), Err(SealerFault::NoSeal(2)));
    assert_eq!(rt; both_checked(&mut sealer, text(1, 7), text(1, 8)), Ok(true));
    assert_eq!(rt; sealer.check(text(1, 7), Seal(9)), true);
    assert_eq!(rt; sealer.check(text(1, 8), Seal(4)), true);
    assert_eq!(rt; sealer.check(text(1, 8), Seal(9)), false);
    assert_eq!(rt; sealer.left(1), 0);
    assert_eq!(rt; sealer.seal(text(1, 9)), Err(SealerFault::NoSeal(1)));
    assert_eq!(rt; SealerFault::NoSeal(1).told().number, 8);
    Ok(())
}
