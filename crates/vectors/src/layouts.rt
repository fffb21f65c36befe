// The worked layouts of sealed texts and of a record, byte for byte.
ghost use Rattle.std.specs.Prelude.{◌≡◌};
ghost use Rattle.vectors.specs.Compared.{agreeing, texts_agreeing};

use kinds::Word;
use stores::{Card, Store};
use tapes::Tape;
use wire::{Configuration, Pair, Replica, ReplicaSet, Seal, Stamp, Text};

// The pair of both layouts: count 3 of writer 2, the word of 50,000 g of lot 412.
const PAIR: Pair = Pair {
    stamp: Stamp {
        count: 3,
        writer: 2,
    },
    word: Word(100_005_000_000_412),
    seal: Seal(0x1122_3344_5566_7788),
};

// The text of the pair, as a bin weight.
const PAIR_TEXT: [u8; 14] = [1, 2, 3, 0, 0, 0, 0x9c, 0x33, 0x80, 0x3a, 0xf4, 0x5a, 0, 0];

// The configuration of epoch 258 with the replicas 0 to 3, and its text.
const CONFIGURATION: Configuration = Configuration {
    epoch: 258,
    set: ReplicaSet(15),
    seal: Seal(0),
};

const CONFIGURATION_TEXT: [u8; 14] = [67, 0, 2, 1, 0, 0, 15, 0, 0, 0, 0, 0, 0, 0];

// The card of a replica that is ready in epoch 258, was in another set before, and has heard 0, 1 and 63.
const CARD: Card = Card {
    epoch: 258,
    set: ReplicaSet(0x2f),
    seal: Seal(0x0100_0000_0000_0007),
    previous: ReplicaSet(15),
    previous_seal: Seal(0xffff_ffff_ffff_ffff),
    heard: ReplicaSet(0x8000_0000_0000_0003),
    ready: true,
    pair: PAIR,
};

// The bytes of a tape with the record of that card for replica 5, 8 to a number: mark, replica, ready, writer, zero; epoch and
// count; set; its seal; set before; its seal; heard; word; the pair's seal. The other 72 are as they were.
const TAPE: [u8; 144] = [
    66, 73, 78, 49, 5, 1, 2, 0, 2, 1, 0, 0, 3, 0, 0, 0, 0x2f, 0, 0, 0, 0, 0, 0, 0, 7, 0, 0, 0, 0,
    0, 0, 1, 15, 0, 0, 0, 0, 0, 0, 0, 0xff, 0xff, 0xff, 0xff, 0xff, 0xff, 0xff, 0xff, 3, 0, 0, 0,
    0, 0, 0, 0x80, 0x9c, 0x33, 0x80, 0x3a, 0xf4, 0x5a, 0, 0, 0x88, 0x77, 0x66, 0x55, 0x44, 0x33,
    0x22, 0x11, 0xee, 0xee, 0xee, 0xee, 0xee, 0xee, 0xee, 0xee, 0xee, 0xee, 0xee, 0xee, 0xee, 0xee,
    0xee, 0xee, 0xee, 0xee, 0xee, 0xee, 0xee, 0xee, 0xee, 0xee, 0xee, 0xee, 0xee, 0xee, 0xee, 0xee,
    0xee, 0xee, 0xee, 0xee, 0xee, 0xee, 0xee, 0xee, 0xee, 0xee, 0xee, 0xee, 0xee, 0xee, 0xee, 0xee,
    0xee, 0xee, 0xee, 0xee, 0xee, 0xee, 0xee, 0xee, 0xee, 0xee, 0xee, 0xee, 0xee, 0xee, 0xee, 0xee,
    0xee, 0xee, 0xee, 0xee, 0xee, 0xee, 0xee, 0xee, 0xee, 0xee,
];

// At how many places both have the same byte.
fn bytes_that_agree(found: &[u8], wanted: &[u8]) -> usize
    ensures { result ≡ agreeing found.now wanted.now }
{
    found
        .iter()
        .zip(wanted)
        .filter(|(byte, wanted)| byte == wanted)
        .count()
}

// How many of the 28 bytes of the two texts are those that were worked out.
pub(crate) fn text_bytes_that_agree() -> usize
    ensures { result ≡ texts_agreeing PAIR PAIR_TEXT CONFIGURATION CONFIGURATION_TEXT }
{
    let pair = Text::of_pair(1, PAIR).bytes();
    let configuration = Text::from(CONFIGURATION).bytes();
    bytes_that_agree(&pair, &PAIR_TEXT) + bytes_that_agree(&configuration, &CONFIGURATION_TEXT)
}

// The 144 bytes of a tape on which the card was saved for replica 5. What a save leaves in bytes that are lent is told by the
// contract of the tape, and not known any more once the tape is let go, so that there is no clause here.
pub(crate) fn saved_tape() -> [u8; 144] {
    let mut bytes = [0xee; 144];
    if let Ok(replica) = Replica::try_from(5) {
        if let Ok(mut tape) = Tape::open(&mut bytes, 0) {
            let _ = tape.save(replica, CARD);
        }
    }
    bytes
}

// How many of the 144 bytes of a tape are as they should be once that one record is saved: it, and the rest untouched.
pub(crate) fn tape_bytes_that_agree(tape: &[u8]) -> usize
    ensures { result ≡ agreeing tape.now TAPE }
{
    bytes_that_agree(tape, &TAPE)
}
