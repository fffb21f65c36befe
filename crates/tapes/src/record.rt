// The record of a card on a tape: 72 bytes, each number with its lowest byte first.
ghost use Rattle.std.specs.Prelude.{◌≡◌, ◌+◌, ◌≤◌, ◌++◌, length, take, drop};
ghost use Rattle.tapes.specs.Records.{encoded, decoded, marked, Fitting};

use kinds::Word;
use stores::Card;
use wire::{Pair, Replica, ReplicaSet, Seal, Stamp};

// How many bytes a record has, and with which it begins.
pub(crate) const RECORD_SIZE: usize = 72;

const MARK: [u8; 4] = *b"BIN1";

fn put<const N: usize>(out: &mut [u8], at: usize, field: [u8; N])
    requires { at + N ≤ length out.old }
    ensures { take (at + N) out.new ≡ take at out.old ++ field.entry }
{
    out[at..at + N].copy_from_slice(&field);
}

// Fills these 72 bytes with the record of this replica's card.
pub(crate) fn write_record(out: &mut [u8], replica: Replica, card: Card)
    requires { length out.old ≡ 72 }
    ensures value { out.new ≡ encoded replica.number card }
    ensures fits { Fitting card }
{
    put(out, 0, MARK);
    put(
        out,
        4,
        [
            replica.number(),
            u8::from(card.ready),
            card.pair.stamp.writer,
            0,
        ],
    );
    put(out, 8, card.epoch.to_le_bytes());
    put(out, 12, card.pair.stamp.count.to_le_bytes());
    put(out, 16, card.set.0.to_le_bytes());
    put(out, 24, card.seal.0.to_le_bytes());
    put(out, 32, card.previous.0.to_le_bytes());
    put(out, 40, card.previous_seal.0.to_le_bytes());
    put(out, 48, card.heard.0.to_le_bytes());
    put(out, 56, card.pair.word.0.to_le_bytes());
    put(out, 64, card.pair.seal.0.to_le_bytes());
}

// Whether a record begins with its mark.
pub(crate) fn is_marked(bytes: &[u8; RECORD_SIZE]) -> bool
    ensures { result ≡ marked bytes.now }
{
    bytes.starts_with(&MARK)
}

fn get<const N: usize>(bytes: &[u8], at: usize) -> [u8; N]
    requires { at + N ≤ length bytes.now }
    ensures { result ≡ take N (drop at bytes.now) }
{
    let mut field = [0; N];
    field.copy_from_slice(&bytes[at..at + N]);
    field
}

// The card of a record, which has 72 bytes.
pub(crate) fn read_card(bytes: &[u8]) -> Card
    requires { length bytes.now ≡ 72 }
    ensures { result ≡ (decoded bytes.now).card }
{
    let stamp = Stamp {
        count: u32::from_le_bytes(get(bytes, 12)),
        writer: bytes[6],
    };
    Card {
        epoch: u32::from_le_bytes(get(bytes, 8)),
        set: ReplicaSet(u64::from_le_bytes(get(bytes, 16))),
        seal: Seal(u64::from_le_bytes(get(bytes, 24))),
        previous: ReplicaSet(u64::from_le_bytes(get(bytes, 32))),
        previous_seal: Seal(u64::from_le_bytes(get(bytes, 40))),
        heard: ReplicaSet(u64::from_le_bytes(get(bytes, 48))),
        ready: bytes[5] == 1,
        pair: Pair {
            stamp,
            word: Word(u64::from_le_bytes(get(bytes, 56))),
            seal: Seal(u64::from_le_bytes(get(bytes, 64))),
        },
    }
}
