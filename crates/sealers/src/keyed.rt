// The keyed sealer: a key for each party, and SipHash-2-4 of the text as its seal.
ghost use Rattle.std.specs.Borrow.{sem};
ghost use Rattle.std.specs.Prelude.{◌≡◌, ◌<◌, ◌↔◌, vec_len, IsTrue, slice_index_or};
ghost use Rattle.sealers.specs.Keys.{key_place, key_row, key_seal, keyed_desk, spent_row, AllWithin, KeyedOpened};
ghost use Rattle.sealers.specs.Lending.{LendsRow};

use crate::fault::SealerFault;
use crate::sealer::Sealer;
use siphash::{Key, siphash};
use wire::{Party, Seal, Text};

// How many parties there are: the source, 32 clients and 64 replicas.
const PARTIES: usize = 97;

// A party's key, and how many seals it has left.
#[derive(Clone, Copy)]
pub struct KeyRow {
    pub key: Key,
    pub left: u32,
}

// The rows of the source, of the clients and of the replicas, in the order of their numbers.
#[derive(Drop)]
pub struct Keyed {
    rows: Vec<KeyRow>,
}

impl KeyRow {
    // One seal fewer.
    fn spend(&mut self)
        ensures { self.new ≡ spent_row self.old }
    {
        self.left = self.left.saturating_sub(1);
    }

    // The seal that this key gives a text.
    #[inline(always)]
    fn seal_of(self, text: Text) -> Seal
        ensures { result ≡ key_seal self text }
    {
        Seal(siphash(self.key, &text.bytes()))
    }
}

// The place of a party's row: the source, the clients and the replicas one after the other.
fn place(party: u8) -> Option<usize>
    ensures { result ≡ key_place party }
{
    let place = match Party::try_from(u64::from(party)).ok()? {
        Party::Source => 0,
        Party::Client(client) => client.number(),
        Party::Replica(replica) => 33 + replica.number(),
    };
    Some(usize::from(place))
}

// Whether no row has more than 1,000,000 seals.
fn all_within(rows: &[KeyRow]) -> bool
    ensures { IsTrue result ↔ AllWithin rows.now }
{
    rows.iter().all(|row| row.left <= 1_000_000)
}

impl Keyed {
    // A sealer over 97 rows, none with more than 1,000,000 seals.
    pub fn open(rows: Vec<KeyRow>) -> Result<Keyed, SealerFault>
        ensures { KeyedOpened rows.items result }
    {
        if rows.len() != PARTIES || !all_within(&rows) {
            return Err(SealerFault::Limit);
        }
        Ok(Keyed { rows })
    }

    // The row of a party.
    fn row_of(&self, party: u8) -> Option<KeyRow>
        ensures { result ≡ key_row self.now party }
    {
        self.rows.get(place(party)?).copied()
    }

    // The row at this place, to be changed.
    fn row(&mut self, place: usize) -> &mut KeyRow
        requires { place < vec_len self.old.rows }
        ensures value { result.now ≡ slice_index_or self.old.rows.items place result.now }
        ensures* writes_back { sem 𝓛 (LendsRow self.entry place result) }
    {
        &mut self.rows[place]
    }
}

impl Sealer for Keyed {
    ghost desk = { keyed_desk };

    fn seal(&mut self, text: Text) -> Result<Seal, SealerFault> {
        let none = SealerFault::NoSeal(text.party);
        let row = self.row_of(text.party).ok_or(none)?;
        let place = place(text.party).ok_or(none)?;
        if row.left == 0 {
            return Err(none);
        }
        self.row(place).spend();
        Ok(row.seal_of(text))
    }

    fn check(&self, text: Text, seal: Seal) -> bool {
        self.row_of(text.party)
            .is_some_and(|row| row.seal_of(text) == seal)
    }

    fn left(&self, party: u8) -> u64 {
        self.row_of(party).map_or(0, |row| u64::from(row.left))
    }
}
