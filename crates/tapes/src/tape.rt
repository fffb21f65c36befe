// The tape: records one behind the other in bytes that the caller lends, of which the last of a replica counts.
ghost use Rattle.std.specs.Prelude.{◌≤◌, length};

use crate::record::{RECORD_SIZE, read_card, write_record};
use crate::search::{inspect, last_record};
use stores::{Card, Store, StoreFault};
use wire::Replica;

// The first `used` bytes are records, and the rest is room for more.
// Stays: bytes that the caller lends and how many of them are used, in place of a `Vec`: memory is lent.
#[derive(Drop)]
pub struct Tape<'a> {
    bytes: &'a mut [u8],
    used: usize,
    ghost fits: { used ≤ length bytes.now },
}

impl<'a> Tape<'a> {
    ghost use Rattle.std.specs.Prelude.{◌≡◌, ◌<◌, true, is_ok, IfOk};
    ghost use Rattle.std.specs.Simd.{first_chunks};
    ghost use Rattle.tapes.specs.Records.{Fitting};
    ghost use Rattle.tapes.specs.Tapes.{lent, whole, card_in, seen, opened, changed, appended};

    // The tape over these bytes, of which so many are used; they stay as they are.
    pub fn open(bytes: &'a mut [u8], used: usize) -> Result<Tape<'a>, StoreFault>
        ensures value { seen result ≡ opened bytes.old used }
        ensures slice { IfOk result (λ t. t.bytes.ghost_name ≡ bytes.entry.ghost_name) }
    {
        inspect(bytes, used)?;
        Ok(Tape { bytes, used })
    }

    // Its whole records.
    fn records(&self) -> &[[u8; RECORD_SIZE]]
        ensures value { result.now ≡ first_chunks 72 (whole (lent self.now)) self.now.bytes.now }
        ensures count { length result.now ≡ whole (lent self.now) }
    {
        let (records, _) = self.bytes[..self.used].as_chunks::<RECORD_SIZE>();
        records
    }

    // The card in the 72 bytes of this record.
    fn card_at(&self, place: usize) -> Card
        requires { place < whole (lent self.now) }
        ensures { result ≡ card_in self.now.bytes.now place }
    {
        let at = place * RECORD_SIZE;
        read_card(&self.bytes[at..at + RECORD_SIZE])
    }

    // Writes a record into the next 72 bytes, and into no others.
    fn append(&mut self, replica: Replica, card: Card) -> Result<(), StoreFault>
        ensures change { changed result self.new ≡ appended (lent self.old) replica.number card }
        ensures fits { is_ok result ≡ true → Fitting card }
        ensures slice { self.new.bytes.ghost_name ≡ self.old.bytes.ghost_name }
    {
        let records = self.records().len();
        if records >= self.bytes.len() / RECORD_SIZE {
            return Err(StoreFault::NoSave(records as u64));
        }
        let at = records * RECORD_SIZE;
        write_record(&mut self.bytes[at..at + RECORD_SIZE], replica, card);
        self.used = at + RECORD_SIZE;
        Ok(())
    }
}

impl Store for Tape<'_> {
    ghost use Rattle.std.specs.Prelude.{◌≡◌};
    ghost use Rattle.stores.specs.Saved.{after, saved};
    ghost use Rattle.tapes.specs.Tapes.{lent, shelf_of, changed, appended};

    ghost shelf = { λ t. shelf_of (lent t) };

    fn load(&self, replica: Replica) -> Option<Card> {
        let place = last_record(self.records(), replica.number())?;
        Some(self.card_at(place))
    }

    fn save(&mut self, replica: Replica, card: Card) -> Result<(), StoreFault>
        ensures meaning { after result (shelf_of (lent self.new)).place (shelf_of (lent self.new)).saves ≡ saved (shelf_of (lent self.old)) replica.number card }
        ensures change { changed result self.new ≡ appended (lent self.old) replica.number card }
        ensures slice { self.new.bytes.ghost_name ≡ self.old.bytes.ghost_name }
    {
        self.append(replica, card)
    }

    fn left(&self) -> Option<u64> {
        Some((self.bytes.len() / RECORD_SIZE - self.records().len()) as u64)
    }
}
