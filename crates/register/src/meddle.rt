// Meddle: an entry is posted in the name of a marked replica.
ghost use Rattle.stores.specs.Saved.{Shelf};
ghost use Rattle.sealers.specs.Sealing.{Desk};
ghost use Rattle.model.specs.Calls.{Step, meddle};
ghost use Rattle.register.specs.Worlds.{world, done_or};

use crate::hall::Hall;
use crate::parties::party_in;
use crate::tables::{Tables, grow, is_full};
use halls::HallFault;
use kinds::Kind;
use wire::{Entry, Party};

impl<K: Kind> Hall<K> {
    // Posts the entry in the name of the replica of this party number, if it is marked.
    pub fn meddle(&mut self, tables: &mut Tables, party: u64, entry: Entry) -> Result<(), HallFault>
        ensures { (shelf : Shelf) (desk : Desk) → Step K.kind (world self.old tables.old shelf desk)
            (meddle party entry) (done_or result)
            (world self.new tables.new shelf desk) }
    {
        if !self.has_its_tables(tables) {
            return Err(HallFault::WrongTables);
        }
        let who = party_in(&self.rules, party).ok_or(HallFault::NoSuch(party))?;
        let Party::Replica(replica) = who else {
            return Err(HallFault::NotMarked(party));
        };
        if !self.marked.contains(replica) {
            return Err(HallFault::NotMarked(party));
        }
        if is_full(&tables.post) {
            return Err(HallFault::Full(party));
        }
        let sender = u8::from(who);
        grow(&mut tables.post, Entry { sender, ..entry });
        Ok(())
    }
}
