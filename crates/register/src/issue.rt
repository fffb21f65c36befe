// Issue: the source seals and posts the next configuration.
ghost use Rattle.stores.specs.Saved.{Shelf};
ghost use Rattle.model.specs.Calls.{Step, issue};
ghost use Rattle.register.specs.Worlds.{world, done_or};

use crate::hall::Hall;
use crate::sets::{has_too_many_marked, is_right_set};
use crate::tables::{Tables, grow, is_full};
use halls::HallFault;
use kinds::Kind;
use rules::configured;
use sealers::Sealer;
use wire::{EntryKind, Party, ReplicaSet};

impl<K: Kind> Hall<K> {
    // Puts the configuration with this set on the roll, and posts it in the source's name.
    pub fn issue<L: Sealer>(
        &mut self,
        tables: &mut Tables,
        set: ReplicaSet,
        sealer: &mut L,
    ) -> Result<(), HallFault>
        ensures { (shelf : Shelf) → Step K.kind (world self.old tables.old shelf (L.desk sealer.old))
            (issue set) (done_or result)
            (world self.new tables.new shelf (L.desk sealer.new)) }
    {
        if !self.has_its_tables(tables) {
            return Err(HallFault::WrongTables);
        }
        if !is_right_set(&self.rules, set) {
            return Err(HallFault::WrongSet);
        }
        if has_too_many_marked(&self.rules, self.marked, set) {
            return Err(HallFault::TooManyMarked(0));
        }
        if is_full(&tables.roll) || is_full(&tables.post) {
            return Err(HallFault::Full(0));
        }
        let configuration = self.source.issue(set, sealer)?;
        grow(&mut tables.roll, configuration);
        let sender = u8::from(Party::Source);
        let entry = configured(sender, EntryKind::Config, configuration);
        grow(&mut tables.post, entry);
        Ok(())
    }
}
