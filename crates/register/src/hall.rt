// The hall: what it knows of itself between calls.
ghost use Rattle.std.specs.Prelude.{◌≡◌, cond, Some, None};
ghost use Rattle.rules.specs.Genuine.{is_client};
ghost use Rattle.model.specs.Halls.{has_its_tables};
ghost use Rattle.register.specs.Worlds.{bare};

use crate::lengths::Lengths;
use crate::tables::Tables;
use kinds::Kind;
use rules::Rules;
use source::Source;
use std::marker::PhantomData;
use wire::ReplicaSet;

#[derive(Drop)]
pub struct Hall<K> {
    pub(crate) rules: Rules,
    // the replicas that may lie
    pub(crate) marked: ReplicaSet,
    // how many places the tables had at the opening
    pub(crate) lengths: Lengths,
    pub(crate) source: Source,
    // how many moments have been counted
    pub(crate) moment: u32,
    // the kind of the values that it keeps
    pub(crate) kind: PhantomData<K>,
}

impl<K: Kind> Hall<K> {
    // Whether these tables are as long as at the opening, with a seat for each client.
    pub(crate) fn has_its_tables(&self, tables: &Tables) -> bool
        ensures { result ≡ has_its_tables (bare self.now tables.now) }
    {
        tables.post.capacity() == self.lengths.post
            && tables.log.capacity() == self.lengths.log
            && tables.roll.capacity() == self.lengths.roll
            && tables.seats.len() == usize::from(self.rules.clients)
    }

    // The client of this number, if it is one of the hall.
    pub(crate) fn client(&self, number: u64) -> Option<u8>
        ensures { result ≡ cond (is_client self.now.rules number) (Some number) None }
    {
        if !(1..=u64::from(self.rules.clients)).contains(&number) {
            return None;
        }
        u8::try_from(number).ok()
    }
}
