// Deliver: an entry of the post is handed to a party, which makes its step.
ghost use Rattle.std.specs.Prelude.{◌≡◌, ℕ, ◌-◌, ◌<◌, ◌≤◌, false, length, slice_index_or};
ghost use Rattle.stores.specs.Saved.{Shelf};
ghost use Rattle.sealers.specs.Sealing.{Desk};
ghost use Rattle.model.specs.Tables.{is_full};
ghost use Rattle.model.specs.Halls.{no_seat};
ghost use Rattle.model.specs.Delivering.{client_moves};
ghost use Rattle.model.specs.Calls.{Step, deliver};
ghost use Rattle.register.specs.Stepping.{ClientDoes, ReplicaDoes};
ghost use Rattle.register.specs.Worlds.{table, hall_of, world, done_or, stepped_or};

use crate::fitting::{fits_client, fits_replica};
use crate::hall::Hall;
use crate::logging::{log_step, moment_after};
use crate::parties::party_in;
use crate::tables::{Tables, entry_at, grow, is_full, put, seat_of};
use clients::{Line, client_step};
use halls::{HallFault, Seat, StepFault};
use kinds::Kind;
use replicas::replica_step;
use sealers::Sealer;
use stores::Store;
use wire::{Client, Entry, Party, Replica};

impl<K: Kind> Hall<K> {
    // Keeps what a step of this client has made of its line, and posts what it answers.
    #[inline(always)]
    fn client_moves(
        &mut self,
        tables: &mut Tables,
        client: Client,
        seat: Seat,
        line: Line,
        post: Option<Entry>,
    )
        requires room { is_full (table tables.old.post) ≡ false }
        requires time { self.old.moment < 4294967295 }
        ensures { (shelf : Shelf) (before after : Desk) → hall_of self.new tables.new shelf after ≡ client_moves (hall_of self.old tables.old shelf before) client.number seat line post after.seals }
    {
        let moment = self.moment + 1;
        log_step(&mut tables.log, seat.operation, &seat.line, &line, moment);
        self.moment = moment_after(self.moment, &seat.line, &line);
        put(tables.seats, client.number(), Seat { line, ..seat });
        if let Some(entry) = post {
            grow(&mut tables.post, entry);
        }
    }

    // Hands an entry to a client.
    #[inline(always)]
    fn deliver_to_client<L: Sealer>(
        &mut self,
        tables: &mut Tables,
        client: Client,
        seat: Seat,
        entry: &Entry,
        sealer: &mut L,
    ) -> Result<(), StepFault>
        requires room { is_full (table tables.old.post) ≡ false }
        requires time { self.old.moment < 4294967295 }
        requires within { client.number - 1 < length tables.old.seats.now }
        requires seated { seat ≡ slice_index_or tables.old.seats.now (client.number - 1) no_seat }
        ensures { (shelf : Shelf) (number : ℕ) → ClientDoes K.kind.number client entry.now number
            (world self.old tables.old shelf (L.desk sealer.old)) (stepped_or {V = K} number result)
            (world self.new tables.new shelf (L.desk sealer.new)) }
    {
        let mut line = seat.line;
        let post = client_step::<K, L>(&self.rules, client, &mut line, entry, sealer)?;
        self.client_moves(tables, client, seat, line, post);
        Ok(())
    }

    // Hands an entry to a replica.
    #[inline(always)]
    fn deliver_to_replica<S: Store, L: Sealer>(
        &mut self,
        tables: &mut Tables,
        replica: Replica,
        entry: &Entry,
        store: &mut S,
        sealer: &L,
    ) -> Result<(), StepFault>
        requires room { is_full (table tables.old.post) ≡ false }
        ensures { (number : ℕ) → ReplicaDoes K.kind.number replica entry.now number
            (world self.old tables.old (S.shelf store.old) (L.desk sealer.now)) (stepped_or {V = K} number result)
            (world self.new tables.new (S.shelf store.new) (L.desk sealer.now)) }
    {
        let post = replica_step::<K, S, L>(&self.rules, replica, entry, store, sealer)?;
        if let Some(entry) = post {
            grow(&mut tables.post, entry);
        }
        Ok(())
    }

    // Hands the entry of this number to the party of this number, which makes its step.
    pub fn deliver<S: Store, L: Sealer>(
        &mut self,
        tables: &mut Tables,
        number: u64,
        party: u64,
        store: &mut S,
        sealer: &mut L,
    ) -> Result<(), HallFault>
        ensures { Step K.kind (world self.old tables.old (S.shelf store.old) (L.desk sealer.old))
            (deliver number party) (done_or result)
            (world self.new tables.new (S.shelf store.new) (L.desk sealer.new)) }
    {
        if !self.has_its_tables(tables) {
            return Err(HallFault::WrongTables);
        }
        let fault = HallFault::NoSuch(number);
        let entry = entry_at(&tables.post, number).ok_or(fault)?;
        let party = party_in(&self.rules, party).ok_or(fault)?;
        if is_full(&tables.post) || self.moment == u32::MAX {
            return Err(HallFault::Full(number));
        }
        match party {
            Party::Client(client) if fits_client(&entry, client) => {
                let seat = seat_of(tables, client.number());
                self.deliver_to_client::<L>(tables, client, seat, &entry, sealer)
                    .map_err(|fault| HallFault::Step(number, fault))
            }
            Party::Replica(replica) if fits_replica(&entry, replica) => self
                .deliver_to_replica::<S, L>(tables, replica, &entry, store, sealer)
                .map_err(|fault| HallFault::Step(number, fault)),
            _ => Err(HallFault::Unfit(number)),
        }
    }
}
