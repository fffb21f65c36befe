// A hall at work, with its tables, and a tally of its calls.
ghost use Rattle.std.specs.Prelude.{◌≡◌, ◌-◌, cond, IfOk, fold, length};
ghost use Rattle.lists.specs.Held.{held};
ghost use Rattle.stores.specs.Saved.{Shelf};
ghost use Rattle.sealers.specs.Sealing.{Desk};
ghost use Rattle.model.specs.Calls.{issue, deliver, meddle};
ghost use Rattle.register.specs.Worlds.{bare, world};
ghost use Rattle.runner.specs.Slips.{HasSlip, holds_its_slip};
ghost use Rattle.drive_c.specs.Seen.{Made};
ghost use Rattle.drive_c.specs.Sums.{mixed};
ghost use Rattle.drive_c.specs.Tallies.{more};

use crate::tally::Tally;
use halls::{HallFault, Operation};
use kinds::BinWeight;
use register::{Hall, Kept, Slip, Tables};
use sealers::Sealer;
use stores::Store;
use wire::{Entry, ReplicaSet};

#[derive(Drop)]
pub(crate) struct Driven<'a> {
    pub(crate) hall: Hall<BinWeight>,
    pub(crate) tables: Tables<'a>,
    pub(crate) tally: Tally,
}

// A sum with one more line of a log.
fn mixed(sum: u64, operation: Operation) -> u64
    ensures { result ≡ mixed sum operation }
{
    sum.wrapping_mul(31)
        .wrapping_add(u64::from(operation.began))
        .wrapping_add(u64::from(operation.ended.unwrap_or(0)))
        .wrapping_add(u64::from(operation.pair.stamp.count))
        .wrapping_add(operation.pair.word.0)
        .wrapping_add(operation.pair.seal.0)
}

impl Driven<'_> {
    // The number of the newest entry.
    pub(crate) fn newest(&self) -> u64
        ensures { result ≡ length (held self.now.tables.post) - 1 }
    {
        (self.tables.post.len() as u64).saturating_sub(1)
    }

    // Lodges a slip, which is not refused here.
    fn lodge(&mut self, slip: Slip)
        requires { HasSlip (bare self.old.hall self.old.tables) slip.client slip.operation }
        ensures { self.new.tally ≡ self.old.tally }
    {
        match self.hall.lodge(&mut self.tables, slip) {
            Ok(()) => {}
            Err(Kept { slip, fault: _ }) => drop(slip),
        }
    }

    // Begins a read, and lodges its slip.
    pub(crate) fn begin_read<L: Sealer>(&mut self, client: u64, sealer: &L)
        ensures { self.new.tally.calls ≡ more self.old.tally.calls 2 }
    {
        match self.hall.begin_read(&mut self.tables, client, sealer) {
            Ok(slip) => {
                self.lodge(slip);
                self.tally.add(2, 0);
            }
            Err(_) => self.tally.refuse(2),
        }
    }

    // Begins a write, and lodges its slip.
    pub(crate) fn begin_write<L: Sealer>(&mut self, client: u64, value: BinWeight, sealer: &L)
        ensures { self.new.tally.calls ≡ more self.old.tally.calls 2 }
    {
        match self
            .hall
            .begin_write(&mut self.tables, client, value, sealer)
        {
            Ok(slip) => {
                self.lodge(slip);
                self.tally.add(2, 0);
            }
            Err(_) => self.tally.refuse(2),
        }
    }

    // Whether the slip that is lodged with a client is that of its present operation.
    fn holds_its_slip(&self, client: u64) -> bool
        ensures { result ≡ holds_its_slip (bare self.now.hall self.now.tables) client }
    {
        match self.tables.seats.get(client.saturating_sub(1) as usize) {
            Some(seat) => !seat.line.stage.is_idle() && seat.lodged == Some(seat.operation),
            None => false,
        }
    }

    fn redeem(&mut self, client: u64) -> Result<Slip, HallFault>
        ensures slip { IfOk result (λ slip. HasSlip (bare self.new.hall self.new.tables) slip.client slip.operation) }
        ensures tally { self.new.tally ≡ self.old.tally }
    {
        if !self.holds_its_slip(client) {
            return Err(HallFault::NotItsSlip(client));
        }
        self.hall.redeem(&mut self.tables, client)
    }

    // Collects with this slip, which is lodged again if that is refused.
    fn collected(&mut self, slip: Slip) -> bool
        requires { HasSlip (bare self.old.hall self.old.tables) slip.client slip.operation }
        ensures { self.new.tally ≡ self.old.tally }
    {
        match self.hall.collect(&mut self.tables, slip) {
            Ok(_) => true,
            Err(Kept { slip, fault: _ }) => {
                self.lodge(slip);
                false
            }
        }
    }

    // Redeems the slip of a client, and collects.
    pub(crate) fn collect(&mut self, client: u64)
        ensures { self.new.tally.calls ≡ more self.old.tally.calls 2 }
    {
        match self.redeem(client) {
            Ok(slip) => {
                let done = self.collected(slip);
                self.tally.add(2, u64::from(!done));
            }
            Err(_) => self.tally.refuse(2),
        }
    }

    // Hands an entry to a party, and says whether that was done.
    pub(crate) fn deliver<S: Store, L: Sealer>(
        &mut self,
        entry: u64,
        party: u64,
        store: &mut S,
        sealer: &mut L,
    ) -> bool
        ensures call { Made (world self.old.hall self.old.tables (S.shelf store.old) (L.desk sealer.old))
            (deliver entry party) result
            (world self.new.hall self.new.tables (S.shelf store.new) (L.desk sealer.new)) }
        ensures calls { self.new.tally.calls ≡ more self.old.tally.calls 1 }
        ensures refused { self.new.tally.refused ≡ more self.old.tally.refused (cond result 0 1) }
    {
        let answer = self
            .hall
            .deliver::<S, L>(&mut self.tables, entry, party, store, sealer);
        let done = answer.is_ok();
        self.tally.count(done);
        done
    }

    // Issues this set, and says whether that was done.
    pub(crate) fn issue<L: Sealer>(&mut self, set: ReplicaSet, sealer: &mut L) -> bool
        ensures call { (shelf : Shelf) → Made (world self.old.hall self.old.tables shelf (L.desk sealer.old))
            (issue set) result
            (world self.new.hall self.new.tables shelf (L.desk sealer.new)) }
        ensures calls { self.new.tally.calls ≡ more self.old.tally.calls 1 }
        ensures refused { self.new.tally.refused ≡ more self.old.tally.refused (cond result 0 1) }
    {
        let answer = self.hall.issue(&mut self.tables, set, sealer);
        let done = answer.is_ok();
        self.tally.count(done);
        done
    }

    // Posts this entry in the name of the marked replica, and says whether that was done.
    pub(crate) fn meddle(&mut self, party: u64, entry: Entry) -> bool
        ensures call { (shelf : Shelf) (desk : Desk) → Made (world self.old.hall self.old.tables shelf desk)
            (meddle party entry) result
            (world self.new.hall self.new.tables shelf desk) }
        ensures calls { self.new.tally.calls ≡ more self.old.tally.calls 1 }
        ensures refused { self.new.tally.refused ≡ more self.old.tally.refused (cond result 0 1) }
    {
        let answer = self.hall.meddle(&mut self.tables, party, entry);
        let done = answer.is_ok();
        self.tally.count(done);
        done
    }

    // Takes the log into the sum.
    pub(crate) fn take_log(&mut self)
        ensures calls { self.new.tally.calls ≡ self.old.tally.calls }
        ensures sum { self.new.tally.sum ≡ fold mixed self.old.tally.sum (held self.old.tables.log) }
    {
        let log = self.tables.log.used();
        self.tally.sum = log.iter().copied().fold(self.tally.sum, mixed);
    }
}
