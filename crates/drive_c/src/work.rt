// What is done with a hall once it is open: the parts of a plan, one after the other.
ghost use Rattle.std.specs.Prelude.{◌≡◌, ◌*◌};
ghost use Rattle.drive_c.specs.Plans.{calls_of_issue, calls_of_round, calls_of_write, calls_of_read, calls_of_turn, calls_of_opening, outsiders_of, quorum_of};
ghost use Rattle.drive_c.specs.Tallies.{more};

use crate::driven::Driven;
use crate::plan::Plan;
use kinds::BinWeight;
use sealers::Sealer;
use stores::Store;
use wire::Entry;

// The party number of a replica.
fn party(replica: u64) -> u64 {
    100u64.saturating_add(replica)
}

impl Driven<'_> {
    // So many entries in the name of the marked replica.
    fn fill(&mut self, marked: u64, entries: u16)
        ensures { self.new.tally.calls ≡ more self.old.tally.calls entries }
    {
        for _entry in 0..entries {
            self.meddle(marked, Entry::default());
        }
    }

    // Issues the first set again, and hands the configuration to each replica that is no member.
    fn announce<S: Store, L: Sealer>(&mut self, plan: &Plan, store: &mut S, sealer: &mut L)
        ensures { self.new.tally.calls ≡ more self.old.tally.calls (calls_of_issue (outsiders_of plan.now)) }
    {
        self.issue(plan.first_set(), sealer);
        let shown = self.newest();
        let first = party(plan.members());
        for outsider in 0..plan.outsiders() {
            self.deliver(shown, first.saturating_add(outsider), store, sealer);
        }
    }

    // So many configurations.
    fn announce_all<S: Store, L: Sealer>(&mut self, plan: &Plan, store: &mut S, sealer: &mut L)
        ensures { self.new.tally.calls ≡ more self.old.tally.calls (plan.now.issues * calls_of_issue (outsiders_of plan.now)) }
    {
        for _issue in 0..plan.issues {
            self.announce(plan, store, sealer);
        }
    }

    // Hands the newest entry to so many replicas, and their answers to the client.
    fn round<S: Store, L: Sealer>(
        &mut self,
        client: u64,
        quorum: u64,
        store: &mut S,
        sealer: &mut L,
    )
        ensures { self.new.tally.calls ≡ more self.old.tally.calls (calls_of_round quorum) }
    {
        let asked = self.newest();
        for replica in 0..quorum {
            self.deliver(asked, party(replica), store, sealer);
        }
        let first = asked.saturating_add(1);
        for answer in 0..quorum {
            self.deliver(first.saturating_add(answer), client, store, sealer);
        }
    }

    // A write of this value, to its end.
    fn write<S: Store, L: Sealer>(
        &mut self,
        value: BinWeight,
        quorum: u64,
        store: &mut S,
        sealer: &mut L,
    )
        ensures { self.new.tally.calls ≡ more self.old.tally.calls (calls_of_write quorum) }
    {
        self.begin_write(1, value, &*sealer);
        self.round(1, quorum, store, sealer);
        self.round(1, quorum, store, sealer);
        self.collect(1);
    }

    // A read by this client, to its end.
    fn read<S: Store, L: Sealer>(&mut self, client: u64, quorum: u64, store: &mut S, sealer: &mut L)
        ensures { self.new.tally.calls ≡ more self.old.tally.calls (calls_of_read quorum) }
    {
        self.begin_read(client, &*sealer);
        self.round(client, quorum, store, sealer);
        self.collect(client);
    }

    // A write and a read, so many times.
    fn take_turns<S: Store, L: Sealer>(
        &mut self,
        plan: &Plan,
        value: BinWeight,
        store: &mut S,
        sealer: &mut L,
    )
        ensures { self.new.tally.calls ≡ more self.old.tally.calls (plan.now.turns * calls_of_turn (quorum_of plan.now.faults)) }
    {
        let quorum = plan.quorum();
        let reader = u64::from(plan.clients);
        for _turn in 0..plan.turns {
            self.write(value, quorum, store, sealer);
            self.read(reader, quorum, store, sealer);
        }
    }

    // Hands the last READ to one replica, so many times.
    fn load<S: Store, L: Sealer>(&mut self, plan: &Plan, store: &mut S, sealer: &mut L)
        ensures { self.new.tally.calls ≡ more self.old.tally.calls plan.now.loads }
    {
        let asked = self.newest().saturating_sub(plan.quorum());
        let loader = party(u64::from(plan.loader));
        for _load in 0..plan.loads {
            self.deliver(asked, loader, store, sealer);
        }
    }

    // All that a plan has for an opening.
    pub(crate) fn work<S: Store, L: Sealer>(
        &mut self,
        plan: &Plan,
        value: BinWeight,
        store: &mut S,
        sealer: &mut L,
    )
        ensures { self.new.tally.calls ≡ more self.old.tally.calls (calls_of_opening plan.now) }
    {
        self.fill(plan.marked(), plan.filled);
        self.announce_all(plan, store, sealer);
        self.take_turns(plan, value, store, sealer);
        self.load(plan, store, sealer);
        self.take_log();
    }
}
