// What is to be done: how large a hall is, over which sealer and which store, and how much each opening is used.
ghost use Rattle.std.specs.Prelude.{◌≡◌, ◌+◌};
ghost use Rattle.drive_c.specs.Plans.{calls_of, calls_of_opening, members_of, outsiders_of, quorum_of};
ghost use Rattle.drive_c.specs.Tallies.{more};

use wire::ReplicaSet;

#[repr(C)]
#[derive(Clone, Copy)]
pub struct Plan {
    // how many openings, one after the other over the same tables
    pub openings: u32,
    // how many places the post has
    pub places: u16,
    // how many entries the marked replica posts first
    pub filled: u16,
    // how many configurations are then issued, and handed to each replica that is no member
    pub issues: u16,
    // how many times there are then a write and a read
    pub turns: u16,
    // how many times the last READ is then handed to one replica
    pub loads: u16,
    // f: the first set has the replicas 0 to 3f, and the last of them is marked
    pub faults: u8,
    pub replicas: u8,
    // the first client writes, the last one reads
    pub clients: u8,
    // who is handed the last READ
    pub loader: u8,
    // whether the sealer is keyed; if not, it is a book
    pub keyed: bool,
    // whether the store is a tape; if not, it is a cabinet
    pub taped: bool,
}

impl Plan {
    // How many replicas are in the first set.
    pub(crate) fn members(&self) -> u64
        ensures { result ≡ members_of self.now.faults }
    {
        3 * u64::from(self.faults) + 1
    }

    // How many replicas are not.
    pub(crate) fn outsiders(&self) -> u64
        ensures { result ≡ outsiders_of self.now }
    {
        u64::from(self.replicas).saturating_sub(self.members())
    }

    pub(crate) fn first_set(&self) -> ReplicaSet {
        ReplicaSet(u64::MAX >> 63u32.saturating_sub(3 * u32::from(self.faults)))
    }

    // The party number of the replica that is marked.
    pub(crate) fn marked(&self) -> u64
        ensures { result ≡ 99 + members_of self.now.faults }
    {
        100 + 3 * u64::from(self.faults)
    }

    // How many replicas are asked in a round.
    pub(crate) fn quorum(&self) -> u64
        ensures { result ≡ quorum_of self.now.faults }
    {
        2 * u64::from(self.faults) + 1
    }

    // How many calls are made in an opening.
    pub(crate) fn calls(&self) -> u64
        ensures { result ≡ more 0 (calls_of_opening self.now) }
    {
        let issues = u64::from(self.issues).saturating_mul(1 + self.outsiders());
        let turns = u64::from(self.turns).saturating_mul(8 + 6 * self.quorum());
        u64::from(self.filled)
            .saturating_add(issues)
            .saturating_add(turns)
            .saturating_add(u64::from(self.loads))
    }

    // How many calls are made in all openings.
    pub(crate) fn all_calls(&self) -> u64
        ensures { result ≡ more 0 (calls_of self.now) }
    {
        u64::from(self.openings).saturating_mul(self.calls())
    }
}
