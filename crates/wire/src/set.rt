// Sets of replicas, and how many are in one.
ghost use Rattle.std.specs.Prelude.{◌≡◌, ℕ, count_ones};
ghost use Rattle.wire.specs.Sets.{member, inserted, Added};

use crate::party::Replica;

// A set of replicas: bit n stands for replica n.
#[derive(Clone, Copy, PartialEq, Eq, Debug, Default)]
pub struct ReplicaSet(pub u64);

impl ReplicaSet {
    pub fn contains(self, replica: Replica) -> bool
        ensures { result ≡ member self.0 replica.number }
    {
        (self.0 >> replica.number()) % 2 == 1
    }

    // The set with this replica too.
    pub fn with(self, replica: Replica) -> ReplicaSet
        ensures value { result.0 ≡ inserted self.0 replica.number }
        ensures members { Added self.0 replica.number result.0 }
    {
        ReplicaSet(self.0 | 1 << replica.number())
    }

    // How many replicas are in it.
    pub fn count(self) -> u32
        ensures { result ≡ count_ones self.0 }
    {
        self.0.count_ones()
    }
}
