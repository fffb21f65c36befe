// What a replica's step refuses.
ghost use Rattle.std.specs.Prelude.{◌≡◌};
ghost use Rattle.replicas.specs.Faults.{replica_refusal};
ghost use Rattle.replicas.specs.declared.fault.ReplicaFault.TheVariants.{Store};

use refusals::{Fault, Layer, Refusal};
use rules::Objection;
use stores::StoreFault;
use wire::{Party, Replica};

#[derive(Clone, Copy, PartialEq, Eq, Debug)]
pub enum ReplicaFault {
    // this replica does not accept the entry
    Objects(Replica, Objection),
    // the store refused to save
    Store(StoreFault),
}

// Stays: written out, since contracts name the error that `?` makes and a derived From says nothing of it.
impl From<StoreFault> for ReplicaFault {
    ghost from_gives = { λ e r. r ≡ Store e };

    fn from(fault: StoreFault) -> ReplicaFault {
        ReplicaFault::Store(fault)
    }
}

impl Fault for ReplicaFault {
    ghost refusal = { replica_refusal };

    fn told(&self) -> Refusal {
        match *self {
            ReplicaFault::Objects(replica, why) => {
                let party = u8::from(Party::Replica(replica));
                Refusal::new(u8::from(why), Layer::Replica).at(u64::from(party))
            }
            ReplicaFault::Store(fault) => fault.told(),
        }
    }
}
