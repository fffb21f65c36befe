// What a hall refuses.
ghost use Rattle.std.specs.Prelude.{◌≡◌};
ghost use Rattle.halls.specs.Faults.{hall_refusal, step_refusal};
ghost use Rattle.halls.specs.declared.fault.HallFault.TheVariants.{Client, Kind, Source, Store};
ghost use Rattle.halls.specs.declared.fault.StepFault.TheVariants.{Client as AClient, Replica as AReplica};

use clients::ClientFault;
use kinds::KindFault;
use refusals::{Fault, Layer, Refusal};
use replicas::ReplicaFault;
use source::SourceFault;
use stores::StoreFault;

// The fault of the step of whoever an entry was handed to.
#[derive(Clone, Copy, PartialEq, Eq, Debug)]
pub enum StepFault {
    Client(ClientFault),
    Replica(ReplicaFault),
}

// A number in a case is its place: the entry of a delivery, a party, or 0.
// A case without one stands at 0, and a fault of another layer at its own place.
#[derive(Clone, Copy, PartialEq, Eq, Debug)]
pub enum HallFault {
    // a limit is broken
    Limit,
    // the set is not exactly 3f+1 of the hall's replicas
    WrongSet,
    // more than f replicas of the set are marked, or would be
    TooManyMarked(u64),
    // a table has not the length that it had at the opening
    WrongTables,
    // there is no such party or entry
    NoSuch(u64),
    // a table to be added to is full, or no moment is left
    Full(u64),
    // sender, kind and receiver of the entry do not fit together
    Unfit(u64),
    // only a marked replica can be meddled with
    NotMarked(u64),
    // this is not the slip of the client's operation, or nothing is lodged
    NotItsSlip(u64),
    // collected while the operation is open, or called off when it is over
    NotNow(u64),
    Client(ClientFault),
    Source(SourceFault),
    Store(StoreFault),
    Kind(KindFault),
    // the entry of this number was handed over, and the step that was to take it refused
    Step(u64, StepFault),
}

// Stays: one by one, since contracts name the error that `?` makes and a derived From says nothing of it.
impl From<ClientFault> for StepFault {
    ghost from_gives = { λ e r. r ≡ AClient e };

    fn from(fault: ClientFault) -> StepFault {
        StepFault::Client(fault)
    }
}

impl From<ReplicaFault> for StepFault {
    ghost from_gives = { λ e r. r ≡ AReplica e };

    fn from(fault: ReplicaFault) -> StepFault {
        StepFault::Replica(fault)
    }
}

impl From<ClientFault> for HallFault {
    ghost from_gives = { λ e r. r ≡ Client e };

    fn from(fault: ClientFault) -> HallFault {
        HallFault::Client(fault)
    }
}

impl From<SourceFault> for HallFault {
    ghost from_gives = { λ e r. r ≡ Source e };

    fn from(fault: SourceFault) -> HallFault {
        HallFault::Source(fault)
    }
}

impl From<StoreFault> for HallFault {
    ghost from_gives = { λ e r. r ≡ Store e };

    fn from(fault: StoreFault) -> HallFault {
        HallFault::Store(fault)
    }
}

impl From<KindFault> for HallFault {
    ghost from_gives = { λ e r. r ≡ Kind e };

    fn from(fault: KindFault) -> HallFault {
        HallFault::Kind(fault)
    }
}

impl Fault for StepFault {
    ghost refusal = { step_refusal };

    fn told(&self) -> Refusal {
        match *self {
            StepFault::Client(fault) => fault.told(),
            StepFault::Replica(fault) => fault.told(),
        }
    }
}

impl Fault for HallFault {
    ghost refusal = { hall_refusal };

    fn told(&self) -> Refusal {
        match *self {
            HallFault::Limit => Refusal::new(1, Layer::Hall),
            HallFault::WrongSet => Refusal::new(2, Layer::Hall),
            HallFault::TooManyMarked(place) => Refusal::new(3, Layer::Hall).at(place),
            HallFault::WrongTables => Refusal::new(4, Layer::Hall),
            HallFault::NoSuch(place) => Refusal::new(5, Layer::Hall).at(place),
            HallFault::Full(place) => Refusal::new(6, Layer::Hall).at(place),
            HallFault::Unfit(place) => Refusal::new(11, Layer::Hall).at(place),
            HallFault::NotMarked(place) => Refusal::new(20, Layer::Hall).at(place),
            HallFault::NotItsSlip(place) => Refusal::new(18, Layer::Client).at(place),
            HallFault::NotNow(place) => Refusal::new(19, Layer::Client).at(place),
            HallFault::Client(fault) => fault.told(),
            HallFault::Source(fault) => fault.told(),
            HallFault::Store(fault) => fault.told(),
            HallFault::Kind(fault) => fault.told(),
            HallFault::Step(place, fault) => fault.told().at(place),
        }
    }
}
