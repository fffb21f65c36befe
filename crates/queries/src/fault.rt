// Why a line gets no reply.
ghost use Rattle.std.specs.Prelude.{◌≡◌};
ghost use Rattle.queries.specs.Faults.{query_refusal};
ghost use Rattle.queries.specs.declared.fault.QueryFault.TheVariants.{Kind};

use kinds::KindFault;
use refusals::{Fault, Layer, Refusal};

#[derive(Clone, Copy, PartialEq, Eq, Debug)]
pub enum QueryFault {
    // The line is none of the questions.
    Unreadable,
    // What it asks about is no value.
    Kind(KindFault),
}

// Stays: written out, since contracts name the error that `?` makes and a derived From says nothing of it.
impl From<KindFault> for QueryFault {
    ghost from_gives = { λ e r. r ≡ Kind e };

    fn from(fault: KindFault) -> QueryFault {
        QueryFault::Kind(fault)
    }
}

impl Fault for QueryFault {
    ghost refusal = { query_refusal };

    fn told(&self) -> Refusal {
        match self {
            QueryFault::Unreadable => Refusal::new(23, Layer::Script),
            QueryFault::Kind(inner) => inner.told(),
        }
    }
}
