// What the source refuses.
ghost use Rattle.std.specs.Prelude.{◌≡◌};
ghost use Rattle.source.specs.Issued.{source_refusal};
ghost use Rattle.source.specs.declared.fault.SourceFault.TheVariants.{Sealer};

use refusals::{Fault, Layer, Refusal};
use sealers::SealerFault;

#[derive(Clone, Copy, PartialEq, Eq, Debug)]
pub enum SourceFault {
    // no epoch is left for another configuration
    UsedUp,
    // the source has no seal left
    Sealer(SealerFault),
}

// Stays: written out, since contracts name the error that `?` makes and a derived From says nothing of it.
impl From<SealerFault> for SourceFault {
    ghost from_gives = { λ e r. r ≡ Sealer e };

    fn from(fault: SealerFault) -> SourceFault {
        SourceFault::Sealer(fault)
    }
}

impl Fault for SourceFault {
    ghost refusal = { source_refusal };

    fn told(&self) -> Refusal {
        match *self {
            SourceFault::UsedUp => Refusal::new(6, Layer::Hall),
            SourceFault::Sealer(fault) => fault.told(),
        }
    }
}
