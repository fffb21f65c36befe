// What a sealer refuses.
ghost use Rattle.std.specs.Prelude.{◌≡◌};
ghost use Rattle.sealers.specs.Faults.{sealer_refusal};

use refusals::{Fault, Layer, Refusal};

#[derive(Clone, Copy, PartialEq, Eq, Debug)]
pub enum SealerFault {
    // This party has no seal left.
    // Stays: a number, no `Party`: a text can name anybody, and the refusal tells whom.
    NoSeal(u8),
    // At the opening: a limit is broken.
    Limit,
}

impl Fault for SealerFault {
    ghost refusal = { sealer_refusal };

    fn told(&self) -> Refusal {
        match *self {
            SealerFault::NoSeal(party) => { Refusal::new(8, Layer::Sealer).at(u64::from(party)) }
            SealerFault::Limit => Refusal::new(1, Layer::Hall),
        }
    }
}
