// What a kind refuses.
ghost use Rattle.std.specs.Prelude.{◌≡◌};
ghost use Rattle.kinds.specs.Faults.{kind_refusal};

use refusals::{Fault, Layer, Refusal};

#[derive(Clone, Copy, PartialEq, Eq, Debug)]
pub enum KindFault {
    // Numbers or a word that are no value of the kind.
    NoValue,
}

impl Fault for KindFault {
    ghost refusal = { kind_refusal };

    fn told(&self) -> Refusal {
        match self {
            KindFault::NoValue => Refusal::new(21, Layer::Kind),
        }
    }
}
