// Why a line of a script is refused.
ghost use Rattle.std.specs.Prelude.{◌≡◌};
ghost use Rattle.runner.specs.Faults.{script_refusal};
ghost use Rattle.runner.specs.declared.fault.ScriptFault.TheVariants.{Kind, Hall};

use halls::HallFault;
use kinds::KindFault;
use refusals::{Fault, Layer, Refusal};

#[derive(Clone, Copy, PartialEq, Eq, Debug)]
pub enum ScriptFault {
    // The line cannot be read, or not where it stands.
    Unreadable,
    // Its grams and its lot are no value.
    Kind(KindFault),
    // The hall refuses.
    Hall(HallFault),
}

// Stays: written out, since contracts name the error that `?` makes and a derived From says nothing of it.
impl From<KindFault> for ScriptFault {
    ghost from_gives = { λ e r. r ≡ Kind e };

    fn from(fault: KindFault) -> ScriptFault {
        ScriptFault::Kind(fault)
    }
}

impl From<HallFault> for ScriptFault {
    ghost from_gives = { λ e r. r ≡ Hall e };

    fn from(fault: HallFault) -> ScriptFault {
        ScriptFault::Hall(fault)
    }
}

impl Fault for ScriptFault {
    ghost refusal = { script_refusal };

    fn told(&self) -> Refusal {
        match self {
            ScriptFault::Unreadable => Refusal::new(23, Layer::Script),
            ScriptFault::Kind(fault) => fault.told(),
            ScriptFault::Hall(fault) => fault.told(),
        }
    }
}
