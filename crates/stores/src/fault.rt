// What a store refuses.
ghost use Rattle.stores.specs.Faults.{store_refusal};

use refusals::{Fault, Layer, Refusal};

#[derive(Clone, Copy, PartialEq, Eq, Debug)]
pub enum StoreFault {
    // No save is left; the place is how many records a tape has, else 0.
    NoSave(u64),
    // This record of a tape cannot be read.
    Damaged(u64),
}

impl Fault for StoreFault {
    ghost refusal = { store_refusal };

    fn told(&self) -> Refusal {
        match *self {
            StoreFault::NoSave(place) => Refusal::new(9, Layer::Store).at(place),
            StoreFault::Damaged(record) => Refusal::new(22, Layer::Store).at(record),
        }
    }
}
