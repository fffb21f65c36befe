// The card of a replica: what it keeps over a restart.
use wire::{Pair, ReplicaSet, Seal};

// Stays: flat, a rule of the project: a card is copied and written to a tape field by field.
#[derive(Clone, Copy, PartialEq, Eq, Debug)]
pub struct Card {
    pub epoch: u32,
    // the present set, with its seal
    pub set: ReplicaSet,
    pub seal: Seal,
    // the set before it, with its seal
    pub previous: ReplicaSet,
    pub previous_seal: Seal,
    // whom it has heard during state transfer
    pub heard: ReplicaSet,
    // whether it is ready to serve
    // Stays: a flag, since a card that is ready keeps whom it heard, and its record on a tape has both.
    pub ready: bool,
    pub pair: Pair,
}
