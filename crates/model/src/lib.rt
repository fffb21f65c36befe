// The register as a whole, by its meaning: the state of a hall as values, the nine calls as definitions over it,
// and what holds of every run of them. Each function here carries one theorem in its contract.
#![tactic(auto)]

ghost use Rattle.model.specs.Promise.{OneOrder, RoundsEnd, LogInTime};

use kinds::Kind;

// All finished operations of a run, with some unfinished writes, stand in one order that keeps real time,
// and each read gives the last write before it, or the opening value.
pub fn operations_stand_in_one_order<K: Kind>()
    ensures { OneOrder K.kind }
{}

// A round is over once answers to it of 2f+1 different unmarked replicas were handed to its client.
pub fn rounds_end<K: Kind>()
    ensures { RoundsEnd K.kind }
{}

// The moments in the log keep the order of begins and ends.
pub fn log_keeps_time<K: Kind>()
    ensures { LogInTime K.kind }
{}
