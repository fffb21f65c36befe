// Which sets of replicas a hall takes.
ghost use Rattle.std.specs.Prelude.{◌≡◌, ◌/◌, ◌^◌};
ghost use Rattle.model.specs.Issuing.{is_right_set, has_too_many_marked};

use rules::Rules;
use wire::ReplicaSet;

// The part of a set from this replica number on, as a number.
#[tactic(auto, using(crate::proofs::Shifts::nothing_behind))]
fn from_on(set: ReplicaSet, replicas: u8) -> u64
    ensures { result ≡ set.0 / 2 ^ replicas }
{
    if replicas < 64 { set.0 >> replicas } else { 0 }
}

// Whether a set is exactly 3f+1 of the hall's replicas.
pub(crate) fn is_right_set(rules: &Rules, set: ReplicaSet) -> bool
    ensures { result ≡ is_right_set rules.now set.0 }
{
    set.count() == 3 * u32::from(rules.faults) + 1 && from_on(set, rules.replicas) == 0
}

// Whether more than f replicas of a set are marked.
pub(crate) fn has_too_many_marked(rules: &Rules, marked: ReplicaSet, set: ReplicaSet) -> bool
    ensures { result ≡ has_too_many_marked rules.now marked.0 set.0 }
{
    ReplicaSet(set.0 & marked.0).count() > u32::from(rules.faults)
}
