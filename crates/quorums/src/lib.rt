// Quorums of the replica sets of epochs.
#![tactic(auto)]

ghost use Rattle.quorums.specs.Quorums.{QuorumsMeet};

// Two quorums of one epoch share an honest replica.
pub fn quorums_meet()
    ensures { QuorumsMeet }
{}
