// Histories: the entries that were posted, and what readers learn from them.
#![tactic(auto)]

ghost use Rattle.histories.specs.Reads.{LaterReadsSeeSettledWrites};

// The highest stamp that a quorum answers after a write settled is the write's or a higher one.
pub fn later_reads_see_settled_writes()
    ensures { LaterReadsSeeSettledWrites }
{}
