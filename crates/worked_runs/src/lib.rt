// Runs worked out call by call: they show that the register's promise is not empty.
#![tactic(auto)]

ghost use Rattle.std.specs.Prelude.{◌≡◌};
ghost use Rattle.worked_runs.specs.Lists.{EveryListRuns, calls_of};
ghost use Rattle.model.specs.Kinds.{bin_weights};
ghost use Rattle.worked_runs.specs.Openings.{LeftByOpening};
ghost use Rattle.worked_runs.specs.Short.{ShortRun};
ghost use Rattle.worked_runs.specs.Short as short;
ghost use Rattle.worked_runs.specs.FullScript as full;
ghost use Rattle.worked_runs.specs.Full.{FullRun};
ghost use Rattle.worked_runs.specs.FullScript.{FullAnswers, start, script};
ghost use Rattle.worked_runs.specs.CalledOff.{CalledOffRun};
ghost use Rattle.worked_runs.specs.CalledOffScript.{CalledOffAnswers};
ghost use Rattle.worked_runs.specs.CalledOffScript as off;

use kinds::{BinWeight, Kind};

// From a world in which no seal is genuine yet every list of calls is a run, and one in which no seal is forged.
pub fn every_list_of_calls_runs<K: Kind>()
    ensures { EveryListRuns K.kind }
{}

// A read of nine calls is answered, and logged, as the rules say.
pub fn short_run()
    ensures { ShortRun }
{}

// Fifty calls, in which a write is overtaken by a change of members and its value is read by another client,
// are answered as the rules say, and are a run of which the promise speaks.
pub fn full_run()
    ensures kind { bin_weights ≡ ⟦<BinWeight as Kind>⟧.kind }
    ensures answers { FullAnswers }
    ensures run { FullRun bin_weights start (calls_of script) }
{}

// Twenty-six calls are answered as the rules say, and are a run of which the promise speaks: a write
// is called off half done, another client reads its value, and two answers count though refused.
pub fn called_off_run()
    ensures answers { CalledOffAnswers }
    ensures run { CalledOffRun bin_weights off.start (calls_of off.script) }
{}

// Each of these three runs starts where an opening leaves a register.
pub fn starts_are_left_by_openings()
    ensures short { LeftByOpening short.rules 0 short.start }
    ensures full { LeftByOpening full.rules 8 full.start }
    ensures called_off { LeftByOpening off.rules 8 off.start }
{}
