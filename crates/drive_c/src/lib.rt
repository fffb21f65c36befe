// A set workload of hall calls for C, as a static library: a plan says how much is to be done, a tally how much was.
#![tactic(auto)]

ghost use Rattle.std.specs.Prelude.{◌≡◌};
ghost use Rattle.drive_c.specs.Plans.{calls_of};
ghost use Rattle.drive_c.specs.Tallies.{more};

mod driven;
mod memory;
mod opening;
mod plan;
mod tally;
mod work;

use opening::openings;
pub use plan::Plan;
use std::alloc::Global;
pub use tally::Tally;

// Opens as many halls as are planned, one after the other over the same tables, does in each what is planned, and adds the
// calls to the tally. The bytes are the tape's, where there is one.
// Its contract says how many calls are counted, and the type of a tally that no more are refused. Inside, each issue, delivery
// and entry is proved to be that call of the model, and to count as refused exactly where the model refuses. That they are the
// calls of the plan, and what the logs add up to, is not in the contract: it is seen by comparing with another hall.
#[unsafe(no_mangle)]
pub extern "C" fn dagbirin_drive(heap: Global, plan: &Plan, bytes: &mut [u8], tally: &mut Tally)
    ensures { tally.new.calls ≡ more tally.old.calls (calls_of plan.now) }
{
    openings(heap, plan, bytes, tally);
}
