// What a step of a client makes of its line of the log, and of the moment.
ghost use Rattle.std.specs.Prelude.{◌≡◌, ◌<◌, slice_index_or};
ghost use Rattle.lists.specs.Held.{held, slice};
ghost use Rattle.model.specs.Halls.{no_operation};
ghost use Rattle.model.specs.Delivering.{has_ended, is_stamping, logged, log_after, moment_after};
ghost use Rattle.register.specs.Worlds.{table};

use clients::{Line, Stage};
use halls::Operation;
use lists::List;

// Whether a step from one line to the other has ended the operation.
fn has_ended(before: &Line, after: &Line) -> bool
    ensures { result ≡ has_ended before.now after.now }
{
    after.stage == Stage::Over && before.stage != Stage::Over
}

// Whether it has given a write its stamp.
fn is_stamping(before: Stage, after: Stage) -> bool
    ensures { result ≡ is_stamping before after }
{
    before == Stage::Reading && after == Stage::Writing
}

// The line of the log after the step: it gets its end with its pair, or a write gets its stamp and seal.
fn logged(operation: Operation, before: &Line, after: &Line, moment: u32) -> Operation
    ensures { result ≡ logged operation before.now after.now moment }
{
    let pair = after.highest;
    if has_ended(before, after) {
        Operation {
            ended: Some(moment),
            pair,
            ..operation
        }
    } else if is_stamping(before.stage, after.stage) {
        Operation { pair, ..operation }
    } else {
        operation
    }
}

// Changes the line of the log at this place, if there is one.
#[tactic(auto, using(crate::proofs::Changes::put_nowhere))]
#[inline(always)]
pub(crate) fn log_step(
    log: &mut List<Operation>,
    place: u32,
    before: &Line,
    after: &Line,
    moment: u32,
)
    ensures change { table log.new ≡ log_after (table log.old) place (logged (slice_index_or (held log.old) place no_operation) before.now after.now moment) }
    ensures slice { slice log.new ≡ slice log.old }
{
    let place = place as usize;
    if let Some(&operation) = log.get(place) {
        let _ = log.set(place, logged(operation, before, after, moment));
    }
}

// The moment after the step: an end takes the next one.
pub(crate) fn moment_after(moment: u32, before: &Line, after: &Line) -> u32
    requires { moment < 4294967295 }
    ensures { result ≡ moment_after moment before.now after.now }
{
    if has_ended(before, after) {
        moment + 1
    } else {
        moment
    }
}
