// What is printed once a script has run: the roll, the log and the refusals, each as a heading with a count and a row for each.
ghost use Rattle.std.specs.Prelude.{◌≡◌, IfOk, string_bytes};
ghost use Rattle.script.specs.Reports.{section, printed};

use crate::rows::Row;
use halls::Operation;
use refusals::Refusal;
use std::alloc::{AllocError, Global};
use wire::Configuration;

// A heading with the number of items, and the row of each.
pub fn section<T: Row>(heap: Global, heading: &str, items: &[T]) -> Result<String, AllocError>
    ensures { IfOk result (λ s. string_bytes s ≡ section T.shown heading.now items.now) }
{
    let count = items.len();
    let mut out = format!(in heap; "{heading} {count}\n")?;
    for item in items {
        let row = item.row(heap)?;
        out.push_str(row.as_str())?;
    }
    Ok(out)
}

// What is printed of a roll, a log and the refusals.
pub fn report(
    heap: Global,
    roll: &[Configuration],
    log: &[Operation],
    refusals: &[Refusal],
) -> Result<String, AllocError>
    ensures { IfOk result (λ s. string_bytes s ≡ printed roll.now log.now refusals.now) }
{
    let configurations = section(heap, "configurations", roll)?;
    let operations = section(heap, "operations", log)?;
    let refused = section(heap, "refusals", refusals)?;
    format!(in heap; "{configurations}{operations}{refused}")
}
