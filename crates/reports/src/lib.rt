// What is printed for a whole text of questions.
#![tactic(auto)]

ghost use Rattle.std.specs.Prelude.{◌≡◌, IfOk, string_bytes};
ghost use Rattle.queries.specs.Faults.{query_refusal};
ghost use Rattle.refusals.specs.Places.{moved};
ghost use Rattle.reports.specs.Reports.{tried, row, printed};

use fields::Lines;
use queries::{Query, QueryFault, Reply};
use refusals::{Fault, Refusal};
use std::alloc::{AllocError, Global};

// The reply to a line.
fn reply(line: &[u8]) -> Result<Reply, QueryFault>
    ensures { result ≡ tried line.now }
{
    Query::read(line).ok_or(QueryFault::Unreadable)?.answer()
}

// The refusal of the line of this number.
fn refusal_of(line: u64, fault: QueryFault) -> Refusal
    ensures { result ≡ moved (query_refusal fault) line }
{
    fault.told().at(line)
}

// The row of the line of this number: its reply, or its refusal.
fn row_of(heap: Global, line: u64, reply: Result<Reply, QueryFault>) -> Result<String, AllocError>
    ensures { IfOk result (λ s. string_bytes s ≡ row line reply) }
{
    match reply {
        Ok(reply) => format!(in heap; "{reply}\n"),
        Err(fault) => {
            let refusal = refusal_of(line, fault);
            format!(in heap; "{refusal}\n")
        }
    }
}

// A row for each line of the text, and then how many values and how many refusals there were.
pub fn report(heap: Global, text: &[u8]) -> Result<String, AllocError>
    ensures { IfOk result (λ s. string_bytes s ≡ printed text.now) }
{
    let mut out = String::new(heap);
    let mut values: u64 = 0;
    let mut refusals: u64 = 0;
    for (line, number) in Lines::new(text).zip(1..) {
        let answer = reply(line);
        let row = row_of(heap, number, answer)?;
        out.push_str(row.as_str())?;
        if answer.is_ok() {
            values += 1;
        } else {
            refusals += 1;
        }
    }
    let totals = format!(in heap; "values {values}\nrefusals {refusals}\n")?;
    out.push_str(totals.as_str())?;
    Ok(out)
}
