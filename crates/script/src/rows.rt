// The rows of what is printed.
ghost use Rattle.std.specs.Prelude.{◌≡◌, ℕ, List, IfOk, string_bytes};
ghost use Rattle.script.specs.Rows.{configuration_row, operation_row, refusal_row, letter_text, value_text, pair_text, last_four};

use halls::Operation;
use kinds::{BinWeight, Kind, Word};
use refusals::Refusal;
use std::alloc::{AllocError, Global};
use wire::{Configuration, Pair};

// What is printed as a row.
pub trait Row {
    ghost shown: { Self → List ℕ };

    fn row(&self, heap: Global) -> Result<String, AllocError>
        ensures { IfOk result (λ s. string_bytes s ≡ shown self.now) };
}

impl Row for Configuration {
    ghost shown = { configuration_row };

    // Its epoch and its set.
    fn row(&self, heap: Global) -> Result<String, AllocError> {
        let Configuration {
            epoch,
            set,
            seal: _,
        } = *self;
        let members = set.0;
        format!(in heap; "{epoch} {members}\n")
    }
}

fn letter(writes: bool) -> &'static str
    ensures { result.now ≡ letter_text writes }
{
    if writes { "W" } else { "R" }
}

// The grams and the lot of a word; zeros where it is no bin weight's.
fn value_text(heap: Global, word: Word) -> Result<String, AllocError>
    ensures { IfOk result (λ s. string_bytes s ≡ value_text word) }
{
    match BinWeight::from_word(word) {
        Some(weight) => {
            let grams = weight.grams();
            let lot = weight.lot();
            format!(in heap; "{grams} {lot}")
        }
        None => format!(in heap; "0 0"),
    }
}

// The count and the writer of a pair, and its value.
fn pair_text(heap: Global, pair: Pair) -> Result<String, AllocError>
    ensures { IfOk result (λ s. string_bytes s ≡ pair_text pair) }
{
    let count = pair.stamp.count;
    let writer = pair.stamp.writer;
    let value = value_text(heap, pair.word)?;
    format!(in heap; "{count} {writer} {value}")
}

// A read has a pair only once it has ended.
fn last_four(heap: Global, operation: Operation) -> Result<String, AllocError>
    ensures { IfOk result (λ s. string_bytes s ≡ last_four operation) }
{
    if operation.writes || operation.ended.is_some() {
        pair_text(heap, operation.pair)
    } else {
        format!(in heap; "0 0 0 0")
    }
}

impl Row for Operation {
    ghost shown = { operation_row };

    // Its client, its letter, when it began and ended, and its pair.
    fn row(&self, heap: Global) -> Result<String, AllocError> {
        let operation = *self;
        let client = operation.client;
        let letter = letter(operation.writes);
        let began = operation.began;
        let ended = operation.ended.unwrap_or(0);
        let four = last_four(heap, operation)?;
        format!(in heap; "{client} {letter} {began} {ended} {four}\n")
    }
}

impl Row for Refusal {
    ghost shown = { refusal_row };

    // The line, the number and the layer.
    fn row(&self, heap: Global) -> Result<String, AllocError> {
        let refusal = *self;
        format!(in heap; "{refusal}\n")
    }
}
