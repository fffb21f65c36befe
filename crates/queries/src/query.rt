// What a line asks, and how it is read.
ghost use Rattle.std.specs.Prelude.{◌≡◌};
ghost use Rattle.fields.specs.Left.{fields_left};
ghost use Rattle.fields.specs.Parts.{fields};
ghost use Rattle.queries.specs.Queries.{letter_of, one_number, two_numbers, query_of};

use fields::{Fields, Numeral};
use kinds::Word;

#[derive(Clone, Copy, PartialEq, Eq, Debug)]
pub enum Query {
    // W grams lot: the word of a bin weight
    Weight { grams: i64, lot: u64 },
    // Q day: the word of a lot quarantined since that day
    Quarantined { since: u64 },
    // R day: the word of a lot released until that day
    Released { until: u64 },
    // B reason day: the word of a lot blocked for that reason since that day
    Blocked { reason: u64, since: u64 },
    // V kind word: the value of that kind that has this word
    // Stays: the number of a kind, since one that no kind has is refused by the answer and not by the reading.
    Value { kind: u64, word: Word },
    // D word day: whether the lot whose card has this word may be drawn on that day
    Draw { word: Word, day: u64 },
}

// The byte of a field that has just one.
fn letter(field: &[u8]) -> Option<u8>
    ensures { result ≡ letter_of field.now }
{
    match field {
        [byte] => Some(*byte),
        _ => None,
    }
}

// The number that is left, or the two, and nothing else.
fn one_number<A: Numeral>(mut rest: Fields) -> Option<A>
    ensures { result ≡ one_number A.written (fields_left rest.entry) }
{
    let number = rest.number()?;
    rest.is_done().then_some(number)
}

fn two_numbers<A: Numeral, B: Numeral>(mut rest: Fields) -> Option<(A, B)>
    ensures { result ≡ two_numbers A.written B.written (fields_left rest.entry) }
{
    let first = rest.number()?;
    let second = rest.number()?;
    rest.is_done().then_some((first, second))
}

impl Query {
    // The question that a line asks: its letter, then its numbers, one space before each, and nothing else.
    // Stays: a function that answers an Option, not a conversion: a line need not be text, and one thing alone can be wrong with it.
    pub fn read(line: &[u8]) -> Option<Query>
        ensures { result ≡ query_of (fields line.now) }
    {
        let mut rest = Fields::new(line);
        match letter(rest.next()?)? {
            b'W' => two_numbers(rest).map(|(grams, lot)| Query::Weight { grams, lot }),
            b'Q' => one_number(rest).map(|since| Query::Quarantined { since }),
            b'R' => one_number(rest).map(|until| Query::Released { until }),
            b'B' => two_numbers(rest).map(|(reason, since)| Query::Blocked { reason, since }),
            b'V' => two_numbers(rest).map(|(kind, word)| Query::Value {
                kind,
                word: Word(word),
            }),
            b'D' => two_numbers(rest).map(|(word, day)| Query::Draw {
                word: Word(word),
                day,
            }),
            _ => None,
        }
    }
}
