// The answer to a question.
ghost use Rattle.std.specs.Prelude.{◌≡◌, Some};
ghost use Rattle.queries.specs.Replies.{answer, value_of, verdict_text, reply_text};

use crate::fault::QueryFault;
use crate::query::Query;
use kinds::{BinWeight, Kind, KindFault, Word};
use lots::{Day, LotCard};
use std::fmt;

#[derive(Clone, Copy, PartialEq, Eq, Debug)]
pub enum Reply {
    // the word asked for
    Spelt(Word),
    // the value asked for
    Weighed(BinWeight),
    Carded(LotCard),
    // whether the lot may be drawn
    Drawable(bool),
}

// The value of this kind that has this word.
// Stays: the kind's number, not an enum of kinds, which would be one more list of them beside the kinds' own numbers.
fn value(kind: u64, word: Word) -> Option<Reply>
    ensures { result ≡ value_of kind word }
{
    if kind == u64::from(BinWeight::NUMBER) {
        BinWeight::from_word(word).map(Reply::Weighed)
    } else if kind == u64::from(LotCard::NUMBER) {
        LotCard::from_word(word).map(Reply::Carded)
    } else {
        None
    }
}

impl Query {
    pub fn answer(self) -> Result<Reply, QueryFault>
        ensures { result ≡ answer self }
    {
        let reply = match self {
            Query::Weight { grams, lot } => Reply::Spelt(BinWeight::new(grams, lot)?.to_word()),
            Query::Quarantined { since } => Reply::Spelt(LotCard::quarantined(since)?.to_word()),
            Query::Released { until } => Reply::Spelt(LotCard::released(until)?.to_word()),
            Query::Blocked { reason, since } => Reply::Spelt(LotCard::blocked(
                reason, since,
            )?.to_word()),
            Query::Value { kind, word } => value(kind, word).ok_or(KindFault::NoValue)?,
            Query::Draw { word, day } => {
                let card = LotCard::from_word(word).ok_or(KindFault::NoValue)?;
                Reply::Drawable(card.may_be_drawn(Day::try_from(day)?))
            }
        };
        Ok(reply)
    }
}

fn verdict(may: bool) -> &'static str
    ensures { result.now ≡ verdict_text may }
{
    if may {
        "may be drawn"
    } else {
        "may not be drawn"
    }
}

impl fmt::Display for Reply {
    ghost output = { λ r. Some (reply_text r) };

    fn fmt<W: fmt::Write>(&self, f: &mut fmt::Formatter<W>) -> fmt::Result {
        match *self {
            Reply::Spelt(Word(word)) => write!(f, "{word}"),
            Reply::Weighed(weight) => write!(f, "{weight}"),
            Reply::Carded(card) => write!(f, "{card}"),
            Reply::Drawable(may) => f.write_str(verdict(may)),
        }
    }
}
