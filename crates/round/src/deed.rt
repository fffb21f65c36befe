// What parties do in their steps, as sentences.
use crate::names::{KindName, Members, Name, PairName, WeightName};
use kinds::{BinWeight, Word};
use refusals::Refusal;
use std::fmt;
use wire::{Configuration, Entry, EntryKind, Pair};

// What the register opens with.
#[derive(Clone, Copy)]
pub(crate) struct Opening {
    pub(crate) configuration: Configuration,
    pub(crate) word: Word,
}

#[derive(Clone, Copy)]
pub(crate) enum Deed {
    // the entry's sender posts it
    Posts(Entry),
    // this party takes the entry in and posts nothing; with what it has come to
    Takes(u8, Entry, Option<End>),
    // this client gives what it has read or written
    HandsOver(u8, End, BinWeight),
    // this party refuses; with the entry that came to it, if one did
    Refuses(u8, Option<Entry>, Refusal),
}

// What a party has come to, with its pair.
#[derive(Clone, Copy)]
pub(crate) enum End {
    Read(Pair),
    Written(Pair),
    Ready(Pair),
}

impl End {
    // What the party now is or has done.
    fn verb(self) -> &'static str {
        match self {
            End::Read(_) => "has read",
            End::Written(_) => "has written",
            End::Ready(_) => "is ready:",
        }
    }

    fn pair(self) -> Pair {
        match self {
            End::Read(pair) | End::Written(pair) | End::Ready(pair) => pair,
        }
    }
}

impl fmt::Display for End {
    fn fmt<W: fmt::Write>(&self, f: &mut fmt::Formatter<W>) -> fmt::Result {
        write!(f, "{} {}", self.verb(), PairName(self.pair()))
    }
}

impl fmt::Display for Opening {
    fn fmt<W: fmt::Write>(&self, f: &mut fmt::Formatter<W>) -> fmt::Result {
        let members = Members(self.configuration);
        let weight = WeightName(self.word);
        write!(f, "The register opens with {weight}; {members}.")
    }
}

impl fmt::Display for Deed {
    fn fmt<W: fmt::Write>(&self, f: &mut fmt::Formatter<W>) -> fmt::Result {
        match *self {
            Deed::Posts(entry) => write!(f, "{} {}", Name(entry.sender), Posted(entry)),
            Deed::Takes(who, entry, end) => write!(f, "{} {}", Name(who), Taken(entry, end)),
            Deed::HandsOver(who, end, weight) => {
                let verb = end.verb();
                write!(f, "{} hands over what it {verb}: {weight}", Name(who))
            }
            Deed::Refuses(who, None, why) => write!(f, "{} refuses: {why}", Name(who)),
            Deed::Refuses(who, Some(entry), why) => {
                let (kind, sender) = (KindName(entry.kind), Name(entry.sender));
                write!(f, "{} refuses the {kind} of {sender}: {why}", Name(who))
            }
        }
    }
}

// What its sender does by posting this entry.
#[derive(Clone, Copy)]
struct Posted(Entry);

impl fmt::Display for Posted {
    fn fmt<W: fmt::Write>(&self, f: &mut fmt::Formatter<W>) -> fmt::Result {
        let entry = self.0;
        let (round, epoch) = (entry.round, entry.epoch);
        let to = Name(entry.addressee);
        let pair = PairName(entry.pair());
        match EntryKind::try_from(entry.kind) {
            Ok(EntryKind::Read) => write!(f, "asks for the weight, round {round} in epoch {epoch}"),
            Ok(EntryKind::Write) => write!(f, "writes {pair}, round {round} in epoch {epoch}"),
            Ok(EntryKind::Transfer) => write!(f, "leaves epoch {epoch} and asks for its stock"),
            Ok(EntryKind::Pair) => write!(f, "answers {to}: {pair}"),
            Ok(EntryKind::Ack) => write!(f, "confirms round {round} to {to}"),
            Ok(EntryKind::Stock) => write!(f, "gives {to} its stock: {pair}"),
            Ok(EntryKind::Config) => write!(f, "says: {}", Members(entry.configuration())),
            Ok(EntryKind::Behind) => write!(f, "tells {to} that it is behind"),
            Err(_) => write!(f, "posts what is no entry"),
        }
    }
}

// What a party does with this entry that came to it, and what it has come to by it.
#[derive(Clone, Copy)]
struct Taken(Entry, Option<End>);

impl fmt::Display for Taken {
    fn fmt<W: fmt::Write>(&self, f: &mut fmt::Formatter<W>) -> fmt::Result {
        let Taken(entry, end) = *self;
        let from = Name(entry.sender);
        match EntryKind::try_from(entry.kind) {
            Ok(EntryKind::Config) => write!(f, "takes epoch {}", entry.epoch),
            Ok(EntryKind::Stock) => write!(f, "counts the stock of {from}{}", AndSo(end)),
            _ => write!(f, "counts {from}{}", AndSo(end)),
        }
    }
}

// The end of a sentence where a party has come to something.
#[derive(Clone, Copy)]
struct AndSo(Option<End>);

impl fmt::Display for AndSo {
    fn fmt<W: fmt::Write>(&self, f: &mut fmt::Formatter<W>) -> fmt::Result {
        match self.0 {
            Some(end) => write!(f, " and {end}"),
            None => Ok(()),
        }
    }
}
