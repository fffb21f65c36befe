// Parties, kinds of entries, pairs and sets of replicas, in words.
use kinds::{BinWeight, Kind, Word};
use std::fmt;
use wire::{Configuration, EntryKind, Pair, Party, Replica};

// The party of this number.
#[derive(Clone, Copy)]
pub(crate) struct Name(pub(crate) u8);

// The writer of a stamp: 0 is nobody's number.
#[derive(Clone, Copy)]
struct Writer(u8);

#[derive(Clone, Copy)]
pub(crate) struct KindName(pub(crate) u8);

#[derive(Clone, Copy)]
pub(crate) struct WeightName(pub(crate) Word);

#[derive(Clone, Copy)]
pub(crate) struct PairName(pub(crate) Pair);

// The replicas of an epoch.
#[derive(Clone, Copy)]
pub(crate) struct Members(pub(crate) Configuration);

impl fmt::Display for Name {
    fn fmt<W: fmt::Write>(&self, f: &mut fmt::Formatter<W>) -> fmt::Result {
        match Party::try_from(u64::from(self.0)) {
            Ok(Party::Source) => write!(f, "the source"),
            Ok(Party::Client(client)) => write!(f, "client {}", client.number()),
            Ok(Party::Replica(replica)) => write!(f, "replica {}", replica.number()),
            Err(_) => write!(f, "nobody"),
        }
    }
}

impl fmt::Display for Writer {
    fn fmt<W: fmt::Write>(&self, f: &mut fmt::Formatter<W>) -> fmt::Result {
        match self.0 {
            0 => write!(f, "nobody"),
            writer => write!(f, "{}", Name(writer)),
        }
    }
}

impl fmt::Display for KindName {
    fn fmt<W: fmt::Write>(&self, f: &mut fmt::Formatter<W>) -> fmt::Result {
        f.write_str(match EntryKind::try_from(self.0) {
            Ok(EntryKind::Read) => "READ",
            Ok(EntryKind::Write) => "WRITE",
            Ok(EntryKind::Transfer) => "TRANSFER",
            Ok(EntryKind::Pair) => "PAIR",
            Ok(EntryKind::Ack) => "ACK",
            Ok(EntryKind::Stock) => "STOCK",
            Ok(EntryKind::Config) => "CONFIG",
            Ok(EntryKind::Behind) => "BEHIND",
            Err(_) => "entry",
        })
    }
}

impl fmt::Display for WeightName {
    fn fmt<W: fmt::Write>(&self, f: &mut fmt::Formatter<W>) -> fmt::Result {
        match BinWeight::from_word(self.0) {
            Some(weight) => write!(f, "{weight}"),
            None => write!(f, "no weight"),
        }
    }
}

impl fmt::Display for PairName {
    fn fmt<W: fmt::Write>(&self, f: &mut fmt::Formatter<W>) -> fmt::Result {
        let Pair { stamp, word, .. } = self.0;
        let weight = WeightName(word);
        let writer = Writer(stamp.writer);
        write!(f, "{weight}, stamp {} of {writer}", stamp.count)
    }
}

impl fmt::Display for Members {
    fn fmt<W: fmt::Write>(&self, f: &mut fmt::Formatter<W>) -> fmt::Result {
        let Configuration { epoch, set, .. } = self.0;
        write!(f, "epoch {epoch} has replicas")?;
        let replicas = (0..64).filter_map(|number| Replica::try_from(number).ok());
        for replica in replicas.filter(|replica| set.contains(*replica)) {
            write!(f, " {}", replica.number())?;
        }
        Ok(())
    }
}
