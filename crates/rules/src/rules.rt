// The rules of a hall as a value, and what is genuine under them.
ghost use Rattle.std.specs.Prelude.{◌≡◌, count_ones, nat_le};
ghost use Rattle.rules.specs.Genuine.{quorum_size, opening_pair, first_configuration, is_client, genuine_pair, genuine_configuration, genuine_entry};

use crate::judged::Judged;
use kinds::{Kind, Word};
use sealers::Sealer;
use wire::{Configuration, Entry, EntryKind, Pair, ReplicaSet, Text};

#[derive(Clone, Copy, PartialEq, Eq, Debug)]
pub struct Rules {
    // how many replicas of a set may lie: f
    pub faults: u8,
    // the replicas are numbered below this, the clients from 1 up to this
    pub replicas: u8,
    pub clients: u8,
    // the set of epoch 0
    pub first: ReplicaSet,
    // the word of the value that the register opens with
    pub opening: Word,
}

impl Rules {
    // How many replicas of a set have to answer: 2f+1.
    pub fn quorum(&self) -> u32
        ensures { result ≡ quorum_size self.now }
    {
        2 * u32::from(self.faults) + 1
    }

    // Whether these are enough to have answered.
    pub fn is_quorum(&self, counted: ReplicaSet) -> bool
        ensures { result ≡ nat_le (quorum_size self.now) (count_ones counted.0) }
    {
        counted.count() >= self.quorum()
    }

    // The pair that nobody wrote.
    pub fn opening_pair(&self) -> Pair
        ensures { result ≡ opening_pair self.now }
    {
        Pair {
            word: self.opening,
            ..Pair::default()
        }
    }

    // The configuration that nobody sealed.
    pub fn first_configuration(&self) -> Configuration
        ensures { result ≡ first_configuration self.now }
    {
        Configuration {
            set: self.first,
            ..Configuration::default()
        }
    }

    // Whether the party of this number is a client of the hall.
    // Stays: a number, which a liar may have put into a stamp.
    pub fn has_client(&self, party: u8) -> bool
        ensures { result ≡ is_client self.now party }
    {
        (1..=self.clients).contains(&party)
    }

    // Whether it is the opening pair, or a client of the hall has sealed it.
    #[inline(always)]
    pub fn is_genuine_pair<K: Kind, L: Sealer>(&self, pair: Pair, sealer: &L) -> bool
        ensures { result ≡ genuine_pair self.now K.kind.number (L.desk sealer.now).genuine pair }
    {
        pair == self.opening_pair()
            || self.has_client(pair.stamp.writer)
                && sealer.check(Text::of_pair(K::NUMBER, pair), pair.seal)
    }

    // Whether it is the first configuration, or the source has sealed it.
    pub fn is_genuine_configuration<L: Sealer>(
        &self,
        configuration: Configuration,
        sealer: &L,
    ) -> bool
        ensures { result ≡ genuine_configuration self.now (L.desk sealer.now).genuine configuration }
    {
        configuration == self.first_configuration()
            || sealer.check(Text::from(configuration), configuration.seal)
    }

    // The entry, and whether what it carries is genuine: a pair, a configuration, or nothing.
    #[inline(always)]
    pub fn judge<K: Kind, L: Sealer>(&self, entry: &Entry, sealer: &L) -> Judged
        ensures { result ≡ record { entry = entry.now; genuine = genuine_entry self.now K.kind.number (L.desk sealer.now).genuine entry.now } }
    {
        let genuine = match EntryKind::try_from(entry.kind) {
            Ok(EntryKind::Write | EntryKind::Pair | EntryKind::Stock) => {
                self.is_genuine_pair::<K, L>(entry.pair(), sealer)
            }
            Ok(EntryKind::Transfer | EntryKind::Config) => {
                self.is_genuine_configuration::<L>(entry.configuration(), sealer)
            }
            _ => true,
        };
        Judged {
            entry: *entry,
            genuine,
        }
    }
}
