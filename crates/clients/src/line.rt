// The line of a client: where it stands with its operation.
ghost use Rattle.std.specs.Prelude.{◌≡◌};
ghost use Rattle.clients.specs.Lines.{idle_line, is_open, is_idle, is_writing, opened, asking, configured_as, ended, counting, hearing, stamped, sealed_with};

use kinds::Word;
use wire::{Configuration, Pair, Replica, ReplicaSet, Seal};

#[derive(Clone, Copy, PartialEq, Eq, Debug)]
pub enum Stage {
    // no operation
    Idle,
    // asks the replicas for their pairs
    Reading,
    // writes a pair that it has stamped
    Writing,
    // a read writes the highest pair back
    WritingBack,
    // the operation has ended and is not yet collected
    Over,
}

#[derive(Clone, Copy, PartialEq, Eq, Debug)]
pub struct Line {
    pub stage: Stage,
    // the word to write; none for a read
    pub word: Option<Word>,
    pub configuration: Configuration,
    pub round: u32,
    // whose answers to this round are counted
    pub counted: ReplicaSet,
    // the highest pair heard; while writing and writing back the pair in flight; then the operation's pair
    // Stays: a pair and no Option: only a round of reading can be without one, and there `counted` says whether one was heard.
    pub highest: Pair,
    // whether all stamps heard in this round agree
    pub agree: bool,
    // the count of its latest stamp
    pub last_count: u32,
}

impl Stage {
    // Whether a round is open.
    pub fn is_open(self) -> bool
        ensures { result ≡ is_open self }
    {
        matches!(self, Stage::Reading | Stage::Writing | Stage::WritingBack)
    }

    pub fn is_idle(self) -> bool
        ensures { result ≡ is_idle self }
    {
        self == Stage::Idle
    }

    // Whether ACKs are counted.
    pub(crate) fn is_writing(self) -> bool
        ensures { result ≡ is_writing self }
    {
        matches!(self, Stage::Writing | Stage::WritingBack)
    }
}

impl Line {
    // An idle client in this configuration.
    pub fn new(configuration: Configuration) -> Line
        ensures { result ≡ idle_line configuration }
    {
        Line {
            stage: Stage::Idle,
            word: None,
            configuration,
            round: 0,
            counted: ReplicaSet(0),
            highest: Pair::default(),
            agree: true,
            last_count: 0,
        }
    }

    // A new round with nothing counted.
    pub(crate) fn opened(self, stage: Stage, round: u32, pair: Pair) -> Line
        ensures { result ≡ opened self stage round pair }
    {
        Line {
            stage,
            round,
            counted: ReplicaSet(0),
            highest: pair,
            agree: true,
            ..self
        }
    }

    // What the operation is to write.
    pub(crate) fn asking(self, word: Option<Word>) -> Line
        ensures { result ≡ asking self word }
    {
        Line { word, ..self }
    }

    pub(crate) fn configured_as(self, configuration: Configuration) -> Line
        ensures { result ≡ configured_as self configuration }
    {
        Line {
            configuration,
            ..self
        }
    }

    // The operation has ended.
    pub(crate) fn ended(self) -> Line
        ensures { result ≡ ended self }
    {
        Line {
            stage: Stage::Over,
            ..self
        }
    }

    // One more replica counted.
    pub(crate) fn counting(self, from: Replica) -> Line
        ensures { result ≡ counting self from }
    {
        Line {
            counted: self.counted.with(from),
            ..self
        }
    }

    // One more replica counted with its pair.
    #[inline(always)]
    pub(crate) fn hearing(self, from: Replica, pair: Pair) -> Line
        ensures { result ≡ hearing self from pair }
    {
        let is_first = self.counted == ReplicaSet(0);
        let is_highest = is_first || pair.stamp.is_above(self.highest.stamp);
        Line {
            counted: self.counted.with(from),
            highest: if is_highest { pair } else { self.highest },
            agree: is_first || self.agree && pair.stamp == self.highest.stamp,
            ..self
        }
    }

    // The stamp of the write is taken: its pair is in flight, in this round.
    pub(crate) fn stamped(self, round: u32, pair: Pair) -> Line
        ensures { result ≡ stamped self round pair }
    {
        Line {
            last_count: pair.stamp.count,
            ..self.opened(Stage::Writing, round, pair)
        }
    }

    // The pair in flight with its seal.
    pub(crate) fn sealed_with(self, seal: Seal) -> Line
        ensures { result ≡ sealed_with self seal }
    {
        Line {
            highest: Pair {
                seal,
                ..self.highest
            },
            ..self
        }
    }
}
