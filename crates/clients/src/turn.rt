// What a client makes of an entry, as a function on values.
ghost use Rattle.std.specs.Prelude.{◌≡◌};
ghost use Rattle.clients.specs.Turns.{closing, decided, on_ack, on_behind, on_config, on_pair, one_more, read_of, reads_next, reopening, unsealed, write_of, writes_next};

use crate::line::{Line, Stage};
use kinds::Word;
use rules::{Heading, Judged, Objection, Rules, configured, counted_from};
use wire::{Client, Entry, EntryKind, Pair, Seal, Stamp};

#[derive(Clone, Copy, PartialEq, Eq, Debug)]
pub enum Turn {
    // the line becomes this, and this is posted
    Moves(Line, Option<Entry>),
    // the write has its stamp: the line's pair has yet to be sealed, and is then written
    Stamps(Line),
}

// One more than this number, as far as there is one.
pub(crate) fn one_more(number: u32) -> Result<u32, Objection>
    ensures { result ≡ one_more number }
{
    number.checked_add(1).ok_or(Objection::TooHigh)
}

// A client at its line.
#[derive(Clone, Copy, PartialEq, Eq, Debug)]
pub(crate) struct Standing {
    pub(crate) client: Client,
    pub(crate) line: Line,
}

impl Standing {
    // What it posts goes to any replica, in its round and its epoch.
    fn heading(self) -> Heading
        ensures { result ≡ record { sender = self.client.number; addressee = 0; round = self.line.round; epoch = self.line.configuration.epoch } }
    {
        Heading {
            sender: self.client.number(),
            addressee: 0,
            round: self.line.round,
            epoch: self.line.configuration.epoch,
        }
    }

    // What is posted in a round that asks for pairs.
    pub(crate) fn read(self) -> Entry
        ensures { result ≡ read_of self.client self.line }
    {
        self.heading().plain(EntryKind::Read)
    }

    // What is posted in a round with a pair in flight.
    pub(crate) fn write(self) -> Entry
        ensures { result ≡ write_of self.client self.line }
    {
        self.heading().paired(EntryKind::Write, self.line.highest)
    }

    // The same client at another line.
    pub(crate) fn at(self, line: Line) -> Standing
        ensures { result ≡ record { client = self.client; line = line } }
    {
        Standing { line, ..self }
    }

    // It asks for pairs in the next round.
    #[inline(always)]
    fn reads_next(self) -> Result<Turn, Objection>
        ensures { result ≡ reads_next self.client self.line }
    {
        let round = one_more(self.line.round)?;
        let line = self.line.opened(Stage::Reading, round, Pair::default());
        Ok(Turn::Moves(line, Some(self.at(line).read())))
    }

    // It writes the highest pair, or its own, in the next round.
    #[inline(always)]
    fn writes_next(self, stage: Stage) -> Result<Turn, Objection>
        ensures { result ≡ writes_next stage self.client self.line }
    {
        let round = one_more(self.line.round)?;
        let line = self.line.opened(stage, round, self.line.highest);
        Ok(Turn::Moves(line, Some(self.at(line).write())))
    }

    fn unsealed(self, count: u32, word: Word) -> Pair
        ensures { result ≡ unsealed self.client count word }
    {
        Pair {
            stamp: Stamp {
                count,
                writer: self.client.number(),
            },
            word,
            seal: Seal(0),
        }
    }

    // A round of reading closes.
    #[inline(always)]
    fn closing(self) -> Result<Turn, Objection>
        ensures { result ≡ closing self.line.word self.client self.line }
    {
        let line = self.line;
        match line.word {
            None if line.agree => Ok(Turn::Moves(line.ended(), None)),
            None => self.writes_next(Stage::WritingBack),
            Some(word) => {
                let count = one_more(line.highest.stamp.count.max(line.last_count))?;
                let round = one_more(line.round)?;
                Ok(Turn::Stamps(line.stamped(round, self.unsealed(count, word))))
            }
        }
    }

    // PAIR: the answer to READ.
    #[inline(always)]
    fn on_pair(self, rules: &Rules, judged: &Judged) -> Result<Turn, Objection>
        ensures { result ≡ on_pair rules.now self.client self.line judged.now.entry judged.now.genuine }
    {
        let line = self.line;
        if line.stage != Stage::Reading || judged.entry.round != line.round {
            return Err(Objection::NotAwaited);
        }
        let from = counted_from(line.configuration.set, line.counted, judged.entry.sender)?;
        let heard = line.hearing(from, judged.pair()?);
        if rules.is_quorum(heard.counted) {
            self.at(heard).closing()
        } else {
            Ok(Turn::Moves(heard, None))
        }
    }

    // ACK: the answer to WRITE.
    #[inline(always)]
    fn on_ack(self, rules: &Rules, entry: &Entry) -> Result<Turn, Objection>
        ensures { result ≡ on_ack rules.now self.line entry.now }
    {
        let line = self.line;
        if !line.stage.is_writing() || entry.round != line.round {
            return Err(Objection::NotAwaited);
        }
        let from = counted_from(line.configuration.set, line.counted, entry.sender)?;
        let heard = line.counting(from);
        let next = if rules.is_quorum(heard.counted) {
            heard.ended()
        } else {
            heard
        };
        Ok(Turn::Moves(next, None))
    }

    // In a new configuration an open round begins anew: a stamped write with the same pair, all else by reading again.
    #[inline(always)]
    fn reopening(self) -> Result<Turn, Objection>
        ensures { result ≡ reopening self.line.stage self.client self.line }
    {
        match self.line.stage {
            Stage::Idle | Stage::Over => Ok(Turn::Moves(self.line, None)),
            Stage::Writing => self.writes_next(Stage::Writing),
            Stage::Reading | Stage::WritingBack => self.reads_next(),
        }
    }

    // CONFIG: a newer configuration.
    #[inline(always)]
    fn on_config(self, judged: &Judged) -> Result<Turn, Objection>
        ensures { result ≡ on_config self.client self.line judged.now.entry judged.now.genuine }
    {
        let line = self.line;
        if judged.entry.epoch <= line.configuration.epoch {
            return Err(Objection::NotNext);
        }
        let newer = line.configured_as(judged.configuration()?);
        self.at(newer).reopening()
    }

    // BEHIND: a replica does not know the client's epoch yet, and is shown it.
    #[inline(always)]
    fn on_behind(self, entry: &Entry) -> Result<Turn, Objection>
        ensures { result ≡ on_behind self.client self.line entry.now }
    {
        let line = self.line;
        if !line.stage.is_open() || entry.round != line.round {
            return Err(Objection::NotAwaited);
        }
        let shown = configured(self.client.number(), EntryKind::Config, line.configuration);
        Ok(Turn::Moves(line, Some(shown)))
    }
}

// What a client with this line makes of an entry that was judged.
#[inline(always)]
pub fn decide(
    rules: &Rules,
    client: Client,
    line: &Line,
    judged: &Judged,
) -> Result<Turn, Objection>
    ensures { result ≡ decided rules.now client line.now judged.now.entry judged.now.genuine }
{
    let standing = Standing {
        client,
        line: *line,
    };
    match EntryKind::try_from(judged.entry.kind) {
        Ok(EntryKind::Pair) => standing.on_pair(rules, judged),
        Ok(EntryKind::Ack) => standing.on_ack(rules, &judged.entry),
        Ok(EntryKind::Config) => standing.on_config(judged),
        Ok(EntryKind::Behind) => standing.on_behind(&judged.entry),
        _ => Err(Objection::NotAwaited),
    }
}
