// What a line asks for, in numbers.
ghost use Rattle.std.specs.Prelude.{◌≡◌};
ghost use Rattle.fields.specs.Parts.{fields};
ghost use Rattle.script.specs.Commands.{byte_of, short_of, set_up_of, entry_of, command_of, command_in};
ghost use Rattle.script.specs.Lines.{spelt, set_up_spelt, entry_spelt};

use crate::line::{EntryFields, Line, SetUpFields};
use fields::Numeral;
use kinds::Word;
use wire::{Entry, ReplicaSet, Seal};

// The hall that a script is for.
#[derive(Clone, Copy, PartialEq, Eq, Debug)]
pub struct SetUp {
    pub faults: u64,
    pub replicas: u64,
    pub clients: u64,
    pub set: ReplicaSet,
    pub marked: ReplicaSet,
    pub grams: i64,
    pub lot: u64,
}

// Stays: numbers of 64 bits for parties, and grams and a lot in place of a value: those that there are not are refused by the hall and the kind, and not by the reading.
#[derive(Clone, Copy, PartialEq, Eq, Debug)]
pub enum Command {
    // sets up a hall, marks its liars and opens it
    SetUp(SetUp),
    Issue { set: ReplicaSet },
    Read { client: u64 },
    Write { client: u64, grams: i64, lot: u64 },
    Deliver { entry: u64, party: u64 },
    CallOff { client: u64 },
    Collect { client: u64 },
    // the entry names no sender yet
    Meddle { party: u64, entry: Entry },
}

// A number of 8 bits, and one of 32.
fn byte(field: &[u8]) -> Option<u8>
    ensures { result ≡ byte_of field.now }
{
    u8::try_from(u64::read(field)?).ok()
}

fn short(field: &[u8]) -> Option<u32>
    ensures { result ≡ short_of field.now }
{
    u32::try_from(u64::read(field)?).ok()
}

impl SetUpFields<'_> {
    fn set_up(self) -> Option<SetUp>
        ensures { result ≡ set_up_of (set_up_spelt self.entry) }
    {
        Some(SetUp {
            faults: u64::read(self.faults)?,
            replicas: u64::read(self.replicas)?,
            clients: u64::read(self.clients)?,
            set: ReplicaSet(u64::read(self.set)?),
            marked: ReplicaSet(u64::read(self.marked)?),
            grams: i64::read(self.grams)?,
            lot: u64::read(self.lot)?,
        })
    }
}

impl EntryFields<'_> {
    fn entry(self) -> Option<Entry>
        ensures { result ≡ entry_of (entry_spelt self.entry) }
    {
        Some(Entry {
            sender: 0,
            kind: byte(self.kind)?,
            addressee: byte(self.addressee)?,
            round: short(self.round)?,
            epoch: short(self.epoch)?,
            count: short(self.count)?,
            writer: byte(self.writer)?,
            word: Word(u64::read(self.word)?),
            seal: Seal(u64::read(self.seal)?),
        })
    }
}

impl Line<'_> {
    // What it asks for, if its fields are numbers that fit.
    fn command(self) -> Option<Command>
        ensures { result ≡ command_of (spelt self.entry) }
    {
        match self {
            Line::SetUp(fields) => fields.set_up().map(Command::SetUp),
            Line::Issue { set } => Some(Command::Issue {
                set: ReplicaSet(u64::read(set)?),
            }),
            Line::Read { client } => Some(Command::Read {
                client: u64::read(client)?,
            }),
            Line::Write { client, grams, lot } => Some(Command::Write {
                client: u64::read(client)?,
                grams: i64::read(grams)?,
                lot: u64::read(lot)?,
            }),
            Line::Deliver { entry, party } => Some(Command::Deliver {
                entry: u64::read(entry)?,
                party: u64::read(party)?,
            }),
            Line::CallOff { client } => Some(Command::CallOff {
                client: u64::read(client)?,
            }),
            Line::Collect { client } => Some(Command::Collect {
                client: u64::read(client)?,
            }),
            Line::Meddle { party, entry } => Some(Command::Meddle {
                party: u64::read(party)?,
                entry: entry.entry()?,
            }),
        }
    }
}

impl Command {
    // What the line of a script asks for.
    pub fn read(line: &[u8]) -> Option<Command>
        ensures { result ≡ command_in (fields line.now) }
    {
        Line::read(line)?.command()
    }
}
