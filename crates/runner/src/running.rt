// A hall that is open, with its tables, its store and its sealer, and one method for each call of a script.
ghost use Rattle.std.specs.Prelude.{◌≡◌, IfOk, string_bytes};
ghost use Rattle.std.specs.Result.{result_err};
ghost use Rattle.kinds.specs.BinWeights.{weight};
ghost use Rattle.fields.specs.Parts.{fields};
ghost use Rattle.script.specs.Commands.{command_in};
ghost use Rattle.script.specs.Reports.{printed};
ghost use Rattle.model.specs.Calls.{issue, begin_read, begin_write, deliver, call_off, collect, meddle};
ghost use Rattle.runner.specs.Slips.{HasSlip, holds_its_slip};
ghost use Rattle.runner.specs.Asks.{asks, calls, ending, lodging, redeeming, writing};
ghost use Rattle.runner.specs.Opened.{Fresh};
ghost use Rattle.runner.specs.Plays.{Does};
ghost use Rattle.runner.specs.Turns.{Begins};
ghost use Rattle.runner.specs.Views.{world, hall_fault, Lodges, Redeems};

use crate::fault::ScriptFault;
use crate::memory::{Memory, SEALS};
use crate::opening::open;
use halls::HallFault;
use kinds::BinWeight;
use lists::List;
use refusals::Refusal;
use register::{Hall, Kept, Slip, Tables};
use script::{Command, SetUp, report};
use sealers::Book;
use std::alloc::{AllocError, Global};
use stores::Cabinet;
use wire::{Entry, ReplicaSet};

#[derive(Drop)]
pub struct Running<'a> {
    pub hall: Hall<BinWeight>,
    pub tables: Tables<'a>,
    pub store: Cabinet,
    pub sealer: Book<'a>,
}

// What comes of a set-up.
// Stays: a `Result` in all but its name; one of a struct that borrows and has what contracts alone see is not covered by the toolchain's borrow checker.
pub enum Opening<'a> {
    Open(Running<'a>),
    Refused(ScriptFault),
}

impl<'a> Running<'a> {
    // The hall that a set-up asks for, with its tables and its book in this memory, and an empty cabinet.
    pub fn open(memory: &'a mut Memory, asked: SetUp) -> Opening<'a>
        ensures { Fresh memory.old → Begins asked result }
    {
        let clients = memory.seats.len().min(asked.clients as usize);
        let mut tables = Tables {
            post: List::new(memory.post.as_mut_slice()),
            log: List::new(memory.log.as_mut_slice()),
            roll: List::new(memory.roll.as_mut_slice()),
            seats: &mut memory.seats.as_mut_slice()[..clients],
        };
        let mut store = Cabinet::new();
        let Ok(sealer) = Book::open(memory.rows.as_mut_slice(), SEALS) else {
            return Opening::Refused(ScriptFault::Hall(HallFault::Limit));
        };
        match open(asked, &mut tables, &mut store, &sealer) {
            Ok(hall) => Opening::Open(Running {
                hall,
                tables,
                store,
                sealer,
            }),
            Err(fault) => Opening::Refused(fault),
        }
    }
}

impl Running<'_> {
    // Lodges a slip, which is not refused here.
    fn lodge(&mut self, slip: Slip)
        requires { HasSlip (world self.old).hall slip.client slip.operation }
        ensures { Lodges (world self.old) slip.client slip.operation (world self.new) }
    {
        match self.hall.lodge(&mut self.tables, slip) {
            Ok(()) => {}
            Err(Kept { slip, fault: _ }) => drop(slip),
        }
    }

    fn begin_read(&mut self, client: u64) -> Result<(), HallFault>
        ensures { Does (world self.old) (calls (begin_read client) lodging) (hall_fault result) (world self.new) }
    {
        let slip = self
            .hall
            .begin_read(&mut self.tables, client, &self.sealer)?;
        self.lodge(slip);
        Ok(())
    }

    fn begin_write(&mut self, client: u64, value: BinWeight) -> Result<(), HallFault>
        ensures { Does (world self.old) (calls (begin_write client value) lodging) (hall_fault result) (world self.new) }
    {
        let slip = self
            .hall
            .begin_write(&mut self.tables, client, value, &self.sealer)?;
        self.lodge(slip);
        Ok(())
    }

    // Begins a write of these grams and this lot, if they are a value.
    fn write(&mut self, client: u64, grams: i64, lot: u64) -> Result<(), ScriptFault>
        ensures { Does (world self.old) (writing client (weight grams lot)) (result_err result) (world self.new) }
    {
        let value = BinWeight::new(grams, lot)?;
        self.begin_write(client, value)?;
        Ok(())
    }

    // Whether the slip that is lodged with a client is that of its present operation.
    // Stays: a slip that is lodged always is. It is looked at, so that this need not be known of every line before.
    fn holds_its_slip(&self, client: u64) -> bool
        ensures { result ≡ holds_its_slip (world self.now).hall client }
    {
        match self.tables.seats.get(client.saturating_sub(1) as usize) {
            Some(seat) => !seat.line.stage.is_idle() && seat.lodged == Some(seat.operation),
            None => false,
        }
    }

    fn redeem(&mut self, client: u64) -> Result<Slip, HallFault>
        ensures has { IfOk result (λ slip. HasSlip (world self.new).hall slip.client slip.operation) }
        ensures step { Redeems (world self.old) client result (world self.new) }
    {
        if !self.holds_its_slip(client) {
            return Err(HallFault::NotItsSlip(client));
        }
        self.hall.redeem(&mut self.tables, client)
    }

    // A refusal lodges the slip again.
    fn kept(&mut self, kept: Kept) -> HallFault
        requires { HasSlip (world self.old).hall kept.slip.client kept.slip.operation }
        ensures fault { result ≡ kept.fault }
        ensures step { Lodges (world self.old) kept.slip.client kept.slip.operation (world self.new) }
    {
        let Kept { slip, fault } = kept;
        self.lodge(slip);
        fault
    }

    fn call_off(&mut self, client: u64) -> Result<(), HallFault>
        ensures { Does (world self.old) (redeeming call_off (world self.old).hall client) (hall_fault result) (world self.new) }
    {
        let slip = self.redeem(client)?;
        match self.hall.call_off(&mut self.tables, slip) {
            Ok(()) => Ok(()),
            Err(kept) => Err(self.kept(kept)),
        }
    }

    fn collect(&mut self, client: u64) -> Result<(), HallFault>
        ensures { Does (world self.old) (redeeming collect (world self.old).hall client) (hall_fault result) (world self.new) }
    {
        let slip = self.redeem(client)?;
        match self.hall.collect(&mut self.tables, slip) {
            Ok(_) => Ok(()),
            Err(kept) => Err(self.kept(kept)),
        }
    }

    fn issue(&mut self, set: ReplicaSet) -> Result<(), HallFault>
        ensures { Does (world self.old) (calls (issue set) ending) (hall_fault result) (world self.new) }
    {
        self.hall.issue(&mut self.tables, set, &mut self.sealer)
    }

    fn deliver(&mut self, entry: u64, party: u64) -> Result<(), HallFault>
        ensures { Does (world self.old) (calls (deliver entry party) ending) (hall_fault result) (world self.new) }
    {
        self.hall.deliver::<Cabinet, Book>(
            &mut self.tables,
            entry,
            party,
            &mut self.store,
            &mut self.sealer,
        )
    }

    fn meddle(&mut self, party: u64, entry: Entry) -> Result<(), HallFault>
        ensures { Does (world self.old) (calls (meddle party entry) ending) (hall_fault result) (world self.new) }
    {
        self.hall.meddle(&mut self.tables, party, entry)
    }

    // Makes the calls that a line asks for; another set-up is not to be read here.
    pub fn take(&mut self, line: &[u8]) -> Result<(), ScriptFault>
        ensures { Does (world self.old) (asks (world self.old).hall (command_in (fields line.now))) (result_err result) (world self.new) }
    {
        match Command::read(line).ok_or(ScriptFault::Unreadable)? {
            Command::SetUp(_) => return Err(ScriptFault::Unreadable),
            Command::Issue { set } => self.issue(set)?,
            Command::Read { client } => self.begin_read(client)?,
            Command::Write { client, grams, lot } => self.write(client, grams, lot)?,
            Command::Deliver { entry, party } => self.deliver(entry, party)?,
            Command::CallOff { client } => self.call_off(client)?,
            Command::Collect { client } => self.collect(client)?,
            Command::Meddle { party, entry } => self.meddle(party, entry)?,
        }
        Ok(())
    }

    // What is printed of it.
    pub fn report(&self, heap: Global, refusals: &[Refusal]) -> Result<String, AllocError>
        ensures { IfOk result (λ s. string_bytes s ≡ printed (world self.now).hall.roll.list (world self.now).hall.log.list refusals.now) }
    {
        let roll = self.tables.roll.used();
        let log = self.tables.log.used();
        report(heap, roll, log, refusals)
    }
}
