// What the tables and the store show after a line, and what a line by itself adds to a chart.
ghost use Rattle.std.specs.Prelude.{◌≡◌, IfOk, OnOk, map};
ghost use Rattle.stores.specs.Cabinets.{kept};
ghost use Rattle.charts.specs.Watches.{seen};
ghost use Rattle.charts.specs.Looks.{seat_in, newest, epoch_in, move_in, is_handed, with_call_off, with_command};

use crate::seen::{Move, Stay};
use crate::watch::Watch;
use halls::{HallFault, Seat};
use runner::ScriptFault;
use script::Command;
use std::alloc::{AllocError, Global};
use stores::{Cabinet, Store};
use wire::{Configuration, Party};

// The epoch of the newest configuration.
fn newest(roll: &[Configuration]) -> Option<u32>
    ensures { result ≡ newest roll.now }
{
    let configuration = roll.last().copied()?;
    Some(configuration.epoch)
}

// The seat of the client of this number.
fn seat_of(seats: &[Seat], client: u64) -> Option<Seat>
    ensures { result ≡ seat_in seats.now client }
{
    if client == 0 {
        return None;
    }
    seats.get(client as usize - 1).copied()
}

// The epoch that a party is in: by the roll for the source, by its seat or its card for another.
fn epoch_of(roll: &[Configuration], seats: &[Seat], store: &Cabinet, party: Party) -> Option<u32>
    ensures { result ≡ epoch_in roll.now seats.now (kept store.now) party }
{
    match party {
        Party::Source => newest(roll),
        Party::Client(client) => {
            let seat = seat_of(seats, u64::from(client.number()))?;
            Some(seat.line.configuration.epoch)
        }
        Party::Replica(replica) => {
            let card = store.load(replica)?;
            Some(card.epoch)
        }
    }
}

// Which epochs these parties are in now.
pub(crate) fn moves(
    heap: Global,
    roll: &[Configuration],
    seats: &[Seat],
    store: &Cabinet,
    stays: &[Stay],
) -> Result<Vec<Move>, AllocError>
    ensures { IfOk result (λ v. v.items ≡ map (move_in roll.now seats.now (kept store.now)) stays.now) }
{
    let mut moves = Vec::new(heap);
    for stay in stays {
        moves.push(Move {
            stay: *stay,
            epoch: epoch_of(roll, seats, store, stay.party).unwrap_or(stay.epoch),
        })?;
    }
    Ok(moves)
}

// Whether the entry of a line D came to its party, also where the step refused it.
fn is_handed(fault: Option<ScriptFault>) -> bool
    ensures { result ≡ is_handed fault }
{
    match fault {
        None | Some(ScriptFault::Hall(HallFault::Step(_, _))) => true,
        Some(_) => false,
    }
}

// The operation of a client was called off in a row.
fn call_off(watch: &mut Watch, seats: &[Seat], client: u64, row: u16) -> Result<(), AllocError>
    ensures { OnOk result (seen watch.new ≡ with_call_off (seen watch.old) (seat_in seats.now client) client row) }
{
    match seat_of(seats, client) {
        Some(seat) => watch.call_off(client, seat.operation, row),
        None => Ok(()),
    }
}

// What a line asks for was done in a row, or refused by this.
pub(crate) fn command(
    watch: &mut Watch,
    seats: &[Seat],
    asked: Option<Command>,
    fault: Option<ScriptFault>,
    row: u16,
) -> Result<(), AllocError>
    ensures { OnOk result (seen watch.new ≡ with_command (seen watch.old) seats.now asked fault row) }
{
    match asked {
        Some(Command::Deliver { entry, party }) if is_handed(fault) => {
            watch.delivery(entry, party, row, fault.is_some())
        }
        Some(Command::CallOff { client }) if fault.is_none() => {
            call_off(watch, seats, client, row)
        }
        _ => Ok(()),
    }
}
