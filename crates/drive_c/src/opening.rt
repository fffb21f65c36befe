// The openings of a plan: each over the same tables, with a store and a book that begin anew; a keyed sealer goes on.
ghost use Rattle.std.specs.Prelude.{◌≡◌, ◌*◌, IfSome};
ghost use Rattle.drive_c.specs.Plans.{calls_of, calls_of_opening};
ghost use Rattle.drive_c.specs.Tallies.{more};

use crate::driven::Driven;
use crate::memory::{Memory, SEALS, rows};
use crate::plan::Plan;
use crate::tally::Tally;
use halls::HallFault;
use kinds::BinWeight;
use register::{Hall, Setup, Tables};
use sealers::{Book, KeyRow, Keyed, Sealer};
use siphash::Key;
use std::alloc::{AllocError, Global};
use stores::{Cabinet, Store};
use tapes::Tape;
use wire::Text;

// Sets up, marks the last replica, and opens.
fn open<S: Store, L: Sealer>(
    plan: &Plan,
    tables: &mut Tables,
    value: BinWeight,
    store: &mut S,
    sealer: &L,
) -> Result<Hall<BinWeight>, HallFault> {
    let mut setup = Setup::new(
        u64::from(plan.faults),
        u64::from(plan.replicas),
        u64::from(plan.clients),
        plan.first_set(),
    )?;
    setup.mark(plan.marked())?;
    match setup.open(tables, value, store, sealer) {
        Ok(hall) => Ok(hall),
        Err((_, fault)) => Err(fault),
    }
}

// One opening over this store and this sealer.
fn opening<S: Store, L: Sealer>(
    memory: &mut Memory,
    plan: &Plan,
    value: BinWeight,
    store: &mut S,
    sealer: &mut L,
    mut tally: Tally,
) -> Tally
    ensures { result.calls ≡ more tally.calls (calls_of_opening plan.now) }
{
    let mut tables = memory.tables();
    match open(plan, &mut tables, value, store, &*sealer) {
        Ok(hall) => {
            let mut driven = Driven {
                hall,
                tables,
                tally,
            };
            driven.work(plan, value, store, sealer);
            driven.tally
        }
        Err(_) => {
            tally.refuse(plan.calls());
            tally
        }
    }
}

// One opening over this sealer, and a cabinet or a tape over these bytes.
fn stored<L: Sealer>(
    memory: &mut Memory,
    plan: &Plan,
    value: BinWeight,
    bytes: &mut [u8],
    sealer: &mut L,
    mut tally: Tally,
) -> Tally
    ensures { result.calls ≡ more tally.calls (calls_of_opening plan.now) }
{
    if !plan.taped {
        let mut cabinet = Cabinet::new();
        return opening::<Cabinet, L>(memory, plan, value, &mut cabinet, sealer, tally);
    }
    match Tape::open(bytes, 0) {
        Ok(mut tape) => opening::<Tape, L>(memory, plan, value, &mut tape, sealer, tally),
        Err(_) => {
            tally.refuse(plan.calls());
            tally
        }
    }
}

// One opening with a book over these rows.
fn booked(
    memory: &mut Memory,
    plan: &Plan,
    value: BinWeight,
    bytes: &mut [u8],
    rows: &mut [Text],
    mut tally: Tally,
) -> Tally
    ensures { result.calls ≡ more tally.calls (calls_of_opening plan.now) }
{
    match Book::open(rows, SEALS) {
        Ok(mut book) => stored::<Book>(memory, plan, value, bytes, &mut book, tally),
        Err(_) => {
            tally.refuse(plan.calls());
            tally
        }
    }
}

// The openings with a book.
fn all_booked(
    memory: &mut Memory,
    plan: &Plan,
    value: BinWeight,
    bytes: &mut [u8],
    rows: &mut [Text],
    mut tally: Tally,
) -> Tally
    ensures { result.calls ≡ more tally.calls (calls_of plan.now) }
{
    for _opening in 0..plan.openings {
        tally = booked(memory, plan, value, bytes, rows, tally);
    }
    tally
}

// The openings with one keyed sealer.
fn all_keyed(
    memory: &mut Memory,
    plan: &Plan,
    value: BinWeight,
    bytes: &mut [u8],
    keyed: &mut Keyed,
    mut tally: Tally,
) -> Tally
    ensures { result.calls ≡ more tally.calls (calls_of plan.now) }
{
    for _opening in 0..plan.openings {
        tally = stored::<Keyed>(memory, plan, value, bytes, keyed, tally);
    }
    tally
}

// A key for each party, and as many seals as there can be. Whoever lets others see these keys lets them seal in any name.
fn keys(heap: Global) -> Result<Vec<KeyRow>, AllocError> {
    let mut rows = Vec::new(heap);
    for party in 0..97u64 {
        let key = Key {
            low: party,
            high: !party,
        };
        rows.push(KeyRow {
            key,
            left: 1_000_000,
        })?;
    }
    Ok(rows)
}

// All openings, if there is memory for them.
fn all(heap: Global, plan: &Plan, bytes: &mut [u8], tally: Tally) -> Option<Tally>
    ensures { IfSome result (λ after. after.calls ≡ more tally.calls (calls_of plan.now)) }
{
    let value = BinWeight::new(50_000, 412).ok()?;
    let mut memory = Memory::new(heap, plan.places, plan.clients).ok()?;
    if plan.keyed {
        let mut keyed = Keyed::open(keys(heap).ok()?).ok()?;
        Some(all_keyed(&mut memory, plan, value, bytes, &mut keyed, tally))
    } else {
        let mut rows = rows(heap).ok()?;
        Some(all_booked(&mut memory, plan, value, bytes, rows.as_mut_slice(), tally))
    }
}

// All openings; where there is no memory for them, their calls are refused.
pub(crate) fn openings(heap: Global, plan: &Plan, bytes: &mut [u8], tally: &mut Tally)
    ensures { tally.new.calls ≡ more tally.old.calls (calls_of plan.now) }
{
    match all(heap, plan, bytes, *tally) {
        Some(after) => *tally = after,
        None => tally.refuse(plan.all_calls()),
    }
}
