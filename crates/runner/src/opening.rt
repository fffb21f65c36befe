// The opening of the hall that a set-up asks for.
ghost use Rattle.std.specs.Prelude.{◌≡◌, IfOk};
ghost use Rattle.stores.specs.Cabinets.{cabinet_shelf};
ghost use Rattle.sealers.specs.Books.{book_desk};
ghost use Rattle.register.specs.Views.{settings, lent};
ghost use Rattle.register.specs.Worlds.{world};
ghost use Rattle.runner.specs.Openings.{marks, opening_over};
ghost use Rattle.runner.specs.Opened.{settings_if, hall_or};
ghost use Rattle.runner.specs.Outputs.{PromisedFor};

use crate::fault::ScriptFault;
use halls::HallFault;
use kinds::BinWeight;
use register::{Hall, Setup, Tables};
use script::SetUp;
use sealers::Book;
use stores::Cabinet;
use wire::ReplicaSet;

// Marks the replicas of a set, from the highest number down: those that the hall has not come first.
fn mark(setup: &mut Setup, set: ReplicaSet) -> Result<(), HallFault>
    ensures { settings_if result (settings setup.new) ≡ marks 64 set.0 (settings setup.old) }
{
    for number in (0..64).rev() {
        if (set.0 >> number) % 2 == 1 {
            setup.mark(100 + number)?;
        }
    }
    Ok(())
}

// Sets up, marks and opens.
pub fn open(
    asked: SetUp,
    tables: &mut Tables,
    store: &mut Cabinet,
    sealer: &Book,
) -> Result<Hall<BinWeight>, ScriptFault>
    ensures answer { hall_or result tables.new (cabinet_shelf store.new) (book_desk sealer.now) ≡ opening_over (lent tables.old) (cabinet_shelf store.old) (book_desk sealer.now) asked }
    ensures promise { IfOk result (λ hall. PromisedFor asked (world hall tables.new (cabinet_shelf store.new) (book_desk sealer.now))) }
{
    let value = BinWeight::new(asked.grams, asked.lot)?;
    let mut setup = Setup::new(asked.faults, asked.replicas, asked.clients, asked.set)?;
    mark(&mut setup, asked.marked)?;
    match setup.open(tables, value, store, sealer) {
        Ok(hall) => Ok(hall),
        Err((_, fault)) => Err(ScriptFault::Hall(fault)),
    }
}
