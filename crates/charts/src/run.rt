// The chart of a script: its lines are run one after the other, and the tables and the store are looked at after each.
ghost use Rattle.std.specs.Prelude.{◌≡◌, ◌+◌, length, take, IfOk, OnOk, string_bytes};
ghost use Rattle.std.specs.Vec.{vec_items};
ghost use Rattle.fields.specs.Parts.{fields};
ghost use Rattle.script.specs.Commands.{command_in};
ghost use Rattle.runner.specs.Asks.{asks};
ghost use Rattle.runner.specs.Plays.{Does};
ghost use Rattle.runner.specs.Left.{left};
ghost use Rattle.runner.specs.Outputs.{all_refused};
ghost use Rattle.runner.specs.Texts.{limit, script_lines, Countable};
ghost use Rattle.runner.specs.Views.{world};
ghost use Rattle.charts.specs.Drawings.{Seeing, Draws, Charts};
ghost use Rattle.charts.specs.Watches.{seen, unopened_text};
ghost use Rattle.charts.specs.Looks.{looked, noticed};

use crate::caption::Caption;
use crate::chart::Chart;
use crate::layout::Layout;
use crate::look::{command, moves};
use crate::mark::Mark;
use crate::watch::{Watch, margin, row_of};
use refusals::{Fault, Refusal};
use runner::{
    LIMIT, Memory, Numbered, Opening, Running, ScriptFault, first_set_up, numbered, refuse_all,
};
use script::{Command, SetUp};
use std::alloc::{AllocError, Global};

// Looks at the tables and the store after a row.
fn look(heap: Global, watch: &mut Watch, running: &Running, row: u16) -> Result<(), AllocError>
    ensures { OnOk result (seen watch.new ≡ looked (seen watch.old) (world running.now).hall row) }
{
    let tables = &running.tables;
    let moves = moves(
        heap,
        tables.roll.used(),
        tables.seats,
        &running.store,
        watch.stays.as_slice(),
    )?;
    watch.posts(tables.post.used(), row)?;
    watch.moves(heap, moves.as_slice(), row)?;
    watch.works(heap, tables.log.used(), row)
}

// A row has left the hall so, and what was asked for in it was done, or refused by this.
fn note(
    heap: Global,
    watch: &mut Watch,
    running: &Running,
    asked: Option<Command>,
    fault: Option<ScriptFault>,
    row: u16,
) -> Result<(), AllocError>
    ensures { OnOk result (seen watch.new ≡ noticed (seen watch.old) (world running.now).hall asked fault row) }
{
    look(heap, watch, running, row)?;
    command(watch, running.tables.seats, asked, fault, row)
}

// Runs a line, and puts down what has come of it; answers what was refused.
fn take(
    heap: Global,
    watch: &mut Watch,
    running: &mut Running,
    line: &[u8],
    row: u16,
) -> Result<Option<ScriptFault>, AllocError>
    ensures does { IfOk result (λ fault. Does (world running.old) (asks (world running.old).hall (command_in (fields line.now))) fault (world running.new)) }
    ensures sees { IfOk result (λ fault. seen watch.new ≡ noticed (seen watch.old) (world running.new).hall (command_in (fields line.now)) fault row) }
{
    let fault = running.take(line).err();
    note(heap, watch, running, Command::read(line), fault, row)?;
    Ok(fault)
}

// Runs the lines behind the one of this number, and answers the number of the last.
fn watch_lines(
    heap: Global,
    watch: &mut Watch,
    running: &mut Running,
    number: u64,
    lines: Numbered,
    refusals: &mut Vec<Refusal>,
) -> Result<u64, AllocError>
    requires few { Countable (left lines.a lines.b.start) }
    requires follows { lines.b.start ≡ number + 1 }
    ensures last { IfOk result (λ last. last ≡ number + length (left lines.entry.a lines.entry.b.start).lines) }
    ensures sees { IfOk result (λ last. Seeing (left lines.entry.a lines.entry.b.start) (world running.old) (vec_items refusals.old) (seen watch.old) (world running.new) (vec_items refusals.new) (seen watch.new)) }
{
    let mut last = number;
    for (line, number) in lines {
        if let Some(fault) = take(heap, watch, running, line, row_of(number))? {
            refusals.push(fault.told().at(number))?;
        }
        last = number;
    }
    Ok(last)
}

// The chart of a script without a hall: all its lines were refused.
fn unopened(heap: Global, refusals: &[Refusal]) -> Result<String, AllocError>
    ensures { IfOk result (λ s. string_bytes s ≡ unopened_text refusals.now) }
{
    let rows = row_of(refusals.len() as u64);
    let mut chart = Chart::new(heap);
    chart.over(Mark::Title(Caption::Unopened))?;
    margin(&mut chart, rows, refusals)?;
    let layout = Layout {
        clients: 0,
        replicas: 0,
        rows,
    };
    chart.drawn(heap, layout)
}

// The chart of a script whose set-up, in the line of this number, is refused.
fn refused(
    heap: Global,
    number: u64,
    fault: ScriptFault,
    lines: Numbered,
    mut refusals: Vec<Refusal>,
) -> Result<String, AllocError>
    requires { Countable (left lines.a lines.b.start) }
    ensures { IfOk result (λ s. string_bytes s ≡ unopened_text (all_refused number (left lines.entry.a lines.entry.b.start) (vec_items refusals) fault)) }
{
    refuse_all(number, fault, lines, &mut refusals)?;
    unopened(heap, refusals.as_slice())
}

// Opens the hall that the line of this number asks for, and runs the lines behind it.
fn opened(
    heap: Global,
    number: u64,
    asked: SetUp,
    lines: Numbered,
    mut refusals: Vec<Refusal>,
) -> Result<String, AllocError>
    requires few { Countable (left lines.a lines.b.start) }
    requires follows { lines.b.start ≡ number + 1 }
    ensures { IfOk result (λ s. Draws asked number (left lines.entry.a lines.entry.b.start) (vec_items refusals) (string_bytes s)) }
{
    let mut memory = Memory::new(heap)?;
    match Running::open(&mut memory, asked) {
        Opening::Open(mut running) => {
            let mut watch = Watch::new(heap, asked, row_of(number))?;
            let last = watch_lines(heap, &mut watch, &mut running, number, lines, &mut refusals)?;
            watch.drawn(heap, row_of(last), refusals.as_slice())
        }
        Opening::Refused(fault) => refused(heap, number, fault, lines, refusals),
    }
}

// The chart of a script, of which no more than the first bytes are looked at.
pub fn chart_of(heap: Global, text: &[u8]) -> Result<String, AllocError>
    ensures { IfOk result (λ s. Charts (script_lines (take limit text.now)) (string_bytes s)) }
{
    let mut refusals = Vec::new(heap);
    let mut lines = numbered(&text[..text.len().min(LIMIT as usize)]);
    match first_set_up(&mut lines, &mut refusals)? {
        Some((number, asked)) => opened(heap, number, asked, lines, refusals),
        None => unopened(heap, refusals.as_slice()),
    }
}
