// A script from its first line to what is printed.
ghost use Rattle.std.specs.Prelude.{◌≡◌, [], ◌++◌, take, IfOk, string_bytes};
ghost use Rattle.std.specs.Vec.{vec_items};
ghost use Rattle.refusals.specs.Places.{moved};
ghost use Rattle.script.specs.Reports.{printed};
ghost use Rattle.runner.specs.Faults.{script_refusal};
ghost use Rattle.runner.specs.Left.{left};
ghost use Rattle.runner.specs.Texts.{limit, script_lines, set_up_of, Countable};
ghost use Rattle.runner.specs.Outputs.{unread, all_refused, Goes, Shows};
ghost use Rattle.runner.specs.Turns.{Searched, Played};
ghost use Rattle.runner.specs.Views.{world};

use crate::fault::ScriptFault;
use crate::lines::{LIMIT, Numbered, numbered};
use crate::memory::Memory;
use crate::running::{Opening, Running};
use refusals::{Fault, Refusal};
use script::{Command, SetUp, report};
use std::alloc::{AllocError, Global};

// The set-up that a line asks for.
fn set_up(line: &[u8]) -> Option<SetUp>
    ensures { result ≡ set_up_of line.now }
{
    match Command::read(line)? {
        Command::SetUp(asked) => Some(asked),
        _ => None,
    }
}

// The refusal of the line of this number.
fn refusal_of(number: u64, fault: ScriptFault) -> Refusal
    ensures { result ≡ moved (script_refusal fault) number }
{
    fault.told().at(number)
}

// Takes the lines up to the first set-up, and refuses those before it.
pub fn first_set_up(
    lines: &mut Numbered,
    refusals: &mut Vec<Refusal>,
) -> Result<Option<(u64, SetUp)>, AllocError>
    ensures { Countable (left lines.old.a lines.old.b.start) → IfOk result (λ found. Searched (left lines.old.a lines.old.b.start) (vec_items refusals.old) found (left lines.new.a lines.new.b.start) (vec_items refusals.new)) }
{
    while let Some((line, number)) = lines.next() {
        if let Some(asked) = set_up(line) {
            return Ok(Some((number, asked)));
        }
        refusals.push(refusal_of(number, ScriptFault::Unreadable))?;
    }
    Ok(None)
}

// Runs the lines that are left.
fn run_lines(
    running: &mut Running,
    lines: Numbered,
    refusals: &mut Vec<Refusal>,
) -> Result<(), AllocError>
    requires { Countable (left lines.a lines.b.start) }
    ensures { IfOk result (λ done. Played (left lines.entry.a lines.entry.b.start) (world running.old) (vec_items refusals.old) (world running.new) (vec_items refusals.new)) }
{
    for (line, number) in lines {
        if let Err(fault) = running.take(line) {
            refusals.push(refusal_of(number, fault))?;
        }
    }
    Ok(())
}

// Refuses the lines that are left.
fn refuse_lines(lines: Numbered, refusals: &mut Vec<Refusal>) -> Result<(), AllocError>
    ensures { Countable (left lines.entry.a lines.entry.b.start) → IfOk result (λ done. vec_items refusals.new ≡ vec_items refusals.old ++ unread (left lines.entry.a lines.entry.b.start).number (left lines.entry.a lines.entry.b.start).lines) }
{
    for (_, number) in lines {
        refusals.push(refusal_of(number, ScriptFault::Unreadable))?;
    }
    Ok(())
}

// Refuses the set-up in the line of this number, and the lines behind it.
pub fn refuse_all(
    number: u64,
    fault: ScriptFault,
    lines: Numbered,
    refusals: &mut Vec<Refusal>,
) -> Result<(), AllocError>
    ensures { Countable (left lines.entry.a lines.entry.b.start) → IfOk result (λ done. vec_items refusals.new ≡ all_refused number (left lines.entry.a lines.entry.b.start) (vec_items refusals.old) fault) }
{
    refusals.push(refusal_of(number, fault))?;
    refuse_lines(lines, refusals)
}

// What is printed where the set-up in the line of this number is refused.
fn unopened(
    heap: Global,
    number: u64,
    fault: ScriptFault,
    lines: Numbered,
    mut refusals: Vec<Refusal>,
) -> Result<String, AllocError>
    requires { Countable (left lines.a lines.b.start) }
    ensures { IfOk result (λ s. string_bytes s ≡ printed [] [] (all_refused number (left lines.entry.a lines.entry.b.start) (vec_items refusals) fault)) }
{
    refuse_all(number, fault, lines, &mut refusals)?;
    report(heap, &[], &[], refusals.as_slice())
}

// Opens the hall that the line of this number asks for, and runs the lines behind it.
fn play(
    heap: Global,
    number: u64,
    asked: SetUp,
    lines: Numbered,
    mut refusals: Vec<Refusal>,
) -> Result<String, AllocError>
    requires { Countable (left lines.a lines.b.start) }
    ensures { IfOk result (λ s. Goes asked number (left lines.entry.a lines.entry.b.start) (vec_items refusals) (string_bytes s)) }
{
    let mut memory = Memory::new(heap)?;
    match Running::open(&mut memory, asked) {
        Opening::Open(mut running) => {
            run_lines(&mut running, lines, &mut refusals)?;
            running.report(heap, refusals.as_slice())
        }
        Opening::Refused(fault) => unopened(heap, number, fault, lines, refusals),
    }
}

// Runs a script, of which no more than the first bytes are looked at, and says what is printed.
pub fn run(heap: Global, text: &[u8]) -> Result<String, AllocError>
    ensures { IfOk result (λ s. Shows (script_lines (take limit text.now)) (string_bytes s)) }
{
    let mut refusals = Vec::new(heap);
    let read = &text[..text.len().min(LIMIT as usize)];
    let mut lines = numbered(read);
    match first_set_up(&mut lines, &mut refusals)? {
        Some((number, asked)) => play(heap, number, asked, lines, refusals),
        None => report(heap, &[], &[], refusals.as_slice()),
    }
}
