// A register over a cabinet and a keyed sealer, without a hall: two clients read and write through a change of members, a line a step.
#![tactic(auto)]

mod deed;
mod names;
mod register;
mod script;

use register::Register;
use script::{ACTS, Event};
use sealers::KeyRow;
use siphash::Key;
use std::alloc::{AllocError, Global};
use std::io;

// How many parties there can be: the source, 32 clients and 64 replicas.
const PARTIES: u64 = 97;

// A key for each party, and eight seals. Whoever lets others see these keys lets them seal in any name.
fn keys(heap: Global) -> Result<Vec<KeyRow>, AllocError> {
    let mut rows = Vec::new(heap);
    for party in 0..PARTIES {
        let key = Key {
            low: party,
            high: !party,
        };
        rows.push(KeyRow { key, left: 8 })?;
    }
    Ok(rows)
}

// Lets an event happen, and prints what the parties do.
fn happen(rt: &impl Print, register: &mut Register, event: Event) -> io::Result<()> {
    match event {
        Event::Read(client) => rt.println(register.read(client)?),
        Event::Write(client, grams, lot) => rt.println(register.write(client, grams, lot)?),
        Event::Issue(set) => rt.println(register.issue(set)?),
        Event::Carry(kind, senders, receivers) => {
            for from in senders {
                for to in receivers {
                    rt.println(register.carry(kind, *from, *to)?)?;
                }
            }
            Ok(())
        }
        Event::Collect(client) => rt.println(register.collect(client)),
    }
}

fn play(rt: &impl Print, register: &mut Register) -> io::Result<()> {
    rt.println(register.opening())?;
    for act in &ACTS {
        rt.println(act.title)?;
        for event in act.events {
            happen(rt, register, *event)?;
        }
    }
    Ok(())
}

fn main(rt: HostRuntime) -> io::Result<()> {
    let heap = rt.alloc();
    let keys = keys(heap)?;
    match Register::open(heap, keys) {
        Ok(mut register) => play(&rt, &mut register),
        Err(refusal) => println!(rt; "the opening is refused: {refusal}"),
    }
}
