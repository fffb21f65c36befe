// Every script is run, and what is printed is compared.
use crate::case::{Case, Repeated};
use crate::{calls, epochs, liars, lines, openings, operations, stages, tables, transfer};
use runner::run;
use std::alloc::{AllocError, Global};
use std::process::Abort;
use std::test::Fail;

fn run_all(rt: &impl Abort, heap: Global, cases: &[Case]) -> Result<(), Fail> {
    for case in cases {
        let got = run(heap, case.script.as_bytes())?;
        assert_eq!(rt; got.as_str(), case.printed, "{}", case.name);
    }
    Ok(())
}

#[test]
fn scripts_of_one_hall(rt: HostRuntime) -> Result<(), Fail> {
    run_all(&rt, rt.alloc(), &lines::CASES)?;
    run_all(&rt, rt.alloc(), &openings::CASES)?;
    run_all(&rt, rt.alloc(), &calls::CASES)
}

#[test]
fn operations_with_honest_replicas_and_liars(rt: HostRuntime) -> Result<(), Fail> {
    run_all(&rt, rt.alloc(), &operations::CASES)?;
    run_all(&rt, rt.alloc(), &liars::CASES)?;
    run_all(&rt, rt.alloc(), &stages::CASES)
}

#[test]
fn new_sets(rt: HostRuntime) -> Result<(), Fail> {
    run_all(&rt, rt.alloc(), &epochs::CASES)?;
    run_all(&rt, rt.alloc(), &transfer::CASES)
}

fn written_out(heap: Global, case: &Repeated) -> Result<Vec<u8>, AllocError> {
    let mut text = Vec::new(heap);
    text.extend_from_slice(case.head.as_bytes())?;
    for _ in 0..case.times {
        text.extend_from_slice(case.part.as_bytes())?;
    }
    text.extend_from_slice(case.tail.as_bytes())?;
    Ok(text)
}

#[test]
fn full_tables_and_long_texts(rt: HostRuntime) -> Result<(), Fail> {
    for case in tables::CASES {
        let text = written_out(rt.alloc(), &case)?;
        let got = run(rt.alloc(), text.as_slice())?;
        assert_eq!(rt; got.as_str(), case.printed, "{}", case.name);
    }
    Ok(())
}
