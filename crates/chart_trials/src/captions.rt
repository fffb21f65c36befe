// What is written on a chart.
use charts::{Caption, Sign, Size};
use kinds::BinWeight;
use picture::Label;
use refusals::{Layer, Refusal};
use std::alloc::Global;
use std::process::Abort;
use std::test::Fail;
use wire::{Client, EntryKind, Party, Replica};

fn says(rt: &impl Abort, heap: Global, caption: Caption, said: &str) -> Result<(), Fail> {
    let text = caption.text(heap)?;
    assert_eq!(rt; text.as_str(), said);
    Ok(())
}

#[test]
fn parties(rt: HostRuntime) -> Result<(), Fail> {
    let client = Party::Client(Client::try_from(3)?);
    let replica = Party::Replica(Replica::try_from(12)?);
    says(&rt, rt.alloc(), Caption::Party(Party::Source), "source")?;
    says(&rt, rt.alloc(), Caption::Party(client), "client 3")?;
    says(&rt, rt.alloc(), Caption::Party(replica), "replica 12")?;
    says(&rt, rt.alloc(), Caption::Liar(replica), "replica 12 (liar)")
}

#[test]
fn entries(rt: HostRuntime) -> Result<(), Fail> {
    let names = [
        (Some(EntryKind::Read), "READ 7"),
        (Some(EntryKind::Write), "WRITE 7"),
        (Some(EntryKind::Transfer), "TRANSFER 7"),
        (Some(EntryKind::Pair), "PAIR 7"),
        (Some(EntryKind::Ack), "ACK 7"),
        (Some(EntryKind::Stock), "STOCK 7"),
        (Some(EntryKind::Config), "CONFIG 7"),
        (Some(EntryKind::Behind), "BEHIND 7"),
        (None, "no kind 7"),
    ];
    for (kind, said) in names {
        says(&rt, rt.alloc(), Caption::Entry { kind, number: 7 }, said)?;
    }
    Ok(())
}

#[test]
fn operations(rt: HostRuntime) -> Result<(), Fail> {
    let weight = BinWeight::new(-38000, 412)?;
    let written = Caption::Operation {
        writes: true,
        weight: Some(weight),
    };
    let open = Caption::Operation {
        writes: false,
        weight: None,
    };
    says(&rt, rt.alloc(), written, "W -38000 g")?;
    says(&rt, rt.alloc(), open, "R")?;
    says(&rt, rt.alloc(), Caption::Lot(weight), "lot 412")?;
    says(&rt, rt.alloc(), Caption::CalledOff, "called off")
}

#[test]
fn margins(rt: HostRuntime) -> Result<(), Fail> {
    let size = Size {
        faults: 1,
        replicas: 5,
        clients: 3,
    };
    let refusal = Refusal::new(15, Layer::Client).at(26);
    says(
        &rt,
        rt.alloc(),
        Caption::Title(size),
        "f 1, replicas 5, clients 3",
    )?;
    says(&rt, rt.alloc(), Caption::Unopened, "no hall was opened")?;
    says(&rt, rt.alloc(), Caption::Row(26), "26")?;
    says(&rt, rt.alloc(), Caption::Epoch(1), "1")?;
    says(&rt, rt.alloc(), Caption::Refusal(refusal), "15 client")?;
    says(
        &rt,
        rt.alloc(),
        Caption::Meaning(Sign::Lied),
        "the same, posted by a replica that may lie",
    )
}
