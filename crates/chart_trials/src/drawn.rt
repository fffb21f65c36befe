// The charts of scripts: whole ones without a hall, and of others the elements that tell.
use charts::chart_of;
use std::alloc::Global;
use std::process::Abort;
use std::test::Fail;

// A script by its name, with what its chart has.
#[derive(Clone, Copy)]
struct Case<'a> {
    name: &'a str,
    script: &'a str,
    has: &'a [&'a str],
}

fn is_whole(rt: &impl Abort, heap: Global, script: &str, drawn: &str) -> Result<(), Fail> {
    let got = chart_of(heap, script.as_bytes())?;
    assert_eq!(rt; got.as_str(), drawn);
    Ok(())
}

fn has_all(rt: &impl Abort, heap: Global, case: Case) -> Result<(), Fail> {
    let got = chart_of(heap, case.script.as_bytes())?;
    for part in case.has {
        assert!(rt; got.as_str().contains(*part), "{}: {part}", case.name);
    }
    Ok(())
}

const HEADS: &str = "\
    <defs>\n\
    <marker id='whole' viewBox='0 0 10 10' refX='10' refY='5' markerWidth='9' markerHeight='9' orient='auto'><path d='M 0 1 L 10 5 L 0 9 z' fill='#0072b2'/></marker>\n\
    <marker id='dashed' viewBox='0 0 10 10' refX='10' refY='5' markerWidth='9' markerHeight='9' orient='auto'><path d='M 0 1 L 10 5 L 0 9 z' fill='#d55e00'/></marker>\n\
    </defs>\n\
";

// Two rows and no lanes: the set 7 has not four replicas.
#[test]
fn a_set_up_that_is_refused(rt: HostRuntime) -> Result<(), Fail> {
    let drawn = format!(in rt.alloc();
        "\
        <svg xmlns='http://www.w3.org/2000/svg' version='1.1' width='700' height='382' font-family='sans-serif'>\n\
        {HEADS}\
        <rect width='700' height='382' fill='#ffffff'/>\n\
        <line x1='44' y1='96' x2='700' y2='96' stroke='#e4e4e4'/>\n\
        <text x='36' y='96' dy='0.35em' text-anchor='end' font-size='10' fill='#222222'>1</text>\n\
        <line x1='44' y1='122' x2='700' y2='122' stroke='#e4e4e4'/>\n\
        <text x='36' y='122' dy='0.35em' text-anchor='end' font-size='10' fill='#222222'>2</text>\n\
        <text x='20' y='28' dy='0.35em' text-anchor='start' font-size='16' fill='#222222'>no hall was opened</text>\n\
        <path d='M 54 96 m -4 -4 l 8 8 m 0 -8 l -8 8' fill='none' stroke='#222222' stroke-width='2'/>\n\
        <text x='64' y='96' dy='0.35em' text-anchor='start' font-size='10' fill='#222222'>2 hall</text>\n\
        <path d='M 54 122 m -4 -4 l 8 8 m 0 -8 l -8 8' fill='none' stroke='#222222' stroke-width='2'/>\n\
        <text x='64' y='122' dy='0.35em' text-anchor='start' font-size='10' fill='#222222'>23 script</text>\n\
        </svg>\n\
    "
    )?;
    is_whole(&rt, rt.alloc(), "S 1 4 1 7 0 0 412\nR 1\n", drawn.as_str())
}

#[test]
fn an_empty_script(rt: HostRuntime) -> Result<(), Fail> {
    let drawn = format!(in rt.alloc();
        "\
        <svg xmlns='http://www.w3.org/2000/svg' version='1.1' width='700' height='330' font-family='sans-serif'>\n\
        {HEADS}\
        <rect width='700' height='330' fill='#ffffff'/>\n\
        <text x='20' y='28' dy='0.35em' text-anchor='start' font-size='16' fill='#222222'>no hall was opened</text>\n\
        </svg>\n\
    "
    )?;
    is_whole(&rt, rt.alloc(), "", drawn.as_str())
}

#[test]
fn entries_and_refusals(rt: HostRuntime) -> Result<(), Fail> {
    let own = Case {
        name: "a replica that takes a new set, and is handed its own TRANSFER",
        script: "S 1 5 1 15 0 0 412\nI 30\nD 0 101\nD 1 101\n",
        has: &[
            "width='1010' height='434'",
            "<line x1='182' y1='122' x2='518' y2='148' fill='none' stroke='#0072b2' marker-end='url(#whole)'/>\n",
            "<text x='546' y='148' dy='0.35em' text-anchor='start' font-size='10' fill='#222222'>CONFIG 0</text>\n",
            "<rect x='518' y='83' width='24' height='52' fill='#c3e3f6'/>\n",
            "<rect x='518' y='135' width='24' height='52' fill='#f7dca3'/>\n",
            "<text x='534' y='148' dy='0.35em' text-anchor='middle' font-size='10' fill='#222222'>1</text>\n",
            "<path d='M 542 148 C 590 148 590 174 542 174' fill='none' stroke='#0072b2' marker-end='url(#whole)'/>\n",
            "<text x='514' y='174' dy='0.35em' text-anchor='end' font-size='10' fill='#222222'>TRANSFER 1</text>\n",
            "<text x='549' y='185' dy='0.35em' text-anchor='start' font-size='10' fill='#222222'>STOCK 2</text>\n",
        ],
    };
    let lie = Case {
        name: "what a liar posts comes to an idle client, and a line that cannot be read",
        script: "S 1 4 1 15 4 0 412\nM 102 5 1 1 0 0 0 0 0\nD 0 1\nhello\n",
        has: &[
            "<line x1='638' y1='122' x2='302' y2='148' fill='none' stroke='#d55e00' stroke-dasharray='6 3' marker-end='url(#dashed)'/>\n",
            "<text x='274' y='148' dy='0.35em' text-anchor='end' font-size='10' fill='#222222'>ACK 0</text>\n",
            "<path d='M 290 148 m -4 -4 l 8 8 m 0 -8 l -8 8'",
            "<path d='M 54 148 m -4 -4 l 8 8 m 0 -8 l -8 8'",
            "<text x='64' y='148' dy='0.35em' text-anchor='start' font-size='10' fill='#222222'>15 client</text>\n",
            "<text x='64' y='174' dy='0.35em' text-anchor='start' font-size='10' fill='#222222'>23 script</text>\n",
            "<text x='650' y='70' dy='0.35em' text-anchor='middle' font-size='13' fill='#222222'>replica 2 (liar)</text>\n",
        ],
    };
    let unfit = Case {
        name: "a READ that is handed to a client comes to nobody",
        script: "S 1 4 2 15 0 0 412\nR 1\nD 0 2\n",
        has: &[
            "<circle cx='302' cy='133' r='3' fill='#ffffff' stroke='#222222'/>\n",
            "<text x='309' y='133' dy='0.35em' text-anchor='start' font-size='10' fill='#222222'>READ 0</text>\n",
            "<text x='64' y='148' dy='0.35em' text-anchor='start' font-size='10' fill='#222222'>11 hall</text>\n",
        ],
    };
    has_all(&rt, rt.alloc(), own)?;
    has_all(&rt, rt.alloc(), lie)?;
    has_all(&rt, rt.alloc(), unfit)
}

#[test]
fn operations(rt: HostRuntime) -> Result<(), Fail> {
    let off = Case {
        name: "a write that is called off",
        script: "S 1 4 1 15 0 0 412\nW 1 10 412\nO 1\nhello\n",
        has: &[
            "<rect x='280' y='122' width='6' height='38' fill='#666666'/>\n",
            "<text x='274' y='122' dy='0.35em' text-anchor='end' font-size='10' fill='#222222'>W 10 g</text>\n",
            "<text x='274' y='133' dy='0.35em' text-anchor='end' font-size='10' fill='#222222'>lot 412</text>\n",
            "<text x='274' y='148' dy='0.35em' text-anchor='end' font-size='10' fill='#222222'>called off</text>\n",
        ],
    };
    let over = Case {
        name: "a read that is over",
        script: "S 1 4 1 15 0 0 412\nR 1\nD 0 100\nD 0 101\nD 0 102\nD 1 1\nD 1 1\nD 2 1\nD 3 1\nT 1\n",
        has: &[
            "<rect x='280' y='122' width='6' height='182' fill='#009e73'/>\n",
            "<rect x='278' y='303' width='10' height='3' fill='#222222'/>\n",
            "<text x='274' y='122' dy='0.35em' text-anchor='end' font-size='10' fill='#222222'>R 0 g</text>\n",
            "<text x='274' y='133' dy='0.35em' text-anchor='end' font-size='10' fill='#222222'>lot 412</text>\n",
        ],
    };
    has_all(&rt, rt.alloc(), off)?;
    has_all(&rt, rt.alloc(), over)
}
