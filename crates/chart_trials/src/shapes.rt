// The elements of an SVG.
use charts::Caption;
use picture::{Anchor, Colour, Point, Shape, Spot, Stroke};
use std::alloc::Global;
use std::process::Abort;
use std::test::Fail;

fn is_drawn(rt: &impl Abort, heap: Global, shape: Shape<Caption>, drawn: &str) -> Result<(), Fail> {
    let text = shape.text(heap)?;
    assert_eq!(rt; text.as_str(), drawn);
    Ok(())
}

#[test]
fn lines_and_blocks(rt: HostRuntime) -> Result<(), Fail> {
    let (from, to) = (Point { x: 10, y: 20 }, Point { x: 30, y: 40 });
    let line = Shape::Line {
        from,
        to,
        colour: Colour::Faint,
    };
    let arrow = Shape::Arrow {
        from,
        to,
        stroke: Stroke::Dashed,
    };
    let turn = Shape::Turn {
        from,
        to,
        bend: 90,
        stroke: Stroke::Whole,
    };
    let block = Shape::Block {
        corner: from,
        width: 24,
        height: 26,
        colour: Colour::PalePink,
    };
    is_drawn(
        &rt,
        rt.alloc(),
        line,
        "<line x1='10' y1='20' x2='30' y2='40' stroke='#e4e4e4'/>\n",
    )?;
    is_drawn(
        &rt,
        rt.alloc(),
        arrow,
        "<line x1='10' y1='20' x2='30' y2='40' fill='none' stroke='#d55e00' stroke-dasharray='6 3' marker-end='url(#dashed)'/>\n",
    )?;
    is_drawn(
        &rt,
        rt.alloc(),
        turn,
        "<path d='M 10 20 C 90 20 90 40 30 40' fill='none' stroke='#0072b2' marker-end='url(#whole)'/>\n",
    )?;
    is_drawn(
        &rt,
        rt.alloc(),
        block,
        "<rect x='10' y='20' width='24' height='26' fill='#ecc9dd'/>\n",
    )
}

#[test]
fn signs_and_texts(rt: HostRuntime) -> Result<(), Fail> {
    let at = Point { x: 10, y: 20 };
    let spot = Spot {
        at,
        anchor: Anchor::Middle,
        size: 13,
    };
    let label = Caption::CalledOff;
    is_drawn(
        &rt,
        rt.alloc(),
        Shape::Cross { at },
        "<path d='M 10 20 m -4 -4 l 8 8 m 0 -8 l -8 8' fill='none' stroke='#222222' stroke-width='2'/>\n",
    )?;
    is_drawn(
        &rt,
        rt.alloc(),
        Shape::Ring { at },
        "<circle cx='10' cy='20' r='3' fill='#ffffff' stroke='#222222'/>\n",
    )?;
    is_drawn(
        &rt,
        rt.alloc(),
        Shape::Text { spot, label },
        "<text x='10' y='20' dy='0.35em' text-anchor='middle' font-size='13' fill='#222222'>called off</text>\n",
    )?;
    is_drawn(
        &rt,
        rt.alloc(),
        Shape::Halo { spot, label },
        "<text x='10' y='20' dy='0.35em' text-anchor='middle' font-size='13' fill='#ffffff' stroke='#ffffff' stroke-width='3'>called off</text>\n",
    )
}
