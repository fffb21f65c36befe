// The marks of a chart, by lanes and rows, and the shape of each.
ghost use Rattle.std.specs.Prelude.{◌≡◌};
ghost use Rattle.charts.specs.Marks.{tint, bar_colour, bar_end, block_of, text_of, arrow_shape, sample_shape, mark_shape};

use crate::caption::Caption;
use crate::layout::{Layout, Place, Slot, height};
use crate::sign::Sign;
use picture::{Anchor, Colour, Point, Shape, Spot, Stroke};

#[derive(Clone, Copy, PartialEq, Eq, Debug)]
pub enum Mark {
    Title(Caption),
    // the line of a row, and what stands at its margin: its number, and what was refused in it
    Row(u16),
    RowNumber(u16),
    Cross(u16),
    Reason {
        row: u16,
        caption: Caption,
    },
    // a party is in an epoch from the row of the place up to another row
    Band {
        at: Place,
        until: u16,
        epoch: u32,
    },
    // an operation of a client from the row of the place to another row, and the line that ends it once it is over
    Bar {
        at: Place,
        until: u16,
        over: bool,
    },
    Cap(Place),
    // an entry is handed over
    Arrow {
        from: Place,
        to: Place,
        stroke: Stroke,
    },
    // what came to a place was refused there
    Struck(Place),
    // an entry was posted here and handed to nobody
    Lost(Place),
    // a text by a place, and what keeps it apart from all below it
    Note {
        at: Place,
        slot: Slot,
        caption: Caption,
    },
    Halo {
        at: Place,
        slot: Slot,
        caption: Caption,
    },
    // a line of the legend: a sample, and what it means
    Sample(Sign),
    Meaning(Sign),
}

// The colour of an epoch's bands.
fn tint(epoch: u32) -> Colour
    ensures { result ≡ tint epoch }
{
    match epoch % 4 {
        0 => Colour::PaleBlue,
        1 => Colour::PaleOrange,
        2 => Colour::PaleGreen,
        _ => Colour::PalePink,
    }
}

// The colour of an operation's bar.
fn bar_colour(over: bool) -> Colour
    ensures { result ≡ bar_colour over }
{
    if over { Colour::Green } else { Colour::Grey }
}

// Where an operation's bar ends: at the line of its last row, or at the foot of that row if it is not over.
fn bar_end(until: u16, over: bool) -> u64
    ensures { result ≡ bar_end until over }
{
    let line = u64::from(height(until));
    if over { line } else { line + 12 }
}

// A block of this width between two heights.
fn block(x: u64, top: u64, bottom: u64, width: u64, colour: Colour) -> Shape<Caption>
    ensures { result ≡ block_of x top bottom width colour }
{
    Shape::Block {
        corner: Point { x, y: top },
        width,
        height: bottom.saturating_sub(top),
        colour,
    }
}

// A text that begins or ends here.
fn text(x: u64, y: u64, anchor: Anchor, size: u64, label: Caption) -> Shape<Caption>
    ensures { result ≡ text_of x y anchor size label }
{
    Shape::Text {
        spot: Spot {
            at: Point { x, y },
            anchor,
            size,
        },
        label,
    }
}

// From the near side of one band to the near side of the other, or out and back to the same band.
fn arrow(layout: Layout, from: Place, to: Place, stroke: Stroke) -> Shape<Caption>
    ensures { result ≡ arrow_shape layout.clients from to stroke }
{
    let x1 = u64::from(layout.column(from.party));
    let x2 = u64::from(layout.column(to.party));
    let y1 = u64::from(height(from.row));
    let y2 = u64::from(height(to.row));
    if x1 < x2 {
        Shape::Arrow {
            from: Point { x: x1 + 12, y: y1 },
            to: Point { x: x2 - 12, y: y2 },
            stroke,
        }
    } else if x2 < x1 {
        Shape::Arrow {
            from: Point { x: x1 - 12, y: y1 },
            to: Point { x: x2 + 12, y: y2 },
            stroke,
        }
    } else {
        Shape::Turn {
            from: Point { x: x1 + 12, y: y1 },
            to: Point { x: x2 + 12, y: y2 },
            bend: x1 + 60,
            stroke,
        }
    }
}

// The sample of a sign at this height.
fn sample(sign: Sign, height: u32) -> Shape<Caption>
    ensures { result ≡ sample_shape sign height }
{
    let y = u64::from(height);
    match sign {
        Sign::Handed => Shape::Arrow {
            from: Point { x: 30, y },
            to: Point { x: 90, y },
            stroke: Stroke::Whole,
        },
        Sign::Lied => Shape::Arrow {
            from: Point { x: 30, y },
            to: Point { x: 90, y },
            stroke: Stroke::Dashed,
        },
        Sign::Lost => Shape::Ring {
            at: Point { x: 60, y },
        },
        Sign::Refused => Shape::Cross {
            at: Point { x: 60, y },
        },
        Sign::Epoch => block(48, y.saturating_sub(8), y + 8, 24, Colour::PaleBlue),
        Sign::Operation => block(57, y.saturating_sub(8), y + 8, 6, Colour::Green),
        Sign::Unfinished => block(57, y.saturating_sub(8), y + 8, 6, Colour::Grey),
    }
}

impl Mark {
    pub fn shape(self, layout: Layout) -> Shape<Caption>
        ensures { result ≡ mark_shape layout self }
    {
        match self {
            Mark::Title(caption) => text(20, 28, Anchor::Start, 16, caption),
            Mark::Row(row) => {
                let y = u64::from(height(row));
                Shape::Line {
                    from: Point { x: 44, y },
                    to: Point {
                        x: layout.width(),
                        y,
                    },
                    colour: Colour::Faint,
                }
            }
            Mark::RowNumber(row) => {
                let y = u64::from(height(row));
                text(36, y, Anchor::End, 10, Caption::Row(row))
            }
            Mark::Cross(row) => Shape::Cross {
                at: Point {
                    x: 54,
                    y: u64::from(height(row)),
                },
            },
            Mark::Reason { row, caption } => {
                text(64, u64::from(height(row)), Anchor::Start, 10, caption)
            }
            Mark::Band { at, until, epoch } => {
                let x = u64::from(layout.column(at.party)) - 12;
                let top = u64::from(height(at.row)) - 13;
                block(x, top, u64::from(height(until)) - 13, 24, tint(epoch))
            }
            Mark::Bar { at, until, over } => {
                let x = u64::from(layout.column(at.party)) - 10;
                let top = u64::from(height(at.row));
                block(x, top, bar_end(until, over), 6, bar_colour(over))
            }
            Mark::Cap(place) => {
                let x = u64::from(layout.column(place.party)) - 12;
                let y = u64::from(height(place.row));
                block(x, y - 1, y + 2, 10, Colour::Ink)
            }
            Mark::Arrow { from, to, stroke } => arrow(layout, from, to, stroke),
            Mark::Struck(place) => Shape::Cross {
                at: layout.point(place),
            },
            Mark::Lost(place) => Shape::Ring {
                at: Point {
                    x: u64::from(layout.column(place.party)) + 12,
                    y: u64::from(height(place.row)) + 11,
                },
            },
            Mark::Note { at, slot, caption } => Shape::Text {
                spot: layout.spot(at, slot),
                label: caption,
            },
            Mark::Halo { at, slot, caption } => Shape::Halo {
                spot: layout.spot(at, slot),
                label: caption,
            },
            Mark::Sample(sign) => sample(sign, layout.legend(sign)),
            Mark::Meaning(sign) => {
                let y = u64::from(layout.legend(sign));
                text(110, y, Anchor::Start, 11, Caption::Meaning(sign))
            }
        }
    }
}
