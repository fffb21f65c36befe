// The shapes of a picture, and the text of each: one element of an SVG, on a line of its own.
ghost use Rattle.std.specs.Prelude.{◌≡◌, ℕ, List, Some, IfOk, string_bytes};
ghost use Rattle.picture.specs.Shapes.{anchor_name, stroke_text, ends_text, font_text, spot_text, step_text, line_text, curve_text, block_text, cross_text, ring_text, written_text, shape_text};

use crate::colour::Colour;
use std::alloc::{AllocError, Global};
use std::fmt;

// How far to the right, and how far down.
#[derive(Clone, Copy, PartialEq, Eq, Debug)]
pub struct Point {
    pub x: u64,
    pub y: u64,
}

// Which part of a text stands at its point.
#[derive(Clone, Copy, PartialEq, Eq, Debug)]
pub enum Anchor {
    Start,
    Middle,
    End,
}

// Where a text stands, and how large it is. The point is at half its height.
#[derive(Clone, Copy, PartialEq, Eq, Debug)]
pub struct Spot {
    pub at: Point,
    pub anchor: Anchor,
    pub size: u64,
}

// How an arrow is drawn: whole and blue, or dashed and red.
#[derive(Clone, Copy, PartialEq, Eq, Debug)]
pub enum Stroke {
    Whole,
    Dashed,
}

// What a text says.
pub trait Label {
    ghost said: { Self → List ℕ };

    // Its text as it stands in the SVG: `<` and `&` are written as `&lt;` and `&amp;`.
    fn text(&self, heap: Global) -> Result<String, AllocError>
        ensures { IfOk result (λ s. string_bytes s ≡ said self.now) };
}

#[derive(Clone, Copy, PartialEq, Eq, Debug)]
pub enum Shape<L> {
    Line {
        from: Point,
        to: Point,
        colour: Colour,
    },
    Arrow {
        from: Point,
        to: Point,
        stroke: Stroke,
    },
    // an arrow that goes out as far as the bend and comes back
    Turn {
        from: Point,
        to: Point,
        bend: u64,
        stroke: Stroke,
    },
    // a rectangle, by its corner at the top left
    Block {
        corner: Point,
        width: u64,
        height: u64,
        colour: Colour,
    },
    Cross {
        at: Point,
    },
    Ring {
        at: Point,
    },
    Text {
        spot: Spot,
        label: L,
    },
    // what keeps a text that stands in the same spot apart from all that is below it
    Halo {
        spot: Spot,
        label: L,
    },
}

impl Anchor {
    pub fn name(self) -> &'static str
        ensures { result.now ≡ anchor_name self }
    {
        match self {
            Anchor::Start => "start",
            Anchor::Middle => "middle",
            Anchor::End => "end",
        }
    }
}

impl Stroke {
    // The attributes of a line that is drawn so; its head is a marker of the SVG.
    pub fn text(self) -> &'static str
        ensures { result.now ≡ stroke_text self }
    {
        match self {
            Stroke::Whole => "fill='none' stroke='#0072b2' marker-end='url(#whole)'",
            Stroke::Dashed =>
                "fill='none' stroke='#d55e00' stroke-dasharray='6 3' marker-end='url(#dashed)'",
        }
    }
}

// The attributes of a line between two points.
fn ends(heap: Global, from: Point, to: Point) -> Result<String, AllocError>
    ensures { IfOk result (λ s. string_bytes s ≡ ends_text from to) }
{
    let (x1, y1) = (from.x, from.y);
    let (x2, y2) = (to.x, to.y);
    format!(in heap; "x1='{x1}' y1='{y1}' x2='{x2}' y2='{y2}'")
}

// The attributes of a text of this size and anchor.
fn font(heap: Global, anchor: Anchor, size: u64) -> Result<String, AllocError>
    ensures { IfOk result (λ s. string_bytes s ≡ font_text anchor size) }
{
    let name = anchor.name();
    format!(in heap; "text-anchor='{name}' font-size='{size}'")
}

impl Spot {
    // The attributes of a text that stands here.
    fn text(self, heap: Global) -> Result<String, AllocError>
        ensures { IfOk result (λ s. string_bytes s ≡ spot_text self) }
    {
        let (x, y) = (self.at.x, self.at.y);
        let font = font(heap, self.anchor, self.size)?;
        format!(in heap; "x='{x}' y='{y}' dy='0.35em' {font}")
    }
}

// Two coordinates on a path.
fn step(heap: Global, x: u64, y: u64) -> Result<String, AllocError>
    ensures { IfOk result (λ s. string_bytes s ≡ step_text x y) }
{
    format!(in heap; "{x} {y}")
}

// A line that is drawn by these attributes.
fn line(heap: Global, from: Point, to: Point, drawn: &str) -> Result<String, AllocError>
    ensures { IfOk result (λ s. string_bytes s ≡ line_text from to drawn.now) }
{
    let ends = ends(heap, from, to)?;
    format!(in heap; "<line {ends} {drawn}/>\n")
}

// A curve from a point to another, that is drawn by these attributes.
fn curve(heap: Global, from: Point, to: Point, bend: u64, drawn: &str) -> Result<String, AllocError>
    ensures { IfOk result (λ s. string_bytes s ≡ curve_text from to bend drawn.now) }
{
    let start = step(heap, from.x, from.y)?;
    let first = step(heap, bend, from.y)?;
    let second = step(heap, bend, to.y)?;
    let end = step(heap, to.x, to.y)?;
    format!(in heap; "<path d='M {start} C {first} {second} {end}' {drawn}/>\n")
}

fn block(
    heap: Global,
    corner: Point,
    width: u64,
    height: u64,
    colour: Colour,
) -> Result<String, AllocError>
    ensures { IfOk result (λ s. string_bytes s ≡ block_text corner width height colour) }
{
    let (x, y) = (corner.x, corner.y);
    format!(in heap; "<rect x='{x}' y='{y}' width='{width}' height='{height}' fill='{colour}'/>\n")
}

fn cross(heap: Global, at: Point) -> Result<String, AllocError>
    ensures { IfOk result (λ s. string_bytes s ≡ cross_text at) }
{
    let start = step(heap, at.x, at.y)?;
    format!(in heap;
        "<path d='M {start} m -4 -4 l 8 8 m 0 -8 l -8 8' fill='none' stroke='#222222' stroke-width='2'/>\n"
    )
}

fn ring(heap: Global, at: Point) -> Result<String, AllocError>
    ensures { IfOk result (λ s. string_bytes s ≡ ring_text at) }
{
    let (x, y) = (at.x, at.y);
    format!(in heap; "<circle cx='{x}' cy='{y}' r='3' fill='#ffffff' stroke='#222222'/>\n")
}

// A text that stands in this spot and is drawn by these attributes.
fn written(heap: Global, spot: Spot, said: &str, drawn: &str) -> Result<String, AllocError>
    ensures { IfOk result (λ s. string_bytes s ≡ written_text spot said.now drawn.now) }
{
    let standing = spot.text(heap)?;
    format!(in heap; "<text {standing} {drawn}>{said}</text>\n")
}

impl<L: Label + Copy> Shape<L> {
    // Its element.
    pub fn text(&self, heap: Global) -> Result<String, AllocError>
        ensures { IfOk result (λ s. string_bytes s ≡ shape_text L.said self.now) }
    {
        match *self {
            Shape::Line { from, to, colour } => {
                let drawn = format!(in heap; "stroke='{colour}'")?;
                line(heap, from, to, drawn.as_str())
            }
            Shape::Arrow { from, to, stroke } => line(heap, from, to, stroke.text()),
            Shape::Turn {
                from,
                to,
                bend,
                stroke,
            } => curve(heap, from, to, bend, stroke.text()),
            Shape::Block {
                corner,
                width,
                height,
                colour,
            } => block(heap, corner, width, height, colour),
            Shape::Cross { at } => cross(heap, at),
            Shape::Ring { at } => ring(heap, at),
            Shape::Text { spot, label } => {
                let said = label.text(heap)?;
                written(heap, spot, said.as_str(), "fill='#222222'")
            }
            Shape::Halo { spot, label } => {
                let said = label.text(heap)?;
                written(
                    heap,
                    spot,
                    said.as_str(),
                    "fill='#ffffff' stroke='#ffffff' stroke-width='3'",
                )
            }
        }
    }
}
