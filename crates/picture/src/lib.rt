// Pictures: shapes, and the text of an SVG that shows them.
#![tactic(auto)]

mod colour;
mod shape;
mod svg;

pub use colour::Colour;
pub use shape::{Anchor, Label, Point, Shape, Spot, Stroke};
pub use svg::svg_of;
