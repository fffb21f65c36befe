// The text of a picture.
ghost use Rattle.std.specs.Prelude.{◌≡◌, IfOk, string_bytes};
ghost use Rattle.picture.specs.Pictures.{heads_text, size_text, root_text, head_text, picture_text};

use crate::shape::{Label, Shape};
use std::alloc::{AllocError, Global};

// The heads of arrows, one for each stroke.
fn heads() -> &'static str
    ensures { result.now ≡ heads_text }
{
    "<defs>\n<marker id='whole' viewBox='0 0 10 10' refX='10' refY='5' markerWidth='9' markerHeight='9' orient='auto'><path d='M 0 1 L 10 5 L 0 9 z' fill='#0072b2'/></marker>\n<marker id='dashed' viewBox='0 0 10 10' refX='10' refY='5' markerWidth='9' markerHeight='9' orient='auto'><path d='M 0 1 L 10 5 L 0 9 z' fill='#d55e00'/></marker>\n</defs>\n"
}

fn size(heap: Global, width: u64, height: u64) -> Result<String, AllocError>
    ensures { IfOk result (λ s. string_bytes s ≡ size_text width height) }
{
    format!(in heap; "width='{width}' height='{height}'")
}

// The root of a picture of this width and height.
fn root(heap: Global, width: u64, height: u64) -> Result<String, AllocError>
    ensures { IfOk result (λ s. string_bytes s ≡ root_text width height) }
{
    let size = size(heap, width, height)?;
    format!(in heap;
        "<svg xmlns='http://www.w3.org/2000/svg' version='1.1' {size} font-family='sans-serif'>\n"
    )
}

// What stands before the shapes: the root, the heads of arrows, and the paper.
fn head(heap: Global, width: u64, height: u64) -> Result<String, AllocError>
    ensures { IfOk result (λ s. string_bytes s ≡ head_text width height) }
{
    let root = root(heap, width, height)?;
    let heads = heads();
    let size = size(heap, width, height)?;
    format!(in heap; "{root}{heads}<rect {size} fill='#ffffff'/>\n")
}

// An SVG of this width and height, and in it the shapes in their order: a later one lies over an earlier one.
pub fn svg_of<L: Label + Copy>(
    heap: Global,
    width: u64,
    height: u64,
    shapes: &[Shape<L>],
) -> Result<String, AllocError>
    ensures { IfOk result (λ s. string_bytes s ≡ picture_text L.said width height shapes.now) }
{
    let mut out = head(heap, width, height)?;
    for shape in shapes {
        let text = shape.text(heap)?;
        out.push_str(text.as_str())?;
    }
    out.push_str("</svg>\n")?;
    Ok(out)
}
