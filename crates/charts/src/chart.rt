// A chart: its marks in three layers, what is put on it, and the text of its picture.
ghost use Rattle.std.specs.Prelude.{◌≡◌, ◌++◌, IfOk, OnOk, map, string_bytes};
ghost use Rattle.charts.specs.Marks.{mark_shape};
ghost use Rattle.charts.specs.Charts.{layers, empty, under, across, over, noted, headed, rowed, refused, stayed, struck, delivered, lost, capped, lotted, worked, explained, chart_text};

use crate::caption::Caption;
use crate::layout::{Layout, Place, Slot};
use crate::mark::Mark;
use crate::seen::{Delivery, Stay, weight_of};
use crate::sign::Sign;
use halls::Operation;
use kinds::BinWeight;
use picture::{Shape, svg_of};
use refusals::Refusal;
use std::alloc::{AllocError, Global};
use wire::Party;

// What lies below, what runs across it, and what is written over both.
#[derive(Drop)]
pub struct Chart {
    pub ground: Vec<Mark>,
    pub lines: Vec<Mark>,
    pub notes: Vec<Mark>,
}

// Puts the shapes of these marks behind the others.
fn put(shapes: &mut Vec<Shape<Caption>>, layout: Layout, marks: &[Mark]) -> Result<(), AllocError>
    ensures { OnOk result (shapes.new.items ≡ shapes.old.items ++ map (mark_shape layout) marks.now) }
{
    for mark in marks {
        shapes.push(mark.shape(layout))?;
    }
    Ok(())
}

impl Chart {
    pub fn new(heap: Global) -> Chart
        ensures { layers result ≡ empty }
    {
        Chart {
            ground: Vec::new(heap),
            lines: Vec::new(heap),
            notes: Vec::new(heap),
        }
    }

    // One mark more in a layer.
    pub fn under(&mut self, mark: Mark) -> Result<(), AllocError>
        ensures { OnOk result (layers self.new ≡ under (layers self.old) mark) }
    {
        self.ground.push(mark)?;
        Ok(())
    }

    pub fn across(&mut self, mark: Mark) -> Result<(), AllocError>
        ensures { OnOk result (layers self.new ≡ across (layers self.old) mark) }
    {
        self.lines.push(mark)?;
        Ok(())
    }

    pub fn over(&mut self, mark: Mark) -> Result<(), AllocError>
        ensures { OnOk result (layers self.new ≡ over (layers self.old) mark) }
    {
        self.notes.push(mark)?;
        Ok(())
    }

    // A text by a place, kept apart from what is below it.
    pub fn note(&mut self, at: Place, slot: Slot, caption: Caption) -> Result<(), AllocError>
        ensures { OnOk result (layers self.new ≡ noted (layers self.old) at slot caption) }
    {
        self.over(Mark::Halo { at, slot, caption })?;
        self.over(Mark::Note { at, slot, caption })
    }

    // The head of a lane, above this many rows and below them.
    pub fn head(&mut self, party: Party, caption: Caption, rows: u16) -> Result<(), AllocError>
        ensures { OnOk result (layers self.new ≡ headed (layers self.old) party caption rows) }
    {
        self.note(Place { party, row: 0 }, Slot::Head, caption)?;
        let row = rows.saturating_add(1);
        self.note(Place { party, row }, Slot::Head, caption)
    }

    // The line of a row, and its number.
    pub fn row(&mut self, row: u16) -> Result<(), AllocError>
        ensures { OnOk result (layers self.new ≡ rowed (layers self.old) row) }
    {
        self.under(Mark::Row(row))?;
        self.under(Mark::RowNumber(row))
    }

    // What was refused in a row.
    pub fn refusal(&mut self, row: u16, refusal: Refusal) -> Result<(), AllocError>
        ensures { OnOk result (layers self.new ≡ refused (layers self.old) row refusal) }
    {
        self.over(Mark::Cross(row))?;
        let caption = Caption::Refusal(refusal);
        self.over(Mark::Reason { row, caption })
    }

    // A party was in an epoch up to some row.
    pub fn stay(&mut self, stay: Stay, until: u16) -> Result<(), AllocError>
        ensures { OnOk result (layers self.new ≡ stayed (layers self.old) stay until) }
    {
        let epoch = stay.epoch;
        let at = Place {
            party: stay.party,
            row: stay.since,
        };
        self.under(Mark::Band { at, until, epoch })?;
        let caption = Caption::Epoch(epoch);
        let slot = Slot::Within;
        self.over(Mark::Note { at, slot, caption })
    }

    // An entry was handed over: its arrow, its name on the far side of the band, and a cross where it was refused.
    pub fn delivery(&mut self, delivery: Delivery, layout: Layout) -> Result<(), AllocError>
        ensures { OnOk result (layers self.new ≡ delivered layout.clients (layers self.old) delivery) }
    {
        let Delivery {
            name,
            from,
            to,
            stroke,
            refused,
        } = delivery;
        self.across(Mark::Arrow { from, to, stroke })?;
        self.note(to, layout.far_side(from, to), name)?;
        self.strike(to, refused)
    }

    // A cross at a place, if what came there was refused.
    fn strike(&mut self, at: Place, refused: bool) -> Result<(), AllocError>
        ensures { OnOk result (layers self.new ≡ struck (layers self.old) at refused) }
    {
        if refused {
            self.over(Mark::Struck(at))?;
        }
        Ok(())
    }

    // An entry that was posted here was handed to nobody.
    pub fn loss(&mut self, at: Place, name: Caption) -> Result<(), AllocError>
        ensures { OnOk result (layers self.new ≡ lost (layers self.old) at name) }
    {
        self.over(Mark::Lost(at))?;
        self.note(at, Slot::LowerRight, name)
    }

    // The line that ends an operation, if it is over.
    fn cap(&mut self, at: Place, over: bool) -> Result<(), AllocError>
        ensures { OnOk result (layers self.new ≡ capped (layers self.old) at over) }
    {
        if over {
            self.under(Mark::Cap(at))?;
        }
        Ok(())
    }

    // The lot of a weight, if there is one.
    fn lot(&mut self, at: Place, weight: Option<BinWeight>) -> Result<(), AllocError>
        ensures { OnOk result (layers self.new ≡ lotted (layers self.old) at weight) }
    {
        match weight {
            Some(weight) => self.note(at, Slot::LowerLeft, Caption::Lot(weight)),
            None => Ok(()),
        }
    }

    // An operation from the place where it began to another row.
    pub fn work(&mut self, at: Place, until: u16, operation: Operation) -> Result<(), AllocError>
        ensures { OnOk result (layers self.new ≡ worked (layers self.old) at until operation) }
    {
        let over = operation.ended.is_some();
        self.under(Mark::Bar { at, until, over })?;
        let end = Place {
            party: at.party,
            row: until,
        };
        self.cap(end, over)?;
        let weight = weight_of(operation);
        let writes = operation.writes;
        self.note(at, Slot::Left, Caption::Operation { writes, weight })?;
        self.lot(at, weight)
    }

    // A line of the legend.
    pub fn explain(&mut self, sign: Sign) -> Result<(), AllocError>
        ensures { OnOk result (layers self.new ≡ explained (layers self.old) sign) }
    {
        self.under(Mark::Sample(sign))?;
        self.under(Mark::Meaning(sign))
    }

    // Its picture.
    pub fn drawn(&self, heap: Global, layout: Layout) -> Result<String, AllocError>
        ensures { IfOk result (λ s. string_bytes s ≡ chart_text layout (layers self.now)) }
    {
        let mut shapes = Vec::new(heap);
        put(&mut shapes, layout, self.ground.as_slice())?;
        put(&mut shapes, layout, self.lines.as_slice())?;
        put(&mut shapes, layout, self.notes.as_slice())?;
        svg_of(heap, layout.width(), layout.height(), shapes.as_slice())
    }
}
