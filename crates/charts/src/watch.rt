// Watches a run row by row, and puts what is seen of it on a chart.
ghost use Rattle.std.specs.Prelude.{◌≡◌, ◌++◌, IfOk, OnOk, map, slice_get, unwrap_or, string_bytes};
ghost use Rattle.wire.specs.Parties.{party_of};
ghost use Rattle.charts.specs.Charts.{layers, chart_text};
ghost use Rattle.charts.specs.Seen.{place_in, name_of};
ghost use Rattle.charts.specs.Watches.{as_list, with_lane, parties_below, stay_from, layout_of, opened, row_of, all_rowed, all_refused, margined, head_of, all_headed, all_stayed, with_loss, all_lost, with_work, all_worked, all_explained, with_rows, finished, seen, posted_in, with_posts, all_moved, stay_of, with_moves, works_after, with_works, comes, with_delivery, ended_in, with_end};

use crate::caption::{Caption, Size};
use crate::chart::Chart;
use crate::layout::{Layout, Place, Slot};
use crate::mark::Mark;
use crate::seen::{Delivery, Move, Posted, Stay, Work, name_of, place_of, stroke_of};
use crate::sign::{SIGNS, Sign};
use halls::Operation;
use picture::Stroke;
use refusals::Refusal;
use script::SetUp;
use std::alloc::{AllocError, Global};
use wire::{Entry, Party, ReplicaSet};

// What is known of a run up to some row, and its chart so far.
#[derive(Drop)]
pub(crate) struct Watch {
    pub(crate) chart: Chart,
    pub(crate) layout: Layout,
    pub(crate) marked: ReplicaSet,
    pub(crate) posted: Vec<Posted>,
    pub(crate) stays: Vec<Stay>,
    pub(crate) works: Vec<Work>,
}

// The row of a line: no script has more lines than fit.
pub(crate) fn row_of(line: u64) -> u16
    ensures { result ≡ row_of line }
{
    line.min(65535) as u16
}

// Puts down so many rows, and what was refused in them.
pub(crate) fn margin(chart: &mut Chart, rows: u16, refusals: &[Refusal]) -> Result<(), AllocError>
    ensures { OnOk result (layers chart.new ≡ margined (layers chart.old) rows refusals.now) }
{
    put_rows(chart, rows)?;
    put_refusals(chart, refusals)
}

fn put_rows(chart: &mut Chart, rows: u16) -> Result<(), AllocError>
    ensures { OnOk result (layers chart.new ≡ all_rowed (layers chart.old) rows) }
{
    for row in 0..rows {
        chart.row(row + 1)?;
    }
    Ok(())
}

fn put_refusals(chart: &mut Chart, refusals: &[Refusal]) -> Result<(), AllocError>
    ensures { OnOk result (layers chart.new ≡ all_refused (layers chart.old) refusals.now) }
{
    for refusal in refusals {
        chart.refusal(row_of(refusal.place), *refusal)?;
    }
    Ok(())
}

// The party of this number, if it has a lane.
fn with_lane(layout: Layout, number: u64) -> Option<Party>
    ensures { as_list result ≡ with_lane layout (party_of number) }
{
    let party = Party::try_from(number).ok()?;
    layout.has(party).then_some(party)
}

// The parties that have a lane.
fn parties(heap: Global, layout: Layout) -> Result<Vec<Party>, AllocError>
    ensures { IfOk result (λ v. v.items ≡ parties_below layout 164) }
{
    let mut parties = Vec::new(heap);
    for number in 0..164 {
        if let Some(party) = with_lane(layout, number) {
            parties.push(party)?;
        }
    }
    Ok(parties)
}

// Where each of these parties is once the hall is opened in a row.
fn first_stays(heap: Global, parties: &[Party], row: u16) -> Result<Vec<Stay>, AllocError>
    ensures { IfOk result (λ v. v.items ≡ map (stay_from row) parties.now) }
{
    parties
        .iter()
        .map(|party| Stay {
            party: *party,
            epoch: 0,
            since: row,
        })
        .collect(heap)
}

// The layout of a chart of this hall that has so many rows.
fn layout_for(asked: SetUp, rows: u16) -> Layout
    ensures { result ≡ layout_of asked rows }
{
    Layout {
        clients: asked.clients.min(255) as u8,
        replicas: asked.replicas.min(255) as u8,
        rows,
    }
}

// These entries were posted in a row.
fn put_posts(posted: &mut Vec<Posted>, fresh: &[Entry], row: u16) -> Result<(), AllocError>
    ensures { OnOk result (posted.new.items ≡ posted.old.items ++ map (posted_in row) fresh.now) }
{
    for entry in fresh {
        posted.push(Posted {
            entry: *entry,
            row,
            handed: false,
        })?;
    }
    Ok(())
}

// The stays that a row has ended.
fn put_moves(chart: &mut Chart, moves: &[Move], row: u16) -> Result<(), AllocError>
    ensures { OnOk result (layers chart.new ≡ all_moved row (layers chart.old) moves.now) }
{
    for step in moves {
        if step.epoch != step.stay.epoch {
            chart.stay(step.stay, row)?;
        }
    }
    Ok(())
}

// Where the parties are after a row.
fn stays_after(heap: Global, moves: &[Move], row: u16) -> Result<Vec<Stay>, AllocError>
    ensures { IfOk result (λ v. v.items ≡ map (stay_of row) moves.now) }
{
    moves
        .iter()
        .map(|step| step.stay.after(step.epoch, row))
        .collect(heap)
}

// What is known of the operation of this number.
fn known_at(known: &[Work], number: usize) -> Option<Work>
    ensures { result ≡ slice_get known.now number }
{
    known.get(number).copied()
}

// The operations of a log after a row, where these were known before.
fn works_after(
    heap: Global,
    known: &[Work],
    log: &[Operation],
    row: u16,
) -> Result<Vec<Work>, AllocError>
    ensures { IfOk result (λ v. v.items ≡ works_after known.now row 0 log.now) }
{
    let mut works = Vec::new(heap);
    for (number, operation) in log.iter().enumerate() {
        works.push(Work::of(known_at(known, number), *operation, row))?;
    }
    Ok(works)
}

// An entry of this number is handed over, and comes to this place, if there is one.
fn coming(
    posted: Posted,
    number: u64,
    to: Option<Place>,
    marked: ReplicaSet,
    refused: bool,
) -> Option<Delivery>
    ensures { result ≡ comes posted number to marked refused }
{
    posted.delivery(number, to?, marked, refused)
}

// The operation of this number ended in a row.
fn end(works: &mut Vec<Work>, number: usize, row: u16)
    ensures { works.new.items ≡ ended_in works.old.items (slice_get works.old.items number) number row }
{
    if let Some(work) = works.get(number).copied() {
        works[number] = Work {
            ended: Some(row),
            ..work
        };
    }
}

// The name at the head of a lane.
fn head(stroke: Stroke, party: Party) -> Caption
    ensures { result ≡ head_of stroke party }
{
    match stroke {
        Stroke::Whole => Caption::Party(party),
        Stroke::Dashed => Caption::Liar(party),
    }
}

// The heads of these parties, of which those of the marked replicas say so.
fn put_heads(
    chart: &mut Chart,
    marked: ReplicaSet,
    stays: &[Stay],
    rows: u16,
) -> Result<(), AllocError>
    ensures { OnOk result (layers chart.new ≡ all_headed marked rows (layers chart.old) stays.now) }
{
    for stay in stays {
        let party = stay.party;
        chart.head(party, head(stroke_of(marked, party), party), rows)?;
    }
    Ok(())
}

// The stays that last.
fn put_stays(chart: &mut Chart, stays: &[Stay], until: u16) -> Result<(), AllocError>
    ensures { OnOk result (layers chart.new ≡ all_stayed until (layers chart.old) stays.now) }
{
    for stay in stays {
        chart.stay(*stay, until)?;
    }
    Ok(())
}

// The entries that were handed to nobody.
fn put_losses(chart: &mut Chart, posted: &[Posted]) -> Result<(), AllocError>
    ensures { OnOk result (layers chart.new ≡ all_lost 0 (layers chart.old) posted.now) }
{
    for (number, posted) in posted.iter().enumerate() {
        put_loss(chart, *posted, number as u64)?;
    }
    Ok(())
}

fn put_loss(chart: &mut Chart, posted: Posted, number: u64) -> Result<(), AllocError>
    ensures { OnOk result (layers chart.new ≡ with_loss (layers chart.old) (place_in posted.entry.sender posted.row) posted.handed (name_of posted.entry number)) }
{
    match posted.place() {
        Some(at) if !posted.handed => chart.loss(at, name_of(posted.entry, number)),
        _ => Ok(()),
    }
}

// The operations, those without an end down to the last row.
fn put_works(chart: &mut Chart, works: &[Work], last: u16) -> Result<(), AllocError>
    ensures { OnOk result (layers chart.new ≡ all_worked last (layers chart.old) works.now) }
{
    for work in works {
        put_work(chart, *work, last)?;
    }
    Ok(())
}

fn put_work(chart: &mut Chart, work: Work, last: u16) -> Result<(), AllocError>
    ensures { OnOk result (layers chart.new ≡ with_work (layers chart.old) (place_in work.operation.client work.began) (unwrap_or work.ended last) work.operation) }
{
    match work.place() {
        Some(at) => chart.work(at, work.ended.unwrap_or(last), work.operation),
        None => Ok(()),
    }
}

fn put_legend(chart: &mut Chart, signs: &[Sign]) -> Result<(), AllocError>
    ensures { OnOk result (layers chart.new ≡ all_explained (layers chart.old) signs.now) }
{
    for sign in signs {
        chart.explain(*sign)?;
    }
    Ok(())
}

impl Watch {
    // The hall of this set-up is opened in a row.
    pub(crate) fn new(heap: Global, asked: SetUp, row: u16) -> Result<Watch, AllocError>
        ensures { IfOk result (λ w. seen w ≡ opened asked row) }
    {
        let layout = layout_for(asked, row);
        let mut chart = Chart::new(heap);
        let size = Size {
            faults: asked.faults,
            replicas: asked.replicas,
            clients: asked.clients,
        };
        chart.over(Mark::Title(Caption::Title(size)))?;
        let parties = parties(heap, layout)?;
        let stays = first_stays(heap, parties.as_slice(), row)?;
        Ok(Watch {
            chart,
            layout,
            marked: asked.marked,
            posted: Vec::new(heap),
            stays,
            works: Vec::new(heap),
        })
    }

    // The entries that a row has posted.
    pub(crate) fn posts(&mut self, post: &[Entry], row: u16) -> Result<(), AllocError>
        ensures { OnOk result (seen self.new ≡ with_posts (seen self.old) post.now row) }
    {
        let old = self.posted.len().min(post.len());
        put_posts(&mut self.posted, &post[old..], row)
    }

    // The parties that a row has moved to another epoch.
    pub(crate) fn moves(&mut self, heap: Global, moves: &[Move], row: u16) -> Result<(), AllocError>
        ensures { OnOk result (seen self.new ≡ with_moves (seen self.old) moves.now row) }
    {
        put_moves(&mut self.chart, moves, row)?;
        self.stays = stays_after(heap, moves, row)?;
        Ok(())
    }

    // The operations that a row has begun or ended.
    pub(crate) fn works(
        &mut self,
        heap: Global,
        log: &[Operation],
        row: u16,
    ) -> Result<(), AllocError>
        ensures { OnOk result (seen self.new ≡ with_works (seen self.old) log.now row) }
    {
        self.works = works_after(heap, self.works.as_slice(), log, row)?;
        Ok(())
    }

    // The entry of this number was handed to a party in a row.
    pub(crate) fn delivery(
        &mut self,
        number: u64,
        party: u64,
        row: u16,
        refused: bool,
    ) -> Result<(), AllocError>
        ensures { OnOk result (seen self.new ≡ with_delivery (seen self.old) number party row refused) }
    {
        let index = number as usize;
        let Some(posted) = self.posted.get(index).copied() else {
            return Ok(());
        };
        self.posted[index] = Posted {
            handed: true,
            ..posted
        };
        match coming(posted, number, place_of(party, row), self.marked, refused) {
            Some(delivery) => self.chart.delivery(delivery, self.layout),
            None => Ok(()),
        }
    }

    // A client's operation of this number was called off in a row.
    pub(crate) fn call_off(&mut self, client: u64, number: u32, row: u16) -> Result<(), AllocError>
        ensures { OnOk result (seen self.new ≡ with_end (seen self.old) client number row) }
    {
        end(&mut self.works, number as usize, row);
        match place_of(client, row) {
            Some(at) => self.chart.note(at, Slot::Left, Caption::CalledOff),
            None => Ok(()),
        }
    }

    // The picture of a run that had so many rows and these refusals.
    pub(crate) fn drawn(
        mut self,
        heap: Global,
        rows: u16,
        refusals: &[Refusal],
    ) -> Result<String, AllocError>
        ensures { IfOk result (λ s. string_bytes s ≡ chart_text (with_rows self.layout rows) (finished (seen self) rows refusals.now)) }
    {
        let last = rows.saturating_add(1);
        let chart = &mut self.chart;
        margin(chart, rows, refusals)?;
        put_stays(chart, self.stays.as_slice(), last)?;
        put_works(chart, self.works.as_slice(), rows)?;
        put_losses(chart, self.posted.as_slice())?;
        put_heads(chart, self.marked, self.stays.as_slice(), rows)?;
        put_legend(chart, &SIGNS)?;
        let layout = Layout {
            rows,
            ..self.layout
        };
        self.chart.drawn(heap, layout)
    }
}
