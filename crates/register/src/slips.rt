// Call off, collect, lodge and redeem: what becomes of an operation's slip.
ghost use Rattle.std.specs.Prelude.{◌≡◌, IfErr};
ghost use Rattle.stores.specs.Saved.{Shelf};
ghost use Rattle.sealers.specs.Sealing.{Desk};
ghost use Rattle.model.specs.Delivering.{is_over};
ghost use Rattle.model.specs.Calls.{Step, call_off, collect, lodge, redeem};
ghost use Rattle.model.specs.Slips.{freed, holding_slip};
ghost use Rattle.register.specs.Worlds.{bare, world, done_or_kept, pair_or_kept, slip_or};
ghost use Rattle.register.specs.Seats.{its_seat, called_off, collected};

use crate::hall::Hall;
use crate::slip::{Kept, Slip};
use crate::tables::{Tables, put, seat_of};
use clients::{Line, Stage};
use halls::{HallFault, Seat};
use kinds::{Kind, KindFault};
use wire::Pair;

fn is_over(stage: Stage) -> bool
    ensures { result ≡ is_over stage }
{
    stage == Stage::Over
}

// The seat without its operation.
fn freed(seat: Seat) -> Seat
    ensures { result ≡ freed seat }
{
    let line = Line {
        stage: Stage::Idle,
        ..seat.line
    };
    Seat { line, ..seat }
}

// The seat with another slip lodged, or with none.
fn holding_slip(seat: Seat, lodged: Option<u32>) -> Seat
    ensures { result ≡ holding_slip seat lodged }
{
    Seat { lodged, ..seat }
}

impl<K: Kind> Hall<K> {
    // The seat of the client whose present operation this is the slip of.
    fn its_seat(&self, tables: &Tables, slip: &Slip) -> Result<Seat, HallFault>
        ensures { result ≡ its_seat (bare self.now tables.now) slip.now.client slip.now.operation }
    {
        let fault = HallFault::NotItsSlip(u64::from(slip.client));
        if !self.has_its_tables(tables) {
            return Err(HallFault::WrongTables);
        }
        if !self.rules.has_client(slip.client) {
            return Err(fault);
        }
        let seat = seat_of(tables, slip.client);
        if seat.line.stage.is_idle() || seat.operation != slip.operation {
            return Err(fault);
        }
        Ok(seat)
    }

    // The seat after its operation is called off.
    fn called_off(&self, tables: &Tables, slip: &Slip) -> Result<Seat, HallFault>
        ensures { result ≡ called_off (bare self.now tables.now) slip.now.client slip.now.operation }
    {
        let seat = self.its_seat(tables, slip)?;
        if is_over(seat.line.stage) {
            return Err(HallFault::NotNow(u64::from(slip.client)));
        }
        Ok(freed(seat))
    }

    // Leaves the operation unfinished for good.
    pub fn call_off(&mut self, tables: &mut Tables, slip: Slip) -> Result<(), Kept>
        ensures change { (shelf : Shelf) (desk : Desk) → Step K.kind (world self.old tables.old shelf desk)
            (call_off slip.client slip.operation) (done_or_kept result)
            (world self.new tables.new shelf desk) }
        ensures back { IfErr result (λ kept. kept.slip ≡ slip) }
    {
        match self.called_off(tables, &slip) {
            Ok(seat) => {
                put(tables.seats, slip.client, seat);
                slip.spend();
                Ok(())
            }
            Err(fault) => Err(Kept { slip, fault }),
        }
    }

    // The seat whose operation is over, and the value that it gives.
    fn collected(&self, tables: &Tables, slip: &Slip) -> Result<(Seat, K), HallFault>
        ensures { result ≡ collected K.kind.value (bare self.now tables.now) slip.now.client slip.now.operation }
    {
        let seat = self.its_seat(tables, slip)?;
        if !is_over(seat.line.stage) {
            return Err(HallFault::NotNow(u64::from(slip.client)));
        }
        let value = K::from_word(seat.line.highest.word).ok_or(KindFault::NoValue)?;
        Ok((seat, value))
    }

    // Gives the pair and the value of an operation that is over.
    pub fn collect(&mut self, tables: &mut Tables, slip: Slip) -> Result<(Pair, K), Kept>
        ensures change { (shelf : Shelf) (desk : Desk) → Step K.kind (world self.old tables.old shelf desk)
            (collect slip.client slip.operation) (pair_or_kept result)
            (world self.new tables.new shelf desk) }
        ensures back { IfErr result (λ kept. kept.slip ≡ slip) }
    {
        match self.collected(tables, &slip) {
            Ok((seat, value)) => {
                put(tables.seats, slip.client, freed(seat));
                slip.spend();
                Ok((seat.line.highest, value))
            }
            Err(fault) => Err(Kept { slip, fault }),
        }
    }

    // Leaves the slip with its client's seat.
    pub fn lodge(&mut self, tables: &mut Tables, slip: Slip) -> Result<(), Kept>
        ensures change { (shelf : Shelf) (desk : Desk) → Step K.kind (world self.old tables.old shelf desk)
            (lodge slip.client slip.operation) (done_or_kept result)
            (world self.new tables.new shelf desk) }
        ensures back { IfErr result (λ kept. kept.slip ≡ slip) }
    {
        match self.its_seat(tables, &slip) {
            Ok(seat) => {
                put(
                    tables.seats,
                    slip.client,
                    holding_slip(seat, Some(slip.operation)),
                );
                slip.spend();
                Ok(())
            }
            Err(fault) => Err(Kept { slip, fault }),
        }
    }

    // Takes out the slip that is lodged with the client of this number.
    pub fn redeem(&mut self, tables: &mut Tables, client: u64) -> Result<Slip, HallFault>
        ensures { (shelf : Shelf) (desk : Desk) → Step K.kind (world self.old tables.old shelf desk)
            (redeem client) (slip_or result)
            (world self.new tables.new shelf desk) }
    {
        if !self.has_its_tables(tables) {
            return Err(HallFault::WrongTables);
        }
        let fault = HallFault::NotItsSlip(client);
        let client = self.client(client).ok_or(fault)?;
        let seat = seat_of(tables, client);
        let operation = seat.lodged.ok_or(fault)?;
        put(tables.seats, client, holding_slip(seat, None));
        Ok(Slip { client, operation })
    }
}
