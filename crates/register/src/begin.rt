// Begin: a client starts to read, or to write a value.
ghost use Rattle.std.specs.Prelude.{◌≡◌};
ghost use Rattle.stores.specs.Saved.{Shelf};
ghost use Rattle.model.specs.Beginning.{begin_called, new_operation};
ghost use Rattle.model.specs.Calls.{Step, begin_read, begin_write};
ghost use Rattle.register.specs.Worlds.{world, outcome, slip_or};

use crate::hall::Hall;
use crate::parties::party_in;
use crate::slip::Slip;
use crate::tables::{Tables, grow, is_full, put, seat_of};
use clients::{ClientFault, begin};
use halls::{HallFault, Operation, Seat};
use kinds::{Kind, Word};
use sealers::Sealer;
use wire::{Client, Pair, Party};

// The line of the log: begun at this moment, neither ended nor stamped.
fn new_operation(client: Client, word: Option<Word>, moment: u32) -> Operation
    ensures { result ≡ new_operation client.number word moment }
{
    Operation {
        client: client.number(),
        writes: word.is_some(),
        began: moment,
        ended: None,
        pair: Pair {
            word: word.unwrap_or_default(),
            ..Pair::default()
        },
    }
}

impl<K: Kind> Hall<K> {
    // Posts READ and logs the operation: a read, or a write of this word.
    fn begin<L: Sealer>(
        &mut self,
        tables: &mut Tables,
        number: u64,
        word: Option<Word>,
        sealer: &L,
    ) -> Result<Slip, HallFault>
        ensures { (shelf : Shelf) → outcome {V = K} (slip_or result) self.new tables.new shelf (L.desk sealer.now)
            ≡ begin_called (world self.old tables.old shelf (L.desk sealer.now)) number word }
    {
        if !self.has_its_tables(tables) {
            return Err(HallFault::WrongTables);
        }
        let Some(Party::Client(client)) = party_in(&self.rules, number) else {
            return Err(HallFault::NoSuch(number));
        };
        let seat = seat_of(tables, client.number());
        if !seat.line.stage.is_idle() {
            return Err(HallFault::Client(ClientFault::Busy(client)));
        }
        if is_full(&tables.log) || is_full(&tables.post) || self.moment == u32::MAX {
            return Err(HallFault::Full(number));
        }
        let mut line = seat.line;
        let read = begin(client, &mut line, word, sealer)?;
        let operation = tables.log.len() as u32;
        self.moment += 1;
        let begun = Seat {
            line,
            operation,
            ..seat
        };
        put(tables.seats, client.number(), begun);
        grow(&mut tables.post, read);
        grow(&mut tables.log, new_operation(client, word, self.moment));
        Ok(Slip {
            client: client.number(),
            operation,
        })
    }

    // Begins a read.
    pub fn begin_read<L: Sealer>(
        &mut self,
        tables: &mut Tables,
        client: u64,
        sealer: &L,
    ) -> Result<Slip, HallFault>
        ensures { (shelf : Shelf) → Step K.kind (world self.old tables.old shelf (L.desk sealer.now))
            (begin_read client) (slip_or result)
            (world self.new tables.new shelf (L.desk sealer.now)) }
    {
        self.begin::<L>(tables, client, None, sealer)
    }

    // Begins a write of this value.
    pub fn begin_write<L: Sealer>(
        &mut self,
        tables: &mut Tables,
        client: u64,
        value: K,
        sealer: &L,
    ) -> Result<Slip, HallFault>
        ensures { (shelf : Shelf) → Step K.kind (world self.old tables.old shelf (L.desk sealer.now))
            (begin_write client value) (slip_or result)
            (world self.new tables.new shelf (L.desk sealer.now)) }
    {
        self.begin::<L>(tables, client, Some(value.to_word()), sealer)
    }
}
