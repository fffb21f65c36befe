// The memory of the tables of a script's hall, and of its book.
ghost use Rattle.std.specs.Prelude.{IfOk};
ghost use Rattle.runner.specs.Opened.{Fresh};

use clients::Line;
use halls::{Operation, Seat};
use std::alloc::{AllocError, Global};
use wire::{Configuration, Entry, Pair, Text};

// How many seals each party has.
pub(crate) const SEALS: u16 = 64;

// The places of each table and the rows of the book, before a hall borrows them.
#[derive(Drop)]
pub struct Memory {
    pub post: Vec<Entry>,
    pub log: Vec<Operation>,
    pub roll: Vec<Configuration>,
    pub seats: Vec<Seat>,
    pub rows: Vec<Text>,
}

impl Memory {
    pub fn new(heap: Global) -> Result<Memory, AllocError>
        ensures { IfOk result Fresh }
    {
        let operation = Operation {
            client: 0,
            writes: false,
            began: 0,
            ended: None,
            pair: Pair::default(),
        };
        let seat = Seat {
            line: Line::new(Configuration::default()),
            operation: 0,
            lodged: None,
        };
        Ok(Memory {
            post: vec![in heap; Entry::default(); 512]?,
            log: vec![in heap; operation; 64]?,
            roll: vec![in heap; Configuration::default(); 16]?,
            seats: vec![in heap; seat; 32]?,
            rows: vec![in heap; Text::default(); 164 * SEALS as usize]?,
        })
    }
}
