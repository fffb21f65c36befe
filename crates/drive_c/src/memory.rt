// The memory of the tables of a hall, and of a book.
use clients::Line;
use halls::{Operation, Seat};
use lists::List;
use register::Tables;
use std::alloc::{AllocError, Global};
use wire::{Configuration, Entry, Pair, Text};

// How many seals each party of a book has.
pub(crate) const SEALS: u16 = 256;

// The places of each table.
#[derive(Drop)]
pub(crate) struct Memory {
    post: Vec<Entry>,
    log: Vec<Operation>,
    roll: Vec<Configuration>,
    seats: Vec<Seat>,
}

impl Memory {
    // The log and the roll are as long as they can be.
    pub(crate) fn new(heap: Global, post: u16, clients: u8) -> Result<Memory, AllocError> {
        let operation = Operation {
            client: 0,
            writes: false,
            began: 0,
            ended: None,
            pair: Pair::default(),
        };
        let seat = Seat {
            line: Line::new(Configuration::default()),
            operation: 0,
            lodged: None,
        };
        Ok(Memory {
            post: vec![in heap; Entry::default(); usize::from(post)]?,
            log: vec![in heap; operation; 1024]?,
            roll: vec![in heap; Configuration::default(); 256]?,
            seats: vec![in heap; seat; usize::from(clients)]?,
        })
    }

    pub(crate) fn tables(&mut self) -> Tables<'_> {
        Tables {
            post: List::new(self.post.as_mut_slice()),
            log: List::new(self.log.as_mut_slice()),
            roll: List::new(self.roll.as_mut_slice()),
            seats: self.seats.as_mut_slice(),
        }
    }
}

// The rows of a book.
pub(crate) fn rows(heap: Global) -> Result<Vec<Text>, AllocError> {
    vec![in heap; Text::default(); 164 * SEALS as usize]
}
