// A line of the log: an operation of a client, from its begin on.
use wire::Pair;

#[derive(Clone, Copy, PartialEq, Eq, Debug)]
pub struct Operation {
    // Stays: a number: definitions read a line of client 0 behind the end of the log, and there is no such `Client`.
    pub client: u8,
    // whether it writes; if not, it reads
    // Stays: a flag and no enum with values: a read has a pair too, once it has ended.
    pub writes: bool,
    // the moments at which it began and ended, counted from 1; no end while it has not ended
    pub began: u32,
    pub ended: Option<u32>,
    // a write's word from its begin on, its stamp and seal once they are taken; a read's pair once it has ended
    pub pair: Pair,
}
