// A line of the client table: where a client stands, and which operation is its own.
use clients::Line;

#[derive(Clone, Copy, PartialEq, Eq, Debug)]
pub struct Seat {
    pub line: Line,
    // its latest operation, by its place in the log
    // Stays: a place in the log and no Option: the stage of the line says whether there is an operation.
    pub operation: u32,
    // the operation whose slip is lodged here
    pub lodged: Option<u32>,
}
