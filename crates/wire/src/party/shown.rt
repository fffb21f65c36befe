// How a replica and a client are shown by `{:?}`: each under its own name, since they have the same numbers.
use crate::party::Numbered;
use std::fmt;

// Stays: written out, since a derived one would show both as a `Numbered`.
impl<const FIRST: u8, const LAST: u8> fmt::Debug for Numbered<FIRST, LAST> {
    fn fmt<W: fmt::Write>(&self, f: &mut fmt::Formatter<W>) -> fmt::Result {
        let name = match (FIRST, LAST) {
            (0, 63) => "Replica",
            (1, 32) => "Client",
            _ => "Numbered",
        };
        f.debug_struct(name).field("number", &self.number).finish()
    }
}
