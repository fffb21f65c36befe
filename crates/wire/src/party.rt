// The parties: the source of configurations, clients and replicas.
ghost use Rattle.std.specs.Prelude.{◌≡◌, true, ◌&&◌, nat_le};

mod numbers;
mod shown;
mod singles;

// A party of one sort by its number, FIRST to LAST: no other can be made.
#[derive(Clone, Copy, PartialEq, Eq)]
pub struct Numbered<const FIRST: u8, const LAST: u8> {
    number: u8,
    ghost ok: { (nat_le FIRST number && nat_le number LAST) ≡ true },
}

pub type Replica = Numbered<0, 63>;

pub type Client = Numbered<1, 32>;

#[derive(Clone, Copy, PartialEq, Eq, Debug)]
pub enum Party {
    // the trusted party that decides on configurations
    Source,
    Client(Client),
    Replica(Replica),
}

// A number that no party has.
#[derive(Clone, Copy, PartialEq, Eq, Debug)]
pub struct UnknownParty(pub u64);
