// The tables of a hall: lent by the caller with each call.
ghost use Rattle.std.specs.Prelude.{◌≡◌, ◌-◌, ◌≤◌, cond, length, Some, None, nat_lt, slice_index_or, slice_set};
ghost use Rattle.lists.specs.Held.{held, slice};
ghost use Rattle.model.specs.Tables.{is_full};
ghost use Rattle.model.specs.Halls.{no_entry, no_seat};
ghost use Rattle.register.specs.Grown.{grown};
ghost use Rattle.register.specs.Worlds.{table};

use halls::{Operation, Seat};
use lists::List;
use wire::{Configuration, Entry};

#[derive(Drop)]
pub struct Tables<'a> {
    pub post: List<'a, Entry>,
    pub log: List<'a, Operation>,
    pub roll: List<'a, Configuration>,
    // one for each client, the first for client 1
    pub seats: &'a mut [Seat],
}

// Whether nothing can be put behind a list.
pub(crate) fn is_full<T: Drop>(list: &List<T>) -> bool
    ensures { result ≡ is_full (table list.now) }
{
    list.len() == list.capacity()
}

// Puts an item behind a list; a full one stays as it is.
pub(crate) fn grow<T: Drop>(list: &mut List<T>, item: T)
    ensures change { table list.new ≡ grown (table list.old) item }
    ensures slice { slice list.new ≡ slice list.old }
{
    let _ = list.append(item);
}

// The seat of a client.
pub(crate) fn seat_of(tables: &Tables, client: u8) -> Seat
    requires first { 1 ≤ client }
    requires last { client ≤ length tables.now.seats.now }
    ensures { result ≡ slice_index_or tables.now.seats.now (client - 1) no_seat }
{
    tables.seats[usize::from(client) - 1]
}

// Puts a seat in the place of a client's.
pub(crate) fn put(seats: &mut [Seat], client: u8, seat: Seat)
    ensures { seats.new ≡ slice_set seats.old (client - 1) seat }
{
    let place = usize::from(client).saturating_sub(1);
    if place < seats.len() {
        seats[place] = seat;
    }
}

// The entry of this number, if it has been posted.
pub(crate) fn entry_at(post: &List<Entry>, number: u64) -> Option<Entry>
    ensures { result ≡ cond (nat_lt number (length (held post.now))) (Some (slice_index_or (held post.now) number no_entry)) None }
{
    post.get(number as usize).copied()
}
