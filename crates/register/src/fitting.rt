// Which entry may be handed to which party.
ghost use Rattle.std.specs.Prelude.{◌≡◌, ◌&&◌, ◌==◌};
ghost use Rattle.wire.specs.Entries.{kind_of};
ghost use Rattle.model.specs.Delivering.{is_client_number, is_replica_number, fits_client, fits_replica};

use wire::{Client, Entry, EntryKind, Party, Replica};

// Whether the party of this number is a client, for the rules of who may post what.
fn is_client_number(number: u8) -> bool
    ensures { result ≡ is_client_number number }
{
    (1..=32).contains(&number)
}

fn is_replica_number(number: u8) -> bool
    ensures { result ≡ is_replica_number number }
{
    (100..=163).contains(&number)
}

// Whether the entry is a replica's, and addressed to this party.
fn is_answer_to(entry: &Entry, party: u8) -> bool
    ensures { result ≡ (is_replica_number entry.now.sender && entry.now.addressee == party) }
{
    is_replica_number(entry.sender) && entry.addressee == party
}

// Whether a client may be handed this entry.
pub(crate) fn fits_client(entry: &Entry, client: Client) -> bool
    ensures { result ≡ fits_client (kind_of entry.now.kind) entry.now client }
{
    match EntryKind::try_from(entry.kind) {
        Ok(EntryKind::Pair | EntryKind::Ack | EntryKind::Behind) => {
            is_answer_to(entry, client.number())
        }
        Ok(EntryKind::Config) => true,
        _ => false,
    }
}

// Whether a replica may be handed this entry.
pub(crate) fn fits_replica(entry: &Entry, replica: Replica) -> bool
    ensures { result ≡ fits_replica (kind_of entry.now.kind) entry.now replica }
{
    match EntryKind::try_from(entry.kind) {
        Ok(EntryKind::Read | EntryKind::Write) => is_client_number(entry.sender),
        Ok(EntryKind::Transfer) => is_replica_number(entry.sender),
        Ok(EntryKind::Stock | EntryKind::Behind) => {
            is_answer_to(entry, u8::from(Party::Replica(replica)))
        }
        Ok(EntryKind::Config) => true,
        _ => false,
    }
}
