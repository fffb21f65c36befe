// Who sent an entry, and whether it is to be counted.
ghost use Rattle.std.specs.Prelude.{◌≡◌};
ghost use Rattle.rules.specs.Senders.{sender_within, counted_from};

use crate::objection::Objection;
use wire::{Party, Replica, ReplicaSet};

// The replica that sent the entry, if it is in this set.
// Stays: the sender as a number, here and below, which a liar may have put into an entry.
pub fn sender_within(set: ReplicaSet, sender: u8) -> Option<Replica>
    ensures { result ≡ sender_within set.0 sender }
{
    match Party::try_from(u64::from(sender)) {
        Ok(Party::Replica(replica)) if set.contains(replica) => Some(replica),
        _ => None,
    }
}

// The replica that sent the entry, to be counted once: it has to be in this set, and not counted before.
pub fn counted_from(set: ReplicaSet, counted: ReplicaSet, sender: u8) -> Result<Replica, Objection>
    ensures { result ≡ counted_from (sender_within set.0 sender) counted.0 }
{
    let from = sender_within(set, sender).ok_or(Objection::NotMember)?;
    if counted.contains(from) {
        return Err(Objection::AlreadyCounted);
    }
    Ok(from)
}
