// Parties by their numbers: 0 is the source, 1 to 32 are clients, 100 to 163 are the replicas 0 to 63.
ghost use Rattle.wire.specs.Parties.{Decodes, Encodes};

use crate::party::{Client, Party, Replica, UnknownParty};

impl TryFrom<u64> for Party {
    type Error = UnknownParty;

    ghost try_from_gives = { Decodes };

    fn try_from(number: u64) -> Result<Party, UnknownParty> {
        match number {
            0 => Ok(Party::Source),
            1..=32 => Client::try_from(number).map(Party::Client),
            100..=163 => Replica::try_from(number - 100)
                .map(Party::Replica)
                .map_err(|_| UnknownParty(number)),
            _ => Err(UnknownParty(number)),
        }
    }
}

impl From<Party> for u8 {
    ghost from_gives = { Encodes };

    fn from(party: Party) -> u8 {
        match party {
            Party::Source => 0,
            Party::Client(client) => client.number(),
            Party::Replica(replica) => 100 + replica.number(),
        }
    }
}
