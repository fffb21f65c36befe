// The parties of a hall by their numbers.
ghost use Rattle.std.specs.Prelude.{◌≡◌, IfSome};
ghost use Rattle.wire.specs.Parties.{party_number};
ghost use Rattle.model.specs.Halls.{party_in};

use rules::Rules;
use wire::Party;

// The party of this number, if it is one of the hall.
pub(crate) fn party_in(rules: &Rules, number: u64) -> Option<Party>
    ensures value { result ≡ party_in rules.now number }
    ensures exact { IfSome result (λ party. party_number party ≡ number) }
{
    match Party::try_from(number) {
        Ok(Party::Client(client)) if client.number() > rules.clients => None,
        Ok(Party::Replica(replica)) if replica.number() >= rules.replicas => None,
        Ok(party) => Some(party),
        Err(_) => None,
    }
}
