// Which numbers are parties'.
ghost use Rattle.std.specs.Prelude.{◌≡◌, ◌<◌, true, is_some};
ghost use Rattle.wire.specs.Parties.{party_of};

use wire::Party;

// Whether a party has this number.
pub(crate) fn is_party(number: u8) -> bool
    ensures value { result ≡ is_some (party_of number) }
    ensures below { result ≡ true → number < 164 }
{
    Party::try_from(u64::from(number)).is_ok()
}
