// SipHash-2-4 for C, as a static library.
#![tactic(auto)]

ghost use Rattle.std.specs.Prelude.{◌≡◌};
ghost use Rattle.siphash.specs.Sip.{sip_hash};

use siphash::{Key, siphash};

// The hash of a message under a key: the key in two halves, the message as its address and its length.
#[unsafe(no_mangle)]
pub extern "C" fn dagbirin_siphash(low: u64, high: u64, message: &[u8]) -> u64
    ensures { result ≡ sip_hash low high message.now }
{
    siphash(Key { low, high }, message)
}
