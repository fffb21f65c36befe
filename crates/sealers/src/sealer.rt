// The interface of a sealer, by its meaning.
ghost use Rattle.std.specs.Prelude.{◌≡◌};
ghost use Rattle.sealers.specs.Sealing.{Desk, Seals, sealed, seal_in, sealed_text};

use crate::fault::SealerFault;
use wire::{Seal, Text};

pub trait Sealer {
    // Which seals are genuine, how many each party has left, which ones a text may get, and which others that would make genuine.
    ghost desk: { Self → Desk };

    // Seals a text for its party, unless that party has no seal left.
    fn seal(&mut self, text: Text) -> Result<Seal, SealerFault>
        ensures change { record { answer = result; seals = (desk self.new).seals } ≡ sealed (desk self.old).seals (seal_in result) text }
        ensures grows { Seals (desk self.old) (sealed_text text result) (seal_in result) (desk self.new) };

    // Whether a seal is genuine for a text.
    fn check(&self, text: Text, seal: Seal) -> bool
        ensures { result ≡ (desk self.now).genuine text seal };

    // How many seals the party of this number has left; 0 for a number that no party has.
    // Stays: a number, since a type of parties would ask more of whoever calls.
    fn left(&self, party: u8) -> u64
        ensures { result ≡ (desk self.now).seals party };
}
