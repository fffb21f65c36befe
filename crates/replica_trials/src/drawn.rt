// A sealer that draws its seals: a text gets the number that is rolled for it, and both are noted.
ghost use Rattle.std.specs.Prelude.{◌≡◌, ◌≤◌, length};

use sealers::{Sealer, SealerFault};
use wire::{Party, Seal, Text};

// Where the numbers come from. No contract says which one is rolled.
pub trait Dice {
    fn roll(&mut self) -> u64;
}

// A text and a seal that it got.
#[derive(Clone, Copy, Default)]
pub struct Note {
    text: Text,
    seal: Seal,
}

// One party has a seal for each note, and the first of the notes are used.
#[derive(Drop)]
pub struct Drawn<'a, D> {
    dice: D,
    party: Party,
    notes: &'a mut [Note],
    used: usize,
    ghost within: { used ≤ length notes.now },
}

impl Note {
    ghost use Rattle.replica_trials.specs.Drawing.{noted};

    // Whether the text got this seal.
    fn says(self, text: Text, seal: Seal) -> bool
        ensures { result ≡ noted text seal self }
    {
        text == self.text && seal == self.seal
    }
}

impl<'a, D: Dice> Drawn<'a, D> {
    ghost use Rattle.replica_trials.specs.Drawing.{drawn_desk, first_desk};

    // A sealer of this party with no note taken.
    pub fn open(dice: D, party: Party, notes: &'a mut [Note]) -> Drawn<'a, D>
        ensures { drawn_desk result ≡ first_desk party (length notes.old) }
    {
        Drawn {
            dice,
            party,
            notes,
            used: 0,
        }
    }
}

impl<D: Dice> Sealer for Drawn<'_, D> {
    ghost use Rattle.replica_trials.specs.Drawing.{drawn_desk};

    ghost desk = { drawn_desk };

    fn seal(&mut self, text: Text) -> Result<Seal, SealerFault> {
        if self.left(text.party) == 0 {
            return Err(SealerFault::NoSeal(text.party));
        }
        let seal = Seal(self.dice.roll());
        self.notes[self.used] = Note { text, seal };
        self.used += 1;
        Ok(seal)
    }

    fn check(&self, text: Text, seal: Seal) -> bool {
        self.notes[..self.used]
            .iter()
            .any(|note| note.says(text, seal))
    }

    fn left(&self, party: u8) -> u64 {
        if party != u8::from(self.party) {
            return 0;
        }
        (self.notes.len() - self.used) as u64
    }
}
