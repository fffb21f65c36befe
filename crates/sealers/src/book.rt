// The book: a sealer that writes down each text that it seals.
ghost use Rattle.std.specs.Prelude.{◌≡◌, ℕ, ◌*◌, ◌≤◌, length, slice_index};

use crate::fault::SealerFault;
use crate::parties::is_party;
use crate::sealer::Sealer;
use wire::{Seal, Text};

// Party numbers are below this.
const PARTIES: usize = 164;

// The rows from party × share on are that party's, one for each seal; the first of them are used.
// Stays: rows that the caller lends and how many of them each party has used, in place of a `Vec` for each party: memory is lent.
#[derive(Drop)]
pub struct Book<'a> {
    rows: &'a mut [Text],
    share: u16,
    used: [u16; 164],
    ghost sized: { length rows.now ≡ 164 * share },
    ghost within: { (p : ℕ) → slice_index used p ≤ share },
}

impl<'a> Book<'a> {
    ghost use Rattle.std.specs.Prelude.{◌≡◌, ◌<◌};
    ghost use Rattle.sealers.specs.Books.{next_row, end_row, Opened};

    // An empty book over rows that are lent: `share` of them, 1 to 256, for each of 164 party numbers.
    pub fn open(rows: &'a mut [Text], share: u16) -> Result<Book<'a>, SealerFault>
        ensures { Opened rows.old share result }
    {
        if !(1..=256).contains(&share) || rows.len() != PARTIES * usize::from(share) {
            return Err(SealerFault::Limit);
        }
        Ok(Book {
            rows,
            share,
            used: [0; 164],
        })
    }

    // The row of the party's next seal.
    fn next_row(&self, party: u8) -> usize
        requires { party < 164 }
        ensures { result ≡ next_row self.now party }
    {
        let used = self.used[usize::from(party)];
        usize::from(party) * usize::from(self.share) + usize::from(used)
    }

    // The row behind the party's last.
    fn end_row(&self, party: u8) -> usize
        requires { party < 164 }
        ensures { result ≡ end_row self.now party }
    {
        let share = usize::from(self.share);
        usize::from(party) * share + share
    }
}

impl Sealer for Book<'_> {
    ghost use Rattle.sealers.specs.Books.{book_desk};

    ghost desk = { book_desk };

    fn seal(&mut self, text: Text) -> Result<Seal, SealerFault> {
        if self.left(text.party) == 0 {
            return Err(SealerFault::NoSeal(text.party));
        }
        let row = self.next_row(text.party);
        self.rows[row] = text;
        self.used[usize::from(text.party)] += 1;
        Ok(Seal(row as u64))
    }

    fn check(&self, text: Text, seal: Seal) -> bool {
        if !is_party(text.party) {
            return false;
        }
        let first = u64::from(text.party) * u64::from(self.share);
        let used = self.next_row(text.party) as u64;
        if !(first..used).contains(&seal.0) {
            return false;
        }
        let held = self.rows[seal.0 as usize];
        held == text
    }

    fn left(&self, party: u8) -> u64 {
        if !is_party(party) {
            return 0;
        }
        (self.end_row(party) - self.next_row(party)) as u64
    }
}
