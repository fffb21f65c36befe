// The lot card: whether a lot is quarantined, released or blocked, and from or until which day.
ghost use Rattle.std.specs.Prelude.{◌≡◌, true, nat_lt};

pub mod made;

// A day by its number, at most 65,535; the days are in order.
// Stays: a type beside `Reason`, each of a few lines: one type by its width would be as long, and a code that has an order would be new.
#[derive(Clone, Copy, PartialEq, Eq, PartialOrd, Ord, Debug)]
pub struct Day {
    number: u16,
    ghost ok: { nat_lt number 65536 ≡ true },
}

// Why a lot is blocked, by its code, at most 255.
#[derive(Clone, Copy, PartialEq, Eq, Debug)]
pub struct Reason {
    code: u8,
    ghost ok: { nat_lt code 256 ≡ true },
}

#[derive(Clone, Copy, PartialEq, Eq, Debug)]
pub enum LotCard {
    Quarantined { since: Day },
    Released { until: Day },
    Blocked { reason: Reason, since: Day },
}

impl Day {
    pub fn number(self) -> u16
        ensures { result ≡ self.number }
    {
        self.number
    }
}

impl Reason {
    pub fn code(self) -> u8
        ensures { result ≡ self.code }
    {
        self.code
    }
}
