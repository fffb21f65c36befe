// How days, reasons and lot cards are printed.
ghost use Rattle.lots.specs.Shown.{card_text};
ghost use Rattle.std.specs.Prelude.{Some, decimal};

use crate::lot_card::{Day, LotCard, Reason};
use std::fmt;

impl fmt::Display for Day {
    ghost output = { λ d. Some (decimal d.number) };

    fn fmt<W: fmt::Write>(&self, f: &mut fmt::Formatter<W>) -> fmt::Result {
        let number = self.number();
        write!(f, "{number}")
    }
}

impl fmt::Display for Reason {
    ghost output = { λ r. Some (decimal r.code) };

    fn fmt<W: fmt::Write>(&self, f: &mut fmt::Formatter<W>) -> fmt::Result {
        let code = self.code();
        write!(f, "{code}")
    }
}

impl fmt::Display for LotCard {
    ghost output = { λ c. Some (card_text c) };

    fn fmt<W: fmt::Write>(&self, f: &mut fmt::Formatter<W>) -> fmt::Result {
        match *self {
            LotCard::Quarantined { since } => write!(f, "quarantined since day {since}"),
            LotCard::Released { until } => write!(f, "released until day {until}"),
            LotCard::Blocked { reason, since } => write!(
                f,
                "blocked for reason {reason} since day {since}"
            ),
        }
    }
}
