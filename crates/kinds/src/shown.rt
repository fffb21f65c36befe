// How a bin weight is printed.
ghost use Rattle.kinds.specs.Shown.{weight_text};
ghost use Rattle.std.specs.Prelude.{Some};

use crate::bin_weight::BinWeight;
use std::fmt;

impl fmt::Display for BinWeight {
    ghost output = { λ v. Some (weight_text v) };

    fn fmt<W: fmt::Write>(&self, f: &mut fmt::Formatter<W>) -> fmt::Result {
        let grams = self.grams();
        let lot = self.lot();
        write!(f, "{grams} g, lot {lot}")
    }
}
