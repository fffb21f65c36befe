// Bin weights from numbers and from words.
ghost use Rattle.std.specs.Prelude.{◌≡◌, refl};
ghost use Rattle.std.proofs.Common.{sym, ap, ◌∙◌};
ghost use Rattle.std.proofs.lemmas.Bool.{leb-true};
ghost use Rattle.kinds.specs.BinWeights.{weight, weight_word, weight_value};
ghost use Rattle.kinds.specs.declared.fault.KindFault.TheVariants.{NoValue};
ghost use Rattle.std.specs.Option.{ok_or};
ghost use Rattle.kinds.specs.WeightWords.{weight_is, grams_back, lot_back, word_back};
ghost use Rattle.kinds.specs.Weights.{word_of};
ghost use Rattle.kinds.specs.Partials.{only_if_some};

use crate::bin_weight::BinWeight;
use crate::fault::KindFault;
use crate::kind::Kind;
use crate::word::Word;

const LARGEST: i64 = 1_000_000_000;

const LOTS: u64 = 100_000;

impl BinWeight {
    // The weight of these grams and this lot, if they are in range.
    pub fn new(grams: i64, lot: u64) -> Result<BinWeight, KindFault>
        ensures { result ≡ ok_or (weight grams lot) NoValue }
    {
        if !(-LARGEST..=LARGEST).contains(&grams) || lot >= LOTS {
            return Err(KindFault::NoValue);
        }
        Ok(BinWeight {
            grams: grams as i32,
            lot: lot as u32,
        })
    }
}

impl Kind for BinWeight {
    const NUMBER: u8 = 1;

    ghost NUMBER = { 1 };

    ghost kind = { record { number = 1; word = weight_word; value = weight_value } };

    ghost numbered = { (leb-true 1 1 refl, leb-true 1 63 refl) };

    ghost same_number = { refl };

    ghost kept = { λ v. sym (weight_is v _ _ (sym (grams_back v.grams v.lot v.ok)) (sym (lot_back v.grams v.lot v.ok))) };

    ghost exact = { λ w v e.
        let same = (only_if_some _ _ v e).1 in
        ap (λ n. record { 0 = n }) (ap (λ u. word_of u.grams u.lot) (sym same) ∙ word_back w.0) };

    fn to_word(self) -> Word {
        Word((i64::from(self.grams) + LARGEST) as u64 * LOTS + u64::from(self.lot))
    }

    fn from_word(w: Word) -> Option<BinWeight> {
        let grams = (w.0 / LOTS) as i64 - LARGEST;
        BinWeight::new(grams, w.0 % LOTS).ok()
    }
}
