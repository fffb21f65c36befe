// Lot cards from numbers and from words, and the rule for drawing a lot.
ghost use Rattle.std.specs.Prelude.{◌≡◌, refl};
ghost use Rattle.lots.specs.LotCards.{day_of, reason_of, quarantined_since, released_until, blocked_for, card_word, card_value, drawable};
ghost use Rattle.kinds.specs.declared.fault.KindFault.TheVariants.{NoValue};
ghost use Rattle.std.specs.Option.{ok_or};
ghost use Rattle.lots.specs.CardWords.{card_kept, card_exact};
ghost use Rattle.std.proofs.lemmas.Bool.{leb-true};

use crate::lot_card::{Day, LotCard, Reason};
use kinds::{Kind, KindFault, Word};

// How many days there are, and how many reasons a word has room for.
const DAYS: u64 = 65_536;

// How many words each tag has.
const WORDS: u64 = DAYS * DAYS;

impl TryFrom<u64> for Day {
    type Error = KindFault;

    ghost try_from_gives = { λ number result. result ≡ ok_or (day_of number) NoValue };

    fn try_from(number: u64) -> Result<Day, KindFault> {
        let number = u16::try_from(number).map_err(|_| KindFault::NoValue)?;
        Ok(Day { number })
    }
}

impl TryFrom<u64> for Reason {
    type Error = KindFault;

    ghost try_from_gives = { λ code result. result ≡ ok_or (reason_of code) NoValue };

    fn try_from(code: u64) -> Result<Reason, KindFault> {
        let code = u8::try_from(code).map_err(|_| KindFault::NoValue)?;
        Ok(Reason { code })
    }
}

impl LotCard {
    pub fn quarantined(since: u64) -> Result<LotCard, KindFault>
        ensures { result ≡ ok_or (quarantined_since since) NoValue }
    {
        let since = Day::try_from(since)?;
        Ok(LotCard::Quarantined { since })
    }

    pub fn released(until: u64) -> Result<LotCard, KindFault>
        ensures { result ≡ ok_or (released_until until) NoValue }
    {
        let until = Day::try_from(until)?;
        Ok(LotCard::Released { until })
    }

    pub fn blocked(reason: u64, since: u64) -> Result<LotCard, KindFault>
        ensures { result ≡ ok_or (blocked_for reason since) NoValue }
    {
        let reason = Reason::try_from(reason)?;
        let since = Day::try_from(since)?;
        Ok(LotCard::Blocked { reason, since })
    }

    // Whether the lot may be drawn on this day: exactly when it is released until a later one.
    pub fn may_be_drawn(self, day: Day) -> bool
        ensures { result ≡ drawable self day }
    {
        match self {
            LotCard::Released { until } => day < until,
            LotCard::Quarantined { .. } | LotCard::Blocked { .. } => false,
        }
    }
}

impl Kind for LotCard {
    const NUMBER: u8 = 2;

    ghost NUMBER = { 2 };

    ghost kind = { record { number = 2; word = card_word; value = card_value } };

    ghost numbered = { (leb-true 1 2 refl, leb-true 2 63 refl) };

    ghost same_number = { refl };

    ghost kept = { card_kept };

    ghost exact = { card_exact };

    // Stays: the tags 1, 2 and 3 as numbers: they are the layout of a card's word.
    fn to_word(self) -> Word {
        let (tag, reason, day) = match self {
            LotCard::Quarantined { since } => (1, 0, since),
            LotCard::Released { until } => (2, 0, until),
            LotCard::Blocked { reason, since } => (3, reason.code, since),
        };
        Word(tag * WORDS + u64::from(reason) * DAYS + u64::from(day.number))
    }

    fn from_word(w: Word) -> Option<LotCard> {
        let tag = w.0 / WORDS;
        let reason = w.0 / DAYS % DAYS;
        let day = w.0 % DAYS;
        match tag {
            1 if reason == 0 => LotCard::quarantined(day).ok(),
            2 if reason == 0 => LotCard::released(day).ok(),
            3 => LotCard::blocked(reason, day).ok(),
            _ => None,
        }
    }
}
