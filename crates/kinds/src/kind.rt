// A record kind: a type whose values each have a word, and which knows its own words from all others.
ghost use Rattle.std.specs.Prelude.{◌≡◌, ℕ, ◌≤◌, Some};
ghost use Rattle.kinds.specs.declared.word.Word.{Word};
ghost use Rattle.kinds.specs.Kinds.{RecordKind};

use crate::word::Word;

pub trait Kind: Copy {
    // The kind's own number, from 1 to 63; it begins every text that is sealed for one of its values. A new kind takes a number
    // that no other has, and joins the list of `kind_numbers` in the crate `cases`, which is proved to have none twice.
    const NUMBER: u8;

    ghost NUMBER: { ℕ };

    // The number, the word of a value and the value of a word, as one.
    ghost kind: { RecordKind Self };

    // Stays: methods, not `From` and `TryFrom`: clauses name a value's word and a word's value as functions, and those traits have relations.
    fn to_word(self) -> Word
        ensures { result ≡ kind.word self };

    fn from_word(w: Word) -> Option<Self>
        ensures { result ≡ kind.value w };

    ghost numbered: { (1 ≤ kind.number) × (kind.number ≤ 63) };

    ghost same_number: { NUMBER ≡ kind.number };

    // A value's word gives back that value,
    ghost kept: { (v : Self) → kind.value (kind.word v) ≡ Some v };

    // and a word gives a value only if it is that value's word.
    ghost exact: { (w : Word) (v : Self) → kind.value w ≡ Some v → kind.word v ≡ w };
}
