// The word of a value: the number that stands for it in pairs, texts and records.
#[derive(Clone, Copy, PartialEq, Eq, Debug, Default)]
pub struct Word(pub u64);
