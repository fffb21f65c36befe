// The lines of a text, the fields of a line, and the numbers in fields.
#![tactic(auto)]

ghost use Rattle.std.specs.Prelude.{◌≡◌, [], ◌∷◌, ◌++◌};
ghost use Rattle.std.specs.Iterator.{YieldsFirstRef, item_count};
ghost use Rattle.fields.specs.Parts.{lines, fields, finished, taken, MakesUp};
ghost use Rattle.fields.specs.Left.{lines_left, fields_left, nothing};

mod cut;
mod numeral;

use cut::cut;
pub use numeral::Numeral;

// The lines of a text; a line ends with a line feed or with the text.
// Stays: a struct over the rest of the text, not the library's `split`, which gives one more line behind a last line feed.
#[derive(Drop)]
pub struct Lines<'a> {
    rest: &'a [u8],
}

impl<'a> Lines<'a> {
    pub fn new(text: &'a [u8]) -> Lines<'a>
        ensures left { lines_left result ≡ lines text.now }
        ensures whole { MakesUp 10 (lines_left result) (finished text.now) }
    {
        Lines { rest: text }
    }
}

impl<'a> Iterator for Lines<'a> {
    type Item = &'a [u8];

    ghost next_gives = { YieldsFirstRef lines_left };

    ghost remaining = { item_count lines_left };

    fn next(&mut self) -> Option<&'a [u8]> {
        if self.rest.is_empty() {
            return None;
        }
        let (line, rest) = cut(self.rest, b'\n');
        self.rest = rest.unwrap_or(&[]);
        Some(line)
    }
}

// The fields of a line; one space stands between two fields.
// Stays: a type beside `Lines`, since a separator ends a line and stands between fields; and not the library's `split`, which can say whether a field is left only by taking it.
#[derive(Drop)]
pub struct Fields<'a> {
    rest: Option<&'a [u8]>,
}

impl<'a> Fields<'a> {
    pub fn new(line: &'a [u8]) -> Fields<'a>
        ensures left { fields_left result ≡ fields line.now }
        ensures whole { MakesUp 32 (fields_left result) (line.now ++ (32 ∷ [])) }
    {
        Fields { rest: Some(line) }
    }

    // Takes the next field and reads it as a number.
    pub fn number<T: Numeral>(&mut self) -> Option<T>
        ensures { record { got = result; left = fields_left self.new } ≡ taken T.written (fields_left self.old) }
    {
        T::read(self.next()?)
    }

    // Whether all fields are taken.
    pub fn is_done(&self) -> bool
        ensures { result ≡ nothing (fields_left self.now) }
    {
        self.rest.is_none()
    }
}

impl<'a> Iterator for Fields<'a> {
    type Item = &'a [u8];

    ghost next_gives = { YieldsFirstRef fields_left };

    ghost remaining = { item_count fields_left };

    fn next(&mut self) -> Option<&'a [u8]> {
        let (field, rest) = cut(self.rest?, b' ');
        self.rest = rest;
        Some(field)
    }
}
