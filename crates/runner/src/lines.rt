// The lines of a script, with their numbers.
ghost use Rattle.std.specs.Prelude.{◌≡◌};
ghost use Rattle.std.specs.Iterator.{YieldsFirstRef, item_count};
ghost use Rattle.runner.specs.Texts.{to_last_feed, whole, script_lines};
ghost use Rattle.runner.specs.Left.{lines_left, left};

use fields::Lines;
use std::iter::Zip;
use std::ops::RangeFrom;

// How many bytes of a script are read.
pub const LIMIT: u64 = 32768;

// The lines of a script. A last one that may be cut short stands as an empty one, which cannot be read either.
#[derive(Drop)]
pub struct ScriptLines<'a> {
    whole: Lines<'a>,
    is_cut: bool,
}

// With their numbers, from 1 on.
pub type Numbered<'a> = Zip<ScriptLines<'a>, RangeFrom<u64>>;

// A text up to its last line feed, and with it.
fn to_last_feed(text: &[u8]) -> &[u8]
    ensures { result.now ≡ to_last_feed text.now }
{
    let mut end = text.len();
    while end > 0 && text[end - 1] != b'\n' {
        end -= 1;
    }
    &text[..end]
}

// A script without its last line, where that may be cut short: where the text is as long as a script can be, and does not end the line.
fn whole_lines(text: &[u8]) -> &[u8]
    ensures { result.now ≡ whole text.now }
{
    if (text.len() as u64) < LIMIT {
        return text;
    }
    to_last_feed(text)
}

impl<'a> ScriptLines<'a> {
    fn new(text: &'a [u8]) -> ScriptLines<'a>
        ensures { lines_left result ≡ script_lines text.now }
    {
        let whole = whole_lines(text);
        ScriptLines {
            whole: Lines::new(whole),
            is_cut: whole.len() < text.len(),
        }
    }
}

impl<'a> Iterator for ScriptLines<'a> {
    type Item = &'a [u8];

    ghost next_gives = { YieldsFirstRef lines_left };

    ghost remaining = { item_count lines_left };

    fn next(&mut self) -> Option<&'a [u8]> {
        match self.whole.next() {
            Some(line) => Some(line),
            None if self.is_cut => {
                self.is_cut = false;
                Some(&[])
            }
            None => None,
        }
    }
}

// The lines of a script with their numbers.
pub fn numbered(text: &[u8]) -> Numbered<'_>
    ensures { left result.a result.b.start ≡ record { number = 1; lines = script_lines text.now } }
{
    ScriptLines::new(text).zip(1..)
}
