// The text that is sealed for a pair or a configuration.
ghost use Rattle.std.specs.Prelude.{◌≡◌};
ghost use Rattle.wire.specs.Texts.{text_bytes, Fitting, pair_text, configuration_text};
ghost use Rattle.wire.specs.declared.text.Text.{Text};

use crate::pair::{Configuration, Pair};

// Four numbers of 1, 1, 4 and 8 bytes.
// Stays: numbers, no party and no kind: the bytes are those of whatever a liar shows.
#[derive(Clone, Copy, PartialEq, Eq, Debug, Default)]
pub struct Text {
    // 67 for a configuration, the kind's number for a pair
    pub tag: u8,
    // whose seal it gets: the source's, or the writer's
    pub party: u8,
    // the epoch, or the count
    pub number: u32,
    // the set, or the word
    pub body: u64,
}

impl From<Configuration> for Text {
    ghost from_gives = { λ c t. t ≡ configuration_text c };

    fn from(configuration: Configuration) -> Text {
        Text {
            tag: 67,
            party: 0,
            number: configuration.epoch,
            body: configuration.set.0,
        }
    }
}

impl Text {
    // The text of a pair of the kind that has this number.
    pub fn of_pair(kind: u8, pair: Pair) -> Text
        ensures { result ≡ pair_text kind pair }
    {
        Text {
            tag: kind,
            party: pair.stamp.writer,
            number: pair.stamp.count,
            body: pair.word.0,
        }
    }

    // Its 14 bytes: the four numbers one after the other, each with its lowest byte first. No other text has them.
    pub fn bytes(self) -> [u8; 14]
        ensures value { result ≡ text_bytes self }
        ensures exact { (t : Text) → Fitting t → text_bytes t ≡ result → t ≡ self }
    {
        let number = self.number.to_le_bytes();
        let body = self.body.to_le_bytes();
        [
            self.tag, self.party, number[0], number[1], number[2], number[3], body[0], body[1],
            body[2], body[3], body[4], body[5], body[6], body[7],
        ]
    }
}
