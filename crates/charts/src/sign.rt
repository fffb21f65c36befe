// The signs that the legend of a chart explains.
ghost use Rattle.std.specs.Prelude.{◌≡◌};
ghost use Rattle.charts.specs.Signs.{meaning, line_of};

#[derive(Clone, Copy, PartialEq, Eq, Debug)]
pub enum Sign {
    Handed,
    Lied,
    Lost,
    Refused,
    Epoch,
    Operation,
    Unfinished,
}

// The legend from its first line to its last.
pub const SIGNS: [Sign; 7] = [
    Sign::Handed,
    Sign::Lied,
    Sign::Lost,
    Sign::Refused,
    Sign::Epoch,
    Sign::Operation,
    Sign::Unfinished,
];

impl Sign {
    // What it means.
    pub fn meaning(self) -> &'static str
        ensures { result.now ≡ meaning self }
    {
        match self {
            Sign::Handed =>
                "an entry, by its kind and number: posted where the arrow begins, handed over where it ends",
            Sign::Lied => "the same, posted by a replica that may lie",
            Sign::Lost => "an entry that was posted, and that nobody was handed",
            Sign::Refused => "refused, by number and layer; on a lane: what came there was refused",
            Sign::Epoch => "the epoch that a party is in, from the row on that has its number",
            Sign::Operation =>
                "an operation from its begin to its end: R reads, W writes, and the weight",
            Sign::Unfinished => "an operation that has no end: it was called off, or is still open",
        }
    }

    // Its line in the legend.
    pub fn line(self) -> u8
        ensures { result ≡ line_of self }
    {
        match self {
            Sign::Handed => 0,
            Sign::Lied => 1,
            Sign::Lost => 2,
            Sign::Refused => 3,
            Sign::Epoch => 4,
            Sign::Operation => 5,
            Sign::Unfinished => 6,
        }
    }
}
