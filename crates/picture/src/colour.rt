// The colours of a picture: those of lines, and pale ones for what lies under them. Colour-blind people can tell them apart.
ghost use Rattle.std.specs.Prelude.{◌≡◌, Some};
ghost use Rattle.picture.specs.Colours.{colour_code};

use std::fmt;

#[derive(Clone, Copy, PartialEq, Eq, Debug)]
pub enum Colour {
    Ink,
    Grey,
    Faint,
    Green,
    PaleBlue,
    PaleOrange,
    PaleGreen,
    PalePink,
}

impl Colour {
    pub fn code(self) -> &'static str
        ensures { result.now ≡ colour_code self }
    {
        match self {
            Colour::Ink => "#222222",
            Colour::Grey => "#666666",
            Colour::Faint => "#e4e4e4",
            Colour::Green => "#009e73",
            Colour::PaleBlue => "#c3e3f6",
            Colour::PaleOrange => "#f7dca3",
            Colour::PaleGreen => "#b3e2d2",
            Colour::PalePink => "#ecc9dd",
        }
    }
}

impl fmt::Display for Colour {
    ghost output = { λ c. Some (colour_code c) };

    fn fmt<W: fmt::Write>(&self, f: &mut fmt::Formatter<W>) -> fmt::Result {
        f.write_str(self.code())
    }
}
