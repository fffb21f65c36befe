// The book weight of a bin: grams, and the lot that lies in it.
ghost use Rattle.std.specs.Prelude.{◌≡◌, true};
ghost use Rattle.kinds.specs.Weights.{in_range};

pub mod made;

// Grams within a tonne thousandfold either way, and a lot below 100,000: no other bin weight can be made.
#[derive(Clone, Copy, PartialEq, Eq, Debug)]
pub struct BinWeight {
    grams: i32,
    lot: u32,
    ghost ok: { in_range grams lot ≡ true },
}

impl BinWeight {
    pub fn grams(self) -> i32
        ensures { result ≡ self.grams }
    {
        self.grams
    }

    pub fn lot(self) -> u32
        ensures { result ≡ self.lot }
    {
        self.lot
    }
}
