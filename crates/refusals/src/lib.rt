// A refusal: what every call of the register answers in place of doing something that the rules do not accept.
#![tactic(auto)]

ghost use Rattle.std.specs.Prelude.{◌≡◌, Some};
ghost use Rattle.refusals.specs.Places.{refused, moved};
ghost use Rattle.refusals.specs.Shown.{layer_name, refusal_text};
ghost use Rattle.refusals.specs.declared.Refusal.{Refusal};

use std::fmt;

// The part of the register that refused.
#[derive(Clone, Copy, PartialEq, Eq, Debug)]
pub enum Layer {
    Hall,
    Client,
    Replica,
    Sealer,
    Store,
    Kind,
    Script,
}

impl Layer {
    // The layer's name, as it is printed.
    pub fn name(self) -> &'static str
        ensures { result.now ≡ layer_name self }
    {
        match self {
            Layer::Hall => "hall",
            Layer::Client => "client",
            Layer::Replica => "replica",
            Layer::Sealer => "sealer",
            Layer::Store => "store",
            Layer::Kind => "kind",
            Layer::Script => "script",
        }
    }
}

impl fmt::Display for Layer {
    ghost output = { λ l. Some (layer_name l) };

    fn fmt<W: fmt::Write>(&self, f: &mut fmt::Formatter<W>) -> fmt::Result {
        f.write_str(self.name())
    }
}

// What is refused, by whom, and where: an entry, a record, a line or a party, else 0.
// Stays: number, layer and place as they are printed, 0 where there is no place: what is refused is an enum of each layer, and this is what it tells.
#[derive(Clone, Copy, PartialEq, Eq, Debug)]
pub struct Refusal {
    pub number: u8,
    pub layer: Layer,
    pub place: u64,
}

impl Refusal {
    // The refusal of this number by this layer, at no place so far.
    pub fn new(number: u8, layer: Layer) -> Refusal
        ensures { result ≡ refused number layer }
    {
        Refusal {
            number,
            layer,
            place: 0,
        }
    }

    // The same refusal at this place.
    pub fn at(self, place: u64) -> Refusal
        ensures { result ≡ moved self place }
    {
        Refusal { place, ..self }
    }
}

// A refusal is printed as its place, its number and its layer.
impl fmt::Display for Refusal {
    ghost output = { λ x. Some (refusal_text x) };

    fn fmt<W: fmt::Write>(&self, f: &mut fmt::Formatter<W>) -> fmt::Result {
        let Refusal {
            number,
            layer,
            place,
        } = *self;
        write!(f, "{place} {number} {layer}")
    }
}

// A fault of some layer, which says as which refusal it stands.
pub trait Fault {
    ghost refusal: { Self → Refusal };

    fn told(&self) -> Refusal
        ensures { result ≡ refusal self.now };
}
