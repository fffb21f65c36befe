// The lines of a script: a letter and its fields, each a part of the text.
ghost use Rattle.std.specs.Prelude.{◌≡◌, [], ◌∷◌, codes};
ghost use Rattle.std.specs.Option.{option_map};
ghost use Rattle.fields.specs.Parts.{fields};
ghost use Rattle.fields.specs.Left.{fields_left};
ghost use Rattle.script.specs.Lines.{letter_of, exactly, spelt, line_of};

use fields::Fields;

// The fields of S.
#[derive(Clone, Copy, PartialEq, Eq, Debug)]
pub struct SetUpFields<'a> {
    pub faults: &'a [u8],
    pub replicas: &'a [u8],
    pub clients: &'a [u8],
    pub set: &'a [u8],
    pub marked: &'a [u8],
    pub grams: &'a [u8],
    pub lot: &'a [u8],
}

// The fields of an entry, but for its sender.
#[derive(Clone, Copy, PartialEq, Eq, Debug)]
pub struct EntryFields<'a> {
    pub kind: &'a [u8],
    pub addressee: &'a [u8],
    pub round: &'a [u8],
    pub epoch: &'a [u8],
    pub count: &'a [u8],
    pub writer: &'a [u8],
    pub word: &'a [u8],
    pub seal: &'a [u8],
}

// One case for each letter.
#[derive(Clone, Copy, PartialEq, Eq, Debug)]
pub enum Line<'a> {
    // S: sets up a hall, marks its liars and opens it
    SetUp(SetUpFields<'a>),
    // I: the source issues a set
    Issue {
        set: &'a [u8],
    },
    // R: a client begins a read
    Read {
        client: &'a [u8],
    },
    // W: a client begins a write
    Write {
        client: &'a [u8],
        grams: &'a [u8],
        lot: &'a [u8],
    },
    // D: an entry is handed to a party
    Deliver {
        entry: &'a [u8],
        party: &'a [u8],
    },
    // O: a client's operation is called off
    CallOff {
        client: &'a [u8],
    },
    // T: a client's operation is collected
    Collect {
        client: &'a [u8],
    },
    // M: an entry is posted in the name of a marked replica
    Meddle {
        party: &'a [u8],
        entry: EntryFields<'a>,
    },
}

// The byte of a field that has just one.
fn letter(field: &[u8]) -> Option<u8>
    ensures { result ≡ letter_of field.now }
{
    match field {
        [byte] => Some(*byte),
        _ => None,
    }
}

// The one field that is left, or the two or three, and nothing else.
fn one<'a>(mut rest: Fields<'a>) -> Option<&'a [u8]>
    ensures { option_map (λ a. a.now ∷ []) result ≡ exactly 1 (fields_left rest.entry) }
{
    let first = rest.next()?;
    rest.is_done().then_some(first)
}

fn two<'a>(mut rest: Fields<'a>) -> Option<(&'a [u8], &'a [u8])>
    ensures { option_map (λ p. p.0.now ∷ p.1.now ∷ []) result ≡ exactly 2 (fields_left rest.entry) }
{
    let first = rest.next()?;
    let second = rest.next()?;
    rest.is_done().then_some((first, second))
}

fn three<'a>(mut rest: Fields<'a>) -> Option<(&'a [u8], &'a [u8], &'a [u8])>
    ensures { option_map (λ p. p.0.now ∷ p.1.now ∷ p.2.now ∷ []) result ≡ exactly 3 (fields_left rest.entry) }
{
    let first = rest.next()?;
    let second = rest.next()?;
    let third = rest.next()?;
    rest.is_done().then_some((first, second, third))
}

// A set-up, of seven fields.
fn set_up<'a>(mut rest: Fields<'a>) -> Option<Line<'a>>
    ensures { option_map spelt result ≡ option_map (λ fs. codes "S" ∷ fs) (exactly 7 (fields_left rest.entry)) }
{
    let fields = SetUpFields {
        faults: rest.next()?,
        replicas: rest.next()?,
        clients: rest.next()?,
        set: rest.next()?,
        marked: rest.next()?,
        grams: rest.next()?,
        lot: rest.next()?,
    };
    rest.is_done().then_some(Line::SetUp(fields))
}

// A party, and an entry of eight fields.
fn meddle<'a>(mut rest: Fields<'a>) -> Option<Line<'a>>
    ensures { option_map spelt result ≡ option_map (λ fs. codes "M" ∷ fs) (exactly 9 (fields_left rest.entry)) }
{
    let party = rest.next()?;
    let entry = EntryFields {
        kind: rest.next()?,
        addressee: rest.next()?,
        round: rest.next()?,
        epoch: rest.next()?,
        count: rest.next()?,
        writer: rest.next()?,
        word: rest.next()?,
        seal: rest.next()?,
    };
    rest.is_done().then_some(Line::Meddle { party, entry })
}

impl<'a> Line<'a> {
    // The letter and its fields, one space before each, and nothing else.
    pub fn read(line: &'a [u8]) -> Option<Line<'a>>
        ensures { option_map spelt result ≡ line_of (fields line.now) }
    {
        let mut rest = Fields::new(line);
        match letter(rest.next()?)? {
            b'S' => set_up(rest),
            b'I' => one(rest).map(|set| Line::Issue { set }),
            b'R' => one(rest).map(|client| Line::Read { client }),
            b'W' => three(rest).map(|(client, grams, lot)| Line::Write { client, grams, lot }),
            b'D' => two(rest).map(|(entry, party)| Line::Deliver { entry, party }),
            b'O' => one(rest).map(|client| Line::CallOff { client }),
            b'T' => one(rest).map(|client| Line::Collect { client }),
            b'M' => meddle(rest),
            _ => None,
        }
    }
}
