// Why a step does not accept an entry.
ghost use Rattle.std.specs.Prelude.{◌≡◌};
ghost use Rattle.rules.specs.Objections.{objection_number};

// Each has the number of the refusal that it stands as.
#[derive(Clone, Copy, PartialEq, Eq, Debug)]
pub enum Objection {
    // a round or a count would pass 4,294,967,295
    TooHigh = 10,
    // the pair or the configuration shown is not genuine
    NotGenuine = 12,
    // the sender, or the replica itself, is not in the set
    NotMember = 13,
    // this sender has been counted already
    AlreadyCounted = 14,
    // nothing of this kind or round is waited for
    NotAwaited = 15,
    // not the next configuration, or not a newer one
    NotNext = 16,
    // the replica has not fetched its state yet
    NotReady = 17,
}

impl From<Objection> for u8 {
    ghost from_gives = { λ why n. n ≡ objection_number why };

    fn from(why: Objection) -> u8 {
        why as u8
    }
}
