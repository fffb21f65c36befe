// How many calls were asked for, how many of them were refused or could not be made, and a sum over what the logs held.
ghost use Rattle.std.specs.Prelude.{◌≡◌, ◌^◌, ◌<◌, ◌≤◌, cond};
ghost use Rattle.drive_c.specs.Tallies.{more};

#[repr(C)]
#[derive(Clone, Copy)]
pub struct Tally {
    pub calls: u64,
    pub refused: u64,
    pub sum: u64,
    ghost small: { calls < 2 ^ 64 },
    ghost within: { refused ≤ calls },
}

impl Tally {
    // So many more calls, of which so many are refused. No number passes the largest of 64 bits.
    pub(crate) fn add(&mut self, calls: u64, refused: u64)
        requires { refused ≤ calls }
        ensures calls { self.new.calls ≡ more self.old.calls calls }
        ensures refused { self.new.refused ≡ more self.old.refused refused }
    {
        self.calls = self.calls.saturating_add(calls);
        self.refused = self.refused.saturating_add(refused);
    }

    // One more call, which was done or refused.
    pub(crate) fn count(&mut self, done: bool)
        ensures calls { self.new.calls ≡ more self.old.calls 1 }
        ensures refused { self.new.refused ≡ more self.old.refused (cond done 0 1) }
    {
        self.add(1, if done { 0 } else { 1 });
    }

    // So many more calls, none of which can be made.
    pub(crate) fn refuse(&mut self, calls: u64)
        ensures calls { self.new.calls ≡ more self.old.calls calls }
        ensures refused { self.new.refused ≡ more self.old.refused calls }
    {
        self.add(calls, calls);
    }
}
