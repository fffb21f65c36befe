// The slip of an operation: it cannot be copied, and only the calls that take one in can let it go.
ghost use Rattle.std.specs.Prelude.{◌≡◌};

use halls::HallFault;

// Plain numbers: the client, and the operation by its place in the log.
pub struct Slip {
    pub(crate) client: u8,
    pub(crate) operation: u32,
}

// A refusal hands the slip back.
pub struct Kept {
    pub slip: Slip,
    pub fault: HallFault,
}

// A slip that names no client is spent, and only a spent slip may be let go: one that is neither collected, called off nor lodged is not.
impl Drop for Slip {
    fn drop(self)
        requires { self.client ≡ 0 }
    {
        let Slip {
            client: _,
            operation: _,
        } = self;
    }
}

impl Slip {
    // Spends the slip, for a call that has taken it in.
    pub(crate) fn spend(mut self) {
        self.client = 0;
    }
}
