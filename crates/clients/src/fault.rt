// What a client's step refuses.
ghost use Rattle.std.specs.Prelude.{◌≡◌};
ghost use Rattle.clients.specs.Faults.{client_refusal};
ghost use Rattle.clients.specs.declared.fault.ClientFault.TheVariants.{Sealer};
ghost use Rattle.refusals.specs.declared.Layer.TheVariants.{Client as TheClient};

use refusals::{Fault, Layer, Refusal};
use rules::Objection;
use sealers::SealerFault;
use wire::Client;

#[derive(Clone, Copy, PartialEq, Eq, Debug)]
pub enum ClientFault {
    // this client's operation is neither collected nor called off
    Busy(Client),
    // this client does not accept the entry, or cannot go on
    Objects(Client, Objection),
    // the sealer has no seal left
    Sealer(SealerFault),
}

// Stays: written out, since contracts name the error that `?` makes and a derived From says nothing of it.
impl From<SealerFault> for ClientFault {
    ghost from_gives = { λ e r. r ≡ Sealer e };

    fn from(fault: SealerFault) -> ClientFault {
        ClientFault::Sealer(fault)
    }
}

impl Fault for ClientFault {
    ghost refusal = { client_refusal };

    fn told(&self) -> Refusal {
        match *self {
            ClientFault::Busy(client) => at(client, 7),
            ClientFault::Objects(client, why) => at(client, u8::from(why)),
            ClientFault::Sealer(fault) => fault.told(),
        }
    }
}

// What this client refuses by this number.
fn at(client: Client, number: u8) -> Refusal
    ensures { result ≡ record { number = number; layer = TheClient; place = client.number } }
{
    Refusal::new(number, Layer::Client).at(u64::from(client.number()))
}
