// The source and its state.
ghost use Rattle.std.specs.Prelude.{◌≡◌};
ghost use Rattle.source.specs.Issued.{Issues};

use crate::fault::SourceFault;
use sealers::Sealer;
use wire::{Configuration, ReplicaSet, Seal, Text};

#[derive(Clone, Copy, PartialEq, Eq, Debug, Default)]
pub struct Source {
    // the epoch of the newest configuration
    newest: u32,
}

impl Source {
    // A source that has issued the configuration of epoch 0 and no other.
    pub fn new() -> Source
        ensures { result.newest ≡ 0 }
    {
        Source::default()
    }

    // Seals this set for the next epoch; a refusal leaves source and sealer as they were.
    pub fn issue<L: Sealer>(
        &mut self,
        set: ReplicaSet,
        sealer: &mut L,
    ) -> Result<Configuration, SourceFault>
        ensures { Issues set self.old (L.desk sealer.old) result self.new (L.desk sealer.new) }
    {
        let epoch = self.newest.checked_add(1).ok_or(SourceFault::UsedUp)?;
        let unsealed = Configuration {
            epoch,
            set,
            seal: Seal(0),
        };
        let seal = sealer.seal(Text::from(unsealed))?;
        self.newest = epoch;
        Ok(Configuration { seal, ..unsealed })
    }
}
