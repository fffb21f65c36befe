// A hall that is set up and not yet opened: its rules, and the replicas that may lie.
ghost use Rattle.std.specs.Prelude.{◌≡◌, true, false};
ghost use Rattle.model.specs.Issuing.{is_right_set, has_too_many_marked};
ghost use Rattle.register.specs.Setups.{within_limits};

use crate::parties::party_in;
use crate::sets::{has_too_many_marked, is_right_set};
use halls::HallFault;
use kinds::Word;
use rules::Rules;
use wire::{Party, ReplicaSet};

#[derive(Drop)]
pub struct Setup {
    // the word of the opening value is not known yet, and stands as 0
    pub(crate) rules: Rules,
    pub(crate) marked: ReplicaSet,
    ghost limits: { within_limits rules.faults rules.replicas rules.clients ≡ true },
    ghost right: { is_right_set rules rules.first.0 ≡ true },
    ghost few: { has_too_many_marked rules marked.0 rules.first.0 ≡ false },
}

// Whether a hall can have so many: f from 1 to 5, 3f+1 to 64 replicas, 1 to 32 clients.
fn is_within_limits(faults: u64, replicas: u64, clients: u64) -> bool
    ensures { result ≡ within_limits faults replicas clients }
{
    (1..=5).contains(&faults)
        && (3 * faults + 1..=64).contains(&replicas)
        && (1..=32).contains(&clients)
}

impl Setup {
    ghost use Rattle.register.specs.Setups.{set_up, mark_called};
    ghost use Rattle.register.specs.Views.{settings, settings_or};

    // Sets up a hall in which f replicas of each set may lie, with nobody marked.
    pub fn new(
        faults: u64,
        replicas: u64,
        clients: u64,
        first: ReplicaSet,
    ) -> Result<Setup, HallFault>
        ensures { settings_or result ≡ set_up faults replicas clients first }
    {
        if !is_within_limits(faults, replicas, clients) {
            return Err(HallFault::Limit);
        }
        let rules = Rules {
            faults: faults as u8,
            replicas: replicas as u8,
            clients: clients as u8,
            first,
            opening: Word::default(),
        };
        if !is_right_set(&rules, first) {
            return Err(HallFault::WrongSet);
        }
        Ok(Setup {
            rules,
            marked: ReplicaSet(0),
        })
    }

    // Marks the replica of this party number as one that may lie.
    pub fn mark(&mut self, party: u64) -> Result<(), HallFault>
        ensures { record { answer = result; settings = settings self.new } ≡ mark_called (settings self.old) party }
    {
        let Some(Party::Replica(replica)) = party_in(&self.rules, party) else {
            return Err(HallFault::NoSuch(party));
        };
        let marked = self.marked.with(replica);
        if has_too_many_marked(&self.rules, marked, self.rules.first) {
            return Err(HallFault::TooManyMarked(party));
        }
        self.marked = marked;
        Ok(())
    }
}
