// The step of a replica: load, decide, save, and answer what is to be posted.
ghost use Rattle.std.specs.Prelude.{◌≡◌};
ghost use Rattle.replicas.specs.Steps.{replica_stepped};

use crate::decision::{Decision, decide};
use crate::fault::ReplicaFault;
use kinds::Kind;
use rules::{Objection, Rules};
use sealers::Sealer;
use stores::Store;
use wire::{Entry, Replica};

// Hands an entry to a replica. Answers the entry that it posts, if any; a refusal leaves the store as it was.
#[inline(always)]
pub fn replica_step<K: Kind, S: Store, L: Sealer>(
    rules: &Rules,
    replica: Replica,
    entry: &Entry,
    store: &mut S,
    sealer: &L,
) -> Result<Option<Entry>, ReplicaFault>
    ensures { record { answer = result; place = (S.shelf store.new).place; saves = (S.shelf store.new).saves }
        ≡ replica_stepped rules.now K.kind.number (L.desk sealer.now).genuine (S.shelf store.old) replica entry.now }
{
    let objects = |why| ReplicaFault::Objects(replica, why);
    let card = store.load(replica).ok_or(objects(Objection::NotMember))?;
    let judged = rules.judge::<K, L>(entry, sealer);
    match decide(rules, replica, &card, &judged) {
        Err(why) => Err(objects(why)),
        Ok(Decision { save, post }) => {
            if let Some(card) = save {
                store.save(replica, card)?;
            }
            Ok(post)
        }
    }
}
