// The opening of a hall: a first card for each replica, and tables with which nothing has been done yet.
ghost use Rattle.std.specs.Prelude.{◌≡◌, ◌<◌, ◌≤◌, false, Ok, IfOk, IfErr};
ghost use Rattle.stores.specs.Saved.{after, saved};
ghost use Rattle.model.specs.Promise.{Promised};
ghost use Rattle.model.specs.Runs.{Opened, first_card, first_seat};
ghost use Rattle.register.specs.Openings.{admitted, laid_out, opened, opening_with, refused_by, too_few, fewer, with_first_cards};
ghost use Rattle.register.specs.Views.{lent, lengths_or, fault_of, Stands};
ghost use Rattle.register.specs.Worlds.{hall_of, world};

use crate::hall::Hall;
use crate::lengths::Lengths;
use crate::setup::Setup;
use crate::tables::{Tables, grow};
use clients::Line;
use halls::{HallFault, Seat};
use kinds::Kind;
use rules::Rules;
use sealers::Sealer;
use source::Source;
use std::marker::PhantomData;
use stores::{Card, Store, StoreFault};
use wire::{Replica, ReplicaSet, Seal};

// The card of a replica in epoch 0: ready if it is a member of the first set.
fn first_card(rules: &Rules, replica: Replica) -> Card
    ensures { result ≡ first_card rules.now replica.number }
{
    Card {
        epoch: 0,
        set: rules.first,
        seal: Seal(0),
        previous: ReplicaSet(0),
        previous_seal: Seal(0),
        heard: ReplicaSet(0),
        ready: rules.first.contains(replica),
        pair: rules.opening_pair(),
    }
}

// The seat of a client that has begun nothing.
fn first_seat(rules: &Rules) -> Seat
    ensures { result ≡ first_seat rules.now }
{
    Seat {
        line: Line::new(rules.first_configuration()),
        operation: 0,
        lodged: None,
    }
}

// Saves the first card of the replica of this number.
fn save_first_card<S: Store>(rules: &Rules, number: u8, store: &mut S) -> Result<(), StoreFault>
    requires { number < 64 }
    ensures { after result (S.shelf store.new).place (S.shelf store.new).saves ≡ saved (S.shelf store.old) number (first_card rules.now number) }
{
    match Replica::try_from(u64::from(number)) {
        Ok(replica) => store.save(replica, first_card(rules, replica)),
        Err(_) => Ok(()),
    }
}

// Saves the first cards of all replicas.
fn save_first_cards<S: Store>(rules: &Rules, store: &mut S) -> Result<(), StoreFault>
    requires few { rules.now.replicas ≤ 64 }
    requires enough { too_few (S.shelf store.old).saves rules.now.replicas ≡ false }
    ensures answer { result ≡ Ok tt }
    ensures place { (S.shelf store.new).place ≡ with_first_cards rules.now (S.shelf store.old).place rules.now.replicas }
    ensures saves { (S.shelf store.new).saves ≡ fewer (S.shelf store.old).saves rules.now.replicas }
{
    for number in 0..rules.replicas {
        save_first_card(rules, number, store)?;
    }
    Ok(())
}

// Empties the tables but for the first configuration on the roll, and seats every client as one that has begun nothing.
fn lay_out(rules: &Rules, tables: &mut Tables)
    ensures { lent tables.new ≡ laid_out rules.now (lent tables.old) }
{
    tables.post.clear();
    tables.log.clear();
    tables.roll.clear();
    grow(&mut tables.roll, rules.first_configuration());
    tables.seats.fill(first_seat(rules));
}

impl Setup {
    // The lengths of the tables, if they and the store suffice.
    fn admits<S: Store>(&self, tables: &Tables, store: &S) -> Result<Lengths, HallFault>
        ensures { lengths_or result ≡ admitted self.now.rules (lent tables.now) (S.shelf store.now).saves }
    {
        let lengths = Lengths::new(
            tables.post.capacity(),
            tables.log.capacity(),
            tables.roll.capacity(),
        );
        let lengths = lengths.ok_or(HallFault::Limit)?;
        if tables.seats.len() != usize::from(self.rules.clients) {
            return Err(HallFault::Limit);
        }
        let replicas = u64::from(self.rules.replicas);
        if store.left().is_some_and(|left| left < replicas) {
            return Err(HallFault::Store(StoreFault::NoSave(0)));
        }
        Ok(lengths)
    }

    // Opens the hall with this value: from here on nobody can be marked.
    pub fn open<K: Kind, S: Store, L: Sealer>(
        self,
        tables: &mut Tables,
        value: K,
        store: &mut S,
        sealer: &L,
    ) -> Result<Hall<K>, (Setup, HallFault)>
        ensures fault { fault_of result ≡ refused_by (admitted self.rules (lent tables.old) (S.shelf store.old).saves) }
        ensures leaves { IfOk result (λ hall. hall_of hall tables.new (S.shelf store.new) (L.desk sealer.now)
            ≡ opened (opening_with self.rules (K.kind.word value)) self.marked.0 (lent tables.old) (S.shelf store.old) (L.desk sealer.now)) }
        ensures right { IfOk result (λ hall. Opened K.kind value (hall_of hall tables.new (S.shelf store.new) (L.desk sealer.now))) }
        ensures promise { IfOk result (λ hall. Promised K.kind value (world hall tables.new (S.shelf store.new) (L.desk sealer.now))) }
        ensures stands { IfErr result (λ refused. Stands self refused.0 tables.old tables.new (S.shelf store.old) (S.shelf store.new)) }
    {
        let lengths = match self.admits(tables, &*store) {
            Ok(lengths) => lengths,
            Err(fault) => return Err((self, fault)),
        };
        let rules = Rules {
            opening: value.to_word(),
            ..self.rules
        };
        if let Err(fault) = save_first_cards(&rules, store) {
            return Err((self, HallFault::Store(fault)));
        }
        lay_out(&rules, tables);
        Ok(Hall {
            rules,
            marked: self.marked,
            lengths,
            source: Source::new(),
            moment: 0,
            kind: PhantomData,
        })
    }
}
