// The cabinet: a card in memory for each replica, with saves without end.
ghost use Rattle.std.specs.Prelude.{◌≡◌, ℕ, None};
ghost use Rattle.stores.specs.Cabinets.{kept, cabinet_shelf};

use crate::card::Card;
use crate::fault::StoreFault;
use crate::store::Store;
use wire::Replica;

#[derive(Drop)]
pub struct Cabinet {
    cards: [Option<Card>; 64],
}

impl Cabinet {
    // A cabinet with no card.
    pub fn new() -> Cabinet
        ensures { (n : ℕ) → kept result n ≡ None }
    {
        Cabinet { cards: [None; 64] }
    }
}

impl Store for Cabinet {
    ghost shelf = { cabinet_shelf };

    fn load(&self, replica: Replica) -> Option<Card> {
        self.cards[usize::from(replica.number())]
    }

    fn save(&mut self, replica: Replica, card: Card) -> Result<(), StoreFault> {
        self.cards[usize::from(replica.number())] = Some(card);
        Ok(())
    }

    fn left(&self) -> Option<u64> {
        None
    }
}
