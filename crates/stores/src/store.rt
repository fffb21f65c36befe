// The store by its meaning: for each replica number no card or one, and how many saves are left.
ghost use Rattle.std.specs.Prelude.{◌≡◌};
ghost use Rattle.stores.specs.Saved.{Shelf, after, saved};

use crate::card::Card;
use crate::fault::StoreFault;
use wire::Replica;

pub trait Store {
    // The card of each replica number, the saves that are left, and the place that a refused save names.
    ghost shelf: { Self → Shelf };

    // The card that was saved last for this replica.
    fn load(&self, replica: Replica) -> Option<Card>
        ensures { result ≡ (shelf self.now).place replica.number };

    // Keeps the card for this replica, or refuses and leaves all as it was.
    fn save(&mut self, replica: Replica, card: Card) -> Result<(), StoreFault>
        ensures { after result (shelf self.new).place (shelf self.new).saves ≡ saved (shelf self.old) replica.number card };

    // How many saves are left; `None`: without end.
    fn left(&self) -> Option<u64>
        ensures { result ≡ (shelf self.now).saves };
}
