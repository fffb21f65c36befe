// An append-only list over a slice that the caller lends, for elements of any type.
// An item is put behind the list or changed in its place, and is handed back where that cannot be.
#![tactic(auto)]

ghost use Rattle.std.specs.Prelude.{◌≡◌, ◌+◌, ◌≤◌, [], ◌++◌, length};

// The first `used` elements of the slice are the list, and the rest is room.
// Stays: a slice with its used length, not a `Vec`: memory is lent by the caller.
#[derive(Drop)]
pub struct List<'a, T> {
    items: &'a mut [T],
    used: usize,
    ghost fits: { used ≤ length items.now },
}

impl<'a, T: Drop> List<'a, T> {
    ghost use Rattle.std.specs.List.{slice_get};
    ghost use Rattle.std.specs.Option.{option_map};
    ghost use Rattle.lists.specs.Held.{held, behind, slice, after, appended, replaced};

    // The empty list over a slice, whose elements stay as they are.
    pub fn new(items: &'a mut [T]) -> List<'a, T>
        ensures held { held result ≡ [] }
        ensures behind { behind result ≡ items.old }
        ensures slice { slice result ≡ items.entry.ghost_name }
    {
        List { items, used: 0 }
    }

    // How many elements the list has.
    pub fn len(&self) -> usize
        ensures { result ≡ length (held self.now) }
    {
        self.used
    }

    // How many elements fit.
    pub fn capacity(&self) -> usize
        ensures { result ≡ length (held self.now) + length (behind self.now) }
    {
        self.items.len()
    }

    // The elements of the list, in order.
    pub fn used(&self) -> &[T]
        ensures { result.now ≡ held self.now }
    {
        &self.items[..self.len()]
    }

    // The element at a place of the list, and none at any other place.
    pub fn get(&self, place: usize) -> Option<&T>
        ensures { option_map (λ x. x.now) result ≡ slice_get (held self.now) place }
    {
        self.used().get(place)
    }

    // Puts an item behind the list and answers its place, or hands it back if there is no room.
    pub fn append(&mut self, item: T) -> Result<usize, T>
        ensures change { after result self.new ≡ appended (held self.old) (behind self.old) item }
        ensures slice { slice self.new ≡ slice self.old }
    {
        if self.used >= self.items.len() {
            return Err(item);
        }
        let end = self.used;
        self.items[end] = item;
        self.used += 1;
        Ok(end)
    }

    // Changes the element at a place of the list, or hands the item back at any other place.
    pub fn set(&mut self, place: usize, item: T) -> Result<(), T>
        ensures change { after result self.new ≡ replaced (held self.old) (behind self.old) place item }
        ensures slice { slice self.new ≡ slice self.old }
    {
        if place >= self.len() {
            return Err(item);
        }
        self.items[place] = item;
        Ok(())
    }

    // Empties the list; what the slice holds stays there as room.
    pub fn clear(&mut self)
        ensures held { held self.new ≡ [] }
        ensures behind { behind self.new ≡ held self.old ++ behind self.old }
        ensures slice { slice self.new ≡ slice self.old }
    {
        self.used = 0;
    }
}
