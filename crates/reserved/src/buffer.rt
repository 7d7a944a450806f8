// What elements are added to within memory that is there already: a reserved list, or a vector of enough capacity.
ghost use Rattle.std.specs.Prelude.{◌≡◌, ℕ, ◌<◌, List, [], ◌∷◌, ◌++◌, length, vec_items, vec_capacity};
ghost use Rattle.reserved.specs.Held.{held};

use crate::Reserved;

// A buffer holds elements, and has a capacity that stays. What needs room in it asks that of the capacity, and allocates nothing.
pub trait Buffer<T> {
    // Its elements, first to last.
    ghost items: { Self → List T };

    // How many elements it can hold.
    ghost capacity: { Self → ℕ };

    // No element is left.
    fn clear(&mut self)
        ensures items { items self.new ≡ [] }
        ensures capacity { capacity self.new ≡ capacity self.old };

    // Adds an element at the end.
    fn push(&mut self, element: T)
        requires room { length (items self.old) < capacity self.old }
        ensures items { items self.new ≡ items self.old ++ element ∷ [] }
        ensures capacity { capacity self.new ≡ capacity self.old };
}

impl<T: Drop, const N: usize> Buffer<T> for Reserved<T, N> {
    ghost items = { held };

    ghost capacity = { λ _. N };

    fn clear(&mut self) {
        self.list.clear();
    }

    fn push(&mut self, element: T) {
        self.list.push_reserved(element);
    }
}

impl<T: Drop> Buffer<T> for Vec<T> {
    ghost items = { vec_items };

    ghost capacity = { vec_capacity };

    fn clear(&mut self) {
        self.clear();
    }

    fn push(&mut self, element: T) {
        self.push_reserved(element);
    }
}
