// What is done with such a list.
ghost use Rattle.std.specs.Prelude.{◌≡◌, ◌+◌, ◌<◌, ◌≤◌, Bool, [], ◌∷◌, ◌++◌, length, take, drop, filter, IfOk, MatchOption, slice_index_or, slice_set};
ghost use Rattle.std.specs.Fn.{FnReturnsAt};
ghost use Rattle.std.specs.List.{AllZip, remove};
ghost use Rattle.reserved.specs.Held.{held};
ghost use Rattle.reserved.specs.Closures.{Computes};

use crate::Reserved;
use std::alloc::{AllocError, Global};

impl<T, const N: usize> Reserved<T, N> {
    // An empty list, with the memory for N elements.
    pub fn new(heap: Global) -> Result<Self, AllocError>
        ensures made { IfOk result (λ r. held r ≡ []) }
    {
        let list = Vec::with_capacity(heap, N)?;
        Ok(Reserved { list })
    }

    // How many elements it holds.
    pub fn len(&self) -> usize
        ensures value { result ≡ length (held self.now) }
        ensures few { result ≤ N }
    {
        self.list.len()
    }

    // Its elements, first to last.
    pub fn as_slice(&self) -> &[T]
        ensures value { result.now ≡ held self.now }
        ensures few { length result.now ≤ N }
    {
        self.list.as_slice()
    }

    // Adds an element at the end.
    pub fn push(&mut self, element: T)
        requires room { length (held self.old) < N }
        ensures { held self.new ≡ held self.old ++ element ∷ [] }
    {
        self.list.push_reserved(element);
    }

    // Takes the element at this place out.
    pub fn remove(&mut self, at: usize) -> T
        requires { at < length (held self.old) }
        ensures value { result ≡ slice_index_or (held self.old) at result }
        ensures rest { held self.new ≡ remove (held self.old) at }
    {
        self.list.remove(at)
    }

    // Takes the last element out, if there is one.
    pub fn pop(&mut self) -> Option<T>
        ensures { MatchOption result ((held self.old ≡ []) × (held self.new ≡ [])) (λ x. held self.old ≡ held self.new ++ x ∷ []) }
    {
        self.list.pop()
    }
}

impl<T: Drop, const N: usize> Reserved<T, N> {
    // Puts an element before the one that stands at this place, or at the end.
    pub fn insert(&mut self, at: usize, element: T)
        requires place { at ≤ length (held self.old) }
        requires room { length (held self.old) < N }
        ensures { held self.new ≡ take at (held self.old) ++ element ∷ drop at (held self.old) }
    {
        let _ = self.list.insert(at, element);
    }

    // Puts an element in the place of the one that stands there.
    pub fn put(&mut self, at: usize, element: T)
        requires { at < length (held self.old) }
        ensures { held self.new ≡ slice_set (held self.old) at element }
    {
        self.list[at] = element;
    }

    // Keeps the elements that pass, in their order.
    pub fn retain<F: Fn(&T) -> bool>(&mut self, passes: F)
        requires { F.IsAlwaysCallable passes }
        ensures { (test : T → Bool) → Computes (FnReturnsAt F.Fn passes) test → held self.new ≡ filter test (held self.old) }
    {
        self.list.retain(passes);
    }

    // No element is left.
    pub fn clear(&mut self)
        ensures { held self.new ≡ [] }
    {
        self.list.clear();
    }
}

impl<T: Copy, const N: usize> Reserved<T, N> {
    // Changes each element to what the step makes of it.
    pub fn change_all<F: Fn(T) -> T>(&mut self, step: F)
        requires { F.IsAlwaysCallable step }
        ensures { AllZip (λ x y. F.post step x y) (held self.old) (held self.new) }
    {
        for element in self.list.iter_mut() {
            *element = step(*element);
        }
    }
}
