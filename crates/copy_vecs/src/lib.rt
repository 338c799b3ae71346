// Vectors of at most `N` items, which lie in the value itself, so that a vector is a plain value and is copied as one.
// Nothing is allocated.
#![tactic(auto)]

ghost use Rattle.std.specs.Prelude.{◌≡◌, ◌≤◌, length};

use std::alloc::AllocError;
use std::convert::TryFrom;
use std::fmt;
use std::ops::DerefSlice;

// Why an item was not put in, or a slice not taken: there are not so many places.
#[derive(Clone, Copy, Debug, PartialEq, Eq)]
pub struct Full;

// A vector is its first `len` places; what the others hold has no meaning.
pub struct CopyVec<T, const N: usize> {
    places: [T; N],
    len: usize,
    ghost within: { len ≤ N },
    ghost whole: { length places ≡ N },
}

impl<T: Copy, const N: usize> Copy for CopyVec<T, N> {}

impl<T: Copy, const N: usize> Clone for CopyVec<T, N> {
    ghost use Rattle.std.specs.Prelude.{⊤};

    ghost is_clone = { λ v w. w ≡ v };

    ghost is_infallible = { λ _. ⊤ };

    fn clone(&self) -> Result<CopyVec<T, N>, AllocError> {
        Ok(*self)
    }
}

impl<T: Copy + Default, const N: usize> CopyVec<T, N> {
    ghost use Rattle.std.specs.Prelude.{[]};
    ghost use Rattle.copy_vecs.specs.Items.{items};

    // No item.
    pub fn new() -> CopyVec<T, N>
        ensures { items result ≡ [] }
    {
        CopyVec {
            places: [T::default(); N],
            len: 0,
        }
    }
}

impl<T, const N: usize> CopyVec<T, N> {
    ghost use Rattle.std.specs.Prelude.{IsTrue, ◌↔◌, []};
    ghost use Rattle.copy_vecs.specs.Items.{items};

    // The items, in their order.
    pub fn as_slice(&self) -> &[T]
        ensures value { result.now ≡ items self.now }
        ensures fits { length result.now ≤ N }
    {
        &self.places[..self.len]
    }

    // How many items there are.
    pub fn len(&self) -> usize
        ensures value { result ≡ length (items self.now) }
        ensures fits { result ≤ N }
    {
        self.as_slice().len()
    }

    // Whether there is no item.
    pub fn is_empty(&self) -> bool
        ensures { IsTrue result ↔ (items self.now ≡ []) }
    {
        self.len == 0
    }
}

impl<T: Copy, const N: usize> CopyVec<T, N> {
    ghost use Rattle.std.specs.Prelude.{take};
    ghost use Rattle.copy_vecs.specs.Items.{items, Pushed, Popped};

    // Forgets all items but the first `count`.
    pub fn truncate(&mut self, count: usize)
        ensures { items self.new ≡ take count (items self.old) }
    {
        if count < self.len {
            self.len = count;
        }
    }

    // One item more, at the end, where there is a place.
    pub fn try_push(&mut self, item: T) -> Result<(), Full>
        ensures { Pushed N self.old item result self.new }
    {
        if self.len == N {
            return Err(Full);
        }
        self.places[self.len] = item;
        self.len += 1;
        Ok(())
    }

    // The last item, which goes, where there is one.
    pub fn pop(&mut self) -> Option<T>
        ensures { Popped self.old result self.new }
    {
        if self.is_empty() {
            return None;
        }
        self.len -= 1;
        Some(self.places[self.len])
    }
}

// What a slice has for reading, a vector has.
impl<T, const N: usize> DerefSlice for CopyVec<T, N> {
    ghost use Rattle.copy_vecs.specs.Items.{items};

    type Elem = T;

    ghost deref_gives = { λ v xs. (xs ≡ items v) × (length xs ≤ N) };

    fn deref(&self) -> &[T] {
        self.as_slice()
    }
}

// The vector of the items of a slice, where there are so many places.
impl<T: Copy + Default, const N: usize> TryFrom<&[T]> for CopyVec<T, N> {
    ghost use Rattle.std.specs.Prelude.{◌<◌, MatchResult};
    ghost use Rattle.copy_vecs.specs.Items.{items};

    type Error = Full;

    ghost try_from_gives = { λ s r. MatchResult r (λ v. (items v ≡ s.now) × (length s.now ≤ N)) (λ _. N < length s.now) };

    fn try_from(slice: &[T]) -> Result<CopyVec<T, N>, Full> {
        if slice.len() > N {
            return Err(Full);
        }
        let mut places = [T::default(); N];
        places[..slice.len()].copy_from_slice(slice);
        Ok(CopyVec {
            places,
            len: slice.len(),
        })
    }
}

impl<T: Copy + Default, const N: usize> Default for CopyVec<T, N> {
    ghost use Rattle.std.specs.Prelude.{[]};
    ghost use Rattle.copy_vecs.specs.Items.{items};

    ghost is_default = { λ v. items v ≡ [] };

    fn default() -> CopyVec<T, N> {
        CopyVec::new()
    }
}

// Two vectors are equal where their items are: what lies beyond them has no meaning.
impl<T: Copy + PartialEq, const N: usize> PartialEq for CopyVec<T, N> {
    ghost use Rattle.std.specs.Cmp.{on_per};
    ghost use Rattle.std.specs.Cmp.Lexicographic.{pointwise, lists_per};
    ghost use Rattle.copy_vecs.specs.Items.{items};

    ghost eq = { λ v w. pointwise T.eq (items v) (items w) };

    ghost laws = { on_per items (lists_per T.laws) };

    fn eq(&self, other: &CopyVec<T, N>) -> bool {
        self.as_slice() == other.as_slice()
    }
}

impl<T: Copy + Eq, const N: usize> Eq for CopyVec<T, N> {
    ghost use Rattle.std.specs.Cmp.{on_equiv};
    ghost use Rattle.std.specs.Cmp.Lexicographic.{lists_equiv};
    ghost use Rattle.copy_vecs.specs.Items.{items};

    ghost laws = { on_equiv items (lists_equiv T.Eq.laws) };
}

impl<T: Copy + fmt::Debug, const N: usize> fmt::Debug for CopyVec<T, N> {
    fn fmt<W: fmt::Write>(&self, f: &mut fmt::Formatter<W>) -> fmt::Result {
        f.debug_list().entries(self.as_slice()).finish()
    }
}
