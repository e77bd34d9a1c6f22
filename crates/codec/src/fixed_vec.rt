// A list with a fixed number of places, which lie in the value itself.
ghost use Rattle.std.specs.Prelude.{⊤, ◌≡◌, ◌+◌, ◌<◌, ◌≤◌, ◌==◌, [], ◌∷◌, ◌++◌, length, min, insert, IsOk, OnOk, OnErr, ◌↔◌, MatchResult};
ghost use Rattle.std.specs.List.Retain.{IsFiltered};
ghost use Rattle.std.specs.Fn.{CalledAt};

use std::alloc::AllocError;
use std::marker::Model;
use std::ops::DerefSlice;

/// At most `CAP` items. It needs no memory of its own, and can be copied.
// A type of this crate's own, since the library's fixed vectors are not `Copy`, and packets and decisions are handed out as copies.
pub struct FixedVec<T: Copy, const CAP: usize> {
    places: [T; CAP],
    len: usize,
}

// A clause sees the items, and the copy needs what lies past them too.
impl<T: Copy, const CAP: usize> Model for FixedVec<T, CAP> {
    ghost use Rattle.std.specs.Prelude.{◌≡◌, ◌≤◌, ◌++◌, length, take, drop};
    ghost use Rattle.std.proofs.Common.{arith, take-append-drop, length-take-le};
    ghost use Rattle.codec.specs.FixedVec.{FixedVec as Items};

    ghost Value = { Items T };

    ghost view = { λ v. record { items = take v.len v.places; spare = drop v.len v.places } };

    ghost invariant = { λ v. (v.len ≤ CAP) × (length v.places ≡ CAP) };

    ghost inverse = { λ v. record { places = v.items ++ v.spare; len = length v.items } };

    ghost inverse_ok = { λ v h i. record {
      places = take-append-drop v.len v.places i;
      len = length-take-le v.len v.places (omega (arith, h.0, h.1)) i;
    } };
}

impl<T: Copy, const CAP: usize> Copy for FixedVec<T, CAP> {}

// By hand, since a derived clone goes through the places one by one and promises less than a copy.
impl<T: Copy, const CAP: usize> Clone for FixedVec<T, CAP> {
    ghost is_clone = { λ v w. w ≡ v };

    ghost is_infallible = { λ _. ⊤ };

    fn clone(&self) -> Result<Self, AllocError> {
        Ok(*self)
    }
}

impl<T: Copy + Default, const CAP: usize> FixedVec<T, CAP> {
    /// No item.
    pub fn new() -> Self
        ensures { result.items ≡ [] }
    {
        FixedVec {
            places: [T::default(); CAP],
            len: 0,
        }
    }
}

impl<T: Copy, const CAP: usize> FixedVec<T, CAP> {
    /// How many items there are.
    pub fn len(&self) -> usize
        ensures value { result ≡ length self.now.items }
        ensures fits { result ≤ CAP }
    {
        self.as_slice().len()
    }

    /// Whether there is no item.
    pub fn is_empty(&self) -> bool
        ensures { result ≡ (length self.now.items == 0) }
    {
        self.len == 0
    }

    /// The items, in their order.
    pub fn as_slice(&self) -> &[T]
        ensures items { result.now ≡ self.now.items }
        ensures fits { length result.now ≤ CAP }
    {
        &self.places[..self.len]
    }

    // One more at the end. That there is room is a clause, here and wherever a form is pushed: how much it takes depends on what comes.
    pub(crate) fn push(&mut self, item: T)
        requires { length self.old.items < CAP }
        ensures { self.new.items ≡ self.old.items ++ item ∷ [] }
    {
        self.places[self.len] = item;
        self.len += 1;
    }

    // All of these at the end.
    pub(crate) fn extend_from_slice(&mut self, items: &[T])
        requires { length self.old.items + length items.now ≤ CAP }
        ensures { self.new.items ≡ self.old.items ++ items.now }
    {
        let len = self.len + items.len();
        let places = &mut self.places[..];
        places[self.len..len].copy_from_slice(items);
        self.len = len;
    }
}

impl<T: Copy, const CAP: usize> FixedVec<T, CAP> {
    /// Whether there is no room for another.
    pub fn is_full(&self) -> bool
        ensures value { result ≡ (length self.now.items == CAP) }
        ensures fits { length self.now.items ≤ CAP }
    {
        self.len == CAP
    }

    /// One more at the end, if there is room.
    pub fn try_push(&mut self, item: T) -> Result<(), Full>
        ensures room { IsOk result ↔ (length self.old.items < CAP) }
        ensures pushed { OnOk result (self.new.items ≡ self.old.items ++ item ∷ []) }
        ensures same { OnErr result (self.new ≡ self.old) }
    {
        if self.is_full() {
            return Err(Full);
        }
        self.push(item);
        Ok(())
    }

    /// One more at `index`, or at the end where that is nearer, if there is room. The later items move up.
    pub fn try_insert(&mut self, index: usize, new: T) -> Result<(), Full>
        ensures room { IsOk result ↔ (length self.old.items < CAP) }
        ensures inserted { OnOk result (self.new.items ≡ insert self.old.items (min index (length self.old.items)) new) }
        ensures same { OnErr result (self.new ≡ self.old) }
    {
        if self.is_full() {
            return Err(Full);
        }
        let all = *self;
        let place = index.min(all.len());
        self.len = place;
        self.push(new);
        self.extend_from_slice(&all[place..]);
        Ok(())
    }

    /// Keeps the items that pass a test, which is called at each in turn.
    pub fn retain<F: FnMut(&T) -> bool>(&mut self, mut test: F)
        requires { F.IsAlwaysCallable test }
        ensures filtered { IsFiltered (CalledAt F.FnMut) test self.old.items self.new.items }
        ensures bound { length self.new.items ≤ length self.old.items }
    {
        let all = *self;
        self.len = 0;
        for item in all.as_slice() {
            if test(item) {
                self.push(*item);
            }
        }
    }
}

impl<T: Copy, const CAP: usize> DerefSlice for FixedVec<T, CAP> {
    type Elem = T;

    ghost deref_gives = { λ v xs. (xs ≡ v.items) × (length xs ≤ CAP) };

    fn deref(&self) -> &[T] {
        FixedVec::as_slice(self)
    }
}

/// There are more items than places.
#[derive(Clone, Copy)]
pub struct Full;

impl<T: Copy + Default, const CAP: usize> TryFrom<&[T]> for FixedVec<T, CAP> {
    type Error = Full;

    ghost try_from_gives = { λ s r. MatchResult r (λ v. v.items ≡ s.now) (λ _. CAP < length s.now) };

    fn try_from(items: &[T]) -> Result<Self, Full> {
        if items.len() > CAP {
            return Err(Full);
        }
        let mut places = [T::default(); CAP];
        places[..items.len()].copy_from_slice(items);
        Ok(FixedVec {
            places,
            len: items.len(),
        })
    }
}
