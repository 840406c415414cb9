//! One bounded list over places that the caller hands in: the outbox, the committed list, and the blocks and the index of a book are such lists.

#![tactic(auto)]

ghost use Rattle.std.specs.Prelude.{◌≡◌, ◌+◌, ◌<◌, [], ◌∷◌, ◌++◌, length, if◌then◌else◌, nat_le, nat_lt, ◌&&◌};
ghost use Rattle.std.specs.List.{slice_get, insert};
ghost use Rattle.places.specs.Held.{held, standing, beyond, bound, rest};

pub mod list;

pub use list::Bounded;

// Each change says that the bound and what stands behind the list stay: a ghost field sees one value and cannot speak of the one before.
impl<'a, T: Copy, const N: usize> Bounded<'a, T, N> {
    /// An empty list over these places, which stay as they are.
    pub fn over(places: &'a mut [T]) -> Bounded<'a, T, N>
        ensures items { held result ≡ [] }
        ensures standing { standing result ≡ places.old }
    {
        Bounded { places, len: 0 }
    }

    /// How many things it holds.
    pub fn len(&self) -> usize
        ensures { result ≡ length (held self.now) }
    {
        self.as_slice().len()
    }

    /// How many things it has places for: `N`, or fewer where fewer places were handed in.
    pub fn bound(&self) -> usize
        ensures { result ≡ bound self.now }
    {
        N.min(self.places.len())
    }

    /// Whether there is room for that many more.
    pub fn has_room(&self, more: usize) -> bool
        ensures { result ≡ nat_le (length (held self.now) + more) (bound self.now) }
    {
        more <= self.bound() - self.len
    }

    /// What it holds, oldest first.
    pub fn as_slice(&self) -> &[T]
        ensures { result.now ≡ held self.now }
    {
        &self.places[..self.len]
    }

    /// Puts `x` behind what it holds, where there is room for it.
    pub fn put(&mut self, x: T)
        requires { length (held self.old) < bound self.old }
        ensures items { held self.new ≡ held self.old ++ x ∷ [] }
        ensures count { length (held self.new) ≡ length (held self.old) + 1 }
        ensures bound { bound self.new ≡ bound self.old }
        ensures beyond { beyond (length (held self.new)) self.new ≡ beyond (length (held self.new)) self.old }
    {
        self.places[self.len] = x;
        self.len += 1;
    }

    /// Puts `x` behind what it holds if there is room, and answers whether there was.
    pub fn push(&mut self, x: T) -> bool
        ensures room { result ≡ nat_lt (length (held self.old)) (bound self.old) }
        ensures items { held self.new ≡ (if result then held self.old ++ x ∷ [] else held self.old) }
        ensures bound { bound self.new ≡ bound self.old }
        ensures beyond { beyond (length (held self.new)) self.new ≡ beyond (length (held self.new)) self.old }
    {
        let room = self.has_room(1);
        if room {
            self.put(x);
        }
        room
    }

    /// Puts `x` at that index, and what stands from there on one further, if the index is in the list or just behind it and there is room.
    /// Answers whether it did.
    pub fn insert(&mut self, i: usize, x: T) -> bool
        ensures done { result ≡ (nat_le i (length (held self.old)) && nat_lt (length (held self.old)) (bound self.old)) }
        ensures items { held self.new ≡ (if result then insert (held self.old) i x else held self.old) }
        ensures bound { bound self.new ≡ bound self.old }
        ensures beyond { beyond (length (held self.new)) self.new ≡ beyond (length (held self.new)) self.old }
    {
        if i > self.len || !self.has_room(1) {
            return false;
        }
        self.places.copy_within(i..self.len, i + 1);
        self.places[i] = x;
        self.len += 1;
        true
    }

    /// Takes the oldest out, if there is one; the others keep their order.
    #[tactic(auto, using(crate::proofs::Lists::without_first))]
    pub fn oldest(&mut self) -> Option<T>
        ensures value { result ≡ slice_get (held self.old) 0 }
        ensures items { held self.new ≡ rest (held self.old) }
        ensures bound { bound self.new ≡ bound self.old }
        ensures beyond { beyond (length (held self.new)) self.new ≡ beyond (length (held self.new)) self.old }
    {
        let x = self.get(0)?;
        self.places.copy_within(1..self.len, 0);
        self.len -= 1;
        Some(x)
    }

    /// The thing at that index, the oldest being at 0.
    pub fn get(&self, i: usize) -> Option<T>
        ensures { result ≡ slice_get (held self.now) i }
    {
        self.as_slice().get(i).copied()
    }
}
