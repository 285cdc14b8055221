// A hand: the holds of a station, at most sixteen, which lie in the station itself.
ghost use Rattle.std.specs.Prelude.{◌≡◌, ◌<◌, ◌≤◌, ◌==◌, [], ◌∷◌, ◌++◌, length, slice_set, nat_lt, if◌then◌else◌};

use crate::station::Hold;
use std::marker::Model;
use std::ops::DerefSlice;

// The first `held` places, in the order of their grants. The others are blank, so that hands with the same holds are the same value.
#[derive(Clone, Copy)]
pub struct Hand {
    places: [Hold; 16],
    held: usize,
}

impl Model for Hand {
    ghost use Rattle.std.specs.Prelude.{◌≡◌, ◌≤◌, length, take};
    ghost use Rattle.std.proofs.Common.{sym, subst, length-take-le};
    ghost use Rattle.locks.specs.Hand.{Holds, padded};

    ghost Value = { Holds };

    ghost view = { λ h. record { items = take h.held h.places } };

    ghost invariant = { λ h. (h.held ≤ 16) × (length h.places ≡ 16) × (h.places ≡ padded (take h.held h.places)) };

    ghost inverse = { λ v. record { places = padded v.items; held = length v.items } };

    ghost inverse_ok = { λ h given i. record {
      places = sym given.2 i;
      held = length-take-le h.held h.places (subst (λ n. h.held ≤ n) (sym given.1) given.0) i;
    } };
}

impl DerefSlice for Hand {
    type Elem = Hold;

    ghost deref_gives = { λ h holds. (holds ≡ h.items) × (length holds ≤ 16) };

    fn deref(&self) -> &[Hold] {
        &self.places[..self.held]
    }
}

impl Hand {
    // An empty hand.
    pub fn new() -> Hand
        ensures { result.items ≡ [] }
    {
        Hand {
            places: [Hold::default(); 16],
            held: 0,
        }
    }

    // How many holds there are.
    pub fn len(&self) -> usize
        ensures value { result ≡ length self.now.items }
        ensures fits { result ≤ 16 }
    {
        self.places[..self.held].len()
    }

    // Whether there is no room left.
    pub fn is_full(&self) -> bool
        ensures value { result ≡ (length self.now.items == 16) }
        ensures fits { length self.now.items ≤ 16 }
    {
        self.held == 16
    }

    // One hold more, at the next place. Answers whether there was room; where there is none, nothing changes.
    pub fn push(&mut self, hold: Hold) -> bool
        ensures room { result ≡ nat_lt (length self.old.items) 16 }
        ensures items { self.new.items ≡ (if nat_lt (length self.old.items) 16 then self.old.items ++ hold ∷ [] else self.old.items) }
    {
        if self.held >= 16 {
            return false;
        }
        self.places[self.held] = hold;
        self.held += 1;
        true
    }

    // The hold at a place is another; past the last, nothing changes.
    pub fn replace(&mut self, k: usize, hold: Hold)
        ensures { self.new.items ≡ slice_set self.old.items k hold }
    {
        if k < self.held {
            self.places[k] = hold;
        }
    }

    // No hold any more.
    pub fn clear(&mut self)
        ensures { self.new.items ≡ [] }
    {
        *self = Hand::new();
    }
}
