ghost use Rattle.std.specs.Prelude.{◌≡◌, ℕ, ◌^◌, ◌<◌, ◌≤◌, MatchOption};
ghost use Rattle.locks.specs.Facts.{bit, short};

use crate::lock::MOST_FACTS;
use std::marker::Model;

// How many facts a lock has, at most 12. A valuation of them is a number with a bit for each.
#[derive(Clone, Copy)]
pub struct FactCount {
    count: u8,
}

impl Model for FactCount {
    ghost Value = { ℕ };

    ghost view = { λ c. c.count };

    ghost invariant = { λ c. c.count ≤ 12 };

    ghost inverse = { λ n. record { count = n } };
}

impl FactCount {
    // The count, or nothing if a lock cannot have so many.
    pub fn new(count: u8) -> Option<FactCount>
        ensures { MatchOption result (12 < count) (λ c. (c ≡ count) × (count ≤ 12)) }
    {
        // Not bool's then: the closure would have to ask for the test again, as a clause of its own.
        if count <= MOST_FACTS {
            Some(FactCount { count })
        } else {
            None
        }
    }

    // The count as a number.
    pub fn get(self) -> u8
        ensures is { result ≡ self }
        ensures few { result ≤ 12 }
    {
        self.count
    }

    // How many valuations the facts have.
    pub fn valuations(self) -> u32
        ensures is { result ≡ 2 ^ self }
        ensures few { result ≤ 4096 }
    {
        1 << self.count
    }

    // Whether the mask has no bit but those of the facts.
    pub fn covers(self, mask: u16) -> bool
        ensures { result ≡ short self mask }
    {
        u32::from(mask) < self.valuations()
    }
}

// Whether the fact is true in the valuation.
pub fn holds(valuation: u32, fact: u8) -> bool
    ensures { result ≡ bit valuation fact }
{
    fact < 32 && (valuation >> fact) % 2 == 1
}
