ghost use Rattle.std.specs.Prelude.{◌≡◌, ◌∷◌, ◌++◌, pos, ◌+ℤ◌, ◌*ℤ◌, Some, decimal};
ghost use Rattle.std.specs.Fmt.{signed_decimal};
ghost use Rattle.measures.specs.Ordered.{Parts, second_of, place_of};
ghost use Rattle.std.proofs.Common.{rules};

use graph::TimeMeasure;
use std::fmt;

/// Times in whole seconds, and within a second by a place 0 to 1,023, so that strictly later can be told at equal
/// seconds. One number is kept, 1,024 × second + place, and an arc's rank is 1,024 × weight + mark.
#[derive(Clone, Copy, Debug, PartialEq, Eq, PartialOrd, Ord)]
pub struct OrderedSeconds {
    rank: i64,
}

impl OrderedSeconds {
    /// The whole second.
    pub fn second(self) -> i64
        ensures value { result ≡ second_of self.rank }
        ensures parts { Parts self.rank result (place_of self.rank) }
    {
        self.rank.div_euclid(1024)
    }

    /// The place within the second.
    pub fn place(self) -> u16
        ensures value { result ≡ place_of self.rank }
        ensures parts { Parts self.rank (second_of self.rank) result }
    {
        self.rank.rem_euclid(1024) as u16
    }
}

// Kept: zero, sum and comparison are one line each here and for seconds; a type between would be longer than both.
impl TimeMeasure for OrderedSeconds {
    ghost rank = { λ s. s.rank };

    ghost ranking = { λ w m. (pos 1024 *ℤ w) +ℤ pos m };

    ghost bounded = { Prim.search rules };

    fn zero() -> OrderedSeconds {
        OrderedSeconds { rank: 0 }
    }

    fn of_arc(weight: i32, mark: u8) -> OrderedSeconds {
        OrderedSeconds {
            rank: 1024 * weight as i64 + mark as i64,
        }
    }

    fn plus(self, other: OrderedSeconds) -> OrderedSeconds {
        OrderedSeconds {
            rank: self.rank.saturating_add(other.rank),
        }
    }

    fn is_below(self, other: OrderedSeconds) -> bool {
        self < other
    }
}

/// SECOND/PLACE.
impl fmt::Display for OrderedSeconds {
    ghost output = { λ s. Some (signed_decimal (second_of s.rank) ++ (47 ∷ decimal (place_of s.rank))) };

    fn fmt<W: fmt::Write>(&self, f: &mut fmt::Formatter<W>) -> fmt::Result {
        let second = self.second();
        let place = self.place();
        write!(f, "{second}/{place}")
    }
}
