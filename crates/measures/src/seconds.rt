ghost use Rattle.std.specs.Prelude.{◌≡◌, Some};
ghost use Rattle.std.specs.Fmt.{signed_decimal};
ghost use Rattle.std.proofs.Common.{rules};

use graph::TimeMeasure;
use std::fmt;

/// Times in whole seconds: an arc's rank is its weight, and its mark counts for nothing.
#[derive(Clone, Copy, Debug, PartialEq, Eq, PartialOrd, Ord)]
pub struct Seconds {
    value: i64,
}

impl Seconds {
    /// The seconds.
    pub fn value(self) -> i64
        ensures { result ≡ self.value }
    {
        let Seconds { value } = self;
        value
    }
}

impl TimeMeasure for Seconds {
    ghost rank = { λ s. s.value };

    ghost ranking = { λ w m. w };

    ghost bounded = { Prim.search rules };

    fn zero() -> Seconds {
        Seconds { value: 0 }
    }

    fn of_arc(weight: i32, _mark: u8) -> Seconds {
        Seconds {
            value: weight as i64,
        }
    }

    fn plus(self, other: Seconds) -> Seconds {
        Seconds {
            value: self.value.saturating_add(other.value),
        }
    }

    fn is_below(self, other: Seconds) -> bool {
        self < other
    }
}

impl fmt::Display for Seconds {
    ghost output = { λ s. Some (signed_decimal s.value) };

    fn fmt<W: fmt::Write>(&self, f: &mut fmt::Formatter<W>) -> fmt::Result {
        let value = self.value;
        write!(f, "{value}")
    }
}
