ghost use Rattle.std.specs.Prelude.{◌≡◌};
ghost use Rattle.graph.specs.Views.{arc_found, arm_of, pair_of};

/// An arc of a case: event `to` comes no earlier than event `from` plus the arc's rank, which a time measure makes of
/// the weight in seconds and the mark.
#[derive(Clone, Copy, Debug, PartialEq, Eq)]
pub struct Arc {
    pub from: u16,
    pub to: u16,
    pub weight: i32,
    /// 1 asks for strictly later, where the measure can tell; else 0.
    // Kept: a byte, since an arc with another mark can be read, and is refused by that.
    pub mark: u8,
}

/// A pair of alternative arcs, of which one is kept: the first is arm 1, the second arm 2.
#[derive(Clone, Copy, Debug, PartialEq, Eq)]
pub struct Pair {
    pub first: Arc,
    pub second: Arc,
}

impl Pair {
    /// Arm 1 or 2; there is no other.
    pub fn arm(self, arm: u8) -> Option<Arc>
        ensures { arc_found result ≡ arm_of arm (pair_of self) }
    {
        match arm {
            1 => Some(self.first),
            2 => Some(self.second),
            _ => None,
        }
    }
}
