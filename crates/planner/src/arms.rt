//! Arms of the sixty pairs.
ghost use Rattle.std.specs.Prelude.{◌≡◌, ◌<◌, ◌≤◌, true, length, take, replicate, slice_set};
ghost use Rattle.search.specs.Search.{free};
ghost use Rattle.planner.specs.Small.{small};

/// An arm of each of sixty pairs, 0 for none.
// Kept: bytes, since a bound is lent the sixty bytes themselves, a rule of the project.
#[derive(Clone, Copy)]
pub(crate) struct Arms {
    pub places: [u8; 60],
    ghost none_past_two: { small places ≡ true },
    ghost sixty: { length places ≡ 60 },
}

impl Arms {
    /// The same arm of each pair.
    pub(crate) fn all(arm: u8) -> Arms
        requires { arm ≤ 2 }
        ensures { result.places ≡ replicate 60 arm }
    {
        Arms { places: [arm; 60] }
    }

    /// These arms, with another arm of one pair.
    pub(crate) fn with(mut self, pair: usize, arm: u8) -> Arms
        requires pair { pair < 60 }
        requires arm { arm ≤ 2 }
        ensures { result.places ≡ slice_set self.places pair arm }
    {
        self.places[pair] = arm;
        self
    }

    /// How many of the first pairs have no arm.
    pub(crate) fn free(&self, pairs: usize) -> usize
        requires { pairs ≤ 60 }
        ensures { result ≡ free (take pairs self.now.places) }
    {
        self.places[..pairs].iter().filter(|&&arm| arm == 0).count()
    }
}
