ghost use Rattle.std.specs.Prelude.{IsTrue};
ghost use Rattle.search.specs.Sound.{MoreWalkLaws};

/// What else a search leaves, and what searches in a row come to.
pub fn more_walk_laws_hold() -> bool
    ensures holds { IsTrue result }
    ensures law { MoreWalkLaws }
{
    true
}
