ghost use Rattle.std.specs.Prelude.{IsTrue};
ghost use Rattle.search.specs.Sound.{WalkLaws};

/// What a search does with its budget and with the lower bound on show.
pub fn walk_laws_hold() -> bool
    ensures holds { IsTrue result }
    ensures law { WalkLaws }
{
    true
}
