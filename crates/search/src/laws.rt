ghost use Rattle.std.specs.Prelude.{IsTrue};
ghost use Rattle.search.specs.Sound.{AlwaysSound};

/// The laws over runs: what holds of a planner after any calls, taken or refused, over every case within the limits, every
/// ranking and every lower bound.
// Kept: a public call for each theorem, in this crate, bounds and trains, so that each clause names one.
pub fn always_sound() -> bool
    ensures holds { IsTrue result }
    ensures law { AlwaysSound }
{
    true
}
