ghost use Rattle.std.specs.Prelude.{IsTrue};
ghost use Rattle.bounds.specs.Bounds.{BoundsLaws};

/// The laws of the bounds, over every case within the limits, every selection and every ranking.
pub fn bounds_laws_hold() -> bool
    ensures holds { IsTrue result }
    ensures law { BoundsLaws }
{
    true
}
