ghost use Rattle.std.specs.Prelude.{ℤ, Option};
ghost use Rattle.bounds.specs.Bounds.{larger, smaller};
ghost use Rattle.bounds.specs.Told.{RankIs};

use graph::TimeMeasure;

/// The later of two times; none if either is.
pub fn later<V: TimeMeasure>(one: Option<V>, other: Option<V>) -> Option<V>
    ensures { (x y : Option ℤ) → RankIs V.TimeMeasure.rank one x → RankIs V.TimeMeasure.rank other y → RankIs V.TimeMeasure.rank result (larger x y) }
{
    let (a, b) = (one?, other?);
    Some(if b.is_below(a) { a } else { b })
}

/// The earlier of two times, of those that there are.
pub fn earlier<V: TimeMeasure>(one: Option<V>, other: Option<V>) -> Option<V>
    ensures { (x y : Option ℤ) → RankIs V.TimeMeasure.rank one x → RankIs V.TimeMeasure.rank other y → RankIs V.TimeMeasure.rank result (smaller x y) }
{
    match (one, other) {
        (Some(a), Some(b)) => Some(if b.is_below(a) { b } else { a }),
        (Some(a), None) => Some(a),
        (None, b) => b,
    }
}
