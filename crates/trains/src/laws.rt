ghost use Rattle.std.specs.Prelude.{IsTrue};
ghost use Rattle.trains.specs.Laws.{RailwayLaws};

/// The laws of railways: the case of a railway is within the limits; its pairs are those of two steps of different
/// trains on one section, and no others; a timetable keeps the case exactly where the railway can run by it; each entry
/// of the separation table is at most 240; what a railway without trains means; and the two worked examples.
pub fn railway_laws_hold() -> bool
    ensures holds { IsTrue result }
    ensures law { RailwayLaws }
{
    true
}
