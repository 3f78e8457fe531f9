ghost use Rattle.bounds.specs.Bounds.{Meaning, LowerBound};
ghost use Rattle.bounds.specs.Told.{BoundTold};

use graph::{CaseSource, TimeMeasure};

/// A lower bound on the delay that a selection can still lead to, free to be copied.
pub trait Bound: Copy {
    /// What the bound answers for each case, selection and ranking.
    ghost meaning: { Self → Meaning };

    /// The bound of a selection, or none where no timetable keeps it. The arms may be tried with others and come back as
    /// they were. The first places of the times, one for each event, then hold anything; what lies behind stays. Handed
    /// fewer places, it answers zero and writes none.
    // Kept: source, arms and times are lent one by one, here and in look-ahead, as a rule of the project has it.
    fn ask<S: CaseSource, V: TimeMeasure>(
        &self,
        source: &S,
        arms: &mut [u8; 60],
        times: &mut [V],
    ) -> Option<V>
        ensures { BoundTold V.TimeMeasure.rank V.TimeMeasure.ranking (S.CaseSource.means source.now) (meaning self.now) arms.old arms.new times.old times.new result };

    ghost lower: { (b : Self) → LowerBound (meaning b) };
}
