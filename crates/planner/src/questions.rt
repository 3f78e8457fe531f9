//! What is on show. A question changes nothing.
ghost use Rattle.std.specs.Prelude.{◌≡◌, Some, None};
ghost use Rattle.bounds.specs.Told.{RankIs};
ghost use Rattle.search.specs.Search.{plan_delay};
ghost use Rattle.planner.specs.View.{view, plan_arms};

use crate::calls::Planner;
use bounds::Bound;
use graph::{CaseSource, TimeMeasure};

impl<S: CaseSource + Copy, V: TimeMeasure, B: Bound> Planner<S, V, B> {
    /// The held arms of the pairs, 0 for a pair that is not held.
    pub fn holds(&self) -> &[u8]
        ensures { result.now ≡ (view S.CaseSource.means V.TimeMeasure.rank self.now).holds }
    {
        let pairs = self.source.pair_count();
        &self.table.holds.places[..pairs]
    }

    /// The plan's delay, if there is a plan.
    pub fn delay(&self) -> Option<V>
        ensures { RankIs V.TimeMeasure.rank result (plan_delay (view S.CaseSource.means V.TimeMeasure.rank self.now).plan) }
    {
        self.table.plan_delay()
    }

    /// No timetable that keeps the case and the holds has a smaller delay.
    pub fn lower_bound(&self) -> V
        ensures { V.TimeMeasure.rank result ≡ (view S.CaseSource.means V.TimeMeasure.rank self.now).lower }
    {
        self.table.lower
    }

    /// How many nodes were examined since the opening, or the last hold or release.
    pub fn count(&self) -> u64
        ensures { result ≡ (view S.CaseSource.means V.TimeMeasure.rank self.now).count }
    {
        self.table.place.count
    }

    /// Whether the search is finished: the plan has the least delay, or there is none.
    pub fn is_finished(&self) -> bool
        ensures { result ≡ (view S.CaseSource.means V.TimeMeasure.rank self.now).finished }
    {
        self.table.place.next.is_none()
    }

    /// The plan, one arm of each pair, if there is one.
    pub fn plan(&self) -> Option<&[u8]>
        ensures { elim result [ Some s ↦ plan_arms (view S.CaseSource.means V.TimeMeasure.rank self.now).plan ≡ Some s.now | None ↦ plan_arms (view S.CaseSource.means V.TimeMeasure.rank self.now).plan ≡ None ] }
    {
        let pairs = self.source.pair_count();
        self.table
            .plan
            .as_ref()
            .map(|plan| &plan.arms.places[..pairs])
    }
}
