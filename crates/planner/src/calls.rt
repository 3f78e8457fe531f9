//! A planner and its calls.
ghost use Rattle.std.specs.Prelude.{◌<◌, ◌≤◌, length};
ghost use Rattle.search.specs.Sound.{to_hold, to_release, to_search};
ghost use Rattle.search.specs.Named.{planner_told};
ghost use Rattle.planner.specs.View.{view, Opened, Put, Made, Answered, Advanced};

use crate::arms::Arms;
use crate::table::Table;
use crate::walk::Problem;
use bounds::Bound;
use graph::{CaseSource, TimeMeasure};
use search::PlannerFault;

/// A search over the pairs of a source.
#[derive(Drop)]
pub struct Planner<S, V, B> {
    pub(crate) source: S,
    pub(crate) bound: B,
    pub(crate) table: Table<V>,
}

/// What a search answers: how many nodes it examined; how many were examined since the opening, or the last hold or
/// release; whether it is finished; and whether there is a plan.
// Kept: a search answers plain numbers and flags, a rule of this project.
pub type Searched = (u64, u64, bool, bool);

impl<S: CaseSource + Copy, V: TimeMeasure, B: Bound> Planner<S, V, B> {
    /// A planner that holds nothing and has searched nothing.
    pub fn open(source: S, bound: B) -> Planner<S, V, B>
        ensures { Opened S.CaseSource.means V.TimeMeasure.rank source bound result }
    {
        Planner {
            source,
            bound,
            table: Table::fresh(Arms::all(0)),
        }
    }

    /// Opens the planner again, over another source and with another bound.
    pub fn reopen(&mut self, source: S, bound: B)
        ensures { Opened S.CaseSource.means V.TimeMeasure.rank source bound self.new }
    {
        *self = Planner::open(source, bound);
    }

    /// Holds an arm of a pair, or none, and opens the search again.
    fn put(&mut self, pair: usize, arm: u8)
        requires pair { pair < 60 }
        requires arm { arm ≤ 2 }
        ensures { Put S.CaseSource.means V.TimeMeasure.rank self.old self.new pair arm }
    {
        self.table = Table::fresh(self.table.holds.with(pair, arm));
    }

    /// Holds an arm, 1 or 2, of a pair that is not held. The search begins anew; the other holds stay.
    pub fn hold(&mut self, pair: usize, arm: u8) -> Result<(), PlannerFault>
        ensures { Made S.CaseSource.means V.TimeMeasure.rank V.TimeMeasure.ranking B.Bound.meaning self.old self.new (to_hold pair arm) (planner_told result) }
    {
        if pair >= self.source.pair_count() {
            return Err(PlannerFault::NoPair(pair));
        }
        if arm != 1 && arm != 2 {
            return Err(PlannerFault::NoArm(pair));
        }
        if self.table.holds.places[pair] != 0 {
            return Err(PlannerFault::Held(pair));
        }
        self.put(pair, arm);
        Ok(())
    }

    /// Releases a pair that is held. The search begins anew; the other holds stay.
    // Kept: beside `hold`, since each of the two refuses what the other takes.
    pub fn release(&mut self, pair: usize) -> Result<(), PlannerFault>
        ensures { Made S.CaseSource.means V.TimeMeasure.rank V.TimeMeasure.ranking B.Bound.meaning self.old self.new (to_release pair) (planner_told result) }
    {
        if pair >= self.source.pair_count() {
            return Err(PlannerFault::NoPair(pair));
        }
        if self.table.holds.places[pair] == 0 {
            return Err(PlannerFault::NotHeld(pair));
        }
        self.put(pair, 0);
        Ok(())
    }

    /// Examines nodes until the search is finished, or as many as the budget says, 1 to 1,000,000. The first places of the
    /// times, one for each event, then hold the plan's least times, or zeros without a plan; the rest stays.
    pub fn search(&mut self, budget: u64, times: &mut [V]) -> Result<Searched, PlannerFault>
        ensures made { Made S.CaseSource.means V.TimeMeasure.rank V.TimeMeasure.ranking B.Bound.meaning self.old self.new (to_search budget (length times.old)) (planner_told result) }
        ensures answer { Answered V.TimeMeasure.rank (S.CaseSource.means self.old.source) V.TimeMeasure.ranking (view S.CaseSource.means V.TimeMeasure.rank self.old) (view S.CaseSource.means V.TimeMeasure.rank self.new) times.old times.new result }
        ensures progress { Advanced (S.CaseSource.means self.old.source) V.TimeMeasure.ranking (B.Bound.meaning self.old.bound) (view S.CaseSource.means V.TimeMeasure.rank self.old) (view S.CaseSource.means V.TimeMeasure.rank self.new) budget result }
    {
        if self.table.place.next.is_none() {
            return Err(PlannerFault::Finished);
        }
        if budget == 0 || budget > 1_000_000 {
            return Err(PlannerFault::Budget);
        }
        if times.len() <= self.source.end() {
            return Err(PlannerFault::Places(times.len()));
        }
        let problem = Problem {
            source: &self.source,
            bound: &self.bound,
        };
        let nodes = problem.walk(budget, &mut self.table, times);
        self.table.lower = problem.lower_after(&self.table, times);
        problem.show(&self.table, times);
        Ok((
            nodes,
            self.table.place.count,
            self.table.place.next.is_none(),
            self.table.plan.is_some(),
        ))
    }
}
