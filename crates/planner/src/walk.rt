//! The walk over the nodes.
ghost use Rattle.std.specs.Prelude.{◌≡◌, ◌+◌, ◌<◌, ◌≤◌, length, take, drop, replicate, ℤ, Some, Option};
ghost use Rattle.bounds.specs.Told.{RankIs};
ghost use Rattle.search.specs.Search.{examined, walked, raised_to, lower_after, plan_times};
ghost use Rattle.graph.specs.Views.{Shows};
ghost use Rattle.planner.specs.Nodes.{node_of};
ghost use Rattle.planner.specs.View.{plan_of, table_of, looked_at, least_left, Ranked, Stepped};

use crate::arms::Arms;
use crate::node::Node;
use crate::table::Table;
use bounds::{Bound, LongestPath, earlier};
use graph::{CaseSource, TimeMeasure, clear_times, least_times};

/// What a search asks: the source of its case, and its bound.
// Kept: the times are lent to each step; as a field here, each step and loop has to say that source and bound stay.
#[derive(Drop)]
pub(crate) struct Problem<'a, S, B> {
    pub source: &'a S,
    pub bound: &'a B,
}

impl<S: CaseSource, B: Bound> Problem<'_, S, B> {
    /// The bound of a selection. The times are scratch.
    fn bound_of<V: TimeMeasure>(&self, arms: Arms, times: &mut [V]) -> Option<V>
        requires { (S.CaseSource.means self.now.source.now).end < length times.old }
        ensures { Ranked V.TimeMeasure.rank (S.CaseSource.means self.now.source.now) (B.Bound.meaning self.now.bound.now (S.CaseSource.means self.now.source.now) (take (length (S.CaseSource.means self.now.source.now).pairs) arms.places) V.TimeMeasure.ranking) times.old times.new result }
    {
        // Kept: the bound is lent a copy of the arms, in which it may try others, a rule of this project.
        let mut places = arms.places;
        self.bound.ask(self.source, &mut places, times)
    }

    /// Looks at a full selection: where it has least times, the longest path is their delay, which may make it the plan.
    fn look<V: TimeMeasure>(&self, arms: Arms, table: &mut Table<V>, times: &mut [V])
        requires { (S.CaseSource.means self.now.source.now).end < length times.old }
        ensures place { table.new.place ≡ table.old.place }
        ensures stepped { Stepped V.TimeMeasure.rank (S.CaseSource.means self.now.source.now) (looked_at (S.CaseSource.means self.now.source.now) V.TimeMeasure.ranking (take (length (S.CaseSource.means self.now.source.now).pairs) arms.places)) table.old table.new times.old times.new }
    {
        let longest = Problem {
            source: self.source,
            bound: &LongestPath,
        };
        if let Some(delay) = longest.bound_of(arms, times) {
            table.improve(arms, delay);
        }
    }

    /// Examines the next node.
    fn examine<V: TimeMeasure>(&self, node: Node, table: &mut Table<V>, times: &mut [V])
        requires next { table.old.place.next ≡ Some node }
        requires room { (S.CaseSource.means self.now.source.now).end < length times.old }
        ensures { Stepped V.TimeMeasure.rank (S.CaseSource.means self.now.source.now) (examined (S.CaseSource.means self.now.source.now) V.TimeMeasure.ranking (B.Bound.meaning self.now.bound.now)) table.old table.new times.old times.new }
    {
        let arms = node.joined(&table.holds);
        let found = self.bound_of(arms, times);
        if table.is_cut(found) {
            table.go_on(node.turned());
        } else if node.depth < table.holds.free(self.source.pair_count()) {
            table.go_on(Some(node.branched()));
        } else {
            self.look(arms, table, times);
            table.go_on(node.turned());
        }
    }

    /// Examines nodes until the search has finished, as many as the budget says at the most, and answers how many.
    pub(crate) fn walk<V: TimeMeasure>(
        &self,
        budget: u64,
        table: &mut Table<V>,
        times: &mut [V],
    ) -> u64
        requires { (S.CaseSource.means self.now.source.now).end < length times.old }
        ensures count { table.new.place.count ≡ table.old.place.count + result }
        ensures stepped { Stepped V.TimeMeasure.rank (S.CaseSource.means self.now.source.now) (walked (S.CaseSource.means self.now.source.now) V.TimeMeasure.ranking (B.Bound.meaning self.now.bound.now) budget) table.old table.new times.old times.new }
    {
        for done in 0..budget {
            let Some(node) = table.place.next else {
                return done;
            };
            self.examine(node, table, times);
        }
        budget
    }

    /// The least of the plan's delay and the bounds of the nodes that are left: the next one, and those that wait.
    fn least_left<V: TimeMeasure>(&self, node: Node, table: &Table<V>, times: &mut [V]) -> Option<V>
        requires { (S.CaseSource.means self.now.source.now).end < length times.old }
        ensures { Ranked V.TimeMeasure.rank (S.CaseSource.means self.now.source.now) (least_left (S.CaseSource.means self.now.source.now) V.TimeMeasure.ranking (B.Bound.meaning self.now.bound.now) (take (length (S.CaseSource.means self.now.source.now).pairs) table.now.holds.places) (node_of node) (plan_of V.TimeMeasure.rank (length (S.CaseSource.means self.now.source.now).pairs) table.now.plan)) times.old times.new result }
    {
        let found = self.bound_of(node.joined(&table.holds), times);
        let mut least = earlier(table.plan_delay(), found);
        for (at, arm) in node.arms.places[..node.depth].iter().enumerate() {
            if *arm == 1 {
                let found = self.bound_of(node.turned_at(at).joined(&table.holds), times);
                least = earlier(least, found);
            }
        }
        least
    }

    /// The lower bound that is on show after a search.
    pub(crate) fn lower_after<V: TimeMeasure>(&self, table: &Table<V>, times: &mut [V]) -> V
        requires { (S.CaseSource.means self.now.source.now).end < length times.old }
        ensures { Ranked V.TimeMeasure.rank (S.CaseSource.means self.now.source.now) (Some (lower_after (S.CaseSource.means self.now.source.now) V.TimeMeasure.ranking (B.Bound.meaning self.now.bound.now) (table_of V.TimeMeasure.rank (length (S.CaseSource.means self.now.source.now).pairs) table.now))) times.old times.new (Some result) }
    {
        match table.place.next {
            Some(node) => raised(table.lower, self.least_left(node, table, times)),
            None => table.plan_delay().unwrap_or(table.lower),
        }
    }

    /// Leaves the plan's least times in the first places, one for each event, or zeros where there is no plan.
    pub(crate) fn show<V: TimeMeasure>(&self, table: &Table<V>, times: &mut [V])
        requires { (S.CaseSource.means self.now.source.now).end < length times.old }
        ensures times { Shows V.TimeMeasure.rank times.new (plan_times (S.CaseSource.means self.now.source.now) V.TimeMeasure.ranking (plan_of V.TimeMeasure.rank (length (S.CaseSource.means self.now.source.now).pairs) table.now.plan)) }
        ensures behind { drop ((S.CaseSource.means self.now.source.now).end + 1) times.new ≡ drop ((S.CaseSource.means self.now.source.now).end + 1) times.old }
    {
        match table.plan {
            Some(plan) => {
                let _ = least_times(self.source, &plan.arms.places, times);
            }
            None => {
                let _ = clear_times(self.source, times);
            }
        }
    }
}

/// The later of a time and another, if there is one.
fn raised<V: TimeMeasure>(lower: V, least: Option<V>) -> V
    ensures { (z : Option ℤ) → RankIs V.TimeMeasure.rank least z → V.TimeMeasure.rank result ≡ raised_to z (V.TimeMeasure.rank lower) }
{
    least.map_or(
        lower,
        |time| if time.is_below(lower) { lower } else { time },
    )
}
