//! What a planner keeps from call to call.
ghost use Rattle.std.specs.Prelude.{◌≡◌};

use crate::arms::Arms;
use crate::node::Node;
use crate::place::Place;
use graph::TimeMeasure;

/// A full selection and the delay of its least times.
#[derive(Clone, Copy)]
pub(crate) struct Plan<V> {
    pub arms: Arms,
    pub delay: V,
}

/// The held arms, where the walk stands, and what is on show.
#[derive(Clone, Copy)]
pub(crate) struct Table<V> {
    pub holds: Arms,
    pub place: Place,
    pub plan: Option<Plan<V>>,
    pub lower: V,
}

impl<V: TimeMeasure> Table<V> {
    ghost use Rattle.std.specs.Prelude.{ℕ, ◌+◌, ◌≤◌, List, take, ℤ, pos, Some, Option, slice_index};
    ghost use Rattle.search.specs.Search as Search;
    ghost use Rattle.search.specs.Search.{moved_to, cuts, better, plan_delay};
    ghost use Rattle.bounds.specs.Told.{RankIs};
    ghost use Rattle.search.specs.Room.{room_after};
    ghost use Rattle.planner.specs.Nodes.{found};
    ghost use Rattle.planner.specs.View.{plan_of, table_of, replanned, betters};

    /// A table that holds these arms and has searched nothing.
    pub(crate) fn fresh(holds: Arms) -> Table<V>
        ensures { (n : ℕ) → table_of V.TimeMeasure.rank n result ≡ Search.fresh (take n holds.places) }
    {
        Table {
            holds,
            place: Place::start(),
            plan: None,
            lower: V::zero(),
        }
    }

    /// Goes on to another node, or finishes, with one node more examined.
    pub(crate) fn go_on(&mut self, next: Option<Node>)
        requires { room_after 60 (found next) + 1 ≤ room_after 60 (found self.old.place.next) }
        ensures { (n : ℕ) → table_of V.TimeMeasure.rank n self.new ≡ moved_to (table_of V.TimeMeasure.rank n self.old) (plan_of V.TimeMeasure.rank n self.old.plan) (found next) }
    {
        self.place.go_on(next);
    }

    /// The plan's delay.
    pub(crate) fn plan_delay(&self) -> Option<V>
        ensures { (n : ℕ) → RankIs V.TimeMeasure.rank result (plan_delay (plan_of V.TimeMeasure.rank n self.now.plan)) }
    {
        self.plan.map(|plan| plan.delay)
    }

    /// Whether a node with this bound is cut: the bound is none, or not below the plan's delay.
    pub(crate) fn is_cut(&self, bound: Option<V>) -> bool
        ensures { (n : ℕ) (z : Option ℤ) → RankIs V.TimeMeasure.rank bound z → result ≡ cuts z (plan_of V.TimeMeasure.rank n self.now.plan) }
    {
        bound.is_none_or(|time| self.plan_delay().is_some_and(|delay| !time.is_below(delay)))
    }

    /// Whether there is no plan, or this delay is below the plan's.
    fn is_better(&self, delay: V) -> bool
        ensures { (n : ℕ) → result ≡ betters (V.TimeMeasure.rank delay) (plan_of V.TimeMeasure.rank n self.now.plan) }
    {
        self.plan_delay().is_none_or(|best| delay.is_below(best))
    }

    /// Takes a full selection with this delay for the plan, unless there is one with a delay that is as small.
    pub(crate) fn improve(&mut self, arms: Arms, delay: V)
        ensures place { self.new.place ≡ self.old.place }
        ensures plan { (n e : ℕ) (ts : List ℕ) → V.TimeMeasure.rank delay ≡ pos (slice_index ts e) → table_of V.TimeMeasure.rank n self.new ≡ replanned (table_of V.TimeMeasure.rank n self.old) (better (take n arms.places) e (Some ts) (plan_of V.TimeMeasure.rank n self.old.plan)) }
    {
        if self.is_better(delay) {
            self.plan = Some(Plan { arms, delay });
        }
    }
}
