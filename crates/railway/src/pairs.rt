ghost use Rattle.std.specs.Prelude.{◌≡◌, ◌+◌, ◌<◌, ◌≤◌, [], length, pos, MatchResult};
ghost use Rattle.graph.specs.Views.{arc_of, pair_of};
ghost use Rattle.trains.specs.Kinds.{separation};
ghost use Rattle.trains.specs.Railway.{arc, met, step_pairs, trip_pairs, pairs_with, all_pairs};
ghost use Rattle.railway.specs.Tables.{listed, pairs_in, Added};
ghost use Rattle.railway.specs.Trips.{trip_of, trips_left};

use super::fixed::fixed_arc;
use super::table::{Full, Table};
use super::trip::{Trip, Trips};
use graph::{Arc, Pair};
use trains::{Kind, Step};

/// The arm by which a train of one kind goes before one of another.
// Kept: here and below an event is bounded for one addition each; a type for it would be longer than the clauses.
fn arm(first: Kind, begins: u16, then: Kind, then_begins: u16) -> Arc
    requires { begins ≤ 1000 }
    ensures { arc_of result ≡ arc (begins + 1) then_begins (pos (separation first then)) 1 }
{
    Arc {
        from: begins + 1,
        to: then_begins,
        weight: i32::from(first.separation(then)),
        mark: 1,
    }
}

/// The pair of two steps on one section, by the events at which they begin.
fn meeting(one: Kind, other: Kind, begins: u16, other_begins: u16) -> Pair
    requires begins { begins ≤ 1000 }
    requires follows { other_begins ≤ 1000 }
    ensures { pair_of result ≡ met one other begins other_begins }
{
    Pair {
        first: arm(one, begins, other, other_begins),
        second: arm(other, other_begins, one, begins),
    }
}

impl<'a> Trip<'a> {
    /// Lists the pairs of one step with the steps of another train.
    fn list_step(
        &self,
        begins: u16,
        step: Step,
        other: &Trip,
        pairs: &mut Table<Pair, 60>,
    ) -> Result<(), Full>
        requires { begins ≤ 1000 }
        ensures { Added (step_pairs (trip_of self.now) (trip_of other.now) begins step other.now.first other.now.steps.now) pairs.old pairs.new result }
    {
        for (at, passed) in other.steps.iter().enumerate() {
            if step.section == passed.section {
                let passes = other.first + at as u16;
                pairs.try_push(meeting(self.kind, other.kind, begins, passes))?;
            }
        }
        Ok(())
    }

    /// Lists the pairs with another train.
    fn list_meetings(&self, other: &Trip, pairs: &mut Table<Pair, 60>) -> Result<(), Full>
        ensures { Added (trip_pairs (trip_of self.now) (trip_of other.now) self.now.first self.now.steps.now) pairs.old pairs.new result }
    {
        for (at, step) in self.steps.iter().enumerate() {
            self.list_step(self.first + at as u16, *step, other, pairs)?;
        }
        Ok(())
    }

    /// Lists the pairs with each of the others.
    #[tactic(auto, using(crate::proofs::Tables::too_many))]
    fn list_with(&self, others: Trips, pairs: &mut Table<Pair, 60>) -> Result<(), Full>
        ensures { Added (pairs_with (trip_of self.now) (trips_left others.entry)) pairs.old pairs.new result }
    {
        for other in others {
            self.list_meetings(&other, pairs)?;
        }
        Ok(())
    }
}

/// The table without pairs.
pub(crate) fn no_pairs() -> Table<Pair, 60>
    ensures { listed result ≡ [] }
{
    let blank = fixed_arc(0, 0, 0);
    Table::new(Pair {
        first: blank,
        second: blank,
    })
}

/// Lists the pairs of all trains, each with those after it.
pub(crate) fn list_pairs(trips: Trips) -> Result<Table<Pair, 60>, Full>
    ensures { MatchResult result (λ pairs. pairs_in pairs ≡ all_pairs (trips_left trips.entry)) (λ _. 60 < length (all_pairs (trips_left trips.entry))) }
{
    let mut pairs = no_pairs();
    let mut later = trips;
    while let Some(one) = later.next() {
        one.list_with(later, &mut pairs)?;
    }
    Ok(pairs)
}
