ghost use Rattle.std.specs.Prelude.{◌≡◌, ◌+◌, ◌*◌, ◌≤◌, ◌++◌, [], length};
ghost use Rattle.graph.specs.Views.{arc_of};
ghost use Rattle.trains.specs.Railway.{trip_arcs, all_arcs, arc, running_sum};
ghost use Rattle.railway.specs.Tables.{listed, arcs_in};
ghost use Rattle.railway.specs.Trips.{trip_of, trips_left};

use super::table::Table;
use super::trip::{Trip, Trips};
use graph::Arc;

/// A fixed arc: it asks for no mark.
pub(crate) fn fixed_arc(from: u16, to: u16, weight: i32) -> Arc
    ensures { arc_of result ≡ arc from to weight 0 }
{
    Arc {
        from,
        to,
        weight,
        mark: 0,
    }
}

impl<'a> Trip<'a> {
    /// The seconds of all steps together.
    fn running(&self) -> u32
        ensures is { result ≡ running_sum self.now.steps.now }
        ensures few { result ≤ 65535 * 16 }
    {
        // Kept: as a chain with `sum`, the bound did not prove.
        let mut sum = 0;
        for step in self.steps {
            sum += u32::from(step.running);
        }
        sum
    }

    /// Lists the arcs of the trip: from the start, then one for each step, then to the end.
    fn list_arcs(&self, end: u16, arcs: &mut Table<Arc, 216>)
        requires { length (listed arcs.old) + (length self.now.steps.now + 2) ≤ 216 }
        ensures count { length (listed arcs.new) ≡ length (listed arcs.old) + (length self.now.steps.now + 2) }
        ensures arcs { arcs_in arcs.new ≡ arcs_in arcs.old ++ trip_arcs end (trip_of self.now) }
    {
        arcs.push(fixed_arc(0, self.first, self.entry as i32));
        for (at, step) in self.steps.iter().enumerate() {
            let event = self.first + at as u16;
            arcs.push(fixed_arc(event, event + 1, i32::from(step.running)));
        }
        let exit = self.first + self.steps.len() as u16;
        let latest = self.due.max(self.entry + self.running());
        arcs.push(fixed_arc(exit, end, -(latest as i32)));
    }
}

/// The table without arcs.
pub(crate) fn no_arcs() -> Table<Arc, 216>
    ensures { listed result ≡ [] }
{
    Table::new(fixed_arc(0, 0, 0))
}

/// Lists the fixed arcs of all trips.
pub(crate) fn list_fixed(trips: Trips, end: u16) -> Table<Arc, 216>
    requires { length (trips_left trips) ≤ 12 }
    ensures { arcs_in result ≡ all_arcs end (trips_left trips.entry) }
{
    let mut arcs = no_arcs();
    for trip in trips {
        trip.list_arcs(end, &mut arcs);
    }
    arcs
}
