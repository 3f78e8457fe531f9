ghost use Rattle.std.specs.Prelude.{◌≡◌, ◌+◌, ◌*◌, ◌≤◌, length, false};
ghost use Rattle.std.specs.List.{list_any};
ghost use Rattle.trains.specs.Railway.{train_breaks, steps_of};

use trains::{Kind, Step, Train};

/// A train that passes its checks, with its first event and its own steps.
#[derive(Clone, Copy)]
pub(crate) struct Trip<'a> {
    pub kind: Kind,
    pub entry: u32,
    pub due: u32,
    pub first: u16,
    pub steps: &'a [Step],
    ghost early_entry: { entry ≤ 86400 },
    ghost early_due: { due ≤ 86400 },
    ghost few: { length steps.now ≤ 16 },
    ghost events: { first + length steps.now ≤ 1000 },
}

/// The trips of trains that pass their checks, one after the other: each has an event for each step and one for its exit.
#[derive(Clone, Copy)]
pub(crate) struct Trips<'a> {
    trains: &'a [Train],
    steps: &'a [Step],
    first: u16,
    ghost sound: { list_any train_breaks trains.now ≡ false },
    ghost long: { length steps.now ≡ steps_of trains.now },
    ghost events: { first + 17 * length trains.now ≤ 1000 },
}

impl<'a> Trips<'a> {
    ghost use Rattle.trains.specs.Railway.{trips};
    ghost use Rattle.railway.specs.Sound.{Sound};
    ghost use Rattle.railway.specs.Trips.{trips_left};

    /// The trips of these trains, whose steps stand in one list, train by train.
    pub(crate) fn over(trains: &'a [Train], steps: &'a [Step]) -> Trips<'a>
        requires { Sound trains.now steps.now }
        ensures { trips_left result ≡ trips 1 trains.now steps.now }
    {
        Trips {
            trains,
            steps,
            first: 1,
        }
    }
}

impl<'a> Iterator for Trips<'a> {
    type Item = Trip<'a>;

    ghost use Rattle.std.specs.Iterator.{YieldsFirstBy, item_count};
    ghost use Rattle.railway.specs.Trips.{trip_of, trips_left};

    ghost next_gives = { YieldsFirstBy trip_of trips_left };

    ghost remaining = { item_count trips_left };

    fn next(&mut self) -> Option<Trip<'a>> {
        let (train, trains) = self.trains.split_first()?;
        let (own, steps) = self.steps.split_at(usize::from(train.steps));
        let trip = Trip {
            kind: train.kind,
            entry: train.entry,
            due: train.due,
            first: self.first,
            steps: own,
        };
        *self = Trips {
            trains,
            steps,
            first: self.first + u16::from(train.steps) + 1,
        };
        Some(trip)
    }
}
