ghost use Rattle.std.specs.Prelude.{◌≡◌, IfOk};
ghost use Rattle.trains.specs.Named.{railway_told};
ghost use Rattle.trains.specs.Railway.{railway_fault, railway_case};
ghost use Rattle.trains.specs.Running.{RunsLaw};
ghost use Rattle.railway.specs.Tables.{arcs_in, pairs_in};
ghost use Rattle.trains.proofs.Railways.{railway_within};

use super::check::check_limits;
use super::fixed::{list_fixed, no_arcs};
use super::pairs::{list_pairs, no_pairs};
use super::table::{Full, Table};
use super::trip::Trips;
use graph::{Arc, CaseSource, Pair};
use trains::{RailwayFault, Step, Train};

/// Of the two tables of a railway only that of the pairs can be full.
// Kept: no variant carries what a derived `From` would be made of.
impl From<Full> for RailwayFault {
    ghost use Rattle.trains.specs.declared.faults.RailwayFault.TheVariants.{TooManyPairs};

    ghost from_gives = { λ _ fault. fault ≡ TooManyPairs };

    fn from(_full: Full) -> RailwayFault {
        RailwayFault::TooManyPairs
    }
}

/// Checks the limits, and lists the pairs: not `Railway::read`, which lists the fixed arcs too.
fn check_parts(trains: &[Train], steps: &[Step]) -> Result<(), RailwayFault>
    ensures { railway_told result ≡ railway_fault trains.now steps.now }
{
    check_limits(trains, steps)?;
    list_pairs(Trips::over(trains, steps))?;
    Ok(())
}

/// Checks a railway: the number of trains, each train, the number of steps, each step, the number of pairs. A timetable
/// keeps the case of a railway that passes exactly where the railway can run by it.
// Kept: trains and steps are handed in one by one, here and below, a public signature.
pub fn check_railway(trains: &[Train], steps: &[Step]) -> Result<(), RailwayFault>
    ensures told { railway_told result ≡ railway_fault trains.now steps.now }
    ensures law { RunsLaw trains.now steps.now }
{
    check_parts(trains, steps)?;
    Ok(())
}

/// The case of the trains and steps that it was made over; where the check refuses them, the empty case. Its arcs and
/// pairs stand in tables that are made once, so that each answer is one look.
#[derive(Clone, Copy)]
pub struct Railway<'a> {
    trains: &'a [Train],
    steps: &'a [Step],
    end: usize,
    /// At most 12 trains have at most 18 fixed arcs each.
    fixed: Table<Arc, 216>,
    pairs: Table<Pair, 60>,
    ghost last: { end ≡ (railway_case trains.now steps.now).end },
    ghost fixed_listed: { arcs_in fixed ≡ (railway_case trains.now steps.now).fixed },
    ghost pairs_listed: { pairs_in pairs ≡ (railway_case trains.now steps.now).pairs },
}

impl<'a> Railway<'a> {
    /// The railway of these trains, whose steps stand in one list, train by train, where it passes its check. A timetable
    /// keeps its case exactly where the railway can run by it.
    pub fn read(trains: &'a [Train], steps: &'a [Step]) -> Result<Railway<'a>, RailwayFault>
        ensures told { railway_told result ≡ railway_fault trains.now steps.now }
        ensures read { IfOk result (λ r. (r.trains.now ≡ trains.now) × (r.steps.now ≡ steps.now)) }
        ensures law { RunsLaw trains.now steps.now }
    {
        check_limits(trains, steps)?;
        let trips = Trips::over(trains, steps);
        let pairs = list_pairs(trips)?;
        let end = 1 + trains.len() + steps.len();
        Ok(Railway {
            trains,
            steps,
            end,
            fixed: list_fixed(trips, end as u16),
            pairs,
        })
    }

    /// The railway of these trains, whose steps stand in one list, train by train.
    pub fn over(trains: &'a [Train], steps: &'a [Step]) -> Railway<'a>
        ensures trains { result.trains.now ≡ trains.now }
        ensures steps { result.steps.now ≡ steps.now }
    {
        // Kept: not `unwrap_or`, since empty tables may stand for a railway only where its check has refused it.
        match Railway::read(trains, steps) {
            Ok(railway) => railway,
            Err(_) => Railway {
                trains,
                steps,
                end: 1,
                fixed: no_arcs(),
                pairs: no_pairs(),
            },
        }
    }
}

impl<'a> CaseSource for Railway<'a> {
    ghost means = { λ s. railway_case s.trains.now s.steps.now };

    ghost within = { λ s. railway_within s.trains.now s.steps.now };

    fn end(&self) -> usize {
        self.end
    }

    fn fixed_count(&self) -> usize {
        self.fixed.as_slice().len()
    }

    fn pair_count(&self) -> usize {
        self.pairs.as_slice().len()
    }

    fn fixed_arc(&self, at: usize) -> Option<Arc> {
        self.fixed.as_slice().get(at).copied()
    }

    fn arm(&self, pair: usize, arm: u8) -> Option<Arc> {
        self.pairs.as_slice().get(pair)?.arm(arm)
    }
}
