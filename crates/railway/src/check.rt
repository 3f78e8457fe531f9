ghost use Rattle.std.specs.Prelude.{◌≡◌, ◌≤◌, Bool, Some, length, MatchResult};
ghost use Rattle.std.specs.List.{position_from};
ghost use Rattle.trains.specs.Named.{of_railway};
ghost use Rattle.trains.specs.Railway.{train_breaks, step_breaks, steps_of, railway_fault};
ghost use Rattle.railway.specs.Sound.{Sound, pairs_fault};

use trains::{RailwayFault, Step, Train};

/// What has limits of its own.
trait Limited: Copy {
    ghost breaks: { Self → Bool };

    /// Whether a field is past its limit.
    fn breaks_limit(self) -> bool
        ensures { result ≡ breaks self };
}

impl Limited for Train {
    ghost breaks = { train_breaks };

    fn breaks_limit(self) -> bool {
        self.entry > 86_400 || self.due > 86_400 || self.steps == 0 || self.steps > 16
    }
}

impl Limited for Step {
    ghost breaks = { step_breaks };

    fn breaks_limit(self) -> bool {
        self.section > 63 || self.running == 0 || self.running > 3_600
    }
}

/// The first that breaks a limit.
fn first_breaking<T: Limited>(all: &[T]) -> Option<usize>
    ensures { result ≡ position_from T.breaks 0 all.now }
{
    all.iter().position(|each| each.breaks_limit())
}

/// How many steps the trains ask for.
fn step_count(trains: &[Train]) -> usize
    requires { length trains.now ≤ 12 }
    ensures { result ≡ steps_of trains.now }
{
    trains.iter().map(|train| usize::from(train.steps)).sum()
}

/// Checks the number of trains, each train, the number of steps and each step.
#[tactic(auto, using(crate::proofs::Checking::first_train_fault, crate::proofs::Checking::first_step_fault))]
pub(crate) fn check_limits(trains: &[Train], steps: &[Step]) -> Result<(), RailwayFault>
    ensures told { MatchResult result (λ _. railway_fault trains.now steps.now ≡ pairs_fault trains.now steps.now) (λ f. railway_fault trains.now steps.now ≡ Some (of_railway f)) }
    ensures sound { MatchResult result (λ _. Sound trains.now steps.now) (λ _. Unit {0}) }
{
    if trains.len() > 12 {
        return Err(RailwayFault::TooManyTrains);
    }
    if let Some(at) = first_breaking(trains) {
        return Err(RailwayFault::Train(at));
    }
    if steps.len() != step_count(trains) {
        return Err(RailwayFault::Steps(steps.len()));
    }
    if let Some(at) = first_breaking(steps) {
        return Err(RailwayFault::Step(at));
    }
    Ok(())
}
