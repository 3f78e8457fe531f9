ghost use Rattle.std.specs.Prelude.{◌≡◌, ◌<◌, ◌≤◌, if◌then◌else◌, ◌==◌, nat_le};
ghost use Rattle.bounds.specs.Bounds.{look_ahead, with_arm, with_either};
ghost use Rattle.bounds.specs.Told.{BoundTold};
ghost use Rattle.bounds.specs.Lower.{ahead_lower};

use super::bound::Bound;
use super::compare::{earlier, later};
use super::longest::LongestPath;
use super::trial::Trial;
use graph::{CaseSource, TimeMeasure};

/// Whether an arm leaves its pair undecided: each but 1 and 2 does.
fn is_undecided(arm: u8) -> bool
    ensures { result ≡ ((if nat_le arm 2 then arm else 0) == 0) }
{
    arm == 0 || arm > 2
}

/// The longest path with an arm of a pair, for which the arms are lent to a trial.
// Kept: a pair is below 60 and an arm at most 2, here and in the planner; a type would be taken apart at each byte.
fn with_arm<S: CaseSource, V: TimeMeasure>(
    source: &S,
    arms: &mut [u8; 60],
    times: &mut [V],
    pair: usize,
    arm: u8,
) -> Option<V>
    requires pair { pair < 60 }
    requires arm { arm ≤ 2 }
    ensures { BoundTold V.TimeMeasure.rank V.TimeMeasure.ranking (S.CaseSource.means source.now) (with_arm pair arm) arms.old arms.new times.old times.new result }
{
    let before = arms[pair];
    let trial = Trial { arms, pair, before };
    trial.arms[pair] = arm;
    LongestPath.ask(source, trial.arms, times)
}

/// The longest path with the better arm of a pair.
fn with_either<S: CaseSource, V: TimeMeasure>(
    source: &S,
    arms: &mut [u8; 60],
    times: &mut [V],
    pair: usize,
) -> Option<V>
    requires { pair < 60 }
    ensures { BoundTold V.TimeMeasure.rank V.TimeMeasure.ranking (S.CaseSource.means source.now) (with_either pair) arms.old arms.new times.old times.new result }
{
    let first = with_arm(source, arms, times, pair, 1);
    let second = with_arm(source, arms, times, pair, 2);
    earlier(first, second)
}

/// The longest path, and one pair ahead: each undecided pair is tried with either arm, and its value is the smaller
/// longest path. The answer is the largest of these and the longest path.
#[derive(Clone, Copy, Debug, PartialEq, Eq)]
pub struct LookAhead;

impl Bound for LookAhead {
    ghost meaning = { λ _. look_ahead };

    ghost lower = { λ b. ahead_lower };

    fn ask<S: CaseSource, V: TimeMeasure>(
        &self,
        source: &S,
        arms: &mut [u8; 60],
        times: &mut [V],
    ) -> Option<V> {
        let mut best = LongestPath.ask(source, arms, times);
        // Kept: the whole table of arms is lent to each trial, so nothing may iterate over it meanwhile.
        for pair in 0..source.pair_count() {
            if is_undecided(arms[pair]) {
                let tried = with_either(source, arms, times, pair);
                best = later(best, tried);
            }
        }
        best
    }
}
