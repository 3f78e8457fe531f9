ghost use Rattle.bounds.specs.Bounds.{longest_path};
ghost use Rattle.bounds.specs.Lower.{longest_lower};

use super::bound::Bound;
use graph::{CaseSource, TimeMeasure, least_times};

/// The longest path: the least time of the last event.
#[derive(Clone, Copy, Debug, PartialEq, Eq)]
pub struct LongestPath;

impl Bound for LongestPath {
    ghost meaning = { λ _. longest_path };

    ghost lower = { λ b. longest_lower };

    fn ask<S: CaseSource, V: TimeMeasure>(
        &self,
        source: &S,
        arms: &mut [u8; 60],
        times: &mut [V],
    ) -> Option<V> {
        match least_times(source, arms, times) {
            Ok(true) => Some(times[source.end()]),
            Ok(false) => None,
            Err(_) => Some(V::zero()),
        }
    }
}
