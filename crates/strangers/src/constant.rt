ghost use Rattle.strangers.specs.Strange.{rank_zero};
ghost use Rattle.strangers.specs.Strangely.{zero_lower};

use bounds::Bound;
use graph::{CaseSource, TimeMeasure};

/// Rank 0 for every selection: the weakest lower bound.
#[derive(Clone, Copy, Debug, PartialEq, Eq)]
pub struct RankZero;

impl Bound for RankZero {
    ghost meaning = { λ _. rank_zero };

    ghost lower = { λ b. zero_lower };

    fn ask<S: CaseSource, V: TimeMeasure>(
        &self,
        _source: &S,
        _arms: &mut [u8; 60],
        _times: &mut [V],
    ) -> Option<V> {
        Some(V::zero())
    }
}
