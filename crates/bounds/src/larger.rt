ghost use Rattle.bounds.specs.Bounds.{larger_of};
ghost use Rattle.bounds.specs.Lower.{larger_lower};

use super::bound::Bound;
use super::compare::later;
use graph::{CaseSource, TimeMeasure};

/// The larger of two bounds.
#[derive(Clone, Copy, Debug, PartialEq, Eq)]
pub struct Larger<A, B> {
    pub one: A,
    pub other: B,
}

impl<A: Bound, B: Bound> Bound for Larger<A, B> {
    ghost meaning = { λ b. larger_of (A.Bound.meaning b.one) (B.Bound.meaning b.other) };

    ghost lower = { λ b. larger_lower (A.Bound.meaning b.one) (B.Bound.meaning b.other) (A.Bound.lower b.one) (B.Bound.lower b.other) };

    fn ask<S: CaseSource, V: TimeMeasure>(
        &self,
        source: &S,
        arms: &mut [u8; 60],
        times: &mut [V],
    ) -> Option<V> {
        let one = self.one.ask(source, arms, times);
        let other = self.other.ask(source, arms, times);
        later(one, other)
    }
}
