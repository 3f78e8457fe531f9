ghost use Rattle.std.specs.Prelude.{◌≡◌};
ghost use Rattle.graph.specs.Graph.{selection_of};
ghost use Rattle.strangers.specs.Strange.{decided, until_decided};
ghost use Rattle.strangers.specs.Strangely.{until_lower};

use bounds::{Bound, LongestPath};
use graph::{CaseSource, TimeMeasure};

/// The longest path while a pair is undecided, and rank 0 from then on: a lower bound that falls along the tree.
#[derive(Clone, Copy, Debug, PartialEq, Eq)]
pub struct UntilDecided {
    pub pair: usize,
}

/// Whether an arm of a pair is selected.
fn is_decided<S: CaseSource>(source: &S, arms: &[u8; 60], pair: usize) -> bool
    ensures { result ≡ decided (selection_of (S.CaseSource.means source.now).pairs arms.now) pair }
{
    pair < source.pair_count() && (arms[pair] == 1 || arms[pair] == 2)
}

impl Bound for UntilDecided {
    ghost meaning = { λ b. until_decided b.pair };

    ghost lower = { λ b. until_lower b.pair };

    fn ask<S: CaseSource, V: TimeMeasure>(
        &self,
        source: &S,
        arms: &mut [u8; 60],
        times: &mut [V],
    ) -> Option<V> {
        if is_decided(source, arms, self.pair) {
            Some(V::zero())
        } else {
            LongestPath.ask(source, arms, times)
        }
    }
}
