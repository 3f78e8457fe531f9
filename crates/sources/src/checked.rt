ghost use Rattle.std.specs.Prelude.{◌≡◌, [], IfOk, None, ⊤};
ghost use Rattle.graph.specs.Graph.{empty_case};
ghost use Rattle.messages.specs.Message.{listed_fault};
ghost use Rattle.messages.specs.Told.{case_told};
ghost use Rattle.messages.proofs.Messages.{listed_within};
ghost use Rattle.sources.specs.Records.{listed_by};

use super::check::check_case;
use super::records::{Record, Records};
use graph::{Arc, CaseSource, Pair};
use messages::CaseFault;
use std::alloc::AllocError;

/// The records of a case, checked.
#[derive(Copy)]
pub struct Checked<'a, A: Record<Arc>, P: Record<Pair>> {
    pub(crate) records: Records<'a, A, P>,
    ghost passed: { listed_fault (listed_by A.value P.value records) ≡ None },
}

// Kept: no derive writes `Clone` over a ghost field in a struct with type parameters.
impl<'a, A: Record<Arc>, P: Record<Pair>> Clone for Checked<'a, A, P> {
    ghost is_clone = { λ x y. y ≡ x };

    ghost is_infallible = { λ _. ⊤ };

    fn clone(&self) -> Result<Self, AllocError> {
        Ok(*self)
    }
}

impl<'a, A: Record<Arc>, P: Record<Pair>> Checked<'a, A, P> {
    /// Checks the records of a case.
    pub(crate) fn of(records: Records<'a, A, P>) -> Result<Checked<'a, A, P>, CaseFault>
        ensures told { case_told result ≡ listed_fault (listed_by A.value P.value records.entry) }
        ensures same { IfOk result (λ c. c.records ≡ records.entry) }
    {
        check_case(records)?;
        Ok(Checked { records })
    }

    /// The empty case.
    pub(crate) fn empty() -> Checked<'a, A, P>
        ensures { listed_by A.value P.value result.records ≡ empty_case }
    {
        let records = Records {
            end: 1,
            fixed: &[],
            pairs: &[],
        };
        Checked { records }
    }
}

impl<'a, A: Record<Arc>, P: Record<Pair>> CaseSource for Checked<'a, A, P> {
    ghost means = { λ s. listed_by A.value P.value s.records };

    ghost within = { λ s. listed_within (listed_by A.value P.value s.records) s.passed };

    fn end(&self) -> usize {
        self.records.end
    }

    fn fixed_count(&self) -> usize {
        self.records.fixed.len()
    }

    fn pair_count(&self) -> usize {
        self.records.pairs.len()
    }

    fn fixed_arc(&self, at: usize) -> Option<Arc> {
        self.records.fixed.get(at).copied().map(A::read)
    }

    fn arm(&self, pair: usize, arm: u8) -> Option<Arc> {
        // First, since of a selection most pairs may be undecided, and each round asks for the arm of each.
        if arm == 0 || arm > 2 {
            return None;
        }
        let pair = *self.records.pairs.get(pair)?;
        P::read(pair).arm(arm)
    }
}
