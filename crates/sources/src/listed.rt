ghost use Rattle.std.specs.Prelude.{◌≡◌, IfOk};
ghost use Rattle.messages.specs.Message.{listed_fault, TakesLimits};
ghost use Rattle.messages.specs.Told.{case_told};
ghost use Rattle.sources.specs.Lists.{listed, listed_case};

use super::checked::Checked;
use super::records::Records;
use graph::{Arc, CaseSource, Pair};
use messages::CaseFault;

/// The case that is listed.
pub type Listed<'a> = Checked<'a, Arc, Pair>;

/// Checks a case that is listed: its sizes, then each arc.
// Kept: end, arcs and pairs are handed in one by one, a public signature.
pub fn check_listed<'a>(end: usize, fixed: &'a [Arc], pairs: &'a [Pair]) -> Result<(), CaseFault>
    ensures told { case_told result ≡ listed_fault (listed end fixed.now pairs.now) }
    ensures law { TakesLimits (listed end fixed.now pairs.now) }
{
    Listed::read(end, fixed, pairs).map(|_| ())
}

impl<'a> Checked<'a, Arc, Pair> {
    /// The case that is listed, if it passes its check.
    pub fn read(end: usize, fixed: &'a [Arc], pairs: &'a [Pair]) -> Result<Listed<'a>, CaseFault>
        ensures told { case_told result ≡ listed_fault (listed end fixed.now pairs.now) }
        ensures means { IfOk result (λ s. ⟦<Listed<'a> as CaseSource>⟧.means s ≡ listed_case end fixed.now pairs.now) }
        ensures law { TakesLimits (listed end fixed.now pairs.now) }
    {
        Checked::of(Records { end, fixed, pairs })
    }

    /// The case that is listed; where the check refuses it, the empty case.
    pub fn over(end: usize, fixed: &'a [Arc], pairs: &'a [Pair]) -> Listed<'a>
        ensures { ⟦<Listed<'a> as CaseSource>⟧.means result ≡ listed_case end fixed.now pairs.now }
    {
        Listed::read(end, fixed, pairs).unwrap_or(Checked::empty())
    }
}
