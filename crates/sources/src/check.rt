ghost use Rattle.std.specs.Prelude.{◌≡◌, ◌≤◌, length};
ghost use Rattle.graph.specs.Views.{arc_of};
ghost use Rattle.messages.specs.Message.{arc_fault, arcs_fault, listed_fault};
ghost use Rattle.messages.specs.Told.{case_told};
ghost use Rattle.sources.specs.Records.{listed_by};

use super::records::{Record, Records};
use graph::{Arc, Pair};
use messages::CaseFault;

/// Checks an arc against the limits of a case; `number` is the arc's place in a fault.
fn check_arc(end: usize, number: usize, arc: Arc) -> Result<(), CaseFault>
    ensures { case_told result ≡ arc_fault end number (arc_of arc) }
{
    let Arc {
        from,
        to,
        weight,
        mark,
    } = arc;
    if usize::from(from.max(to)) > end {
        return Err(CaseFault::UnknownEvent(number));
    }
    if from == to {
        return Err(CaseFault::SameEvent(number));
    }
    if weight < -1_000_000 || weight > 1_000_000 {
        return Err(CaseFault::Weight(number));
    }
    if mark > 1 {
        return Err(CaseFault::Mark(number));
    }
    Ok(())
}

/// Checks every arc, the fixed ones first and then each pair's arms, up to the first that breaks a limit.
fn check_arcs<A: Record<Arc>, P: Record<Pair>>(records: Records<A, P>) -> Result<(), CaseFault>
    requires fixed { length records.fixed.now ≤ 2048 }
    requires pairs { length records.pairs.now ≤ 60 }
    ensures { case_told result ≡ arcs_fault (listed_by A.value P.value records.entry) }
{
    let end = records.end;
    let fixed = records.fixed.len();
    // Kept: a rule of the project asks for loops in one another here, left by their label with the first fault.
    'check: {
        for (at, arc) in records.fixed.iter().enumerate() {
            if let Err(fault) = check_arc(end, at, A::read(*arc)) {
                break 'check Err(fault);
            }
        }
        for (at, pair) in records.pairs.iter().enumerate() {
            let Pair { first, second } = P::read(*pair);
            for (side, arm) in [first, second].iter().enumerate() {
                if let Err(fault) = check_arc(end, fixed + 2 * at + side, *arm) {
                    break 'check Err(fault);
                }
            }
        }
        Ok(())
    }
}

/// Checks a case: its sizes, then its arcs.
pub(crate) fn check_case<A: Record<Arc>, P: Record<Pair>>(
    records: Records<A, P>,
) -> Result<(), CaseFault>
    ensures { case_told result ≡ listed_fault (listed_by A.value P.value records.entry) }
{
    if records.end == 0 || records.end > 511 {
        return Err(CaseFault::Events);
    }
    if records.fixed.len() > 2048 {
        return Err(CaseFault::TooManyFixedArcs);
    }
    if records.pairs.len() > 60 {
        return Err(CaseFault::TooManyPairs);
    }
    check_arcs(records)
}
