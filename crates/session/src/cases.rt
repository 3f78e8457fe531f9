ghost use Rattle.std.specs.Prelude.{◌≡◌, IfOk, None};
ghost use Rattle.graph.specs.Graph.{selection_of};
ghost use Rattle.graph.specs.Times.{least_times, TimesLaw};
ghost use Rattle.bounds.specs.Told.{RankIs};
ghost use Rattle.messages.specs.Message.{message, message_case, message_fault};
ghost use Rattle.session.specs.Open.{TimesFound};

use bounds::Bound;
use graph::{CaseSource, TimeMeasure, least_times};
use sources::{Message, message_len, write_message};
use std::alloc::{AllocError, Global};

/// The least times of a selection of any source's case, one for each event, or none.
pub(crate) fn times_of<S: CaseSource, V: TimeMeasure>(
    heap: Global,
    source: &S,
    arms: &[u8; 60],
) -> Result<Option<Vec<V>>, AllocError>
    ensures found { IfOk result (λ o. TimesFound V.TimeMeasure.rank (least_times V.TimeMeasure.ranking (S.CaseSource.means source.now) (selection_of (S.CaseSource.means source.now).pairs arms.now)) o) }
    ensures law { TimesLaw V.TimeMeasure.ranking (S.CaseSource.means source.now) (selection_of (S.CaseSource.means source.now).pairs arms.now) }
{
    let mut times = vec![in heap; V::zero(); source.end() + 1]?;
    let found = least_times(source, arms, times.as_mut_slice()).unwrap();
    Ok(found.then_some(times))
}

/// What a bound answers about a selection of any source's case: a value, or none.
// Kept: beside `times_of`; the memory for times is the one line that both have.
pub(crate) fn bound_of<S: CaseSource, V: TimeMeasure, B: Bound>(
    heap: Global,
    source: &S,
    arms: &[u8; 60],
    bound: &B,
) -> Result<Option<V>, AllocError>
    ensures { IfOk result (λ o. RankIs V.TimeMeasure.rank o (B.Bound.meaning bound.now (S.CaseSource.means source.now) (selection_of (S.CaseSource.means source.now).pairs arms.now) V.TimeMeasure.ranking)) }
{
    let mut times = vec![in heap; V::zero(); source.end() + 1]?;
    let mut trials = *arms;
    Ok(bound.ask(source, &mut trials, times.as_mut_slice()))
}

/// The message of any source's case.
pub(crate) fn message_of<S: CaseSource>(heap: Global, source: &S) -> Result<Vec<u8>, AllocError>
    ensures { IfOk result (λ v. v.items ≡ message (S.CaseSource.means source.now)) }
{
    let mut bytes = vec![in heap; 0; message_len(source)]?;
    write_message(source, bytes.as_mut_slice()).unwrap();
    Ok(bytes)
}

/// A message, written again: an accepted one byte for byte, and in the place of a refused one that of the empty case.
pub(crate) fn rewritten(heap: Global, bytes: &[u8]) -> Result<Vec<u8>, AllocError>
    ensures written { IfOk result (λ v. v.items ≡ message (message_case bytes.now)) }
    ensures same { message_fault bytes.now ≡ None → IfOk result (λ v. v.items ≡ bytes.now) }
{
    message_of(heap, &Message::over(bytes))
}
