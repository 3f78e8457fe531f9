ghost use Rattle.std.specs.Prelude.{◌≡◌, ℕ, ◌+◌, ◌<◌, ◌≤◌, List, length, drop, replicate, ℤ, pos, ◌+ℤ◌, None, int_le, slice_index, slice_index_or};
ghost use Rattle.graph.specs.Graph.{selection_of};
ghost use Rattle.graph.specs.Times.{kept_all, TimesLaw};
ghost use Rattle.graph.specs.Views.{arc_of, arc_found, Shows};
ghost use Rattle.graph.specs.Steps.{places, arcs_of, Raisable, Ready, ArcRaised, RoundRaised, RoundsMade, LookedAt};
ghost use Rattle.graph.specs.Told.{TimesCleared, TimesTold};

use super::arc::Arc;
use super::measure::TimeMeasure;
use super::source::CaseSource;

/// A call for times was handed fewer places than the case has events.
#[derive(Clone, Copy, Debug, PartialEq, Eq)]
pub struct TooFewPlaces {
    /// How many places the case asks for: one for each event.
    pub needed: usize,
}

/// Raises the end of the arc as far as the arc asks, and says whether that was any further.
fn raise_by<V: TimeMeasure>(arc: Arc, times: &mut [V]) -> bool
    requires from { arc.from < length times.old }
    requires to { arc.to < length times.old }
    ensures { ArcRaised V.TimeMeasure.rank V.TimeMeasure.ranking (arc_of arc) times.old times.new result }
{
    let from = arc.from as usize;
    let to = arc.to as usize;
    let reached = times[from].plus(V::of_arc(arc.weight, arc.mark));
    if times[to].is_below(reached) {
        times[to] = reached;
        true
    } else {
        false
    }
}

/// Whether the times of both its ends keep the arc.
fn is_kept<V: TimeMeasure>(arc: Arc, times: &[V]) -> bool
    requires from { arc.from < length times.now }
    requires to { arc.to < length times.now }
    ensures { (n : ℕ) (ts : List ℕ) → Raisable n (arc_of arc) ts → Shows V.TimeMeasure.rank times.now ts → result ≡ int_le (pos (slice_index ts arc.from) +ℤ V.TimeMeasure.ranking arc.weight arc.mark) (pos (slice_index ts arc.to)) }
{
    let reached = times[arc.from as usize].plus(V::of_arc(arc.weight, arc.mark));
    !times[arc.to as usize].is_below(reached)
}

/// A selection of a source's case: of each pair the arm that a table of arms says, if it says one.
// Kept: with the times as a field, each step would have to say that source and arms stay, beside the room for events.
#[derive(Clone, Copy)]
struct Selection<'a, S> {
    source: &'a S,
    arms: &'a [u8; 60],
}

impl<'a, S: CaseSource> Selection<'a, S> {
    /// The fixed arc at an index.
    fn fixed_at(&self, at: usize) -> Option<Arc>
        requires { at < length (S.CaseSource.means self.now.source.now).fixed }
        ensures { arc_found result ≡ slice_index_or (places (S.CaseSource.means self.now.source.now) self.now.arms.now) at None }
    {
        self.source.fixed_arc(at)
    }

    /// The arm that is selected of the pair at an index, which goes on from those of the fixed arcs, if one is.
    fn arm_at(&self, fixed: usize, at: usize) -> Option<Arc>
        requires fixed { fixed ≡ length (S.CaseSource.means self.now.source.now).fixed }
        requires from { fixed ≤ at }
        requires to { at < length (S.CaseSource.means self.now.source.now).fixed + length (S.CaseSource.means self.now.source.now).pairs }
        ensures { arc_found result ≡ slice_index_or (places (S.CaseSource.means self.now.source.now) self.now.arms.now) at None }
    {
        let pair = at - fixed;
        self.source.arm(pair, self.arms[pair])
    }

    /// Raises along each arc once, and says whether a time changed.
    fn raise_round<V: TimeMeasure>(&self, times: &mut [V]) -> bool
        requires { (S.CaseSource.means self.now.source.now).end < length times.old }
        ensures { RoundRaised V.TimeMeasure.rank V.TimeMeasure.ranking (S.CaseSource.means self.now.source.now) self.now.arms.now times.old times.new result }
    {
        let mut changed = false;
        let fixed = self.source.fixed_count();
        // Kept: in a chain each closure would need a clause, that its number is in range or its arc's ends are. Two loops,
        // since an undecided pair costs a tenth of an arc, and `if`, not `|=`, since most arcs raise nothing.
        for at in 0..fixed {
            if let Some(arc) = self.fixed_at(at) {
                if raise_by(arc, times) {
                    changed = true;
                }
            }
        }
        for at in fixed..fixed + self.source.pair_count() {
            if let Some(arc) = self.arm_at(fixed, at) {
                if raise_by(arc, times) {
                    changed = true;
                }
            }
        }
        changed
    }

    /// Whether the times keep every arc.
    fn all_kept<V: TimeMeasure>(&self, times: &[V]) -> bool
        requires { (S.CaseSource.means self.now.source.now).end < length times.now }
        ensures { (ts : List ℕ) → Ready (S.CaseSource.means self.now.source.now).end ts → Shows V.TimeMeasure.rank times.now ts → result ≡ kept_all V.TimeMeasure.ranking ts (arcs_of (S.CaseSource.means self.now.source.now) self.now.arms.now) }
    {
        let fixed = self.source.fixed_count();
        // Kept: as in `raise_round`.
        for at in 0..fixed {
            if let Some(arc) = self.fixed_at(at) {
                if !is_kept(arc, times) {
                    return false;
                }
            }
        }
        for at in fixed..fixed + self.source.pair_count() {
            if let Some(arc) = self.arm_at(fixed, at) {
                if !is_kept(arc, times) {
                    return false;
                }
            }
        }
        true
    }

    /// Makes rounds until one changes nothing, and at most one for each event after the first.
    fn settle<V: TimeMeasure>(&self, times: &mut [V])
        requires room { (S.CaseSource.means self.now.source.now).end < length times.old }
        requires zeros { Shows V.TimeMeasure.rank times.old (replicate ((S.CaseSource.means self.now.source.now).end + 1) 0) }
        ensures { RoundsMade V.TimeMeasure.rank V.TimeMeasure.ranking (S.CaseSource.means self.now.source.now) self.now.arms.now times.old times.new }
    {
        for _round in 0..self.source.end() {
            if !self.raise_round(times) {
                return;
            }
        }
    }

    /// Whether the times that rounds have left are the least times: event 0 is still at zero, and every arc is kept.
    fn are_least<V: TimeMeasure>(&self, times: &[V]) -> bool
        requires { (S.CaseSource.means self.now.source.now).end < length times.now }
        ensures { LookedAt V.TimeMeasure.rank V.TimeMeasure.ranking (S.CaseSource.means self.now.source.now) self.now.arms.now times.now result }
    {
        !V::zero().is_below(times[0]) && self.all_kept(times)
    }
}

/// Sets the first places, one for each event, to zero; what lies behind stays. Handed fewer places, it writes nothing.
pub fn clear_times<S: CaseSource, V: TimeMeasure>(
    source: &S,
    times: &mut [V],
) -> Result<(), TooFewPlaces>
    ensures { TimesCleared V.TimeMeasure.rank (S.CaseSource.means source.now) times.old times.new result }
{
    let needed = source.end() + 1;
    if times.len() < needed {
        return Err(TooFewPlaces { needed });
    }
    for time in &mut times[..needed] {
        *time = V::zero();
    }
    Ok(())
}

/// Works out the least times of a selection, and says whether there are any. The first places, one for each event, then
/// hold them, or zeros where there are none; what lies behind stays. Handed fewer places, it writes nothing.
// Kept: a flag is the answer, since the times themselves stand in the caller's memory, a rule of the project.
#[tactic(auto, using(crate::proofs::Raise::times_laws))]
pub fn least_times<S: CaseSource, V: TimeMeasure>(
    source: &S,
    arms: &[u8; 60],
    times: &mut [V],
) -> Result<bool, TooFewPlaces>
    ensures told { TimesTold V.TimeMeasure.rank V.TimeMeasure.ranking (S.CaseSource.means source.now) (selection_of (S.CaseSource.means source.now).pairs arms.now) times.old times.new result }
    ensures law { TimesLaw V.TimeMeasure.ranking (S.CaseSource.means source.now) (selection_of (S.CaseSource.means source.now).pairs arms.now) }
{
    clear_times(source, times)?;
    let selection = Selection { source, arms };
    selection.settle(times);
    if selection.are_least(times) {
        return Ok(true);
    }
    clear_times(source, times)?;
    Ok(false)
}
