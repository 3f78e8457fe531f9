//! Calls of a planner in one go.
ghost use Rattle.std.specs.Prelude.{◌≡◌, [], ◌∷◌, length, None};
ghost use Rattle.search.specs.Search.{opened};
ghost use Rattle.search.specs.Sound.{reached, Lawful};
ghost use Rattle.search.specs.Named.{planner_told};
ghost use Rattle.planner.specs.View.{view, Made};
ghost use Rattle.runs.specs.Left.{last_shown, TimesLeft};
ghost use Rattle.runs.specs.Requests.{call_of, calls_of};

use bounds::Bound;
use graph::{CaseSource, TimeMeasure};
use planner::Planner;
use search::PlannerFault;

/// A call that is asked for of a planner.
#[derive(Clone, Copy, Debug, PartialEq, Eq)]
pub enum Request {
    /// Hold an arm of a pair.
    Hold(usize, u8),
    /// Release a pair.
    Release(usize),
    /// Search with a budget.
    Search(u64),
}

/// Makes the call that is asked for.
fn make<S: CaseSource + Copy, V: TimeMeasure, B: Bound>(
    planner: &mut Planner<S, V, B>,
    request: Request,
    times: &mut [V],
) -> Result<(), PlannerFault>
    ensures left { TimesLeft V.TimeMeasure.rank (S.CaseSource.means planner.old.source) (last_shown (S.CaseSource.means planner.old.source) V.TimeMeasure.ranking (B.Bound.meaning planner.old.bound) None (view S.CaseSource.means V.TimeMeasure.rank planner.old) (call_of (length times.old) request ∷ [])) times.old times.new }
    ensures made { Made S.CaseSource.means V.TimeMeasure.rank V.TimeMeasure.ranking B.Bound.meaning planner.old planner.new (call_of (length times.old) request) (planner_told result) }
{
    match request {
        Request::Hold(pair, arm) => planner.hold(pair, arm),
        Request::Release(pair) => planner.release(pair),
        Request::Search(budget) => planner.search(budget, times).map(|_| ()),
    }
}

/// Opens a planner and makes the calls that are asked for, one after another, whether they are taken or refused. The
/// planner that it answers tells what is then on show, and the times hold what the last search that was taken left.
pub fn replay<S: CaseSource + Copy, V: TimeMeasure, B: Bound>(
    source: S,
    bound: B,
    requests: &[Request],
    times: &mut [V],
) -> Planner<S, V, B>
    ensures state { view S.CaseSource.means V.TimeMeasure.rank result ≡ reached (S.CaseSource.means source) V.TimeMeasure.ranking (B.Bound.meaning bound) (calls_of (length times.old) requests.now) }
    ensures left { TimesLeft V.TimeMeasure.rank (S.CaseSource.means source) (last_shown (S.CaseSource.means source) V.TimeMeasure.ranking (B.Bound.meaning bound) None (opened (S.CaseSource.means source)) (calls_of (length times.old) requests.now)) times.old times.new }
    ensures lawful { Lawful (S.CaseSource.means source) V.TimeMeasure.ranking (B.Bound.meaning bound) (calls_of (length times.old) requests.now) (view S.CaseSource.means V.TimeMeasure.rank result) }
{
    let mut planner = Planner::open(source, bound);
    for request in requests {
        let _ = make(&mut planner, *request, times);
    }
    planner
}
