//! Planning a message in one call.
ghost use Rattle.measures.specs.contracts.seconds.SecondsTimeMeasure.TheImpl.{ghosts as in_seconds};
ghost use Rattle.runs.specs.Message.{MessagePlanned};

use bounds::LongestPath;
use measures::Seconds;
use planner::{Planner, Searched};
use search::PlanMessageFault;
use sources::Message;

/// Checks a message, opens it in seconds with the longest path on a planner of its own, and answers as one search does,
/// times included.
pub fn plan_message(
    bytes: &[u8],
    budget: u64,
    times: &mut [Seconds],
) -> Result<Searched, PlanMessageFault>
    ensures { MessagePlanned in_seconds.rank in_seconds.ranking bytes.now budget times.old times.new result }
{
    let mut planner = Planner::open(Message::read(bytes)?, LongestPath);
    Ok(planner.search(budget, times)?)
}
