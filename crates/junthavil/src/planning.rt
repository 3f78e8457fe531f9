//! A planner that is open over a case, and what its commands answer.
ghost use Rattle.std.specs.Prelude.{◌≡◌, ◌≤◌, IfOk, MatchOption, vec_len};

use super::command::Asked;
use super::faults::Fault;
use super::lines::{OrNone, Row};
use bounds::NamedBound;
use graph::{CaseSource, TimeMeasure};
use measures::Seconds;
use planner::{Planner, Searched};
use runs::{Request, plan_message, replay};
use search::PlannerFault;
use sources::Message;
use std::alloc::{AllocError, Global};
use std::fmt;
use std::fmt::Display;

/// The largest budget that a search takes.
const LARGEST: u64 = 1_000_000;

/// A larger budget than this is spent in slices, each a search of its own, with a line of progress after each.
const SLICE: u64 = 25_000;

/// A place for each event of a case, with times that no search has written: a search leaves none below zero.
fn blank_times<V: TimeMeasure>(heap: Global, source: &Message) -> Result<Vec<V>, AllocError> {
    vec![in heap; V::of_arc(-1, 0); source.end().saturating_add(1)]
}

/// How many places a search is handed: as many as is said, else one for each event.
fn places_of(said: Option<u16>, events: usize) -> usize
    ensures { MatchOption said (result ≡ events) (λ places. result ≡ places) }
{
    said.map_or(events, usize::from)
}

/// Makes sure that there are so many times.
fn extend<V: TimeMeasure>(times: &mut Vec<V>, places: usize) -> Result<(), AllocError>
    ensures { IfOk result (λ _. places ≤ vec_len times.new) }
{
    if times.len() < places {
        times.resize(places, V::zero())?;
    }
    Ok(())
}

/// Whether a search is finished, in words.
fn state(finished: bool) -> &'static str {
    if finished { "finished" } else { "open" }
}

/// The line for the answer of a search.
fn search_line(heap: Global, answer: Searched) -> Result<String, AllocError> {
    let (examined, count, finished, planned) = answer;
    let state = state(finished);
    let plan = if planned { "plan" } else { "none" };
    format!(in heap; "search examined {examined} count {count} {state} {plan}\n")
}

/// A line of progress on standard error.
fn progress<V: TimeMeasure + Display>(
    rt: &HostRuntime,
    planner: &Planner<Message, V, NamedBound>,
    examined: u64,
    budget: u64,
) {
    let lower = planner.lower_bound();
    let _ = match planner.delay() {
        Some(delay) => eprintln!(rt;
            "search: {examined} of {budget} nodes, lower {lower}, delay {delay}"
        ),
        None => eprintln!(rt; "search: {examined} of {budget} nodes, lower {lower}, no plan yet"),
    };
}

/// Searches, in slices where the budget is large, and answers as one search does that examines as many nodes.
// Kept: slices are counted, so that the loop ends, and each answers plain numbers and flags, as a search does.
fn search_slices<V: TimeMeasure + Display>(
    rt: &HostRuntime,
    planner: &mut Planner<Message, V, NamedBound>,
    budget: u64,
    times: &mut [V],
) -> Result<Searched, PlannerFault> {
    let first = if budget > LARGEST {
        budget
    } else {
        budget.min(SLICE)
    };
    let (mut examined, mut count, mut finished, mut planned) = planner.search(first, times)?;
    for _slice in 1..LARGEST / SLICE {
        if finished || examined >= budget {
            break;
        }
        progress(rt, planner, examined, budget);
        let slice = (budget - examined).min(SLICE);
        let more;
        (more, count, finished, planned) = planner.search(slice, times)?;
        examined = examined.saturating_add(more);
    }
    Ok((examined, count, finished, planned))
}

/// What answers the commands of a planner.
pub(crate) trait Planning {
    fn answer(&mut self, rt: &HostRuntime, asked: Asked) -> Result<String, Fault>;
}

/// No planner is open.
#[derive(Clone, Copy)]
pub(crate) struct NoPlanner;

impl Planning for NoPlanner {
    fn answer(&mut self, _rt: &HostRuntime, _asked: Asked) -> Result<String, Fault> {
        Err(Fault::NoPlanner)
    }
}

/// A planner that is open over the case in a message, with a place for the time of each event, and behind these those
/// that a search was handed besides.
#[derive(Drop)]
pub(crate) struct Desk<'a, V> {
    planner: Planner<Message<'a>, V, NamedBound>,
    times: Vec<V>,
    events: usize,
}

impl<'a, V: TimeMeasure + Display> Desk<'a, V> {
    /// Opens a planner.
    pub(crate) fn open(
        heap: Global,
        message: &'a [u8],
        bound: NamedBound,
    ) -> Result<Desk<'a, V>, AllocError> {
        Desk::replayed(heap, message, bound, &[])
    }

    /// Opens a planner and makes these calls, one after another.
    pub(crate) fn replayed(
        heap: Global,
        message: &'a [u8],
        bound: NamedBound,
        calls: &[Request],
    ) -> Result<Desk<'a, V>, AllocError> {
        let source = Message::over(message);
        let mut times = blank_times(heap, &source)?;
        let events = times.len();
        let planner = replay(source, bound, calls, times.as_mut_slice());
        Ok(Desk {
            planner,
            times,
            events,
        })
    }

    /// Searches with so many places for times, or one for each event where that is not said.
    fn search(
        &mut self,
        rt: &HostRuntime,
        budget: u64,
        places: Option<u16>,
    ) -> Result<Searched, Fault> {
        let places = places_of(places, self.events);
        extend(&mut self.times, places)?;
        let times = &mut self.times.as_mut_slice()[..places];
        Ok(search_slices(rt, &mut self.planner, budget, times)?)
    }

    // Kept: beside `make` of runs, since each call has words of its own, and a search goes in slices.
    fn call(
        &mut self,
        rt: &HostRuntime,
        request: Request,
        places: Option<u16>,
    ) -> Result<String, Fault> {
        let heap = rt.alloc();
        match request {
            Request::Hold(pair, arm) => {
                self.planner.hold(pair, arm)?;
                Ok(String::from_str(heap, "held\n")?)
            }
            Request::Release(pair) => {
                self.planner.release(pair)?;
                Ok(String::from_str(heap, "released\n")?)
            }
            Request::Search(budget) => Ok(search_line(heap, self.search(rt, budget, places)?)?),
        }
    }

    /// Whether a search has written the times.
    // Kept: a first time below zero says so, since a replay does not say which of its calls were taken.
    fn is_written(&self) -> bool {
        match self.times.first() {
            Some(time) => !time.is_below(V::zero()),
            None => false,
        }
    }
}

impl<V: TimeMeasure + Display> Planning for Desk<'_, V> {
    fn answer(&mut self, rt: &HostRuntime, asked: Asked) -> Result<String, Fault> {
        match asked {
            Asked::Call(request, places) => self.call(rt, request, places),
            Asked::Show => Ok(format!(in rt.alloc(); "{self}")?),
        }
    }
}

/// What is on show, and the times where a search has written them.
impl<V: TimeMeasure + Display> Display for Desk<'_, V> {
    fn fmt<W: fmt::Write>(&self, f: &mut fmt::Formatter<W>) -> fmt::Result {
        let planner = &self.planner;
        let state = state(planner.is_finished());
        let plan = Row(planner.plan());
        let delay = OrNone(planner.delay());
        writeln!(f, "state {state}\nplan{plan}\ndelay {delay}")?;
        let lower = planner.lower_bound();
        let count = planner.count();
        let holds = Row(Some(planner.holds()));
        writeln!(f, "lower {lower}\ncount {count}\nholds{holds}")?;
        if self.is_written() {
            let times = Row(self.times.as_slice().get(..self.events));
            writeln!(f, "times{times}")?;
        }
        Ok(())
    }
}

/// The lines for a message planned in one call.
pub(crate) fn message_lines(heap: Global, budget: u64, message: &[u8]) -> Result<String, Fault> {
    let mut times = blank_times::<Seconds>(heap, &Message::over(message))?;
    let answer = plan_message(message, budget, times.as_mut_slice())?;
    let mut text = search_line(heap, answer)?;
    let times = Row(Some(times.as_slice()));
    text.push_str(format!(in heap; "times{times}\n")?.as_str())?;
    Ok(text)
}
