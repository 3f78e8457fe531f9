//! A session: the case that is open, and what its commands answer.
use super::command::{Command, Measure, Question};
use super::faults::Fault;
use super::lines::{OrNone, Row, Timetable, Trains};
use super::planning::{Desk, Planning, message_lines};
use bounds::NamedBound;
use graph::TimeMeasure;
use hex_text::{first_difference, write_hex};
use measures::{OrderedSeconds, Seconds};
use session::OpenCase;
use std::alloc::{AllocError, Global};
use std::fmt::Display;

/// The commands, in words.
pub(crate) fn help() -> &'static str {
    "message HEX                    take a case as a message of bytes in hexadecimal
railway                        begin a railway, which the next three make
train CLASS ENTRY DUE STEPS    add a train; CLASS is 0 to 4, or loaded-ore, empty-ore,
                               hot-metal, staff, light-engine
step SECTION RUNNING           add a step to the list of all trains' steps
end                            check the railway, and take its case
arms A A ..                    choose arm 1 or 2 of each pair, or 0 to leave it undecided
times seconds                  the least times with the chosen arms, and the delay
times ordered                  the same in ordered seconds, each as SECOND/PLACE
bounds seconds                 what each bound says of the chosen arms
bounds ordered                 the same in ordered seconds
trains                         the times of the open railway by train and step
write                          the case as a message
compare HEX                    whether the case, written as a message, is these bytes
open MEASURE BOUND             open a planner over the case; MEASURE is seconds or ordered,
                               BOUND is longest-path, look-ahead or larger
hold PAIR ARM                  hold arm 1 or 2 of a pair, and begin the search anew
release PAIR                   release a pair that is held, and begin the search anew
search BUDGET [PLACES]         examine so many nodes at the most, 1 to 1000000; with so many
                               places for times, or one for each event
show                           state, plan, delay, lower bound, count, holds and times
plan-message BUDGET HEX        plan a message in one call, in seconds by the longest path
replay MEASURE BOUND CALLS     make calls one after another on a planner of their own, and
                               show it; a call is hold PAIR ARM, release PAIR, search BUDGET
help                           these lines
A blank line and one that begins with # ask for nothing.
"
}

/// The case that is open, with its trains where it is a railway's.
#[derive(Drop)]
struct Opened {
    case: OpenCase,
    railway: Option<Trains>,
}

/// A session: the case that is open, if one is, and a railway that was begun.
#[derive(Drop)]
pub(crate) struct Session {
    heap: Global,
    open: Option<Opened>,
    begun: Option<Trains>,
}

/// A planner to be opened over the case in a message.
#[derive(Drop)]
pub(crate) struct Opening {
    pub(crate) message: Vec<u8>,
    pub(crate) measure: Measure,
    pub(crate) bound: NamedBound,
}

/// What a command leads to.
#[derive(Drop)]
pub(crate) enum Answer {
    Nothing,
    /// These lines.
    Text(String),
    /// These lines, and another case is open now.
    Taken(String),
    /// A planner is to be opened.
    Opens(Opening),
}

/// The lines for least times, whose last is the delay, or for none.
fn times_lines<V: Display + Drop>(
    heap: Global,
    times: Option<Vec<V>>,
) -> Result<String, AllocError> {
    let Some(times) = times else {
        return String::from_str(heap, "times none\n");
    };
    let row = Row(Some(times.as_slice()));
    match times.last() {
        Some(delay) => format!(in heap; "times{row}\ndelay {delay}\n"),
        None => format!(in heap; "times{row}\n"),
    }
}

/// The lines for each bound of a case with its chosen arms.
fn bound_lines<V: TimeMeasure + Display + Drop>(
    heap: Global,
    case: &OpenCase,
) -> Result<String, AllocError> {
    let mut text = String::new(heap);
    for bound in [
        NamedBound::LongestPath,
        NamedBound::LookAhead,
        NamedBound::Larger,
    ] {
        let answer = OrNone(case.bound::<V, NamedBound>(heap, &bound)?);
        text.push_str(format!(in heap; "bound {bound} {answer}\n")?.as_str())?;
    }
    Ok(text)
}

impl Session {
    pub(crate) fn new(heap: Global) -> Session {
        Session {
            heap,
            open: None,
            begun: None,
        }
    }

    fn case(&self) -> Result<&OpenCase, Fault> {
        Ok(&self.open.as_ref().ok_or(Fault::NoCase)?.case)
    }

    /// Opens a case.
    fn open(&mut self, case: OpenCase, railway: Option<Trains>) -> Result<Answer, Fault> {
        let size = case.size();
        let line = format!(in self.heap; "case {size}\n")?;
        self.open = Some(Opened { case, railway });
        Ok(Answer::Taken(line))
    }

    fn take(&mut self, message: Vec<u8>) -> Result<Answer, Fault> {
        let case = OpenCase::take(message)?;
        self.open(case, None)
    }

    /// The railway that was begun.
    fn begun(&mut self) -> Result<&mut Trains, Fault> {
        self.begun.as_mut().ok_or(Fault::NoRailway)
    }

    fn end(&mut self) -> Result<Answer, Fault> {
        let railway = self.begun.take().ok_or(Fault::NoRailway)?;
        let case = OpenCase::of_railway(
            self.heap,
            railway.trains.as_slice(),
            railway.steps.as_slice(),
        )?;
        self.open(case, Some(railway))
    }

    fn planner(&self, measure: Measure, bound: NamedBound) -> Result<Answer, Fault> {
        let message = self.case()?.write(self.heap)?;
        Ok(Answer::Opens(Opening {
            message,
            measure,
            bound,
        }))
    }

    fn choose(&mut self, arms: &[u8]) -> Result<String, Fault> {
        let opened = self.open.as_mut().ok_or(Fault::NoCase)?;
        opened.case.choose(arms)?;
        let row = Row(Some(opened.case.arms()));
        Ok(format!(in self.heap; "arms{row}\n")?)
    }

    /// What is asked of the open case in this measure.
    fn told<V: TimeMeasure + Display + Drop>(&self, question: Question) -> Result<String, Fault> {
        let case = self.case()?;
        let text = match question {
            Question::Times => times_lines(self.heap, case.times::<V>(self.heap)?),
            Question::Bounds => bound_lines::<V>(self.heap, case),
            Question::Replay(bound, calls) => {
                let message = case.write(self.heap)?;
                let desk = Desk::<V>::replayed(
                    self.heap,
                    message.as_slice(),
                    bound,
                    calls.as_slice(),
                )?;
                format!(in self.heap; "{desk}")
            }
        };
        Ok(text?)
    }

    fn by_train(&self) -> Result<String, Fault> {
        let opened = self.open.as_ref().ok_or(Fault::NoCase)?;
        let railway = opened.railway.as_ref().ok_or(Fault::NotARailway)?;
        let Some(times) = opened.case.times::<Seconds>(self.heap)? else {
            return Ok(String::from_str(self.heap, "times none\n")?);
        };
        let table = Timetable {
            railway,
            times: times.as_slice(),
        };
        Ok(format!(in self.heap; "{table}")?)
    }

    fn write(&self) -> Result<String, Fault> {
        let message = self.case()?.write(self.heap)?;
        let hex = write_hex(self.heap, message.as_slice())?;
        Ok(format!(in self.heap; "message {hex}\n")?)
    }

    fn compare(&self, bytes: &[u8]) -> Result<String, Fault> {
        let message = self.case()?.write(self.heap)?;
        match first_difference(message.as_slice(), bytes) {
            None => Ok(String::from_str(self.heap, "same\n")?),
            Some(at) => Ok(format!(in self.heap; "differs at byte {at}\n")?),
        }
    }

    /// What a command leads to; what concerns a planner is answered by this one.
    pub(crate) fn answer<P: Planning>(
        &mut self,
        rt: &HostRuntime,
        planner: &mut P,
        command: Command,
    ) -> Result<Answer, Fault> {
        let text = match command {
            Command::Message(bytes) => return self.take(bytes),
            Command::End => return self.end(),
            Command::Open(measure, bound) => return self.planner(measure, bound),
            Command::Railway => {
                self.begun = Some(Trains::new(self.heap));
                return Ok(Answer::Nothing);
            }
            Command::Train(train) => {
                self.begun()?.trains.push(train)?;
                return Ok(Answer::Nothing);
            }
            Command::Step(step) => {
                self.begun()?.steps.push(step)?;
                return Ok(Answer::Nothing);
            }
            Command::Arms(arms) => self.choose(arms.as_slice()),
            Command::In(Measure::Seconds, question) => self.told::<Seconds>(question),
            Command::In(Measure::Ordered, question) => self.told::<OrderedSeconds>(question),
            Command::Trains => self.by_train(),
            Command::Write => self.write(),
            Command::Compare(bytes) => self.compare(bytes.as_slice()),
            Command::PlanMessage(budget, bytes) => {
                message_lines(self.heap, budget, bytes.as_slice())
            }
            Command::Help => Ok(String::from_str(self.heap, help())?),
            Command::Planner(asked) => planner.answer(rt, asked),
        };
        Ok(Answer::Text(text?))
    }
}
