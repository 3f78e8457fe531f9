//! What is printed, in the words of the answers.
use measures::Seconds;
use std::alloc::Global;
use std::fmt;
use std::fmt::Display;
use trains::{Step, Train};

/// A value, or that there is none.
#[derive(Drop)]
pub(crate) struct OrNone<T>(pub(crate) Option<T>);

impl<T: Display> Display for OrNone<T> {
    fn fmt<W: fmt::Write>(&self, f: &mut fmt::Formatter<W>) -> fmt::Result {
        match &self.0 {
            Some(value) => value.fmt(f),
            None => write!(f, "none"),
        }
    }
}

/// The items of a row with a space before each, or that there is none.
#[derive(Drop)]
pub(crate) struct Row<'a, T>(pub(crate) Option<&'a [T]>);

impl<T: Display> Display for Row<'_, T> {
    fn fmt<W: fmt::Write>(&self, f: &mut fmt::Formatter<W>) -> fmt::Result {
        let Some(items) = self.0 else {
            return write!(f, " none");
        };
        for item in items {
            write!(f, " {item}")?;
        }
        Ok(())
    }
}

/// A train with its steps and the times of their events, the last of which is its exit.
#[derive(Clone, Copy)]
struct Run<'a> {
    train: Train,
    steps: &'a [Step],
    times: &'a [Seconds],
}

impl Run<'_> {
    /// The second at which the train leaves.
    fn exit(&self) -> i64 {
        self.times.last().map_or(0, |time| time.value())
    }

    /// The second at which the train would leave unhindered.
    fn unhindered(&self) -> u32 {
        self.steps.iter().fold(self.train.entry, |second, step| {
            second.saturating_add(u32::from(step.running))
        })
    }

    /// How far the exit lies behind the larger of the due time and the unhindered exit.
    fn delay(&self) -> i64 {
        let wanted = self.train.due.max(self.unhindered());
        self.exit().saturating_sub(i64::from(wanted)).max(0)
    }
}

impl Display for Run<'_> {
    fn fmt<W: fmt::Write>(&self, f: &mut fmt::Formatter<W>) -> fmt::Result {
        let kind = self.train.kind;
        writeln!(f, " {kind}")?;
        let spans = self.times.iter().zip(self.times.iter().skip(1));
        for (step, (from, to)) in self.steps.iter().zip(spans) {
            let section = step.section;
            writeln!(f, "  section {section} from {from} to {to}")?;
        }
        let exit = self.exit();
        let due = self.train.due;
        let delay = self.delay();
        writeln!(f, "  leaves at {exit}, due {due}, delay {delay}")
    }
}

/// Trains, and the steps of all of them in one list.
#[derive(Drop)]
pub(crate) struct Trains {
    pub(crate) trains: Vec<Train>,
    pub(crate) steps: Vec<Step>,
}

impl Trains {
    /// No trains.
    pub(crate) fn new(heap: Global) -> Trains {
        Trains {
            trains: Vec::new(heap),
            steps: Vec::new(heap),
        }
    }
}

/// The trains of a railway with the times of its events: the start, and then each train's.
#[derive(Clone, Copy)]
pub(crate) struct Timetable<'a> {
    pub(crate) railway: &'a Trains,
    pub(crate) times: &'a [Seconds],
}

impl Display for Timetable<'_> {
    fn fmt<W: fmt::Write>(&self, f: &mut fmt::Formatter<W>) -> fmt::Result {
        let mut steps = self.railway.steps.as_slice();
        let Some((_start, mut times)) = self.times.split_first() else {
            return Ok(());
        };
        for (number, train) in self.railway.trains.iter().enumerate() {
            let count = usize::from(train.steps);
            let Some((own_steps, later_steps)) = steps.split_at_checked(count) else {
                break;
            };
            let Some((own_times, later_times)) = times.split_at_checked(count + 1) else {
                break;
            };
            let run = Run {
                train: *train,
                steps: own_steps,
                times: own_times,
            };
            write!(f, "train {number}{run}")?;
            steps = later_steps;
            times = later_times;
        }
        Ok(())
    }
}
