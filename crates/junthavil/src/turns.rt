//! Lines in, answers out: with a planner open, or with none.
use super::answers::{Answer, Opening, Session};
use super::command::{Command, Measure};
use super::faults::Fault;
use super::planning::{Desk, NoPlanner, Planning};
use bounds::NamedBound;
use graph::TimeMeasure;
use measures::{OrderedSeconds, Seconds};
use std::fmt::Display;
use std::io::{BufRead, Lines};

/// Why a round of lines is over.
#[derive(Drop)]
enum After {
    /// The input has ended.
    End,
    /// Another case was taken.
    Case,
    /// A planner is to be opened.
    Open(Opening),
}

/// A session that answers lines, which are counted from 1.
#[derive(Drop)]
struct Talk<'a, R> {
    rt: &'a HostRuntime,
    lines: Lines<R>,
    number: u64,
    session: Session,
}

/// What a line leads to; a blank one and a comment ask for nothing.
fn answer<P: Planning>(
    rt: &HostRuntime,
    session: &mut Session,
    planner: &mut P,
    line: &str,
) -> Result<Answer, Fault> {
    match Command::parse(rt.alloc(), line)? {
        None => Ok(Answer::Nothing),
        Some(command) => session.answer(rt, planner, command),
    }
}

/// Prints what the line of this number leads to; says why the round is over, if it is.
fn tell(
    rt: &HostRuntime,
    number: u64,
    answer: Result<Answer, Fault>,
) -> anyhow::Result<Option<After>> {
    match answer {
        Ok(Answer::Nothing) => {}
        Ok(Answer::Text(text)) => rt.print(text)?,
        Ok(Answer::Taken(text)) => {
            rt.print(text)?;
            return Ok(Some(After::Case));
        }
        Ok(Answer::Opens(opening)) => return Ok(Some(After::Open(opening))),
        Err(Fault::Memory(error)) => return Err(Fault::Memory(error).into()),
        Err(Fault::Refused(refused)) => println!(rt; "{refused}")?,
        Err(fault) => println!(rt; "error line {number}: {fault}")?,
    }
    Ok(None)
}

impl<R: BufRead + Drop> Talk<'_, R> {
    /// Answers lines with this planner, or with none, until another case is taken or a planner opened.
    fn answer_lines<P: Planning>(&mut self, planner: &mut P) -> anyhow::Result<After> {
        for line in self.lines.by_ref() {
            let line = line?;
            self.number = self.number.saturating_add(1);
            let answer = answer(self.rt, &mut self.session, planner, line.as_str());
            if let Some(after) = tell(self.rt, self.number, answer)? {
                return Ok(after);
            }
        }
        Ok(After::End)
    }

    /// Answers lines with a planner open over the case in a message.
    fn with_planner<V: TimeMeasure + Display>(
        &mut self,
        message: &[u8],
        bound: NamedBound,
    ) -> anyhow::Result<After> {
        let mut desk = Desk::<V>::open(self.rt.alloc(), message, bound)?;
        self.rt.print("open\n")?;
        self.answer_lines(&mut desk)
    }

    /// Opens a planner, and answers lines with it.
    // Kept: a measure is a type, which is chosen where a planner opens and where a session is asked in one.
    fn opened(&mut self, opening: &Opening) -> anyhow::Result<After> {
        let message = opening.message.as_slice();
        let bound = opening.bound;
        match opening.measure {
            Measure::Seconds => self.with_planner::<Seconds>(message, bound),
            Measure::Ordered => self.with_planner::<OrderedSeconds>(message, bound),
        }
    }
}

/// Answers the lines one after the other.
pub(crate) fn answer_all<R: BufRead + Drop>(rt: &HostRuntime, reader: R) -> anyhow::Result<()> {
    let mut talk = Talk {
        rt,
        lines: reader.lines(rt.alloc()),
        number: 0,
        session: Session::new(rt.alloc()),
    };
    let mut after = After::Case;
    // Kept: each round takes a line of the input, and no clause knows how many are left.
    for _round in 0..u64::MAX {
        after = match after {
            After::End => break,
            After::Case => talk.answer_lines(&mut NoPlanner)?,
            After::Open(opening) => talk.opened(&opening)?,
        };
    }
    Ok(())
}
