//! What a line asks for.
use bounds::{NamedBound, UnknownBound};
use hex_text::{HexFault, read_hex};
use runs::Request;
use session::ArmsFault;
use std::alloc::{AllocError, Global};
use std::num::ParseIntError;
use std::str::{FromStr, SplitWhitespace};
use thiserror::Error;
use trains::{Kind, Step, Train};

/// Why a line is no command.
#[derive(Debug, Drop, Error)]
pub(crate) enum Misread {
    #[error("no such command; help lists them")]
    Unknown,
    #[error("there are more words than the command takes")]
    TooMany,
    #[error("the bytes in hexadecimal are missing")]
    NoBytes,
    #[error("{0}")]
    Hex(#[from] HexFault),
    #[error("{0}")]
    Arms(#[from] ArmsFault),
    #[error("say seconds or ordered")]
    Measure,
    #[error("say longest-path, look-ahead or larger")]
    Bound(#[from] UnknownBound),
    #[error("say hold PAIR ARM, release PAIR or search BUDGET")]
    Call,
    #[error("a number is missing, or is none")]
    Number(#[from] ParseIntError),
    #[error("the number of places is not 0 to 65535")]
    Places,
    #[error("there is no memory")]
    Memory(#[from(alloc)] AllocError),
}

/// What times are told in.
#[derive(Clone, Copy, Debug, PartialEq, Eq)]
pub(crate) enum Measure {
    Seconds,
    Ordered,
}

impl FromStr for Measure {
    type Err = Misread;

    fn from_str(word: &str) -> Result<Measure, Misread> {
        match word {
            "seconds" => Ok(Measure::Seconds),
            "ordered" => Ok(Measure::Ordered),
            _ => Err(Misread::Measure),
        }
    }
}

/// What is asked of the open case in a measure.
#[derive(Drop)]
pub(crate) enum Question {
    Times,
    Bounds,
    /// These calls, one after another, on a planner of their own.
    Replay(NamedBound, Vec<Request>),
}

/// What is asked of the open planner.
#[derive(Clone, Copy)]
pub(crate) enum Asked {
    /// In a search, with so many places for times where that is said.
    Call(Request, Option<u16>),
    Show,
}

/// What a line asks for.
#[derive(Drop)]
pub(crate) enum Command {
    Message(Vec<u8>),
    Railway,
    Train(Train),
    Step(Step),
    End,
    Arms(Vec<u8>),
    In(Measure, Question),
    Trains,
    Write,
    Compare(Vec<u8>),
    Open(Measure, NamedBound),
    Planner(Asked),
    PlanMessage(u64, Vec<u8>),
    Help,
}

impl Command {
    /// The command of a line; none where the line is blank or a comment.
    pub(crate) fn parse(heap: Global, line: &str) -> Result<Option<Command>, Misread> {
        let mut words = Words {
            heap,
            left: line.split_whitespace(),
        };
        match words.left.next() {
            Some(word) if !word.starts_with('#') => Ok(Some(words.command(word)?)),
            _ => Ok(None),
        }
    }
}

/// The words of a line that are still to be read.
#[derive(Drop)]
struct Words<'a> {
    heap: Global,
    left: SplitWhitespace<'a>,
}

impl<'a> Words<'a> {
    /// The next word; where there is none, one without letters, which is no number and no name.
    // Kept: of an Option, each reader would have to make the error that its parser makes of no letters.
    fn word(&mut self) -> &'a str {
        self.left.next().unwrap_or("")
    }

    /// The next word as a number. One that is too large stands as the largest of its field, which is past the field's
    /// limit too.
    fn number<T: TryFrom<u64> + Drop>(&mut self, largest: T) -> Result<T, Misread>
    where
        T::Error: Drop,
    {
        let number: u64 = self.word().parse()?;
        Ok(T::try_from(number).unwrap_or(largest))
    }

    /// The bytes of a word in hexadecimal.
    fn bytes(&mut self) -> Result<Vec<u8>, Misread> {
        let text = self.left.next().ok_or(Misread::NoBytes)?;
        Ok(read_hex(self.heap, text)?)
    }

    /// The kind of a train, by its name or number; none where the number is past the last.
    fn kind(&mut self) -> Result<Option<Kind>, Misread> {
        let word = self.word();
        if let Ok(kind) = word.parse() {
            return Ok(Some(kind));
        }
        let number: u64 = word.parse()?;
        Ok(
            u8::try_from(number)
                .ok()
                .and_then(|number| Kind::try_from(number).ok()),
        )
    }

    /// A train as its line has it. One whose kind is none enters past the limit, so that the check refuses the train.
    // Kept: a number stands for no kind, since the rules have the check refuse such a train in its turn.
    fn train(&mut self) -> Result<Train, Misread> {
        let kind = self.kind()?;
        let entry = self.number(u32::MAX)?;
        let due = self.number(u32::MAX)?;
        let steps = self.number(u8::MAX)?;
        Ok(Train {
            kind: kind.unwrap_or(Kind::LoadedOre),
            entry: if kind.is_some() { entry } else { u32::MAX },
            due,
            steps,
        })
    }

    /// A step as its line has it.
    fn step(&mut self) -> Result<Step, Misread> {
        let section = self.number(u8::MAX)?;
        let running = self.number(u16::MAX)?;
        Ok(Step { section, running })
    }

    /// The arms of all words that are left.
    fn arms(&mut self) -> Result<Vec<u8>, Misread> {
        let mut arms = Vec::new(self.heap);
        for word in self.left.by_ref() {
            let at = arms.len();
            arms.push(arm_of(word).ok_or(ArmsFault::Arm(at))?)?;
        }
        Ok(arms)
    }

    /// How many places are handed in, where that is said.
    fn places(&mut self) -> Result<Option<u16>, Misread> {
        let places = self.left.next().map(|word| word.parse());
        places.transpose().map_err(|_| Misread::Places)
    }

    /// The call of a word and of those that follow it. A pair or an arm that is too large is no pair or arm either.
    fn call(&mut self, word: &str) -> Result<Request, Misread> {
        match word {
            "hold" => {
                let pair = self.number(usize::MAX)?;
                Ok(Request::Hold(pair, self.number(u8::MAX)?))
            }
            "release" => Ok(Request::Release(self.number(usize::MAX)?)),
            "search" => Ok(Request::Search(self.word().parse()?)),
            _ => Err(Misread::Call),
        }
    }

    /// The calls of all words that are left, one after another.
    fn calls(&mut self) -> Result<Vec<Request>, Misread> {
        let mut calls = Vec::new(self.heap);
        // Kept: an iterator over calls would need a clause on each reader of words that none of them adds a word.
        for _call in 0..u64::MAX {
            let Some(word) = self.left.next() else {
                break;
            };
            calls.push(self.call(word)?)?;
        }
        Ok(calls)
    }

    /// What is asked of a planner, or for one, by a word and those that follow it.
    fn planner_command(&mut self, word: &str) -> Result<Command, Misread> {
        match word {
            "open" => {
                let measure = self.word().parse()?;
                Ok(Command::Open(measure, self.word().parse()?))
            }
            "hold" | "release" => Ok(Command::Planner(Asked::Call(self.call(word)?, None))),
            "search" => {
                let call = self.call(word)?;
                Ok(Command::Planner(Asked::Call(call, self.places()?)))
            }
            "show" => Ok(Command::Planner(Asked::Show)),
            "plan-message" => {
                let budget = self.word().parse()?;
                Ok(Command::PlanMessage(budget, self.bytes()?))
            }
            "replay" => {
                let measure = self.word().parse()?;
                let bound = self.word().parse()?;
                Ok(Command::In(measure, Question::Replay(bound, self.calls()?)))
            }
            _ => Err(Misread::Unknown),
        }
    }

    /// The command of a word and of all that follow it.
    fn command(&mut self, word: &str) -> Result<Command, Misread> {
        let command = match word {
            "message" => Command::Message(self.bytes()?),
            "railway" => Command::Railway,
            "train" => Command::Train(self.train()?),
            "step" => Command::Step(self.step()?),
            "end" => Command::End,
            "arms" => Command::Arms(self.arms()?),
            "times" => Command::In(self.word().parse()?, Question::Times),
            "bounds" => Command::In(self.word().parse()?, Question::Bounds),
            "trains" => Command::Trains,
            "write" => Command::Write,
            "compare" => Command::Compare(self.bytes()?),
            "help" => Command::Help,
            _ => self.planner_command(word)?,
        };
        match self.left.next() {
            None => Ok(command),
            Some(_) => Err(Misread::TooMany),
        }
    }
}

/// The arm of a word.
// Kept: a number that is read would also be 01 or +1, which are no arms.
fn arm_of(word: &str) -> Option<u8> {
    match word {
        "0" => Some(0),
        "1" => Some(1),
        "2" => Some(2),
        _ => None,
    }
}
