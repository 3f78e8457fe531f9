ghost use Rattle.std.specs.Prelude.{Some, codes};
ghost use Rattle.std.specs.Fmt.{padded};
ghost use Rattle.bounds.specs.Named.{named_meaning, named_lower, bound_name, Spelled};

use super::ahead::LookAhead;
use super::bound::Bound;
use super::larger::Larger;
use super::longest::LongestPath;
use graph::{CaseSource, TimeMeasure};
use std::error::Error;
use std::fmt;
use std::str::FromStr;

/// A bound that is chosen by name, while a program runs.
#[derive(Clone, Copy, Debug, PartialEq, Eq)]
pub enum NamedBound {
    LongestPath,
    LookAhead,
    /// The larger of the two others.
    Larger,
}

impl Bound for NamedBound {
    ghost meaning = { named_meaning };

    ghost lower = { named_lower };

    fn ask<S: CaseSource, V: TimeMeasure>(
        &self,
        source: &S,
        arms: &mut [u8; 60],
        times: &mut [V],
    ) -> Option<V> {
        let larger = Larger {
            one: LongestPath,
            other: LookAhead,
        };
        match self {
            NamedBound::LongestPath => LongestPath.ask(source, arms, times),
            NamedBound::LookAhead => LookAhead.ask(source, arms, times),
            NamedBound::Larger => larger.ask(source, arms, times),
        }
    }
}

/// The name of the bound, as one word.
impl fmt::Display for NamedBound {
    ghost output = { λ bound. Some (bound_name bound) };

    ghost styled_output = { λ bound spec. Some (padded spec (bound_name bound)) };

    fn fmt<W: fmt::Write>(&self, f: &mut fmt::Formatter<W>) -> fmt::Result {
        f.pad(match self {
            NamedBound::LongestPath => "longest-path",
            NamedBound::LookAhead => "look-ahead",
            NamedBound::Larger => "larger",
        })
    }
}

/// A word is the name of no bound.
#[derive(Clone, Copy, Debug, PartialEq, Eq)]
pub struct UnknownBound;

// Kept: of a derived `Display` no clause says the words.
impl fmt::Display for UnknownBound {
    ghost output = { λ _. Some (codes "there is no such bound") };

    fn fmt<W: fmt::Write>(&self, f: &mut fmt::Formatter<W>) -> fmt::Result {
        f.write_str("there is no such bound")
    }
}

impl Error for UnknownBound {}

/// The bound of a name.
impl FromStr for NamedBound {
    type Err = UnknownBound;

    ghost from_str_gives = { Spelled };

    fn from_str(word: &str) -> Result<NamedBound, UnknownBound> {
        match word {
            "longest-path" => Ok(NamedBound::LongestPath),
            "look-ahead" => Ok(NamedBound::LookAhead),
            "larger" => Ok(NamedBound::Larger),
            _ => Err(UnknownBound),
        }
    }
}
