ghost use Rattle.std.specs.Prelude.{◌≡◌, ◌≤◌, Some, codes};
ghost use Rattle.std.specs.Fmt.{padded};
ghost use Rattle.trains.specs.Kinds.{NumberOf, Numbered, kind_name, Spelled, separation};

use std::error::Error;
use std::fmt;
use std::str::FromStr;

/// The seconds by which a train keeps behind another on a section, in rows of five for the kind that goes first.
// Kept: one flat table of 25 numbers, as the rules of the railway print it.
const SEPARATIONS: [u8; 25] = [
    120, 100, 180, 150, 90, 110, 90, 170, 130, 80, 180, 170, 240, 200, 160, 90, 80, 150, 70, 60,
    60, 50, 120, 60, 0,
];

/// The kind of a train.
#[derive(Clone, Copy, Debug, PartialEq, Eq)]
pub enum Kind {
    LoadedOre,
    EmptyOre,
    HotMetal,
    Staff,
    LightEngine,
}

/// No kind of train has the number or the word that was read.
#[derive(Clone, Copy, Debug, PartialEq, Eq)]
pub struct UnknownKind;

/// The number of the kind, 0 to 4.
impl From<Kind> for u8 {
    ghost from_gives = { NumberOf };

    fn from(kind: Kind) -> u8 {
        match kind {
            Kind::LoadedOre => 0,
            Kind::EmptyOre => 1,
            Kind::HotMetal => 2,
            Kind::Staff => 3,
            Kind::LightEngine => 4,
        }
    }
}

/// The kind that has the number; past 4 there is none. A caller that reads numbers refuses such a train as one that
/// breaks a limit, by `RailwayFault::Train` with its index.
impl TryFrom<u8> for Kind {
    type Error = UnknownKind;

    ghost try_from_gives = { Numbered };

    fn try_from(number: u8) -> Result<Kind, UnknownKind> {
        match number {
            0 => Ok(Kind::LoadedOre),
            1 => Ok(Kind::EmptyOre),
            2 => Ok(Kind::HotMetal),
            3 => Ok(Kind::Staff),
            4 => Ok(Kind::LightEngine),
            _ => Err(UnknownKind),
        }
    }
}

/// The name of the kind, in words.
impl fmt::Display for Kind {
    ghost output = { λ kind. Some (kind_name kind) };

    ghost styled_output = { λ kind spec. Some (padded spec (kind_name kind)) };

    fn fmt<W: fmt::Write>(&self, f: &mut fmt::Formatter<W>) -> fmt::Result {
        f.pad(match self {
            Kind::LoadedOre => "loaded ore",
            Kind::EmptyOre => "empty ore",
            Kind::HotMetal => "hot metal",
            Kind::Staff => "staff",
            Kind::LightEngine => "light engine",
        })
    }
}

/// The kind that a word spells, as its name with a hyphen.
impl FromStr for Kind {
    type Err = UnknownKind;

    ghost from_str_gives = { Spelled };

    fn from_str(word: &str) -> Result<Kind, UnknownKind> {
        match word {
            "loaded-ore" => Ok(Kind::LoadedOre),
            "empty-ore" => Ok(Kind::EmptyOre),
            "hot-metal" => Ok(Kind::HotMetal),
            "staff" => Ok(Kind::Staff),
            "light-engine" => Ok(Kind::LightEngine),
            _ => Err(UnknownKind),
        }
    }
}

// Kept: of a derived `Display` no clause says the words.
impl fmt::Display for UnknownKind {
    ghost output = { λ _. Some (codes "there is no such kind of train") };

    fn fmt<W: fmt::Write>(&self, f: &mut fmt::Formatter<W>) -> fmt::Result {
        f.write_str("there is no such kind of train")
    }
}

impl Error for UnknownKind {}

impl Kind {
    /// The seconds by which a train of the kind `next` keeps behind one of this kind that goes first on a section.
    pub fn separation(self, next: Kind) -> u8
        ensures is { result ≡ separation self next }
        ensures small { result ≤ 240 }
    {
        SEPARATIONS[usize::from(5 * u8::from(self) + u8::from(next))]
    }
}
