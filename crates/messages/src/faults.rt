ghost use Rattle.std.specs.Prelude.{◌≡◌};
ghost use Rattle.messages.specs.Named.{of_case, of_message};
ghost use Rattle.messages.specs.declared.faults.MessageFault.{MessageFault};

use graph::Refusal;
use thiserror::Error;

const MESSAGE_LAYER: u8 = 1;

const CASE_LAYER: u8 = 2;

/// Why a case is refused. An arc is named by its number: the fixed arcs first, then each pair's arms. The place is the
/// field of a size, in its order, or the arc.
#[derive(Clone, Copy, Debug, PartialEq, Eq, Error)]
pub enum CaseFault {
    /// There is no event after the start, or there are too many.
    #[error("the last event is not 1 to 511")]
    Events,
    #[error("there are more than 2048 fixed arcs")]
    TooManyFixedArcs,
    #[error("there are more than 60 pairs")]
    TooManyPairs,
    /// The arc has an end past the last event.
    #[error("arc {0} has an event above the last")]
    UnknownEvent(usize),
    /// Both ends of the arc are one event.
    #[error("arc {0} leads from an event to itself")]
    SameEvent(usize),
    #[error("the weight of arc {0} is not -1000000 to 1000000")]
    Weight(usize),
    #[error("the mark of arc {0} is not 0 or 1")]
    Mark(usize),
}

impl Refusal for CaseFault {
    ghost told = { of_case };

    fn layer(self) -> u8 {
        CASE_LAYER
    }

    fn cause(self) -> u8 {
        match self {
            CaseFault::Events | CaseFault::TooManyFixedArcs | CaseFault::TooManyPairs => 3,
            CaseFault::UnknownEvent(_) => 5,
            CaseFault::SameEvent(_) => 6,
            CaseFault::Weight(_) => 7,
            CaseFault::Mark(_) => 8,
        }
    }

    fn place(self) -> usize {
        match self {
            CaseFault::Events => 0,
            CaseFault::TooManyFixedArcs => 1,
            CaseFault::TooManyPairs => 2,
            CaseFault::UnknownEvent(arc)
            | CaseFault::SameEvent(arc)
            | CaseFault::Weight(arc)
            | CaseFault::Mark(arc) => arc,
        }
    }
}

/// Why a message is refused, or is not written. The place is a byte of the message, a number of bytes, or where the case's
/// fault is.
#[derive(Clone, Copy, Debug, PartialEq, Eq, Error)]
pub enum MessageFault {
    /// The message ends before its head does, after so many bytes.
    #[error("the message has {0} bytes, and its head alone has 10")]
    Short(usize),
    #[error("the version is not 1")]
    Version,
    #[error("the last event is not 1 to 511")]
    Events,
    #[error("there are more than 2048 fixed arcs")]
    TooManyFixedArcs,
    #[error("there are more than 60 pairs")]
    TooManyPairs,
    /// The length that is told, or that of the bytes, is not what the counts ask for.
    #[error("the length is not what the numbers of arcs and pairs ask for")]
    Length,
    /// So many bytes are needed to write the message, and there are fewer.
    #[error("the message needs {0} bytes")]
    NoRoom(usize),
    #[error(transparent)]
    Case(CaseFault),
}

impl Refusal for MessageFault {
    ghost told = { of_message };

    fn layer(self) -> u8 {
        match self {
            MessageFault::Case(fault) => fault.layer(),
            _ => MESSAGE_LAYER,
        }
    }

    fn cause(self) -> u8 {
        match self {
            MessageFault::Short(_) => 1,
            MessageFault::Version => 2,
            MessageFault::Events | MessageFault::TooManyFixedArcs | MessageFault::TooManyPairs => 3,
            MessageFault::Length => 4,
            MessageFault::NoRoom(_) => 16,
            MessageFault::Case(fault) => fault.cause(),
        }
    }

    fn place(self) -> usize {
        match self {
            MessageFault::Short(length) => length,
            MessageFault::Version => 4,
            MessageFault::Events => 5,
            MessageFault::TooManyFixedArcs => 7,
            MessageFault::TooManyPairs => 9,
            MessageFault::Length => 0,
            MessageFault::NoRoom(needed) => needed,
            MessageFault::Case(fault) => fault.place(),
        }
    }
}

// Kept: a derived `From` says nothing of the variant, which clauses above name.
impl From<CaseFault> for MessageFault {
    ghost from_gives = { λ fault r. r ≡ MessageFault.Case fault };

    fn from(fault: CaseFault) -> MessageFault {
        MessageFault::Case(fault)
    }
}
