ghost use Rattle.std.specs.Prelude.{◌≡◌};
ghost use Rattle.search.specs.Named.{of_planner, of_plan_message};
ghost use Rattle.search.specs.declared.faults.PlanMessageFault.{PlanMessageFault};

use graph::Refusal;
use messages::MessageFault;
use thiserror::Error;

const PLANNER_LAYER: u8 = 4;

/// Why a call of a planner is refused.
#[derive(Clone, Copy, Debug, PartialEq, Eq, Error)]
pub enum PlannerFault {
    /// The search is finished.
    #[error("the search is finished")]
    Finished,
    /// The budget is 0 or above a million.
    #[error("the budget is not 1 to 1000000")]
    Budget,
    /// There are fewer places for times than events: how many there are.
    #[error("there are {0} places for times, fewer than one for each event")]
    Places(usize),
    /// There is no such pair.
    #[error("there is no pair {0}")]
    NoPair(usize),
    /// The arm that is asked for of the pair is neither 1 nor 2.
    #[error("the arm of pair {0} is not 1 or 2")]
    NoArm(usize),
    /// The pair is held.
    #[error("pair {0} is already held")]
    Held(usize),
    /// The pair is not held.
    #[error("pair {0} is not held")]
    NotHeld(usize),
}

impl Refusal for PlannerFault {
    ghost told = { of_planner };

    fn layer(self) -> u8 {
        PLANNER_LAYER
    }

    fn cause(self) -> u8 {
        match self {
            PlannerFault::Finished => 9,
            PlannerFault::Budget => 10,
            PlannerFault::Places(_) => 11,
            PlannerFault::NoPair(_) => 12,
            PlannerFault::NoArm(_) => 13,
            PlannerFault::Held(_) => 14,
            PlannerFault::NotHeld(_) => 15,
        }
    }

    fn place(self) -> usize {
        match self {
            PlannerFault::Finished | PlannerFault::Budget => 0,
            PlannerFault::Places(places) => places,
            PlannerFault::NoPair(pair)
            | PlannerFault::NoArm(pair)
            | PlannerFault::Held(pair)
            | PlannerFault::NotHeld(pair) => pair,
        }
    }
}

/// Why a message is not planned: the message's fault, or the search's.
#[derive(Clone, Copy, Debug, PartialEq, Eq, Error)]
pub enum PlanMessageFault {
    #[error(transparent)]
    Message(MessageFault),
    #[error(transparent)]
    Planner(PlannerFault),
}

// Kept: the two faults are of two types, so each number is handed on by a match.
impl Refusal for PlanMessageFault {
    ghost told = { of_plan_message };

    fn layer(self) -> u8 {
        match self {
            PlanMessageFault::Message(fault) => fault.layer(),
            PlanMessageFault::Planner(fault) => fault.layer(),
        }
    }

    fn cause(self) -> u8 {
        match self {
            PlanMessageFault::Message(fault) => fault.cause(),
            PlanMessageFault::Planner(fault) => fault.cause(),
        }
    }

    fn place(self) -> usize {
        match self {
            PlanMessageFault::Message(fault) => fault.place(),
            PlanMessageFault::Planner(fault) => fault.place(),
        }
    }
}

// Kept: a derived `From` says nothing of the variant, which a clause names; so below.
impl From<MessageFault> for PlanMessageFault {
    ghost from_gives = { λ fault r. r ≡ PlanMessageFault.Message fault };

    fn from(fault: MessageFault) -> PlanMessageFault {
        PlanMessageFault::Message(fault)
    }
}

impl From<PlannerFault> for PlanMessageFault {
    ghost from_gives = { λ fault r. r ≡ PlanMessageFault.Planner fault };

    fn from(fault: PlannerFault) -> PlanMessageFault {
        PlanMessageFault::Planner(fault)
    }
}
