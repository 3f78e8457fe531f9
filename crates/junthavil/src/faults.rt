//! Why a command is not carried out.
use super::command::Misread;
use graph::Refusal;
use messages::MessageFault;
use search::{PlanMessageFault, PlannerFault};
use session::{ArmsFault, RailwayRefusal};
use std::alloc::AllocError;
use std::fmt;
use std::fmt::Display;
use thiserror::Error;
use trains::RailwayFault;

/// What a layer refuses, by its numbers and in words.
#[derive(Clone, Copy, Debug)]
pub(crate) enum Refused {
    Railway(RailwayFault),
    Plan(PlanMessageFault),
}

/// The line for a refusal.
fn write_refused<F: Refusal + Display, W: fmt::Write>(
    f: &mut fmt::Formatter<W>,
    fault: &F,
) -> fmt::Result {
    let layer = fault.layer();
    let cause = fault.cause();
    let place = fault.place();
    write!(
        f,
        "refused layer {layer} cause {cause} place {place}: {fault}"
    )
}

impl Display for Refused {
    fn fmt<W: fmt::Write>(&self, f: &mut fmt::Formatter<W>) -> fmt::Result {
        match self {
            Refused::Railway(fault) => write_refused(f, fault),
            Refused::Plan(fault) => write_refused(f, fault),
        }
    }
}

/// Why a command is not carried out.
#[derive(Debug, Drop, Error)]
pub(crate) enum Fault {
    #[error("{0}")]
    Misread(#[from] Misread),
    #[error("no case is open; take one by message or railway")]
    NoCase,
    #[error("no planner is open; open one by open")]
    NoPlanner,
    #[error("no railway is begun; begin one by railway")]
    NoRailway,
    #[error("the open case is no railway")]
    NotARailway,
    #[error("{0}")]
    Arms(#[from] ArmsFault),
    #[error("{0}")]
    Refused(Refused),
    #[error("memory allocation failed")]
    Memory(#[from(alloc)] AllocError),
}

// Kept: here and below a fault is wrapped twice, by `Refused` too, and a derived `From` wraps once.
impl From<RailwayRefusal> for Fault {
    fn from(refusal: RailwayRefusal) -> Fault {
        match refusal {
            RailwayRefusal::Railway(fault) => Fault::Refused(Refused::Railway(fault)),
            RailwayRefusal::Memory => Fault::Memory(AllocError),
        }
    }
}

impl From<PlanMessageFault> for Fault {
    fn from(fault: PlanMessageFault) -> Fault {
        Fault::Refused(Refused::Plan(fault))
    }
}

impl From<MessageFault> for Fault {
    fn from(fault: MessageFault) -> Fault {
        Fault::from(PlanMessageFault::from(fault))
    }
}

impl From<PlannerFault> for Fault {
    fn from(fault: PlannerFault) -> Fault {
        Fault::from(PlanMessageFault::from(fault))
    }
}
