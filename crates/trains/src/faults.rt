ghost use Rattle.std.specs.Prelude.{◌≡◌};
ghost use Rattle.trains.specs.Named.{of_railway};

use graph::Refusal;
use thiserror::Error;

/// The number of the layer of railways.
const LAYER: u8 = 3;

/// Why a railway is refused.
#[derive(Clone, Copy, Debug, PartialEq, Eq, Error)]
pub enum RailwayFault {
    #[error("there are more than 12 trains")]
    TooManyTrains,
    /// The train breaks a limit.
    #[error("train {0} has a class, entry, due time or number of steps past its limit")]
    Train(usize),
    /// There are so many steps, and the trains ask for another number of them.
    #[error("there are {0} steps, and the trains ask for another number of them")]
    Steps(usize),
    /// The step breaks a limit.
    #[error("step {0} has a section or running time past its limit")]
    Step(usize),
    #[error("there are more than 60 pairs")]
    TooManyPairs,
}

impl Refusal for RailwayFault {
    ghost told = { of_railway };

    fn layer(self) -> u8 {
        LAYER
    }

    fn cause(self) -> u8 {
        match self {
            RailwayFault::TooManyTrains => 17,
            RailwayFault::Train(_) => 18,
            RailwayFault::Steps(_) => 19,
            RailwayFault::Step(_) => 20,
            RailwayFault::TooManyPairs => 21,
        }
    }

    fn place(self) -> usize {
        match self {
            RailwayFault::TooManyTrains => 12,
            RailwayFault::TooManyPairs => 60,
            RailwayFault::Train(at) | RailwayFault::Steps(at) | RailwayFault::Step(at) => at,
        }
    }
}
