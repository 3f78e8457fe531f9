ghost use Rattle.std.specs.Prelude.{◌≡◌, ◌+◌, ◌-◌, ◌<◌, ◌≤◌, true, ◌++◌, length, take, replicate, All, IfOk, Some, None, Ok, Err, vec_len, MatchOption, slice_index};
ghost use Rattle.std.specs.List.{AllByRecursion};
ghost use Rattle.graph.specs.Times.{least_times, TimesLaw};
ghost use Rattle.messages.specs.Message.{message_fault};
ghost use Rattle.messages.specs.Named.{of_message};
ghost use Rattle.messages.specs.Told.{passes};
ghost use Rattle.bounds.specs.Told.{RankIs};
ghost use Rattle.trains.specs.Railway.{railway_fault, railway_case};
ghost use Rattle.session.specs.Open.{size_of, ArmsChosen, RailwayRefused, TimesFound};
ghost use Rattle.session.specs.declared.open.RailwayRefusal.{RailwayRefusal};

use super::cases::{bound_of, message_of, rewritten, times_of};
use bounds::Bound;
use graph::{CaseSource, TimeMeasure};
use messages::MessageFault;
use railway::Railway;
use sources::{Message, check_message};
use std::alloc::{AllocError, Global};
use std::fmt;
use thiserror::Error;
use trains::{RailwayFault, Step, Train};

/// How large a case is: its last event, its fixed arcs and its pairs.
#[derive(Clone, Copy, Debug, PartialEq, Eq)]
pub struct CaseSize {
    pub end: usize,
    pub fixed: usize,
    pub pairs: usize,
}

impl fmt::Display for CaseSize {
    ghost use Rattle.std.specs.Prelude.{◌++◌, Some, codes, decimal};

    ghost output = { λ s. Some (codes "events " ++ decimal s.end ++ codes " fixed " ++ decimal s.fixed ++ codes " pairs " ++ decimal s.pairs) };

    fn fmt<W: fmt::Write>(&self, f: &mut fmt::Formatter<W>) -> fmt::Result {
        let CaseSize { end, fixed, pairs } = *self;
        write!(f, "events {end} fixed {fixed} pairs {pairs}")
    }
}

/// Why a choice of arms is not taken.
#[derive(Clone, Copy, Debug, PartialEq, Eq, Error)]
pub enum ArmsFault {
    /// There are more arms than pairs; the case has so many pairs.
    #[error("the case has {0} pairs")]
    TooMany(usize),
    #[error("arm {0} is not 0, 1 or 2")]
    Arm(usize),
}

/// Why a railway is not taken: its check refuses it, or there is no memory.
#[derive(Clone, Copy, Debug, PartialEq, Eq, Error)]
pub enum RailwayRefusal {
    #[error(transparent)]
    Railway(RailwayFault),
    #[error("there is no memory")]
    Memory,
}

// Kept: a derived `From` says nothing of the variant, which a clause names; the next one has nothing to carry.
impl From<RailwayFault> for RailwayRefusal {
    ghost from_gives = { λ fault r. r ≡ RailwayRefusal.Railway fault };

    fn from(fault: RailwayFault) -> RailwayRefusal {
        RailwayRefusal::Railway(fault)
    }
}

impl From<AllocError> for RailwayRefusal {
    ghost from_gives = { λ _ r. r ≡ RailwayRefusal.Memory };

    fn from(_error: AllocError) -> RailwayRefusal {
        RailwayRefusal::Memory
    }
}

/// A case that was taken, as the message that it came in, and the arms that are chosen of its pairs.
// Kept: its clauses name the fields, since a model would forget that the vector itself is kept.
#[derive(Drop)]
pub struct OpenCase {
    message: Vec<u8>,
    arms: [u8; 60],
    ghost taken: { passes (message_fault message.items) ≡ true },
}

/// The index of the first arm that is not 0, 1 or 2, if there is one.
fn wrong_arm(arms: &[u8]) -> Option<usize>
    ensures { MatchOption result (All (λ a. a ≤ 2) arms.now) (λ k. (k < length arms.now) × (2 < slice_index arms.now k)) }
{
    arms.iter().position(|arm| *arm > 2)
}

/// The table that begins with these arms and goes on with zeros.
// Kept: the arms are sixty bytes of fixed memory, which a bound takes.
fn table_of(arms: &[u8]) -> [u8; 60]
    requires { length arms.now ≤ 60 }
    ensures { result ≡ arms.now ++ replicate (60 - length arms.now) 0 }
{
    let mut table = [0; 60];
    table[0..arms.len()].copy_from_slice(arms);
    table
}

impl OpenCase {
    ghost use Rattle.session.specs.Opened.{case_of, chosen_of};

    /// Takes a message that its check accepts, with no arm chosen.
    pub fn take(message: Vec<u8>) -> Result<OpenCase, MessageFault>
        ensures { elim result [ Ok o ↦ (message_fault message.items ≡ None) × (o.message ≡ message) × (o.arms ≡ replicate 60 0) | Err f ↦ message_fault message.items ≡ Some (of_message f) ] }
    {
        check_message(message.as_slice())?;
        Ok(OpenCase {
            message,
            arms: [0; 60],
        })
    }

    /// Takes a railway that its check accepts, with no arm chosen: the open case is the railway's.
    pub fn of_railway<'a>(
        heap: Global,
        trains: &'a [Train],
        steps: &'a [Step],
    ) -> Result<OpenCase, RailwayRefusal>
        ensures { elim result [ Ok o ↦ (railway_fault trains.now steps.now ≡ None) × (case_of o ≡ railway_case trains.now steps.now) × (o.arms ≡ replicate 60 0) | Err f ↦ RailwayRefused (railway_fault trains.now steps.now) f ] }
    {
        let railway = Railway::read(trains, steps)?;
        let message = message_of(heap, &railway)?;
        Ok(OpenCase {
            message,
            arms: [0; 60],
        })
    }

    /// The case as a source.
    fn source(&self) -> Message<'_>
        ensures { ⟦<Message<'static> as CaseSource>⟧.means result ≡ case_of self.now }
    {
        Message::over(self.message.as_slice())
    }

    /// How large the case is.
    pub fn size(&self) -> CaseSize
        ensures is { result ≡ size_of (case_of self.now) }
        ensures few_pairs { result.pairs ≤ 60 }
    {
        let source = self.source();
        CaseSize {
            end: source.end(),
            fixed: source.fixed_count(),
            pairs: source.pair_count(),
        }
    }

    /// The arms that are chosen, one for each pair, 0 where undecided.
    pub fn arms(&self) -> &[u8]
        ensures { result.now ≡ take (length (case_of self.now).pairs) self.now.arms }
    {
        let pairs = self.size().pairs;
        &self.arms[0..pairs]
    }

    /// Chooses an arm, 1 or 2, of the first pairs, one after the other, or 0 to leave a pair undecided; the other pairs are
    /// undecided.
    pub fn choose(&mut self, arms: &[u8]) -> Result<(), ArmsFault>
        ensures chosen { ArmsChosen (case_of self.old) arms.now self.old.arms self.new.arms result }
        ensures same { self.new.message ≡ self.old.message }
    {
        let size = self.size();
        if arms.len() > size.pairs {
            return Err(ArmsFault::TooMany(size.pairs));
        }
        if let Some(at) = wrong_arm(arms) {
            return Err(ArmsFault::Arm(at));
        }
        self.arms = table_of(arms);
        Ok(())
    }

    /// The least times of the case with the chosen arms, one for each event, or none.
    pub fn times<V: TimeMeasure>(&self, heap: Global) -> Result<Option<Vec<V>>, AllocError>
        ensures found { IfOk result (λ o. TimesFound V.TimeMeasure.rank (least_times V.TimeMeasure.ranking (case_of self.now) (chosen_of self.now)) o) }
        ensures law { TimesLaw V.TimeMeasure.ranking (case_of self.now) (chosen_of self.now) }
    {
        times_of(heap, &self.source(), &self.arms)
    }

    /// What a bound answers about the case with the chosen arms.
    pub fn bound<V: TimeMeasure, B: Bound>(
        &self,
        heap: Global,
        bound: &B,
    ) -> Result<Option<V>, AllocError>
        ensures { IfOk result (λ o. RankIs V.TimeMeasure.rank o (B.Bound.meaning bound.now (case_of self.now) (chosen_of self.now) V.TimeMeasure.ranking)) }
    {
        bound_of(heap, &self.source(), &self.arms, bound)
    }

    /// The case written as a message: byte for byte the message that was taken.
    pub fn write(&self, heap: Global) -> Result<Vec<u8>, AllocError>
        ensures { IfOk result (λ v. v.items ≡ self.now.message.items) }
    {
        rewritten(heap, self.message.as_slice())
    }
}
