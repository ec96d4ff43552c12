//! Series of rounds: what stands before the first, how the next one is played, and what ought to stand then.
ghost use Rattle.std.specs.Prelude.{◌≡◌, ◌<◌};
ghost use denote.Param.Send.{IsSync};

use crate::timing::Shape;
use spindle::EqualIsSame;
use spindle::lock::{Opens, PlaysInPlace, Updates};
use spindle::prelude::*;
use std::mem;

/// Whether there was memory.
pub type Done = Result<(), Fault>;

/// What threads of a lock need of their runtime.
pub trait Runs: Threads + Wait + Sync {}

impl<H: Threads + Wait + Sync> Runs for H {}

/// What a job over lists is given.
pub trait Input: Clone + EqualIsSame + Drop {
    /// What the job of this number is given in the first round, so many numbers where that is a list.
    fn input(alloc: Global, number: usize, size: usize) -> Result<Self, Fault>;
}

/// A kind of job whose rounds answer new lists.
pub trait Listed: Job<In: Input, Out: PartialEq> {
    /// What the job of this number answers after so many rounds.
    fn output(alloc: Global, number: usize, size: usize, rounds: u64) -> Result<Self::Out, Fault>;

    /// What the jobs of the next round are given, after this in the first and these answers: the same, where they aren't given those.
    fn next(_: Global, first: &Vec<Self::In>, _: Vec<Self::Out>) -> Result<Vec<Self::In>, Fault> {
        Ok(first.clone()?)
    }
}

/// A kind of job whose rounds are played in place.
pub trait Placed: Updates<In = (), Out = (), Item: PartialEq> {
    /// The item of the job of this number after so many rounds, so many numbers where that is a list.
    fn item(alloc: Global, number: usize, size: usize, rounds: u64) -> Result<Self::Item, Fault>;
}

/// A series of rounds, over what the last one left.
pub trait Series: Drop {
    /// What stands before the first round of this shape.
    fn new(alloc: Global, shape: Shape) -> Result<Self, Fault>;

    /// Whether what stands after so many rounds is right.
    fn is_right(&self, alloc: Global, rounds: u64) -> Result<bool, Fault>;
}

/// A leader that plays the rounds of a series S.
pub trait Plays<S> {
    /// Plays the next round.
    fn play<H: Runs>(&mut self, rt: &H, alloc: Global, series: &mut S) -> Done
        requires { IsSync H.row };

    /// Plays so many rounds.
    fn play_all<H: Runs>(&mut self, rt: &H, alloc: Global, series: &mut S, rounds: u64) -> Done
        requires { IsSync H.row }
    {
        for _ in 0..rounds {
            self.play(rt, alloc, series)?;
        }
        Ok(())
    }
}

// What the jobs of a shape answer after so many rounds.
fn outputs<J: Listed>(alloc: Global, shape: Shape, rounds: u64) -> Result<Vec<J::Out>, Fault> {
    let outputs = (0..shape.items).map(|number| J::output(alloc, number, shape.size, rounds));
    outputs.collect(alloc)?
}

/// Rounds that answer new lists.
#[derive(Drop)]
pub struct Lists<J: Job> {
    shape: Shape,
    first: Vec<J::In>,
    outputs: Vec<J::Out>,
}

impl<J: Listed> Series for Lists<J> {
    fn new(alloc: Global, shape: Shape) -> Result<Lists<J>, Fault> {
        let first = (0..shape.items).map(|number| J::In::input(alloc, number, shape.size));
        let first = first.collect::<Result<Vec<J::In>, Fault>>(alloc)??;
        let outputs = outputs::<J>(alloc, shape, 0)?;
        Ok(Lists {
            shape,
            first,
            outputs,
        })
    }

    fn is_right(&self, alloc: Global, rounds: u64) -> Result<bool, Fault> {
        Ok(self.outputs == outputs::<J>(alloc, self.shape, rounds)?)
    }
}

impl<J: Listed, E: RunsRounds<J>> Plays<Lists<J>> for E {
    fn play<H: Runs>(&mut self, rt: &H, alloc: Global, lists: &mut Lists<J>) -> Done {
        let outputs = mem::replace(&mut lists.outputs, Vec::new(alloc));
        let mut inputs = J::next(alloc, &lists.first, outputs)?;
        self.for_each_into(rt, alloc, lists.shape.jobs, &mut inputs, &mut lists.outputs)
    }
}

/// Rounds over one list that may stop, into one report.
#[derive(Drop)]
pub struct Tries<J: Job> {
    lists: Lists<J>,
    report: Report<J::Out>,
}

impl<J: Listed> Series for Tries<J> {
    fn new(alloc: Global, shape: Shape) -> Result<Tries<J>, Fault> {
        let (lists, report) = (Lists::new(alloc, shape)?, Report::new(alloc));
        Ok(Tries { lists, report })
    }

    fn is_right(&self, alloc: Global, rounds: u64) -> Result<bool, Fault> {
        let wanted = outputs::<J>(alloc, self.lists.shape, rounds)?;
        let mut ran = self.report.ran.iter().zip(&wanted);
        let right = ran.all(|(piece, wanted)| matches!(piece.1.as_slice(), [x] if x == wanted));
        Ok(right && self.report.ran.len() == wanted.len())
    }
}

impl<'a, J: Opens<L>, G: Gate, L> Plays<Tries<J>> for Leader<'a, J, G, L> {
    fn play<H: Runs>(&mut self, rt: &H, alloc: Global, all: &mut Tries<J>) -> Done {
        let (inputs, jobs) = (all.lists.first.clone()?, all.lists.shape.jobs);
        self.try_for_each_into(rt, alloc, jobs, inputs, &mut all.report)
    }
}

/// Rounds in place.
#[derive(Drop)]
pub struct Places<J: Updates> {
    /// The shape of its rounds.
    pub shape: Shape,
    /// What the jobs of the last round left.
    pub items: Vec<J::Item>,
}

impl<J: Placed> Series for Places<J> {
    fn new(alloc: Global, shape: Shape) -> Result<Places<J>, Fault> {
        let items = items::<J>(alloc, shape.items, shape.size, 0)?;
        Ok(Places { shape, items })
    }

    fn is_right(&self, alloc: Global, rounds: u64) -> Result<bool, Fault> {
        Ok(self.items == items::<J>(alloc, self.shape.items, self.shape.size, rounds)?)
    }
}

/// So many items after so many rounds.
pub fn items<J: Placed>(
    alloc: Global,
    count: usize,
    size: usize,
    rounds: u64,
) -> Result<Vec<J::Item>, Fault> {
    let items = (0..count).map(|number| J::item(alloc, number, size, rounds));
    items.collect(alloc)?
}

impl<'a, J: PlaysInPlace<P>, G: Gate, P> Plays<Places<J>> for SlotLeader<'a, J, G, P> {
    fn play<H: Runs>(&mut self, rt: &H, alloc: Global, all: &mut Places<J>) -> Done {
        self.update_each(rt, alloc, all.shape.jobs, &mut all.items)
    }
}
