//! The places where pieces stand: each has the piece, ready to be run, until a thread takes it, and then what the thread brings back. A
//! tray is the places of the pieces that one thread number was dealt.
ghost use Rattle.std.specs.Prelude.{◌≡◌, ◌+◌, ◌^◌, ◌<◌, ◌≤◌, ◌↔◌, OnOk, OnErr, IfErr, IfSome, IsNone, IsSome, IsTrue, IsOk, true, length, vec_len, vec_capacity, [], IfOk};
ghost use Rattle.std.specs.List.{AllZip};
ghost use Rattle.spindle_locks.specs.PieceRuns.{HasAnswered};
ghost use Rattle.spindle_locks.specs.Rounds.{AddsAnswers};
ghost use Rattle.spindle_locks.specs.Outputs.{IsDoneOf};
ghost use Rattle.spindle_locks.specs.Trays.{brought_to, AwaitsDealt, HoldsDone, IsFirstMissing};
ghost use Rattle.spindle_locks.specs.declared.pieces.place.Place.TheVariants.{Away, Waits, Back};

use crate::pieces::finished::Finished;
use crate::pieces::list_runs::{Address, ListRuns, dealt_length};
use crate::prelude::*;
use spindle_parts::lists::shared::ListRun;
use std::marker::Model;
use std::mem;

/// What stands at a place.
#[derive(Drop)]
pub(crate) enum Place<P, A> {
    /// Nothing: a thread that has the piece of this number may bring it back.
    Away(usize),
    /// A piece that no thread has taken.
    Waits(P),
    /// What a thread brought back.
    Back(A),
}

/// The places of one thread number's pieces.
pub(crate) type Tray<J> = Vec<Place<Ready<J>, Finished<J>>>;

impl<J: Job> Place<Ready<J>, Finished<J>> {
    // Puts a piece here, with the room of what stood here, or else a spare one.
    fn refill(
        &mut self,
        alloc: Global,
        number: usize,
        inputs: ListRun<J::In>,
        spares: &mut SpareLists<J::Out>,
    ) -> Result<(), AllocError>
        ensures { OnOk result (self.new ≡ Waits (record { number = number; inputs = inputs })) }
    {
        let buffer = match mem::replace(self, Place::Away(number)) {
            Place::Away(_) => spares.take(alloc),
            Place::Waits(ready) => ready.into_parts().1,
            Place::Back(finished) => finished.into_outputs(),
        };
        *self = Place::Waits(Ready::new(number, inputs, buffer)?);
        Ok(())
    }

    /// Takes the piece of a number, if it waits here.
    pub(crate) fn take(&mut self, number: usize) -> Option<Ready<J>>
        ensures number { IfSome result (λ piece. piece.number ≡ number) }
        ensures taken { IfSome result (λ piece. (self.old ≡ Waits piece)
            × (self.new ≡ Away number)) }
        ensures kept { IsNone result → self.new ≡ self.old }
    {
        match self {
            Place::Waits(piece) if piece.number() == number => {}
            _ => return None,
        }
        match mem::replace(self, Place::Away(number)) {
            Place::Waits(piece) => Some(piece),
            _other => None,
        }
    }

    /// Brings a piece back, run. Refused where this piece isn't away.
    pub(crate) fn put(&mut self, finished: Finished<J>) -> Result<(), Finished<J>>
        ensures free { IsOk result ↔ (self.old ≡ Away finished.number) }
        ensures held { OnOk result (self.new ≡ Back finished) }
        ensures returned { IfErr result (λ back. back ≡ finished) }
        ensures kept { OnErr result (self.new ≡ self.old) }
    {
        match self {
            Place::Away(number) if *number == finished.number() => {
                *self = Place::Back(finished);
                Ok(())
            }
            _ => Err(finished),
        }
    }

    /// Takes the outputs of what was brought back, if it is the piece of a number with these items. Nothing stands here then.
    pub(crate) fn take_outputs(&mut self, number: usize, items: &[J::In]) -> Option<Vec<J::Out>>
        ensures answers { IfSome result (λ outputs. AllZip J.meets items.now outputs.items) }
        ensures held { IsSome result ↔ IsDoneOf number items.now (brought_to self.old) }
        ensures emptied { self.new ≡ Away number }
    {
        let Place::Back(finished) = mem::replace(self, Place::Away(number)) else {
            return None;
        };
        if finished.is_of(number, items) {
            Some(finished.into_outputs())
        } else {
            None
        }
    }

    // Moves the outputs of what was brought back to the end of the list, if it is the piece of a number with these items.
    fn hand_over(&mut self, number: usize, items: &[J::In], outputs: &mut Vec<J::Out>) -> bool
        requires room { vec_len outputs.old + length items.now ≤ vec_capacity outputs.old }
        ensures answers { result ≡ true
            → AddsAnswers J.meets items.now outputs.old.items outputs.new.items }
        ensures room { vec_capacity outputs.old ≤ vec_capacity outputs.new }
        ensures held { IsTrue result ↔ IsDoneOf number items.now (brought_to self.old) }
    {
        match self {
            Place::Back(finished) if finished.is_of(number, items) => {
                finished.move_outputs(outputs);
                true
            }
            _ => false,
        }
    }
}

/// Puts what a thread number is dealt of the pieces into its tray.
pub(crate) fn fill<J: Job>(
    tray: &mut Tray<J>,
    alloc: Global,
    thread: usize,
    threads: usize,
    pieces: &ListRuns<J::In>,
    spares: &mut SpareLists<J::Out>,
) -> Result<(), AllocError>
    requires { thread < threads }
    ensures waits { OnOk result
        (AwaitsDealt pieces.now.items pieces.now.count threads thread tray.new.items) }
{
    let count = pieces.count();
    let length = dealt_length(thread, count, threads);
    let missing = length.saturating_sub(tray.len());
    tray.reserve(missing)?;
    for _ in 0..missing {
        tray.push_reserved(Place::Away(0));
    }
    for place in 0..length {
        let number = Address { thread, place }.number(count, threads);
        tray[place].refill(alloc, number, pieces.run(number)?, spares)?;
    }
    Ok(())
}

/// Moves the outputs of so many pieces, whose places begin at `from`, to the end of the list. Ok where each of these
/// places holds its piece, run; else the first number whose place doesn't.
pub(crate) fn gather<J: Job>(
    tray: &mut Tray<J>,
    from: usize,
    pieces: &ListRuns<J::In>,
    number: usize,
    count: usize,
    outputs: &mut Vec<J::Out>,
) -> Result<(), usize>
    requires numbers { number + count ≤ pieces.now.count }
    requires places { from + count < 2 ^ 64 }
    requires before { HasAnswered J.meets
        pieces.now.items pieces.now.count number outputs.old }
    ensures answers { OnOk result (HasAnswered J.meets
        pieces.now.items pieces.now.count (number + count) outputs.new) }
    ensures complete { OnOk result
        (HoldsDone pieces.now.items pieces.now.count number from count tray.old.items) }
    ensures lost { IfErr result (IsFirstMissing pieces.now.items pieces.now.count
        number from count tray.old.items) }
    ensures within { IfErr result (λ k. k < pieces.now.count) }
{
    for at in 0..count {
        let next = number + at;
        let place = from + at;
        if place >= tray.len() {
            return Err(next);
        }
        if !tray[place].hand_over(next, pieces.piece(next), outputs) {
            return Err(next);
        }
    }
    Ok(())
}

/// Lets go of so many pieces, whose places begin at `from` and which were run elsewhere. The room for their outputs stays.
pub(crate) fn let_go<J: Job>(tray: &mut Tray<J>, from: usize, count: usize)
    requires places { from + count < 2 ^ 64 }
{
    for at in from..from + count {
        if let Some(place) = tray.get_mut(at)
            && let Place::Waits(piece) = mem::replace(place, Place::Away(0))
        {
            *place = Place::Back(Finished::run_elsewhere(piece));
        }
    }
}

/// A piece with room for an output for each of its items.
#[derive(Drop)]
pub struct Ready<J: Job> {
    number: usize,
    inputs: ListRun<J::In>,
    buffer: Vec<J::Out>,
}

impl<J: Job> Model for Ready<J> {
    ghost use Rattle.std.specs.Prelude.{◌≡◌, ◌≤◌, [], length, vec_capacity};
    ghost use Rattle.spindle_locks.specs.Done.{Given};

    ghost Value = { Given J.In };

    ghost view = { λ piece. record { number = piece.number; inputs = piece.inputs } };

    ghost invariant = { λ piece. (piece.buffer.items ≡ [])
        × (length piece.inputs ≤ vec_capacity piece.buffer) };
}

impl<J: Job> Ready<J> {
    /// A piece with room for its outputs. What the vector held goes; its room is used.
    pub fn new(
        number: usize,
        inputs: ListRun<J::In>,
        mut buffer: Vec<J::Out>,
    ) -> Result<Ready<J>, AllocError>
        ensures number { IfOk result (λ ready. ready.number ≡ number) }
        ensures inputs { IfOk result (λ ready. ready.inputs ≡ inputs) }
    {
        buffer.clear();
        buffer.reserve(inputs.len())?;
        Ok(Ready {
            number,
            inputs,
            buffer,
        })
    }

    /// The piece's number.
    pub fn number(&self) -> usize
        ensures { result ≡ self.now.number }
    {
        self.number
    }

    /// The piece's inputs, and the empty room for their outputs.
    pub fn into_parts(self) -> (ListRun<J::In>, Vec<J::Out>)
        ensures inputs { result.0 ≡ self.inputs }
        ensures empty { result.1.items ≡ [] }
        ensures room { length result.0 ≤ vec_capacity result.1 }
    {
        (self.inputs, self.buffer)
    }
}

/// Lists to be had instead of new ones, each with the number of the piece that it came from.
#[derive(Drop)]
pub struct SpareLists<T> {
    lists: Vec<(usize, Vec<T>)>,
}

impl<T> SpareLists<T> {
    /// These lists, whatever stands in them.
    pub fn new(lists: Vec<(usize, Vec<T>)>) -> SpareLists<T> {
        SpareLists { lists }
    }

    /// No list. Takes no memory.
    pub fn none(alloc: Global) -> SpareLists<T> {
        SpareLists::new(Vec::new(alloc))
    }

    /// A list with what stands in it, or a new one where there is no other. Takes no memory.
    pub(crate) fn take(&mut self, alloc: Global) -> Vec<T> {
        match self.lists.pop() {
            Some((_, list)) => list,
            None => Vec::new(alloc),
        }
    }
}
