//! A piece that was run: its outputs answer its inputs.
ghost use Rattle.std.specs.Prelude.{◌≡◌, ◌+◌, ◌≤◌, ◌↔◌, [], IsTrue, true, length, vec_len, vec_capacity};
ghost use Rattle.std.specs.List.{AllZip, Any};
ghost use Rattle.spindle_locks.specs.Rounds.{AddsAnswers};

use crate::pieces::place::Ready;
use crate::pieces::tally::has_failure;
use crate::prelude::*;
use spindle_parts::lists::shared::{ListRun, are_equal};
use spindle_rounds::round::claim::Numbered;
use std::marker::Model;

/// A piece that was run, with its inputs and an output for each, in their order.
#[derive(Drop)]
pub struct Finished<J: Job> {
    number: usize,
    inputs: Option<ListRun<J::In>>,
    outputs: Vec<J::Out>,
}

impl<J: Job> Model for Finished<J> {
    ghost use Rattle.std.specs.List.{AllZip};
    ghost use Rattle.spindle_locks.specs.Done.{Done, inputs_of};

    ghost Value = { Done J.In J.Out };

    ghost view = { λ piece. record {
      number = piece.number;
      inputs = inputs_of piece.inputs;
      outputs = piece.outputs.items;
    } };

    ghost invariant = { λ piece. AllZip J.meets (inputs_of piece.inputs) piece.outputs.items };
}

impl<J: Job> Numbered for Finished<J> {
    ghost number = { λ piece. piece.number };

    ghost answered = { λ piece. AllZip J.meets piece.inputs piece.outputs };

    fn tell_answered(&self) {
        let _ = &self.outputs;
    }
}

impl<J: Job> Finished<J> {
    /// A piece of this number with these inputs, run: the outputs answer the inputs.
    pub fn new(number: usize, inputs: ListRun<J::In>, outputs: Vec<J::Out>) -> Finished<J>
        requires { AllZip J.meets inputs outputs.items }
        ensures number { result.number ≡ number }
        ensures inputs { result.inputs ≡ inputs }
        ensures outputs { result.outputs ≡ outputs.items }
    {
        Finished {
            number,
            inputs: Some(inputs),
            outputs,
        }
    }

    /// What a thread finishes a number with whose piece it didn't find: no inputs and no outputs. Takes no memory.
    pub fn empty(alloc: Global, number: usize) -> Finished<J>
        ensures number { result.number ≡ number }
        ensures inputs { result.inputs ≡ [] }
        ensures outputs { result.outputs ≡ [] }
    {
        let outputs = Vec::new(alloc);
        Finished {
            number,
            inputs: None,
            outputs,
        }
    }

    /// What is left of a piece that was run elsewhere: no inputs and no outputs, but the room for them.
    pub(crate) fn run_elsewhere(piece: Ready<J>) -> Finished<J>
        ensures number { result.number ≡ piece.number }
        ensures inputs { result.inputs ≡ [] }
        ensures outputs { result.outputs ≡ [] }
    {
        let number = piece.number();
        let (_, outputs) = piece.into_parts();
        Finished {
            number,
            inputs: None,
            outputs,
        }
    }

    /// The piece's number.
    pub fn number(&self) -> usize
        ensures { result ≡ self.now.number }
    {
        self.number
    }

    /// The inputs that the piece was run with.
    pub fn inputs(&self) -> &[J::In]
        ensures { result.now ≡ self.now.inputs }
    {
        match &self.inputs {
            Some(run) => run.as_slice(),
            None => &[],
        }
    }

    /// The outputs, one for each input.
    pub fn into_outputs(self) -> Vec<J::Out>
        ensures outputs { result.items ≡ self.outputs }
        ensures answers { AllZip J.meets self.inputs result.items }
    {
        self.outputs
    }

    /// Whether it is the piece of a number with these items.
    pub fn is_of(&self, number: usize, items: &[J::In]) -> bool
        ensures { IsTrue result ↔ ((self.now.number ≡ number) × (self.now.inputs ≡ items.now)) }
    {
        self.number() == number && are_equal(self.inputs(), items)
    }

    /// Whether one of the outputs is a failure.
    pub fn has_failed(&self) -> bool
        ensures { result ≡ true → Any J.fails self.now.outputs }
    {
        has_failure::<J>(self.outputs.as_slice())
    }

    /// Moves the outputs to the end of the list. What is left is a piece of nothing, with the room of its outputs.
    pub fn move_outputs(&mut self, outputs: &mut Vec<J::Out>)
        requires room { vec_len outputs.old + length self.old.inputs ≤ vec_capacity outputs.old }
        ensures answers { AddsAnswers J.meets self.old.inputs outputs.old.items outputs.new.items }
        ensures room { vec_capacity outputs.old ≤ vec_capacity outputs.new }
        ensures number { self.new.number ≡ self.old.number }
    {
        outputs.append(&mut self.outputs).unwrap();
        self.inputs = None;
    }
}
