//! Gathering the outputs of a round: each piece that was handed out is looked for in its place, and only where all are
//! there, with the numbers and inputs that they were handed out with, do their outputs become the answer.
ghost use Rattle.std.specs.Prelude.{◌≡◌, ◌+◌, ◌<◌, ◌≤◌, ◌↔◌, [], IsOk, IfErr, OnOk, OnErr, IsTrue, length, None, replicate, vec_len, vec_capacity};
ghost use Rattle.std.specs.List.{AllZip};
ghost use Rattle.spindle_locks.specs.Outputs.{HoldsPiece, HoldAll, IsFirstLost, all_inputs_in};
ghost use Rattle.spindle_locks.specs.Rounds.{items_of};

use crate::job::Job;
use crate::pieces::finished::Finished;
use spindle_parts::cut::Piece;

/// Moves the outputs of the pieces that were handed out into `outputs`, in order, and empties the places.
///
/// Answers the least place that is empty or holds another number or other inputs than its piece; then nothing moves.
/// Takes no memory. Whole runs of outputs move, not one by one.
pub fn gather<J: Job>(
    handed: &[Piece<J::In>],
    places: &mut Vec<Option<Finished<J>>>,
    outputs: &mut Vec<J::Out>,
) -> Result<(), usize>
    requires places { vec_len places.old ≡ length handed.now }
    requires empty { outputs.old.items ≡ [] }
    requires space { length (items_of handed.now) ≤ vec_capacity outputs.old }
    ensures answers { OnOk result (AllZip J.meets (items_of handed.now) outputs.new.items) }
    ensures emptied { OnOk result (places.new.items ≡ replicate (vec_len places.old) None) }
    ensures complete { IsOk result ↔ HoldAll handed.now places.old.items }
    ensures lost { IfErr result (IsFirstLost handed.now places.old.items) }
    ensures within { IfErr result (λ k. k < length handed.now) }
    ensures kept { OnErr result (places.new.items ≡ places.old.items) }
    ensures untouched { OnErr result (outputs.new.items ≡ []) }
{
    for (k, piece) in handed.iter().enumerate() {
        if !holds(&places[k], piece) {
            return Err(k);
        }
    }
    move_outputs(places, outputs);
    Ok(())
}

/// Whether the place holds the piece, finished.
fn holds<J: Job>(place: &Option<Finished<J>>, piece: &Piece<J::In>) -> bool
    ensures { IsTrue result ↔ HoldsPiece piece.now place.now }
{
    match place {
        Some(finished) => finished.is_of(piece.number, piece.items.as_slice()),
        None => false,
    }
}

/// Moves all outputs to the end of `outputs`, and empties the places.
fn move_outputs<J: Job>(places: &mut Vec<Option<Finished<J>>>, outputs: &mut Vec<J::Out>)
    requires empty { outputs.old.items ≡ [] }
    requires space { length (all_inputs_in places.old.items) ≤ vec_capacity outputs.old }
    ensures answers { AllZip J.meets (all_inputs_in places.old.items) outputs.new.items }
    ensures emptied { places.new.items ≡ replicate (vec_len places.old) None }
{
    for k in 0..places.len() {
        if let Some(finished) = places[k].take() {
            outputs.append(&mut finished.into_outputs()).unwrap();
        }
    }
}
