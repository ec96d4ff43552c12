//! What came of the pieces of a round that may stop, noted one after the other.
ghost use Rattle.std.specs.Option.{option_or};
ghost use Rattle.std.specs.Result.{result_err};
ghost use Rattle.std.specs.Prelude.{◌≡◌, ℕ, Bool, List, ◌+◌, ◌<◌, ◌↔◌, None, IfOk, IfSome, IsTrue, OnErr, IsErrOf, true, false, length};
ghost use Rattle.std.specs.List.{AllZip, Any, Contains};
ghost use Rattle.spindle_locks.specs.PieceRuns.{piece_at};
ghost use Rattle.spindle_locks.specs.Reports.{IsNoted, IsReport, is_marked, least_lost, lost_at};

use crate::pieces::list_runs::ListRuns;
use crate::pieces::report::Report;
use crate::prelude::*;

/// The pieces noted so far: those that ran and those that were skipped, whether one that ran failed, and the least number of
/// one that is left and ran, or that isn't left and didn't.
#[derive(Drop)]
pub struct Tally<T> {
    ran: Vec<(usize, Vec<T>)>,
    skipped: Vec<usize>,
    failed: bool,
    lost: Option<usize>,
}

impl<T> Tally<T> {
    /// A tally of no piece, with room for all of them. The list becomes that of the skipped pieces; what stands there goes.
    pub fn new<J: Job<Out = T>>(
        alloc: Global,
        pieces: &ListRuns<J::In>,
        mut skipped: Vec<usize>,
    ) -> Result<Tally<T>, Fault>
        ensures fresh { IfOk result (λ tally. (left : List Bool) → IsNoted J.meets J.fails
            pieces.now.items pieces.now.count left 0 tally) }
        ensures none { IfOk result (λ tally. tally.lost ≡ None) }
        ensures memory { OnErr result (IsErrOf result Fault.Memory) }
    {
        let ran = Vec::with_capacity(alloc, pieces.count())?;
        skipped.clear();
        skipped.reserve(pieces.count())?;
        Ok(Tally {
            ran,
            skipped,
            failed: false,
            lost: None,
        })
    }

    /// Notes the next piece: its outputs, where it ran, which it has to where it isn't marked as left. Else it is lost; of
    /// several that are the first is kept. `failed` says of one that it is known to have failed.
    pub(crate) fn note<J: Job<Out = T>>(
        &mut self,
        pieces: &ListRuns<J::In>,
        left: &[bool],
        number: usize,
        outputs: Option<Vec<T>>,
        failed: bool,
    )
        requires next { number < pieces.now.count }
        requires marks { length left.now ≡ pieces.now.count }
        requires noted { IsNoted J.meets J.fails
            pieces.now.items pieces.now.count left.now number self.old }
        requires answers { IfSome outputs (λ outputs. AllZip J.meets
            (piece_at pieces.now.items pieces.now.count number) outputs.items) }
        requires failed { failed ≡ true → IfSome outputs (λ outputs. Any J.fails outputs.items) }
        ensures noted { IsNoted J.meets J.fails
            pieces.now.items pieces.now.count left.now (number + 1) self.new }
        ensures lost { self.new.lost
            ≡ option_or self.old.lost (lost_at (is_marked left.now number) outputs number) }
        ensures failed { self.old.failed ≡ true → self.new.failed ≡ true }
        ensures told { failed ≡ true → IfSome outputs (λ outputs.
            is_marked left.now number ≡ false → self.new.failed ≡ true) }
    {
        match outputs {
            Some(outputs) if !left[number] => {
                self.failed = self.failed | (failed | has_failure::<J>(outputs.as_slice()));
                self.ran.push_reserved((number, outputs));
            }
            None if left[number] => self.skipped.push_reserved(number),
            _ => self.lost = Some(self.lost.unwrap_or(number)),
        }
    }

    /// The report, where each piece ran or was left, and was left only since one that ran failed; else the least number of
    /// which that isn't so.
    pub fn finish<J: Job<Out = T>>(
        self,
        pieces: &ListRuns<J::In>,
        left: &[bool],
    ) -> Result<Report<T>, usize>
        requires marks { length left.now ≡ pieces.now.count }
        requires noted { IsNoted J.meets J.fails
            pieces.now.items pieces.now.count left.now pieces.now.count self }
        ensures report { IfOk result (IsReport J.meets J.fails pieces.now.items pieces.now.count) }
        ensures skipped { IfOk result (λ report. (k : ℕ) → Contains report.skipped.items k
            ↔ IsTrue (is_marked left.now k)) }
        ensures lost { result_err result ≡ least_lost self }
    {
        match self.lost_number() {
            Some(number) => Err(number),
            None => Ok(Report {
                ran: self.ran,
                skipped: self.skipped,
            }),
        }
    }

    // The least number that is lost: it was noted so, or skipped though no piece that ran failed.
    fn lost_number(&self) -> Option<usize>
        ensures { result ≡ least_lost self.now }
    {
        if self.failed || self.skipped.is_empty() {
            return self.lost;
        }
        let first = self.skipped[0];
        Some(self.lost.unwrap_or(first).min(first))
    }
}

/// Whether one of a piece's outputs is a failure.
pub fn has_failure<J: Job>(outputs: &[J::Out]) -> bool
    ensures { result ≡ true → Any J.fails outputs.now }
{
    for output in outputs {
        if J::failed(output) {
            return true;
        }
    }
    false
}
