//! The trays of a lock: one a thread number, each behind a lock of its own, so that threads which run the pieces that
//! they were dealt never wait for one another.
ghost use Rattle.std.specs.Prelude.{◌≡◌, ◌+◌, ◌<◌, ◌≤◌, [], IfOk, IfErr, IfSome, OnOk, OnErr, IsErrOf, length, vec_len, vec_capacity};
ghost use Rattle.std.specs.List.{AllZip};
ghost use Rattle.spindle_locks.specs.PieceRuns.{HasAnswered};
ghost use Rattle.spindle_locks.specs.Reports.{IsNoted};

use crate::pieces::finished::Finished;
use crate::pieces::list_runs::{Address, ListRuns};
use crate::pieces::place::{Ready, SpareLists, Tray, fill, gather, let_go};
use crate::pieces::tally::Tally;
use crate::prelude::*;
use crossbeam_utils::CachePadded;
use std::sync::Mutex;

/// The trays of a lock, by thread number.
#[derive(Drop)]
pub struct Trays<J: Job> {
    trays: Vec<CachePadded<Mutex<Tray<J>>>>,
    ghost led: { 0 < vec_len trays },
}

impl<J: Job> Trays<J> {
    /// A tray of no pieces for each of so many threads.
    pub fn new(alloc: Global, threads: usize) -> Result<Trays<J>, Fault>
        requires { 0 < threads }
        ensures threads { IfOk result (λ trays. vec_len trays.trays ≡ threads) }
        ensures memory { OnErr result (IsErrOf result Fault.Memory) }
    {
        let mut trays = Vec::with_capacity(alloc, threads)?;
        for _ in 0..threads {
            let tray = Mutex::new(Vec::new(alloc));
            trays.push_reserved(CachePadded::new(tray));
        }
        Ok(Trays { trays })
    }

    /// Puts the pieces into the trays of those that they are dealt to. All that the pieces' runs need is made
    /// here, and what earlier rounds made is used again, as the spare lists are.
    ///
    /// After a refusal the trays hold no piece.
    pub fn hand_out<H: Wait>(
        &self,
        rt: &H,
        alloc: Global,
        pieces: &ListRuns<J::In>,
        spares: &mut SpareLists<J::Out>,
    ) -> Result<(), Fault>
        ensures { OnErr result (IsErrOf result Fault.Memory) }
    {
        let threads = self.trays.len();
        for thread in 0..threads {
            let mut tray = self.trays[thread].lock(rt);
            let filled = fill(&mut tray, alloc, thread, threads, pieces, spares);
            drop(tray);
            if filled.is_err() {
                self.empty(rt);
                return Err(Fault::Memory);
            }
        }
        Ok(())
    }

    // Lets go of all pieces.
    fn empty<H: Wait>(&self, rt: &H) {
        for tray in &self.trays {
            tray.lock(rt).clear();
        }
    }

    /// Takes a piece of a round of so many out of the tray where it was dealt, if it waits there.
    pub fn take<H: Wait>(&self, rt: &H, pieces: usize, number: usize) -> Option<Ready<J>>
        requires { number < pieces }
        ensures { IfSome result (λ piece. piece.number ≡ number) }
    {
        let address = Address::new(number, pieces, self.trays.len());
        let mut tray = self.trays[address.thread].lock(rt);
        if address.place >= tray.len() {
            return None;
        }
        tray[address.place].take(number)
    }

    /// Brings a piece of a round of so many back, run, to the tray where it was dealt. A tray may refuse it.
    pub fn put<H: Wait>(
        &self,
        rt: &H,
        pieces: usize,
        finished: Finished<J>,
    ) -> Result<(), Finished<J>>
        requires { finished.number < pieces }
        ensures { IfErr result (λ back. back ≡ finished) }
    {
        let address = Address::new(finished.number(), pieces, self.trays.len());
        let mut tray = self.trays[address.thread].lock(rt);
        if address.place >= tray.len() {
            return Err(finished);
        }
        tray[address.place].put(finished)
    }

    /// Brings a piece of a round of so many back, run, and takes the piece of a number, if it waits in its tray: under one
    /// lock where both were dealt to one thread.
    pub(crate) fn exchange<H: Wait>(
        &self,
        rt: &H,
        pieces: usize,
        finished: Option<Finished<J>>,
        number: usize,
    ) -> Option<Ready<J>>
        ensures { IfSome result (λ piece. piece.number ≡ number) }
    {
        if let Some(finished) = finished
            && finished.number() < pieces
        {
            let back = Address::new(finished.number(), pieces, self.trays.len());
            let mut tray = self.trays[back.thread].lock(rt);
            if back.place < tray.len() {
                drop(tray[back.place].put(finished));
            }
            if number < pieces {
                let next = Address::new(number, pieces, self.trays.len());
                if next.thread == back.thread && next.place < tray.len() {
                    return tray[next.place].take(number);
                }
            }
        }
        if number < pieces {
            self.take(rt, pieces, number)
        } else {
            None
        }
    }

    /// Moves the outputs of the pieces to the end of the list, in order. Answers the least number whose place is empty or
    /// holds another number or other inputs than the piece; what has moved by then stays, and the trays hold no piece any
    /// more. Takes no memory.
    pub fn gather<H: Wait>(
        &self,
        rt: &H,
        pieces: &ListRuns<J::In>,
        outputs: &mut Vec<J::Out>,
    ) -> Result<(), usize>
        requires empty { outputs.old.items ≡ [] }
        requires room { length pieces.now.items ≤ vec_capacity outputs.old }
        ensures answers { OnOk result (AllZip J.meets pieces.now.items outputs.new.items) }
        ensures lost { IfErr result (λ k. k < pieces.now.count) }
    {
        self.gather_rest(rt, pieces, 0, outputs)
    }

    /// The same of the pieces from a number on, where the outputs so far answer those before. Of these the trays hold nothing any more.
    pub(crate) fn gather_rest<H: Wait>(
        &self,
        rt: &H,
        pieces: &ListRuns<J::In>,
        first: usize,
        outputs: &mut Vec<J::Out>,
    ) -> Result<(), usize>
        requires before { HasAnswered J.meets
            pieces.now.items pieces.now.count first outputs.old }
        ensures answers { OnOk result (AllZip J.meets pieces.now.items outputs.new.items) }
        ensures lost { IfErr result (λ k. k < pieces.now.count) }
    {
        let gathered = self.move_outputs(rt, pieces, first, outputs);
        if gathered.is_err() {
            self.empty(rt);
        }
        gathered
    }

    // The outputs of each thread's run of numbers, thread by thread, and then those of the numbers left over.
    fn move_outputs<H: Wait>(
        &self,
        rt: &H,
        pieces: &ListRuns<J::In>,
        first: usize,
        outputs: &mut Vec<J::Out>,
    ) -> Result<(), usize>
        requires before { HasAnswered J.meets
            pieces.now.items pieces.now.count first outputs.old }
        ensures answers { OnOk result (AllZip J.meets pieces.now.items outputs.new.items) }
        ensures lost { IfErr result (λ k. k < pieces.now.count) }
    {
        let threads = self.trays.len();
        let each = pieces.count() / threads;
        let mut next = first;
        for thread in 0..threads {
            let done = (next - each * thread).min(each);
            let mut tray = self.trays[thread].lock(rt);
            let_go(&mut tray, 0, done);
            if done < each {
                gather(&mut tray, done, pieces, next, each - done, outputs)?;
                next = each * (thread + 1);
            }
        }
        for thread in 0..pieces.count() % threads {
            let mut tray = self.trays[thread].lock(rt);
            if each * threads + thread < next {
                let_go(&mut tray, each, 1);
            } else {
                gather(&mut tray, each, pieces, next, 1, outputs)?;
                next += 1;
            }
        }
        Ok(())
    }

    /// Notes what came of the pieces of a round that may stop, of which some are marked as left: what lies in each place, if it is the
    /// piece of its number with its inputs. The trays hold no piece any more. Takes no memory.
    pub fn tally<H: Wait>(
        &self,
        rt: &H,
        pieces: &ListRuns<J::In>,
        left: &[bool],
        tally: &mut Tally<J::Out>,
    )
        requires marks { length left.now ≡ pieces.now.count }
        requires fresh { IsNoted J.meets J.fails
            pieces.now.items pieces.now.count left.now 0 tally.old }
        ensures noted { IsNoted J.meets J.fails
            pieces.now.items pieces.now.count left.now pieces.now.count tally.new }
    {
        let threads = self.trays.len();
        let count = pieces.count();
        let each = count / threads;
        for thread in 0..threads {
            let mut tray = self.trays[thread].lock(rt);
            for place in 0..each {
                let number = each * thread + place;
                note(&mut tray, place, pieces, left, number, tally);
            }
        }
        for thread in 0..count % threads {
            let mut tray = self.trays[thread].lock(rt);
            let number = each * threads + thread;
            note(&mut tray, each, pieces, left, number, tally);
        }
    }
}

// Notes what came of the piece of a number, whose place is `at`. Nothing stands there then.
fn note<J: Job>(
    tray: &mut Tray<J>,
    at: usize,
    pieces: &ListRuns<J::In>,
    left: &[bool],
    number: usize,
    tally: &mut Tally<J::Out>,
)
    requires next { number < pieces.now.count }
    requires marks { length left.now ≡ pieces.now.count }
    requires noted { IsNoted J.meets J.fails
        pieces.now.items pieces.now.count left.now number tally.old }
    ensures noted { IsNoted J.meets J.fails
        pieces.now.items pieces.now.count left.now (number + 1) tally.new }
{
    let outputs = match tray.get_mut(at) {
        Some(place) => place.take_outputs(number, pieces.piece(number)),
        None => None,
    };
    tally.note::<J>(pieces, left, number, outputs, false);
}
