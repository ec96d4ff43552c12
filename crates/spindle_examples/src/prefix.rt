//! Prefix sums of a table in two rounds of one lock. The first round sums each run of the table; then each run's start is known,
//! the sum of the runs before it, and the second round sums within each run from there.
ghost use Rattle.std.specs.Prelude.{◌≡◌, ◌<◌, IfOk, None, map, sum};
ghost use Rattle.spindle_examples.specs.Prefix.{asked_of, prefix_sums, answers_to, continued};
ghost use Rattle.spindle_examples.specs.Wrapping.{wrapped};

use crate::sums::{Asked, Sums};
use spindle::prelude::*;

// One round: what is asked of each run, one behind the other.
fn ask<G: Gate, H: Threads + Wait + Sync>(
    rt: &H,
    alloc: Global,
    leader: &mut Leader<Sums, G>,
    asked: Vec<Asked>,
) -> Result<Vec<u64>, Fault>
    ensures { IfOk result (λ sums. sums.items ≡ answers_to asked.items) }
{
    let jobs = asked.len();
    let answers = leader.for_each(rt, alloc, jobs, asked)?;
    Ok(gathered(alloc, answers)??)
}

// Each run, to be asked for its total.
fn unstarted(alloc: Global, runs: &[ListRun<u64>]) -> Result<Vec<Asked>, AllocError>
    ensures { IfOk result (λ asked. asked.items ≡ map (asked_of None) runs.now) }
{
    let mut asked = Vec::new(alloc);
    for run in runs {
        let run = run.clone()?;
        asked.push(Asked { start: None, run })?;
    }
    Ok(asked)
}

// Each run with its start, where these are the totals of the runs.
fn started(alloc: Global, runs: &[ListRun<u64>], totals: &[u64]) -> Result<Vec<Asked>, AllocError>
    requires { totals.now ≡ map (λ run. wrapped (sum run)) runs.now }
    ensures { IfOk result (λ asked. asked.items ≡ continued 0 runs.now) }
{
    let mut asked = Vec::new(alloc);
    let mut start = 0u64;
    for at in 0..runs.len() {
        let run = runs[at].clone()?;
        asked.push(Asked {
            start: Some(start),
            run,
        })?;
        start = start.wrapping_add(totals[at]);
    }
    Ok(asked)
}

// The two rounds, over so many runs of the table.
fn two_rounds<G: Gate, H: Threads + Wait + Sync>(
    rt: &H,
    alloc: Global,
    leader: &mut Leader<Sums, G>,
    pieces: usize,
    values: Vec<u64>,
) -> Result<Vec<u64>, Fault>
    requires { 0 < pieces }
    ensures { IfOk result (λ sums. sums.items ≡ prefix_sums values.items) }
{
    let runs = SharedList::from_vec(alloc, values)?.share_out_evenly(alloc, pieces)?;
    let totals = ask(rt, alloc, leader, unstarted(alloc, runs.as_slice())?)?;
    let runs = started(alloc, runs.as_slice(), totals.as_slice())?;
    ask(rt, alloc, leader, runs)
}

/// The sum of the values up to each place, that place counted, in 64 bits. Each round runs over so many pieces of the table.
pub fn summed<G: Gate + Sync, H: Threads + Wait + Sync>(
    rt: &H,
    alloc: Global,
    pool: &Pool<G>,
    pieces: usize,
    values: Vec<u64>,
) -> Result<Vec<u64>, Fault>
    requires { 0 < pieces }
    ensures { IfOk result (λ sums. sums.items ≡ prefix_sums values.items) }
{
    LockOf::<Sums>::with_lock(
        rt,
        alloc,
        pool,
        pool.max_num_threads(),
        |leader|
            requires { 0 < pieces }
        { two_rounds(rt, alloc, leader, pieces, values) },
    )?
}
