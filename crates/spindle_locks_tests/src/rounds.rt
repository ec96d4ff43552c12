//! Rounds in a lock of their own with trays, for rows that need no more of its leader.
ghost use Rattle.std.specs.Prelude.{◌<◌};
ghost use denote.Param.Send.{IsSync};

use spindle_locks::lock::leader::Leader;
use spindle_locks::lock::root::with_lock;
use spindle_locks::lock::rounds::RunsRounds;
use spindle_locks::lock::workspace::Opens;
use spindle_locks::prelude::*;

/// Where a job runs: its thread's number, how many threads are there, and the lock's threads.
pub type Seen = (Option<usize>, usize, usize);

/// So many rounds over the same items in one lock: what their jobs answer, one round after the other, and what the leader sees after
/// each. Before every second round it tells its helpers to rest.
pub fn rounds_of<J: Job + Send, G: Gate + Sync, H: Threads + Wait + Sync>(
    rt: &H,
    alloc: Global,
    pool: &Pool<G>,
    most: usize,
    jobs: usize,
    rounds: usize,
    items: &[J::In],
) -> Result<(Vec<J::Out>, Vec<Seen>), Fault>
where
    J::In: Send + Sync,
    J::Out: Send,
    J::Inner: Send,
    <J::Inner as Nest>::ChildSlots: Send + Sync,
    requires most { 0 < most }
    requires jobs { 0 < jobs }
{
    with_lock::<J, _, _, _, _, _>(
        rt,
        alloc,
        pool,
        most,
        |leader|
            requires jobs { 0 < jobs }
            requires sync { IsSync H.row }
        { play(rt, alloc, leader, jobs, rounds, items) },
    )?
}

// The rounds of a leader.
fn play<J: Opens<L>, G: Gate, L, H: Threads + Wait + Sync>(
    rt: &H,
    alloc: Global,
    leader: &mut Leader<J, G, L>,
    jobs: usize,
    rounds: usize,
    items: &[J::In],
) -> Result<(Vec<J::Out>, Vec<Seen>), Fault>
    requires jobs { 0 < jobs }
    requires sync { IsSync H.row }
{
    let mut answers = Vec::new(alloc);
    let mut answered = Vec::new(alloc);
    let mut seen = Vec::new(alloc);
    for round in 0..rounds {
        if round % 2 == 1 {
            leader.relieve_workers();
        }
        let mut inputs = items.to_vec(alloc)?;
        leader.for_each_into(rt, alloc, jobs, &mut inputs, &mut answered)?;
        answers.append(&mut answered)?;
        seen.push((
            leader.current_thread_index(),
            leader.current_num_threads(),
            leader.max_num_threads(),
        ))?;
    }
    Ok((answers, seen))
}
