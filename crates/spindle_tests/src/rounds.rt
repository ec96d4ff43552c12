//! Rounds in a lock of their own of each kind, for rows that need no more of its leader. The kind of job is a parameter: where a lock is
//! opened by the name of its kind, the proof takes much more.
ghost use Rattle.std.specs.Prelude.{◌<◌, ◌≤◌};
ghost use denote.Param.Send.{IsSync};

use spindle::lock::{Nest, PlaysPieces, Updates};
use spindle::prelude::*;
use spindle::with_slots;
use spindle_locks_tests::rounds::{Seen, rounds_of};

/// What `rounds_of` answers, by rounds in one lock with so many slots, or with trays where it is to have none.
pub fn rounds_in<J: Job + Send, G: Gate + Sync, H: Threads + Wait + Sync>(
    rt: &H,
    alloc: Global,
    pool: &Pool<G>,
    most: usize,
    slots: usize,
    jobs: usize,
    rounds: usize,
    items: &[J::In],
) -> Result<(Vec<J::Out>, Vec<Seen>), Fault>
where
    J::In: Send + Sync,
    J::Out: Send,
    J::Inner: Send,
    <J::Inner as Nest>::ChildSlots: Send + Sync,
    requires most { 0 < most }
    requires slots { slots ≤ 4294967295 }
    requires jobs { 0 < jobs }
{
    if slots == 0 {
        return rounds_of::<J, G, H>(rt, alloc, pool, most, jobs, rounds, items);
    }
    with_slots::<J, _, _, _, _, _>(
        rt,
        alloc,
        pool,
        most,
        slots,
        |leader|
            requires jobs { 0 < jobs }
            requires sync { IsSync H.row }
        { play_in_slots(rt, alloc, leader, jobs, rounds, items) },
    )?
}

fn play_in_slots<J: PlaysPieces<P>, G: Gate, P, H: Threads + Wait + Sync>(
    rt: &H,
    alloc: Global,
    leader: &mut SlotLeader<J, G, P>,
    jobs: usize,
    rounds: usize,
    items: &[J::In],
) -> Result<(Vec<J::Out>, Vec<Seen>), Fault>
    requires jobs { 0 < jobs }
    requires sync { IsSync H.row }
{
    let mut answers = Vec::new(alloc);
    let mut answered = Vec::new(alloc);
    let mut seen = Vec::new(alloc);
    for round in 0..rounds {
        if round % 2 == 1 {
            leader.relieve_workers();
        }
        let mut inputs = items.to_vec(alloc)?;
        leader.for_each_into(rt, alloc, jobs, &mut inputs, &mut answered)?;
        answers.append(&mut answered)?;
        seen.push((
            leader.current_thread_index(),
            leader.current_num_threads(),
            leader.max_num_threads(),
        ))?;
    }
    Ok((answers, seen))
}

/// So many rounds in place over the items, in one lock of four threads at most with so many slots.
pub fn rounds_in_place<
    J: Updates<In = (), Out = (), Inner = End> + Send,
    G: Gate + Sync,
    H: Threads + Wait + Sync,
>(
    rt: &H,
    alloc: Global,
    pool: &Pool<G>,
    slots: usize,
    jobs: usize,
    rounds: usize,
    items: &mut Vec<J::Item>,
) -> Result<(), Fault>
where
    J::Item: Send,
    requires slots { (1 ≤ slots) × (slots ≤ 4294967295) }
    requires jobs { 0 < jobs }
{
    LockOf::<J>::with_slots_in_place(
        rt,
        alloc,
        pool,
        4,
        slots,
        |leader| -> Result<(), Fault>
            requires jobs { 0 < jobs }
            requires sync { IsSync H.row }
        {
            for _ in 0..rounds {
                leader.update_each(rt, alloc, jobs, items)?;
            }
            Ok(())
        },
    )?
}
