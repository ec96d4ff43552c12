//! Numbers that grow by one in each round of a lock, by jobs that run rounds of their own.
ghost use Rattle.std.specs.Prelude.{◌≡◌, ◌*◌, ◌<◌, ◌↔◌, ℕ, IfOk, IfSome, IsSome, map, replicate, length};
ghost use Rattle.std.proofs.Common.{rules};
ghost use Rattle.spindle_parts.specs.Pieces.{joined, total};
ghost use Rattle.spindle_parts.specs.Same.{equal_pairs_are_same};
ghost use Rattle.spindle_commands.specs.Grid.{one_more, IsLeast, IsGreatest};

use spindle::prelude::*;
use spindle::with_lock;

/// The jobs of each round, and of each round that a job runs.
const JOBS: usize = 4;

/// Adds one to each number of a run.
struct AddOne;

impl Job for AddOne {
    type In = ListRun<u32>;

    type Out = Result<Vec<u32>, AllocError>;

    type Inner = End;

    ghost meets = { λ run answer. IfOk answer (λ sums. sums.items ≡ map one_more run) };

    fn run<H: Threads + Wait + Sync>(
        _rt: &H,
        alloc: Global,
        run: &ListRun<u32>,
        _cx: &mut JobCx<End>,
    ) -> Result<Vec<u32>, AllocError> {
        one_more_each(alloc, run.as_slice())
    }

    ghost equal_is_same = { Prim.search rules };
}

/// Adds one to each number of a run, by a round of its own over chunks of so many numbers.
struct AddOneByChunks;

impl Job for AddOneByChunks {
    type In = (ListRun<u32>, usize);

    type Out = Result<Vec<u32>, Fault>;

    type Inner = Under<AddOne>;

    ghost meets = { λ input answer. IfOk answer (λ sums. sums.items ≡ map one_more input.0) };

    fn run<H: Threads + Wait + Sync>(
        rt: &H,
        alloc: Global,
        input: &(ListRun<u32>, usize),
        cx: &mut JobCx<Under<AddOne>>,
    ) -> Result<Vec<u32>, Fault> {
        let chunks = chunks(alloc, &input.0, input.1)?;
        let sums = cx.for_each(rt, alloc, JOBS, chunks)?;
        Ok(gathered(alloc, sums)??)
    }

    ghost equal_is_same = { Prim.search rules };
}

/// What a grid is made of, and by how many threads and jobs.
#[derive(Clone, Copy)]
pub struct Plan {
    /// The numbers of a column.
    pub rows: u32,
    /// How many columns there are.
    pub columns: u32,
    /// The pool's threads.
    pub threads: u32,
    /// The lock's threads at most, and how many equal shares its columns would have.
    pub jobs: u32,
}

/// A grid of zeros, to each of which as many rounds as it has columns have added one.
///
/// A round has four jobs, over chunks of as many columns as the longest share has; so has the round of each job, over the columns
/// of its chunk.
pub fn grid<H: Threads + Wait + Sync>(rt: &H, alloc: Global, plan: Plan) -> Result<Vec<u32>, Fault>
    requires threads { 0 < plan.threads }
    requires jobs { 0 < plan.jobs }
    ensures { IfOk result (λ numbers.
        numbers.items ≡ replicate (plan.rows * plan.columns) plan.columns) }
{
    let (column, columns) = (plan.rows as usize, plan.columns as usize);
    let zeros = vec![in alloc; 0u32; column * columns]?;
    let chunk = column * columns.div_ceil(plan.jobs as usize);
    let pool = Pool::new(plan.threads as usize, Limits::new(), NoGate);
    with_lock::<AddOneByChunks, NoGate, Result<Vec<u32>, Fault>, _, _, H>(
        rt,
        alloc,
        &pool,
        plan.jobs as usize,
        |leader| { rounds(rt, alloc, leader, zeros, chunk, column, plan.columns) },
    )?
}

// So many rounds over chunks of so many numbers, each cut again into columns.
fn rounds<H: Threads + Wait + Sync>(
    rt: &H,
    alloc: Global,
    leader: &mut Leader<AddOneByChunks, NoGate>,
    mut numbers: Vec<u32>,
    chunk: usize,
    column: usize,
    count: u32,
) -> Result<Vec<u32>, Fault>
    ensures { (n : ℕ) → numbers.items ≡ replicate n 0 →
        IfOk result (λ numbers. numbers.items ≡ replicate n count) }
{
    for _round in 0..count {
        let items = items(alloc, numbers, chunk, column)?;
        let sums = leader.for_each(rt, alloc, JOBS, items)?;
        numbers = gathered(alloc, sums)??;
    }
    Ok(numbers)
}

// The numbers in chunks, each with how it is to be cut again.
fn items(
    alloc: Global,
    numbers: Vec<u32>,
    chunk: usize,
    column: usize,
) -> Result<Vec<(ListRun<u32>, usize)>, Fault>
    ensures { IfOk result (λ items. joined (map (λ item. item.0) items.items) ≡ numbers.items) }
{
    let count = numbers.len();
    let all = SharedList::from_vec(alloc, numbers)?.run(0, count)?;
    let mut items = Vec::new(alloc);
    for chunk in chunks(alloc, &all, chunk)? {
        items.push((chunk, column))?;
    }
    Ok(items)
}

// A run in chunks of so many numbers, of which the last may be shorter. A size of 0 counts as 1.
fn chunks(alloc: Global, run: &ListRun<u32>, size: usize) -> Result<Vec<ListRun<u32>>, Fault>
    ensures { IfOk result (λ chunks. joined chunks.items ≡ run.now) }
{
    let lengths = lengths(alloc, run.len(), size.max(1))?;
    run.share_out(alloc, lengths.as_slice())
}

// The lengths of such chunks.
fn lengths(alloc: Global, len: usize, size: usize) -> Result<Vec<usize>, AllocError>
    requires { 0 < size }
    ensures { IfOk result (λ lengths. total lengths.items ≡ len) }
{
    let mut lengths = Vec::new(alloc);
    let mut left = len;
    for _chunk in 0..len.div_ceil(size) {
        let length = left.min(size);
        lengths.push(length)?;
        left -= length;
    }
    Ok(lengths)
}

// Each number and one more, where 32 bits hold it.
fn one_more_each(alloc: Global, numbers: &[u32]) -> Result<Vec<u32>, AllocError>
    ensures { IfOk result (λ sums. sums.items ≡ map one_more numbers.now) }
{
    numbers.iter().map(|x| x.saturating_add(1)).collect(alloc)
}

/// The least and the greatest of the numbers, if there are any.
pub fn ends(numbers: &[u32]) -> Option<(u32, u32)>
    ensures some { IsSome result ↔ (0 < length numbers.now) }
    ensures least { IfSome result (λ ends. IsLeast ends.0 numbers.now) }
    ensures greatest { IfSome result (λ ends. IsGreatest ends.1 numbers.now) }
{
    let least = numbers.iter().min()?;
    let greatest = numbers.iter().max()?;
    Some((*least, *greatest))
}
