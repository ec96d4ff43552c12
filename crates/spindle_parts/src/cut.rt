//! Cutting a list of items into numbered pieces, and dealing the pieces to threads.
//!
//! Runs of items move as blocks, from the back of the list: no item is moved or looked at by
//! itself. Every growth that a call needs comes before what it hands out, and where one is refused
//! the list is put together again.
ghost use Rattle.std.specs.Prelude.{◌≡◌, ◌+◌, ◌<◌, ◌≤◌, ◌++◌, [], length, map, min, reverse, replicate, take, drop, IfOk, OnOk, OnErr, IsOk, IsErrOf, vec_len};
ghost use Rattle.std.specs.Prelude.{vec_capacity};
ghost use Rattle.std.specs.List.Sorted.{IsPermutation};
ghost use Rattle.spindle_parts.specs.Pieces.{cut_lengths, joined, counted, dealt, lengths_of};

use crate::fault::Fault;
use std::alloc::Global;

/// A numbered run of the items of a list: one job's input.
#[derive(Drop)]
pub struct Piece<T> {
    /// The piece's place among the pieces of its list, from 0.
    pub number: usize,
    /// The items, in the order of the list.
    pub items: Vec<T>,
}

/// The lengths, in items, of the pieces that `len` items are cut into for `n_jobs` jobs.
///
/// There are as many pieces as jobs, but no empty one. The longer ones, by one item, come first.
/// This is how `for_each` of spindle cuts a list for its jobs.
pub fn piece_lengths(alloc: Global, len: usize, n_jobs: usize) -> Result<Vec<usize>, Fault>
    requires { 0 < len → 0 < n_jobs }
    ensures lengths { IfOk result (λ v. v.items ≡ cut_lengths len n_jobs) }
    ensures memory { OnErr result (IsErrOf result Fault.Memory) }
    ensures nothing { len ≡ 0 → IsOk result }
{
    let pieces = len.min(n_jobs);
    if pieces == 0 {
        return Ok(Vec::new(alloc));
    }
    let mut lengths = Vec::with_capacity(alloc, pieces)?;
    let short = len / pieces;
    let longer = len % pieces;
    for _number in 0..longer {
        lengths.push_reserved(short + 1);
    }
    for _number in longer..pieces {
        lengths.push_reserved(short);
    }
    Ok(lengths)
}

/// Cuts the items into pieces, numbered from 0 and of the lengths that `piece_lengths` answers.
///
/// The list keeps its room. An empty list has no pieces and takes no memory.
pub fn cut<T>(alloc: Global, items: &mut Vec<T>, n_jobs: usize) -> Result<Vec<Piece<T>>, Fault>
    requires { 0 < vec_len items.old → 0 < n_jobs }
    ensures joined { IfOk result (λ pieces.
        joined (map (λ p. p.items.items) pieces.items) ≡ items.old.items) }
    ensures lengths { IfOk result (λ pieces.
        map (λ p. vec_len p.items) pieces.items ≡ cut_lengths (vec_len items.old) n_jobs) }
    ensures numbers { IfOk result (λ pieces.
        map (λ p. p.number) pieces.items ≡ counted 0 (vec_len pieces)) }
    ensures taken { OnOk result (items.new.items ≡ []) }
    ensures memory { OnErr result (IsErrOf result Fault.Memory) }
    ensures kept { OnErr result (items.new.items ≡ items.old.items) }
    ensures block { vec_capacity items.old ≤ vec_capacity items.new }
    ensures nothing { vec_len items.old ≡ 0 → IsOk result }
{
    if items.is_empty() {
        return Ok(Vec::new(alloc));
    }
    let lengths = piece_lengths(alloc, items.len(), n_jobs)?;
    let count = lengths.len();
    let mut pieces = Vec::with_capacity(alloc, count)?;
    for done in 0..count {
        let number = count - 1 - done;
        let at = items.len() - lengths[number];
        match items.split_off(at) {
            Ok(run) => pieces.push_reserved(Piece { number, items: run }),
            Err(_) => {
                put_back(items, pieces);
                return Err(Fault::Memory);
            }
        }
    }
    pieces.reverse();
    Ok(pieces)
}

/// Moves the last piece's items to the end, then those of the piece before it, and so on.
fn put_back<T>(items: &mut Vec<T>, mut pieces: Vec<Piece<T>>)
    requires room { let runs = reverse (map (λ p. p.items.items) pieces.items) in
        vec_len items.old + length (joined runs) ≤ vec_capacity items.old }
    ensures room { vec_capacity items.old ≤ vec_capacity items.new }
    ensures together { let runs = reverse (map (λ p. p.items.items) pieces.items) in
        items.new.items ≡ items.old.items ++ joined runs }
{
    for _ in 0..pieces.len() {
        let Piece {
            number: _,
            items: mut run,
        } = pieces.take_last();
        items.append(&mut run).unwrap();
        run.destroy_empty();
    }
    pieces.destroy_empty();
}

/// Deals the pieces to threads: thread i gets its run, as long as every other thread's, and then
/// one of the pieces that are left over, where there is one for it.
///
/// So the list of thread i holds what its own range of the round stands for, and one of the pieces
/// of the remainder. This is the order in which spindle's workers count their jobs. No item is
/// dropped: `T: Drop` lets go of empty lists where a growth is refused.
pub fn deal<T: Drop>(
    alloc: Global,
    pieces: &mut Vec<Piece<T>>,
    threads: usize,
) -> Result<Vec<Vec<Piece<T>>>, Fault>
    requires threads { 0 < threads }
    requires numbers { map (λ p. p.number) pieces.old.items ≡ counted 0 (vec_len pieces.old) }
    ensures dealt { IfOk result (λ lists.
        map (λ list. list.items) lists.items
        ≡ map (dealt pieces.old.items threads) (counted 0 threads)) }
    ensures numbers { let numbers = counted 0 (vec_len pieces.old) in
        IfOk result (λ lists.
        map (λ list. map (λ p. p.number) list.items) lists.items
        ≡ map (dealt numbers threads) (counted 0 threads)) }

    // No piece is dropped, repeated or altered.
    ensures all { IfOk result (λ lists.
        IsPermutation pieces.old.items (joined (map (λ list. list.items) lists.items))) }
    ensures taken { OnOk result (pieces.new.items ≡ []) }
    ensures memory { OnErr result (IsErrOf result Fault.Memory) }
    ensures kept { OnErr result (pieces.new.items ≡ pieces.old.items) }
{
    let mut lists = empty_lists(alloc, pieces.len(), threads)?;
    let each = pieces.len() / threads;
    let mut rest = pieces.split_off(each * threads)?;
    pieces.reverse();
    rest.reverse();
    for list in lists.iter_mut() {
        move_last(pieces, list, each);
        move_last(&mut rest, list, 1);
    }
    Ok(lists)
}

/// One empty list a thread, with room for what the thread is dealt of `count` pieces.
fn empty_lists<T: Drop>(
    alloc: Global,
    count: usize,
    threads: usize,
) -> Result<Vec<Vec<Piece<T>>>, Fault>
    requires { 0 < threads }
    ensures empty { IfOk result (λ lists.
        map (λ list. list.items) lists.items ≡ replicate threads []) }
    ensures rooms { IfOk result (λ lists.
        map (λ list. vec_capacity list) lists.items ≡ lengths_of count threads) }
    ensures memory { OnErr result (IsErrOf result Fault.Memory) }
{
    let each = count / threads;
    let over = count % threads;
    let mut lists = Vec::with_capacity(alloc, threads)?;
    for thread in 0..threads {
        let room = if thread < over { each + 1 } else { each };
        lists.push_reserved(Vec::with_capacity(alloc, room)?);
    }
    Ok(lists)
}

/// Moves the last `count` pieces, or all that there are, to the end of a list, the last one first.
fn move_last<T>(pieces: &mut Vec<Piece<T>>, list: &mut Vec<Piece<T>>, count: usize)
    requires room { vec_len list.old + min count (vec_len pieces.old) ≤ vec_capacity list.old }
    ensures list { list.new.items ≡ list.old.items ++ take count (reverse pieces.old.items) }
    ensures pieces { reverse pieces.new.items ≡ drop count (reverse pieces.old.items) }
    ensures room { vec_capacity list.new ≡ vec_capacity list.old }
{
    for _ in 0..count.min(pieces.len()) {
        list.push_reserved(pieces.take_last());
    }
}
