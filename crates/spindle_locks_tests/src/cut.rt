//! Pieces, and the lists that are dealt to threads: rows of each call, and what a refused growth leaves.
//!
//! The clauses of these calls say what an Ok answers and what a refusal leaves. These rows show what no clause says: that memory is
//! refused only where a growth was.
ghost use Rattle.std.specs.Prelude.{◌≡◌, map, IfOk, vec_len};
ghost use Rattle.spindle_parts.specs.Pieces.{counted};

use crate::checks::{are, holds, is};
use spindle_parts::cut::{Piece, cut, deal, piece_lengths};
use spindle_parts::fault::Fault;
use std::alloc::{AllocError, Global};
use std::process::Abort;

/// The numbers from 0 to `count`, the end not included.
fn numbers(alloc: Global, count: u64) -> Result<Vec<u64>, AllocError> {
    (0..count).collect(alloc)
}

/// As many pieces as items, so piece k is the one number k.
fn singles(alloc: Global, count: u64) -> Result<Vec<Piece<u64>>, Fault>
    ensures { IfOk result (λ pieces.
        map (λ p. p.number) pieces.items ≡ counted 0 (vec_len pieces)) }
{
    let mut items = numbers(alloc, count)?;
    cut(alloc, &mut items, usize::MAX)
}

#[test]
fn refused_lengths_are_answered(rt: HostRuntime) {
    match piece_lengths(rt.alloc(), 10, 4) {
        Ok(lengths) => are(&rt, &lengths, &[3, 3, 2, 2]),
        Err(fault) => holds(&rt, matches!(fault, Fault::Memory)),
    }
    let most = piece_lengths(rt.alloc(), usize::MAX, usize::MAX);
    holds(&rt, matches!(most, Err(Fault::Memory)));
}

#[test]
fn refused_cut_leaves_the_list(rt: HostRuntime) -> Result<(), Fault> {
    let Ok(mut items) = numbers(rt.alloc(), 4) else {
        return Ok(());
    };
    let pieces = match cut(rt.alloc(), &mut items, 3) {
        Ok(pieces) => pieces,
        Err(fault) => {
            holds(&rt, matches!(fault, Fault::Memory));
            are(&rt, &items, &[0, 1, 2, 3]);
            cut(rt.alloc(), &mut items, 3)?
        }
    };
    is(&rt, (items.len(), pieces.len()), (0, 3));
    if let Some(last) = pieces.last() {
        are(&rt, &last.items, &[3]);
    }
    Ok(())
}

/// Fails where so many pieces aren't dealt into lists of these numbers, or where a refusal doesn't leave them.
fn have_lists(rt: &impl Abort, alloc: Global, count: u64, want: &[&[u64]]) -> Result<(), Fault> {
    let Ok(mut pieces) = singles(alloc, count) else {
        return Ok(());
    };
    assert!(rt; want.len() > 0);
    let lists = match deal(alloc, &mut pieces, want.len()) {
        Ok(lists) => lists,
        Err(fault) => {
            holds(rt, matches!(fault, Fault::Memory));
            is(rt, pieces.len() as u64, count);
            deal(alloc, &mut pieces, want.len())?
        }
    };
    is(rt, (pieces.len(), lists.len()), (0, want.len()));
    for (list, numbers) in lists.iter().zip(want) {
        is(rt, list.len(), numbers.len());
        for (piece, number) in list.iter().zip(*numbers) {
            is(rt, piece.number as u64, *number);
            are(rt, &piece.items, &[*number]);
        }
    }
    Ok(())
}

/// Each thread gets a run of the pieces, and one of those left over.
#[test]
fn refused_deal_leaves_the_pieces(rt: HostRuntime) -> Result<(), Fault> {
    let rows: [(u64, &[&[u64]]); 2] = [
        (10, &[&[0, 1, 8], &[2, 3, 9], &[4, 5], &[6, 7]]),
        (3, &[&[0], &[1], &[2], &[]]),
    ];
    for (count, want) in rows {
        have_lists(&rt, rt.alloc(), count, want)?;
    }
    Ok(())
}
