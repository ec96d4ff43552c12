//! Rows of lists that clones and runs share, that are shared out in runs, in chunks with what stands around them, or in strips, and of
//! answers that are gathered.
//!
//! Clauses say what these calls answer. These rows show what no clause says: that a list comes out again exactly where no clone and
//! no run of it is left, and that memory is refused only where it was; and each call once with its answer.
ghost use Rattle.std.specs.Prelude.{◌≡◌, ◌∷◌, IfOk, []};

use crate::checks::{are, holds, is};
use spindle_parts::fault::Fault;
use spindle_parts::lists::{ListRun, SharedList, gathered, joined_strips, tell_neighbours};
use std::alloc::{AllocError, Global};
use std::process::Abort;

fn five(alloc: Global) -> Result<SharedList<u32>, Fault>
    ensures { IfOk result (λ list. list ≡ 1 ∷ 2 ∷ 3 ∷ 4 ∷ 5 ∷ []) }
{
    let numbers = vec![in alloc; 1, 2, 3, 4, 5]?;
    Ok(SharedList::from_vec(alloc, numbers)?)
}

// Fails the test in which these aren't two runs, of which the last has these items.
fn end_with(
    rt: &impl Abort,
    runs: Result<Vec<ListRun<u32>>, Fault>,
    items: &[u32],
) -> Result<(), Fault> {
    let runs = runs?;
    is(rt, runs.len(), 2);
    for run in runs.iter().skip(1) {
        are(rt, run.as_slice(), items);
        is(
            rt,
            (run.len(), run.is_empty()),
            (items.len(), items.is_empty()),
        );
    }
    Ok(())
}

// Fails the test in which the list comes out while a clone of it is left; answers it as it was.
fn stays_with_a_clone(rt: &impl Abort, list: SharedList<u32>) -> Result<SharedList<u32>, Fault> {
    let clone = list.clone()?;
    holds(rt, list == clone && list.len() == 5 && !list.is_empty());
    let Err(list) = list.try_into_vec() else {
        panic!(rt; "a clone is left");
    };
    are(rt, list.as_slice(), &[1, 2, 3, 4, 5]);
    Ok(list)
}

// The same with a run of it.
fn stays_with_a_run(rt: &impl Abort, list: SharedList<u32>) -> Result<SharedList<u32>, Fault> {
    assert!(rt; list.len() == 5);
    let run = list.run(1, 3)?;
    let Err(list) = list.try_into_vec() else {
        panic!(rt; "a run is left");
    };
    are(rt, run.as_slice(), &[2, 3]);
    Ok(list)
}

// Whether a run equals another one, which may be refused.
fn equals(run: &ListRun<u32>, other: Result<ListRun<u32>, AllocError>) -> Result<bool, Fault> {
    Ok(*run == other?)
}

#[test]
fn runs_of_the_same_items_are_equal(rt: HostRuntime) -> Result<(), Fault> {
    let list = SharedList::from_vec(rt.alloc(), vec![in rt.alloc(); 1u32, 2, 3, 1, 2]?)?;
    let run = list.run(0, 2)?;
    holds(&rt, equals(&run, list.run(3, 5))?);
    holds(&rt, !equals(&run, list.run(1, 3))?);
    Ok(())
}

#[test]
fn a_list_comes_out_again_where_no_clone_is_left(rt: HostRuntime) -> Result<(), Fault> {
    let list = stays_with_a_clone(&rt, five(rt.alloc())?)?;
    let list = stays_with_a_run(&rt, list)?;
    let Ok(items) = list.try_into_vec() else {
        panic!(rt; "no clone is left");
    };
    are(&rt, items.as_slice(), &[1, 2, 3, 4, 5]);
    Ok(())
}

// A list that is lent to three items, or refused for it, is as it was, and no clone of it is left.
fn lend_once(rt: &impl Abort, alloc: Global) -> Result<(), Fault> {
    let list = five(alloc)?;
    let items = vec![in alloc; 9, 8, 7]?;
    let lent = match list.lent_to(alloc, items) {
        Ok(pairs) => Ok(pairs.len()),
        Err(refused) => Err(refused),
    };
    are(rt, list.as_slice(), &[1, 2, 3, 4, 5]);
    holds(rt, list.try_into_vec().is_ok());
    is(rt, lent?, 3);
    Ok(())
}

#[test]
fn refused_list_is_lent_when_asked_again(rt: HostRuntime) {
    let first = lend_once(&rt, rt.alloc());
    holds(&rt, first.is_ok() || lend_once(&rt, rt.alloc()).is_ok());
}

#[test]
fn a_list_and_its_runs_are_shared_out(rt: HostRuntime) -> Result<(), Fault> {
    let alloc = rt.alloc();
    let list = five(alloc)?;
    end_with(&rt, list.share_out(alloc, &[5, 0]), &[])?;
    end_with(&rt, list.share_out_evenly(alloc, 2), &[4, 5])?;
    let run = list.run(2, 5)?;
    end_with(&rt, run.share_out(alloc, &[1, 2]), &[4, 5])?;
    end_with(&rt, run.share_out_evenly(alloc, 2), &[5])
}

#[test]
fn chunks_have_what_stands_around_them(rt: HostRuntime) -> Result<(), Fault> {
    let chunks = five(rt.alloc())?.share_out_overlapping(rt.alloc(), 2, 1)?;
    let [first, second, _] = chunks.as_slice() else {
        panic!(rt; "not three chunks");
    };
    are(&rt, second.as_slice(), &[2, 3, 4, 5]);
    is(&rt, (second.from(), second.to()), (1, 3));
    let clone = second.clone()?;
    is(&rt, (clone == *second, first == second), (true, false));
    Ok(())
}

// Five numbers in two strips that are told their neighbours, and joined again, or refused.
fn there_and_back(rt: &impl Abort, alloc: Global) -> Result<(), Fault> {
    let mut strips = five(alloc)?.strips(alloc, 2, 9, true)?;
    tell_neighbours(&mut strips, 0);
    for strip in &strips {
        holds(rt, strip.note);
        is(
            rt,
            (strip.before, strip.behind),
            if strip.items.len() == 3 {
                (0, 4)
            } else {
                (3, 0)
            },
        );
    }
    are(rt, &joined_strips(alloc, strips)?, &[1, 2, 3, 4, 5]);
    Ok(())
}

#[test]
fn refused_strips_are_made_when_asked_again(rt: HostRuntime) {
    let first = there_and_back(&rt, rt.alloc());
    let is_made = first.is_ok() || there_and_back(&rt, rt.alloc()).is_ok();
    holds(&rt, is_made);
}

// Answers of three jobs, of which the second is a number or a failure.
fn answers(alloc: Global, second: Result<u32, u8>) -> Result<Vec<Result<Vec<u32>, u8>>, Fault> {
    let mut answers = Vec::<Result<Vec<u32>, u8>>::new(alloc);
    answers.push(Ok(Vec::from_array(alloc, [1, 2])?))?;
    match second {
        Ok(number) => answers.push(Ok(Vec::from_array(alloc, [number])?))?,
        Err(why) => answers.push(Err(why))?,
    }
    answers.push(Ok(Vec::new(alloc)))?;
    Ok(answers)
}

#[test]
fn answers_are_one_list_or_the_first_failure(rt: HostRuntime) -> Result<(), Fault> {
    let alloc = rt.alloc();
    let Ok(all) = gathered(alloc, answers(alloc, Ok(3))?)? else {
        panic!(rt; "nothing failed");
    };
    are(&rt, &all, &[1, 2, 3]);
    holds(
        &rt,
        matches!(gathered(alloc, answers(alloc, Err(7))?)?, Err(7)),
    );
    Ok(())
}
