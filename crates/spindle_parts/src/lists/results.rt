//! The answers of jobs that each make a list and may fail, as one list.
ghost use Rattle.std.specs.Prelude.{IfOk, OnErr, IsErrOf};
ghost use Rattle.spindle_parts.specs.Gathered.{IsGathered};

use crate::fault::Fault;
use std::alloc::Global;

/// The lists of all answers joined in order, or the first failure among them.
///
/// So the outputs of a round over the chunks of a list become one list again. Where memory for it is refused, the
/// answers are given up.
pub fn gathered<T: Drop, E: Drop>(
    alloc: Global,
    answers: Vec<Result<Vec<T>, E>>,
) -> Result<Result<Vec<T>, E>, Fault>
    ensures answers { IfOk result (λ all. IsGathered answers.items all) }
    ensures memory { OnErr result (IsErrOf result Fault.Memory) }
{
    let mut all = Vec::new(alloc);
    for answer in answers {
        match answer {
            Ok(mut list) => all.append(&mut list)?,
            Err(failure) => return Ok(Err(failure)),
        }
    }
    Ok(Ok(all))
}
