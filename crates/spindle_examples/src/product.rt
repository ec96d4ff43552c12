//! A matrix product by divide and conquer: rows are halved until there are some parts a thread, and
//! the entries of halves are joined. Rows are shared and columns are borrowed, so nobody copies them.
ghost use Rattle.std.specs.Prelude.{◌≡◌, ◌++◌, IfOk, map};
ghost use Rattle.spindle_examples.specs.Product.{product};

use crate::entries::filled;
use spindle::prelude::*;

/// Multiplies rows by columns, which stand one behind the other, each as long as a row.
#[derive(Drop)]
pub struct Multiply<'a> {
    alloc: Global,
    columns: &'a [u64],
}

impl<'a> Division for Multiply<'a> {
    type Problem = ListRun<Vec<u64>>;

    type Answer = Result<Vec<u64>, AllocError>;

    ghost solves = { λ kernel rows answer. IfOk answer (λ entries.
        entries.items ≡ product (map (λ row. row.items) rows) kernel.columns.now) };

    ghost splits = { λ kernel rows first second. rows ≡ first ++ second };

    fn split(&self, rows: ListRun<Vec<u64>>) -> Split<ListRun<Vec<u64>>> {
        Split::halves(rows, 2)
    }

    fn solve(&self, rows: ListRun<Vec<u64>>) -> Result<Vec<u64>, AllocError> {
        filled(self.alloc, rows.as_slice(), self.columns)
    }

    fn join(
        &self,
        first: Result<Vec<u64>, AllocError>,
        second: Result<Vec<u64>, AllocError>,
    ) -> Result<Vec<u64>, AllocError> {
        let mut entries = first?;
        let mut others = second?;
        entries.append(&mut others)?;
        Ok(entries)
    }
}

/// The product of a matrix that is given by its rows and one whose columns stand one behind the
/// other, each as long as a row: row by row, in 64 bits.
pub fn multiplied<G: Gate + Sync, H: Threads + Wait + Sync>(
    rt: &H,
    alloc: Global,
    pool: &Pool<G>,
    rows: Vec<Vec<u64>>,
    columns: &[u64],
) -> Result<Vec<u64>, Fault>
    ensures { IfOk result (λ entries.
        entries.items ≡ product (map (λ row. row.items) rows.items) columns.now) }
{
    let len = rows.len();
    let rows = SharedList::from_vec(alloc, rows)?.run(0, len)?;
    Ok(divide(rt, alloc, pool, &Multiply { alloc, columns }, rows)??)
}
