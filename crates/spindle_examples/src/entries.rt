//! The entries of a matrix product, as plain code: of a row and a column, of a row, and of several rows. The columns stand one behind
//! the other, each as long as a row.
ghost use Rattle.std.specs.Prelude.{◌≡◌, ◌++◌, IfOk, OnOk, map};
ghost use Rattle.spindle_examples.specs.Product.{dot, row_of, product};
ghost use Rattle.spindle_examples.specs.Wrapping.{wrapped};

use std::alloc::{AllocError, Global};

/// The entries of these rows, row by row.
pub fn filled(alloc: Global, rows: &[Vec<u64>], columns: &[u64]) -> Result<Vec<u64>, AllocError>
    ensures { IfOk result (λ entries.
        entries.items ≡ product (map (λ row. row.items) rows.now) columns.now) }
{
    let mut entries = Vec::new(alloc);
    for row in rows {
        add_row(&mut entries, row.as_slice(), columns)?;
    }
    Ok(entries)
}

// Adds the entries of a row.
fn add_row(entries: &mut Vec<u64>, row: &[u64], columns: &[u64]) -> Result<(), AllocError>
    ensures { OnOk result (entries.new.items ≡ entries.old.items ++ row_of columns.now row.now) }
{
    if row.is_empty() {
        return Ok(());
    }
    for at in 0..columns.len() / row.len() {
        entries.push(entry(row, &columns[row.len() * at..]))?;
    }
    Ok(())
}

// The entry of a row and a column, in 64 bits.
fn entry(row: &[u64], column: &[u64]) -> u64
    ensures { result ≡ wrapped (dot row.now column.now) }
{
    let mut sum = 0u64;
    for at in 0..row.len().min(column.len()) {
        sum = sum.wrapping_add(row[at].wrapping_mul(column[at]));
    }
    sum
}
