//! Rows of locks that jobs open: inputs with the outputs that they must give, and what a refused allocation leaves there.

mod doubles;
mod lock_rows;
