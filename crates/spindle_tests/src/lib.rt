//! Tests of locks of each kind, of calls outside one, and of callers: these have contracts that are proved from the library's public
//! clauses alone. Rows have inputs with the outputs that they must give, or with what a refused allocation leaves. Most that need trays
//! alone stand in `spindle_locks_tests`.
//!
//! All of it is read with the tests alone, so that it is proved once.
#![tactic(auto)]

#[cfg(test)]
mod caller_rows;
#[cfg(test)]
mod callers;
#[cfg(test)]
mod checks;
#[cfg(test)]
mod free_rows;
#[cfg(test)]
mod in_place_rows;
#[cfg(test)]
mod item_rows;
#[cfg(test)]
mod laws;
#[cfg(test)]
mod lists;
#[cfg(test)]
mod marks;
#[cfg(test)]
mod nested;
#[cfg(test)]
mod place_rows;
#[cfg(test)]
mod refused_calls;
#[cfg(test)]
mod refused_numbers;
#[cfg(test)]
mod refused_rounds;
#[cfg(test)]
mod rounds;
#[cfg(test)]
mod sevens;
#[cfg(test)]
mod square_rows;
#[cfg(test)]
mod staying;
