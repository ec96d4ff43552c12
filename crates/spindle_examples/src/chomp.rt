//! The game of Chomp on three rows of squares, which are counted row by row from 0.
//!
//! Who is to move bites off a square, with all that stands to its right or below. The first square is poisoned: who has no other
//! one to bite has lost.
ghost use Rattle.std.specs.Prelude.{◌≡◌, ◌<◌, IfOk};
ghost use Rattle.spindle_examples.specs.Chomp.{squares_of, after, replies_to, wins};

use std::alloc::{AllocError, Global};

/// How many squares each row has left.
#[derive(Clone, Copy, PartialEq, Eq)]
pub struct Board {
    /// Of the first row.
    pub top: u8,
    /// Of the second row.
    pub middle: u8,
    /// Of the third row.
    pub bottom: u8,
}

impl Board {
    /// How many squares are left.
    pub fn squares(&self) -> usize
        ensures { result ≡ squares_of self.now }
    {
        usize::from(self.top) + usize::from(self.middle) + usize::from(self.bottom)
    }

    /// What the bite at a square leaves.
    pub fn bitten(&self, square: usize) -> Board
        requires { square < squares_of self.now }
        ensures { result ≡ after self.now square }
    {
        let (top, middle) = (usize::from(self.top), usize::from(self.middle));
        if square < top {
            let column = square as u8;
            Board {
                top: column,
                middle: self.middle.min(column),
                bottom: self.bottom.min(column),
            }
        } else if square < top + middle {
            let column = (square - top) as u8;
            Board {
                middle: column,
                bottom: self.bottom.min(column),
                ..*self
            }
        } else {
            Board {
                bottom: (square - top - middle) as u8,
                ..*self
            }
        }
    }

    /// What each bite leaves that isn't at the poisoned square.
    pub fn replies(&self, alloc: Global) -> Result<Vec<Board>, AllocError>
        ensures { IfOk result (λ boards. boards.items ≡ replies_to self.now) }
    {
        let mut boards = Vec::new(alloc);
        for square in 1..self.squares() {
            boards.push(self.bitten(square))?;
        }
        Ok(boards)
    }

    /// Whether who is to move wins: the other one has lost after some bite.
    pub fn is_won(self) -> bool
        ensures { result ≡ wins self }
    {
        for square in 1..self.squares() {
            if !self.bitten(square).is_won() {
                return true;
            }
        }
        false
    }
}
