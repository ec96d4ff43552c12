//! What a seat at the ledger knows, the rule of its table, and what each kind of step tells it.
//!
//! These types are for contracts and proofs alone: no value of them is made.
ghost use Rattle.spindle_parts.specs.Ledger.{Balanced};
ghost use Rattle.spindle_parts.specs.LedgerSteps.{blank, same, new_account, loaded, announced, asked, subtracted, installed, taken, closed};

use crate::trail::Trace;
use atomic_table::{Play, Split, TableRule};
use std::collections::LinkedList;

/// The kinds of step on the ledger's words.
pub enum Kind {
    /// A load, which moves nothing.
    Load,
    /// The store of a flag. It finds nothing, so its trace has the stored value twice.
    Announce,
    /// Requests grow by this many.
    Ask(u64),
    /// Requests fall by this many.
    Subtract(u64),
    /// This many places are opened at a slot.
    Install(u64),
    /// An exchange that took a place.
    Take,
    /// An exchange that found another value than was loaded, and left it.
    Miss,
    /// All unfilled places of a slot are taken out.
    Close,
}

/// What a seat knows: how many requests it answers for, and its own steps, the newest first.
pub struct Account {
    /// What the seat asked, took and closed, less what it installed and subtracted.
    pub credit: u64,
    /// The seat's own steps, the newest first.
    pub trail: LinkedList<Trace<Kind>>,
}

/// The rule of the table: the books balance between any two steps. Its key is the number of slots.
pub struct Ledger;

impl TableRule<(), Account, u64> for Ledger {
    ghost holds = { Balanced };

    ghost first = { λ _. blank };
}

/// A seat for another thread begins with nothing.
pub(crate) struct Another;

impl Split<Account> for Another {
    ghost left = { same };

    ghost right = { new_account };
}

pub(crate) struct Loads;

impl Play<(), Account> for Loads {
    ghost then = { loaded };
}

pub(crate) struct Announces;

impl Play<(), Account> for Announces {
    ghost then = { announced };
}

pub(crate) struct Asks;

impl Play<(), Account> for Asks {
    ghost then = { asked };
}

pub(crate) struct Subtracts;

impl Play<(), Account> for Subtracts {
    ghost then = { subtracted };
}

pub(crate) struct Installs;

impl Play<(), Account> for Installs {
    ghost then = { installed };
}

pub(crate) struct Takes;

impl Play<(), Account> for Takes {
    ghost then = { taken };
}

pub(crate) struct Closes;

impl Play<(), Account> for Closes {
    ghost then = { closed };
}
