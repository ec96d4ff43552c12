//! What a seat of a numbers table knows, the table's rule, and what each kind of step tells its seat.
ghost use Rattle.spindle_parts.specs.ThreadNumbers.{IsNumbering, leader_view, outsider_view, same_view, loaded, taken, given};

use crate::trail::Trace;
use atomic_table::{Play, Split, TableRule};
use std::collections::LinkedList;

/// The kinds of step on a numbers table.
pub enum Kind {
    /// A load of a word.
    Load,
    /// An exchange that set a number's bit.
    Take,
    /// An exchange that found another value than was loaded before, and left it.
    Miss,
    /// A step that cleared a number's bit.
    Give,
}

/// The number that a seat has.
pub enum Holding {
    /// None.
    Nothing,
    /// The leader has 0 for as long as the table lives.
    Leads,
    /// This number, until the seat gives it.
    Has(u64),
}

/// What a seat knows. No value of it is made.
pub struct View {
    /// The number that the seat has.
    pub holding: Holding,
    /// The seat's own steps, the newest first.
    pub trail: LinkedList<Trace<Kind>>,
}

/// The rule of the table, whose key is the number of threads.
pub struct InUse;

impl TableRule<(), View, u64> for InUse {
    ghost holds = { IsNumbering };

    ghost first = { λ _. leader_view };
}

pub(crate) struct Loads;

impl Play<(), View> for Loads {
    ghost then = { loaded };
}

pub(crate) struct Takes;

impl Play<(), View> for Takes {
    ghost then = { taken };
}

pub(crate) struct Gives;

impl Play<(), View> for Gives {
    ghost then = { given };
}

pub(crate) struct Another;

impl Split<View> for Another {
    ghost left = { same_view };

    ghost right = { λ _. outsider_view };
}
