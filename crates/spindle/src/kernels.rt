//! Calls over whole lists: a caller writes what is computed of an item (`Kernel`), what an item becomes (`Change`), or what it becomes
//! between its neighbours (`Stencil`), and a call opens a lock, goes over the list in a few pieces a thread, and closes the lock. So does
//! `divide`, over a problem that a kernel splits (`Division`).
//!
//! `held` says how pieces hold the kernel, `source` how they read the list.
ghost use Rattle.std.specs.Prelude.{◌≡◌, ◌++◌, Bool};
ghost use Rattle.spindle.specs.Divisions.{IsJoined, IsSplit};

mod dividing;
mod divisions;
mod held;
mod leaders;
mod maps;
mod pairs;
mod passes;
mod passing;
mod source;
mod tasks;
mod tries;
mod updates;

pub use self::dividing::{Branch, Dividing};
pub use self::divisions::divide;
pub use self::held::{Again, Shared};
pub use self::leaders::{
    DivisionsOf, MapsOf, PairMapsOf, PairTotalsOf, PassesOf, TotalsOf, TriesOf, UpdatesOf,
};
pub use self::maps::{Mapping, Run, map, map_into};
pub use self::pairs::{PairRun, map_pairs, reduce_pairs};
pub use self::passes::{Passes, passes_until};
pub use self::passing::{Note, Passing};
pub use self::source::Source;
pub(crate) use self::source::parts_of;
pub(crate) use self::tasks::PIECES;
pub use self::tasks::Task;
pub use self::tries::{Failed, Trial, Trying, try_map};
pub(crate) use self::updates::change_each;
pub use self::updates::{Updating, update};
use spindle_parts::lists::ListRun;

/// A kernel: what a call over a list computes of each item. It holds what it reads beside the item, as a closure holds what it
/// captures.
pub trait Kernel {
    /// What it is given.
    type In: Drop;

    /// What it computes.
    type Out: Drop;

    /// The relation between the kernel, what it is given, and what it computes.
    ghost computes: { Self → Self.In → Self.Out → Type 0 };

    /// Computes one item.
    fn compute(&self, item: &Self::In) -> Self::Out
        ensures { computes self.now item.now result };
}

/// A kernel that changes each item of a list where it stands.
pub trait Change {
    /// What it changes.
    type Item: Drop;

    /// The relation between the kernel, an item, and what becomes of it.
    ghost changes: { Self → Self.Item → Self.Item → Type 0 };

    /// Changes one item.
    fn change(&self, item: &mut Self::Item)
        ensures { changes self.now item.old item.new };
}

/// A kernel of passes over a list: in a pass each value becomes another, by the value before it and the one behind it.
pub trait Stencil {
    /// A value of the list.
    type Value: Copy + Drop;

    /// What a value becomes: by the one before it, itself, and the one behind it.
    ghost becomes: { Self → Self.Value → Self.Value → Self.Value → Self.Value };

    /// Whether a value has settled: by what it was and what it has become.
    ghost settles: { Self → Self.Value → Self.Value → Bool };

    /// What a value becomes between two others.
    fn value(&self, before: Self::Value, here: Self::Value, behind: Self::Value) -> Self::Value
        ensures { result ≡ becomes self.now before here behind };

    /// Whether a value that became another has settled.
    fn has_settled(&self, old: Self::Value, new: Self::Value) -> bool
        ensures { result ≡ settles self.now old new };
}

/// A problem, or the two that it was split into.
#[derive(Drop)]
pub enum Split<P> {
    /// The problem: it is small.
    Whole(P),
    /// The two, the first one first.
    Parts(P, P),
}

impl<T: Drop> Split<ListRun<T>> {
    /// The halves of a run, or the run where it has fewer items than `least`, or one at most. No item is moved.
    pub fn halves(run: ListRun<T>, least: usize) -> Split<ListRun<T>>
        ensures { IsSplit (λ all first second. all ≡ first ++ second) run result }
    {
        let (len, middle) = (run.len(), run.len() / 2);
        if len < least.max(2) {
            return Split::Whole(run);
        }
        match (run.run(0, middle), run.run(middle, len)) {
            (Ok(first), Ok(second)) => Split::Parts(first, second),
            _ => Split::Whole(run),
        }
    }
}

/// A kernel that divides and conquers: it splits a problem in two, and joins their answers.
pub trait Division {
    /// What is to be solved.
    type Problem: Drop;

    /// What solves it.
    type Answer: Drop;

    /// The relation between the kernel, a problem, and an answer that solves it.
    ghost solves: { Self → Self.Problem → Self.Answer → Type 0 };

    /// The relation between the kernel, a problem, and two that it may be split into.
    ghost splits: { Self → Self.Problem → Self.Problem → Self.Problem → Type 0 };

    /// Splits a problem, unless it is small.
    fn split(&self, problem: Self::Problem) -> Split<Self::Problem>
        ensures { IsSplit (splits self.now) problem result };

    /// Solves a problem of any size, by this thread alone.
    fn solve(&self, problem: Self::Problem) -> Self::Answer
        ensures { solves self.now problem result };

    /// Joins the answers to the two problems that another was split into: what comes of them solves it.
    fn join(&self, first: Self::Answer, second: Self::Answer) -> Self::Answer
        ensures { IsJoined (solves self.now) (splits self.now) first second result };
}
