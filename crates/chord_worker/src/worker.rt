//! A worker: its desk, the task that it plays, and what it drew.
ghost use Rattle.std.specs.Prelude.{ℕ};

use chord_base::event::Entry;
use chord_space::Desk;
use chord_task::apart::Apart;
use chord_task::parcel::Parcel;
use chord_task::task::Task;

/// Is told of each body that begins to be played.
pub trait Gate {
    /// The gate knows of this body. A caller that has any gate learns so by telling it, and in no other way.
    ghost knows: { ℕ → Type 0 } = { λ _. Unit {0} };

    /// The body of this number begins.
    fn started(&self, body: u32)
        ensures told { knows body };
}

/// A desk of the shared table, and what is played at it.
#[derive(Drop)]
pub struct Worker {
    /// The desk with which it makes its steps.
    pub(crate) desk: Desk<Parcel>,
    /// What it plays: the body on top may go on.
    pub(crate) task: Option<Apart<Task>>,
    /// Room for the body of a firing that serves no call.
    pub(crate) spare: Option<Apart<Task>>,
    /// The entries that it drew, the oldest first.
    pub(crate) draws: Vec<Entry>,
    /// The lists of the workers that it took in.
    pub(crate) taken: Vec<Vec<Entry>>,
    /// Whether it was told that the limit on events is reached.
    pub(crate) spent: bool,
}
