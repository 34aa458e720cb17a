//! The calls of a worker that the pool makes, but for its steps.
ghost use Rattle.std.specs.Prelude.{◌≡◌, ◌≢◌, ◌||◌, ℕ, ◌<◌, ◌-◌, [], ◌∷◌, ◌++◌, Option, true, false, Some, None, OnOk, IfOk, min, is_some, flat_map, reverse, vec_capacity, IsPermutation, Vec};
ghost use Rattle.std.specs.Global.{Global};
ghost use Rattle.chord_base.specs.declared.event.Entry.{Entry};
ghost use Rattle.chord_base.specs.Story.{IsSound};
ghost use Rattle.chord_rule.specs.Kinds.{newcomer_first, lent_one, saw, saw_count, united};
ghost use Rattle.chord_rule.specs.Tells.{a_word};
ghost use Rattle.chord_task.specs.Standing.{view_of, IsTaskOf, MainBegins};
ghost use Rattle.chord_word.specs.declared.cells.Cell.{Cell as TheCell};
ghost use Rattle.chord_word.specs.declared.cells.Cell.TheVariants.{Ready, Started};
ghost use Rattle.chord_space.specs.Desks.{view, space_code, space_limits, program_of, IsDeskOf};
ghost use Rattle.chord_word.specs.declared.cells.Word.{Word};
ghost use Rattle.chord_worker.specs.Resting.{IsAtRest, IsSameRole, IsSeen, LastSawReady};
ghost use Rattle.chord_worker.specs.Stepping.{PlaysFiring, PlaysMain};

use crate::worker::{Gate, Worker};
use chord_base::event::{Entry, Limits, What};
use chord_code::code::Code;
use chord_space::{Desk, Space};
use chord_task::apart::Apart;
use chord_task::parcel::{Opened, Parcel};
use chord_task::task::Task;
use chord_word::Cell;
use std::alloc::{AllocError, Global};

/// Whether one of two workers was told that the limit is reached.
fn told_either(mine: bool, other: bool) -> bool
    ensures { result ≡ mine || other }
{
    mine || other
}

/// `Main` begins, and its entry goes to a list with room for all entries that the run may come to, so that none is moved later. Where
/// there is none, the list grows.
fn main_task(
    alloc: Global,
    code: &Code,
    limits: &Limits,
    draws: &mut Vec<Entry>,
) -> Result<Task, AllocError>
    requires { MainBegins code.now limits.now }
    ensures task { IfOk result (λ t. IsTaskOf code.now limits.now t) }
    ensures past { IfOk result (λ t. (view_of t).past ≡ record { number = 0; body = 0; what = What.Begun } ∷ []) }
    ensures top { IfOk result (λ t. (view_of t).top ≡ Some 0) }
    ensures listed { OnOk result (draws.new.items ≡ draws.old.items ++ record { number = 0; body = 0; what = What.Begun } ∷ []) }
{
    let _ = draws.reserve(limits.events as usize);
    let main = Task::main(alloc, code, limits, draws)?;
    Ok(main)
}

impl Worker {
    /// The first worker, with the desk that the table gave: `Main` begins, nothing of it is played yet, and it has nothing in
    /// stock. The counter stands at 0 then, so that the first draw is never told that the limit is reached.
    pub fn main(
        alloc: Global,
        space: &Space<Parcel>,
        code: &Code,
        limits: &Limits,
        desk: Desk<Parcel>,
    ) -> Result<Worker, AllocError>
        requires code { (space_code space.now ≡ code.now) × (space_limits space.now ≡ limits.now) }
        requires sound { IsSound (program_of space.now) }
        requires desk { IsDeskOf space.now desk × (view desk ≡ newcomer_first) }
        ensures { IfOk result (λ w. IsAtRest space.now w × IsSameRole (view desk) (view w.desk) × ((view w.desk).drawn ≡ true) × ((view w.desk).spent ≡ true → w.task ≡ None) × PlaysMain w × (w.spare ≡ None) × (w.taken.items ≡ [])) }
    {
        let mut desk = desk;
        let mut draws = Vec::new(alloc);
        let task = main_task(alloc, code, limits, &mut draws)?;
        let task = Apart::new(alloc, task)?;
        match space.draw(&mut desk, 0, &What::Begun) {
            Ok(_) => Ok(Worker {
                desk,
                task: Some(task),
                spare: None,
                draws,
                taken: Vec::new(alloc),
                spent: false,
            }),
            Err(_) => unreachable!(),
        }
    }

    /// A worker with a desk of its own, which this one lends: it has nothing to play and nothing in stock, has drawn nothing and
    /// taken nobody in. Its lists have no room yet: no memory is taken for a worker that may draw nothing.
    pub fn hired(&mut self, alloc: Global, space: &Space<Parcel>) -> Worker
        requires rest { IsAtRest space.now self.old }
        requires first { ((view self.old.desk).first ≡ true) × ((view self.old.desk).splits < 65535) }
        ensures mine { IsAtRest space.now self.new × (self.new.task ≡ self.old.task) × (view self.new.desk ≡ lent_one (view self.old.desk)) }
        ensures frame { self.new ≡ record self.old { desk = self.new.desk } }
        ensures other { IsAtRest space.now result × (result.task ≡ None) × ((view result.desk).spent ≡ false) }
        ensures undrawn { (view result.desk).draws ≡ [] }
        ensures empty { result.spare ≡ None }
        ensures nothing_taken { result.taken.items ≡ [] }
        ensures lean { (vec_capacity result.draws ≡ 0) × (vec_capacity result.taken ≡ 0) }
    {
        Worker {
            desk: space.split(&mut self.desk),
            task: None,
            spare: None,
            draws: Vec::new(alloc),
            taken: Vec::new(alloc),
            spent: false,
        }
    }

    /// Whether it plays a task.
    pub fn has_task(&self) -> bool
        ensures { result ≡ is_some self.now.task }
    {
        self.task.is_some()
    }

    /// Whether it was told that the limit on events is reached.
    pub fn is_spent(&self) -> bool
        ensures { result ≡ self.now.spent }
    {
        self.spent
    }

    /// The entries that it drew, the oldest first.
    pub fn draws(&self) -> &[Entry]
        ensures { result.now ≡ self.now.draws.items }
    {
        self.draws.as_slice()
    }

    /// How many numbers were given, at most as many as events are allowed.
    pub fn count(&mut self, space: &Space<Parcel>) -> u32
        requires rest { IsAtRest space.now self.old }
        ensures rest { IsAtRest space.now self.new × (self.new.task ≡ self.old.task) }
        ensures frame { self.new ≡ record self.old { desk = self.new.desk } }
        ensures counted { (c : ℕ) × (result ≡ min c space.now.events) × (view self.new.desk ≡ saw_count (view self.old.desk) c) }
    {
        space.look_count(&mut self.desk)
    }

    /// What the cell of number i says, for a worker with nothing to play.
    pub fn look(&mut self, space: &Space<Parcel>, i: u32) -> Cell
        requires rest { IsAtRest space.now self.old }
        requires task { self.old.task ≡ None }
        requires room { (view self.old.desk).spent ≡ false }
        requires bounds { i < space.now.events }
        ensures rest { IsAtRest space.now self.new × (self.new.task ≡ None) }
        ensures frame { self.new ≡ record self.old { desk = self.new.desk } }
        ensures seen { (x : Word) × (result ≡ x.cell) × IsSeen (view self.old.desk) (view self.new.desk) i x }
    {
        space.look_cell(&mut self.desk, i).cell
    }

    /// Starts the firing of this number, which the worker last saw ready, and plays its body then, if it is ready still. Whether it was;
    /// if not, the worker saw what its cell said, and nothing else has changed. In both cases it looks at this cell alone, once, and
    /// draws nothing.
    pub fn start<G: Gate>(
        &mut self,
        space: &Space<Parcel>,
        code: &Code,
        limits: &Limits,
        i: u32,
        gate: &G,
    ) -> bool
        requires code { (space_code space.now ≡ code.now) × (space_limits space.now ≡ limits.now) }
        requires sound { IsSound (program_of space.now) }
        requires rest { IsAtRest space.now self.old }
        requires task { self.old.task ≡ None }
        requires room { (view self.old.desk).spent ≡ false }
        requires bounds { i < space.now.events }
        requires ready { LastSawReady (view self.old.desk) i }
        ensures rest { IsAtRest space.now self.new × IsSameRole (view self.old.desk) (view self.new.desk) }
        ensures frame { self.new ≡ record self.old { desk = self.new.desk; task = self.new.task } }
        ensures room { (view self.new.desk).spent ≡ false }
        ensures task { result ≡ is_some self.new.task }
        ensures plays { result ≡ true → PlaysFiring G.knows (view self.old.desk).kept self.old.task self.new i }
        ensures undrawn { (view self.new.desk).draws ≡ (view self.old.desk).draws }
        ensures once { (x : Word) × (result ≡ true → x.cell ≡ Started) × ((view self.new.desk).looked ≡ (saw (view self.old.desk) i x).looked) }
        ensures refused { result ≡ false → (c : TheCell) × (next : Option ℕ) × (c ≢ Ready) × (view self.new.desk ≡ saw (view self.old.desk) i (a_word c next)) }
    {
        let _parts = code.parts();
        let _events = limits.events;
        match space.start(&mut self.desk, i) {
            Ok(parcel) => {
                let Opened { arguments: _, task } = parcel.open();
                self.task = task;
                gate.started(i);
                true
            }
            Err(_) => false,
        }
    }

    /// Takes in another worker that has nothing to play: the desk takes over what the other one keeps and drew. Want of memory is an
    /// `Err`, after which entries are lost.
    pub fn take_in(&mut self, space: &Space<Parcel>, other: Worker) -> Result<(), AllocError>
        requires rest { IsAtRest space.now self.old × IsAtRest space.now other }
        requires tasks { (self.old.task ≡ None) × (other.task ≡ None) }
        requires first { (view self.old.desk).first ≡ true }
        ensures frame { self.new ≡ record self.old { desk = self.new.desk; taken = self.new.taken; spent = self.new.spent } }
        ensures united { view self.new.desk ≡ united (view self.old.desk) (view other.desk) }
        ensures lists { OnOk result ((self.new.draws ≡ self.old.draws) × (self.new.taken.items ≡ self.old.taken.items ++ other.draws ∷ other.taken.items)) }
        ensures rest { OnOk result (IsAtRest space.now self.new × (self.new.task ≡ None)) }
        ensures role { OnOk result (((view self.new.desk).first ≡ true) × ((view self.new.desk).lent ≡ (view self.old.desk).lent - 1) × ((view self.old.desk).drawn ≡ true → (view self.new.desk).drawn ≡ true)) }
    {
        let Worker {
            desk,
            task: _,
            spare: _,
            draws,
            taken,
            spent,
        } = other;
        space.join(&mut self.desk, desk);
        self.spent = told_either(self.spent, spent);
        let mut taken = taken;
        self.taken.push(draws)?;
        self.taken.append(&mut taken)?;
        Ok(())
    }

    /// The desk of a worker with nothing to play, and the lists of entries, each as one worker drew them: its own and those of the
    /// workers that it took in. One list alone has what the desk drew in the order in which it was drawn. Want of memory is an `Err`.
    pub fn into_parts(
        self,
        space: &Space<Parcel>,
    ) -> Result<(Desk<Parcel>, Vec<Vec<Entry>>), AllocError>
        requires rest { IsAtRest space.now self }
        requires task { self.task ≡ None }
        ensures desk { IfOk result (λ r. r.0 ≡ self.desk) }
        ensures lists { IfOk result (λ r. r.1.items ≡ self.taken.items ++ self.draws ∷ []) }
        ensures entries { IfOk result (λ r. IsPermutation (flat_map (λ list. list.items) r.1.items) (view self.desk).draws) }
        ensures alone { IfOk result (λ r. (list : Vec Entry Global) → r.1.items ≡ list ∷ [] → list.items ≡ reverse (view self.desk).draws) }
    {
        let Worker {
            desk,
            task: _,
            spare: _,
            draws,
            taken,
            spent: _,
        } = self;
        let mut lists = taken;
        lists.push(draws)?;
        Ok((desk, lists))
    }
}
