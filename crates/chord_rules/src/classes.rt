//! The one pass over the classes of a program: what each breaks, and its plan.
#![tactic(auto)]

ghost use Rattle.std.specs.Prelude.{◌≡◌, ◌≤◌, ◌-◌, [], ◌++◌, None, IfOk, OnOk, OnErr, map, length};
ghost use Rattle.chord_tree.specs.View.{see_class};
ghost use Rattle.chord_tree.specs.Walk.{headers_of};
ghost use Rattle.chord_bodies.specs.View.{view_method_plan, view_chord_plan, view_class_plan};
ghost use Rattle.chord_classes.specs.Table.{base_of, inherited, methods_at};
ghost use Rattle.chord_classes.specs.Plan.{method_plan, overridden, chords_without, base_chords, plans_after};
ghost use Rattle.chord_classes.specs.MethodViews.{see_method};
ghost use Rattle.chord_classes.specs.ChordRules.{over_plans};
ghost use Rattle.chord_classes.specs.Entries.{IsGrown};
ghost use Rattle.chord_classes.specs.Least.{least};
ghost use Rattle.chord_rules.specs.ClassKeys.{name_keys, place_keys, inner_keys, class_keys};
ghost use Rattle.chord_rules.specs.Limits.{base_depth};
ghost use Rattle.chord_rules.specs.Planning.{AreAlike, base_methods, depths_of, plan_parts};
ghost use Rattle.chord_rules.specs.Passing.{IsNextClass, HasNextPlan, HasNextShape, ClassesNumbered, StopBeforeBreak};

use crate::class_plan::{PlanParts, base_chords, chords_without, class_plan, method_plans};
use crate::declarations::{base_built, base_missing, declared_again, misnamed_constructors};
use crate::first_headers::first_headers;
use crate::limits::{base_depth, base_past, chords_past, class_past};
use crate::members::members_break;
use crate::overrides::headers_break;
use crate::own_methods::own_methods;
use crate::splits::{overridden, splits};
use chord_bodies::plan::{ChordPlan, ClassPlan};
use chord_classes::build::first_builder;
use chord_classes::least::Least;
use chord_classes::methods::Methods;
use chord_classes::numbers::{after, narrow};
use chord_classes::table::Table;
use chord_tree::classes::Class;
use std::alloc::{AllocError, Global};

/// How many effective chords of the base and own chords a class has at most.
const MAX_CHORDS: usize = 256;

/// Notes what a class breaks of the rules on names of classes, bases and constructors.
fn names_break(classes: &[Class], table: &Table, class: &Class, breaks: &mut Least)
    ensures { breaks.new.found ≡ least breaks.old.found (name_keys (map see_class classes.now) table.now (see_class class.now)) }
{
    declared_again(table, class, breaks);
    base_missing(table, class, breaks);
    misnamed_constructors(class, breaks);
    base_built(classes, class, table.base_of(class), breaks);
}

/// C04: notes the class and its base, if the limits on them are passed.
fn places_break(
    table: &Table,
    depths: &[u32],
    class: &Class,
    breaks: &mut Least,
) -> Result<(), AllocError>
    requires { depths.now ≡ depths_of table.now }
    ensures noted { OnOk result (breaks.new.found ≡ least breaks.old.found (place_keys table.now (see_class class.now))) }
    ensures large { OnErr result (4294967296 ≤ base_depth depths.now (base_of table.now (see_class class.now))) }
{
    class_past(table, class, breaks);
    base_past(depths, class, table.base_of(class), breaks)?;
    Ok(())
}

/// For how many chords there is room in a class with these effective chords of its base.
fn chord_room(chords: &[ChordPlan]) -> usize
    ensures { result ≡ 256 - length (map view_chord_plan chords.now) }
{
    MAX_CHORDS.saturating_sub(chords.len())
}

/// Notes what a class breaks by its members and their headers, and gives the methods of its base that it overrides.
fn inner_breaks(
    alloc: Global,
    table: &Table,
    plans: &[ClassPlan],
    class: &Class,
    breaks: &mut Least,
) -> Result<Vec<u32>, AllocError>
    ensures taken { IfOk result (λ taken. taken.items ≡ overridden (inherited table.now (base_of table.now (see_class class.now))) (headers_of (see_class class.now))) }
    ensures noted { OnOk result (breaks.new.found ≡ least breaks.old.found (inner_keys table.now (map view_class_plan plans.now) (see_class class.now))) }
{
    let base = table.base_of(class);
    let chords = base_chords(plans, base);
    members_break(alloc, &class.members, breaks)?;
    chords_past(chord_room(chords), &class.members, breaks);
    let firsts = first_headers(alloc, &class.members)?;
    headers_break(table, base, &firsts, breaks);
    let taken = overridden(alloc, table, base, &firsts)?;
    splits(alloc, table, base, chords, &taken, &firsts, breaks)?;
    Ok(taken)
}

/// What the rules and the plan of a class need of its headers: its own methods, and those of its base that it overrides.
#[derive(Drop)]
struct Looked<'a> {
    own: Methods<'a>,
    taken: Vec<u32>,
}

/// Notes what a class breaks, after those declared before it.
fn class_breaks<'a>(
    alloc: Global,
    classes: &[Class],
    progress: &Progress<'a>,
    class: &'a Class,
    breaks: &mut Least,
) -> Result<Looked<'a>, AllocError>
    requires { progress.now.depths.items ≡ depths_of progress.now.table }
    ensures own { IfOk result (λ looked. IsGrown (inherited progress.now.table (base_of progress.now.table (see_class class.now))) (length progress.now.table) (headers_of (see_class class.now)) [] looked.own.all.items) }
    ensures taken { IfOk result (λ looked. looked.taken.items ≡ overridden (inherited progress.now.table (base_of progress.now.table (see_class class.now))) (headers_of (see_class class.now))) }
    ensures noted { OnOk result (breaks.new.found ≡ least breaks.old.found (class_keys (map see_class classes.now) progress.now.table (map view_class_plan progress.now.plans.items) (see_class class.now))) }
{
    let table = &progress.table;
    let base = table.base_of(class);
    let owner = narrow(table.class_count())?;
    names_break(classes, table, class, breaks);
    places_break(table, &progress.depths, class, breaks)?;
    let own = own_methods(alloc, table, base, owner, &class.members, breaks)?;
    let taken = inner_breaks(alloc, table, &progress.plans, class, breaks)?;
    Ok(Looked { own, taken })
}

/// The classes so far: their table, their plans, how many classes are above each, and the number of the next member.
#[derive(Drop)]
pub struct Progress<'a> {
    pub table: Table<'a>,
    pub plans: Vec<ClassPlan>,
    pub depths: Vec<u32>,
    pub number: u32,
}

/// How many members a class has.
fn member_count(class: &Class) -> usize
    ensures { result ≡ length (see_class class.now).members }
{
    class.members.len()
}

/// What the plan of a class after these has of its base and its own methods.
fn plan_parts<'a>(
    alloc: Global,
    progress: &Progress<'a>,
    base: Option<u32>,
    looked: &Looked<'a>,
) -> Result<PlanParts, AllocError>
    ensures number { IfOk result (λ parts. parts.number ≡ length progress.now.table) }
    ensures methods { IfOk result (λ parts. map view_method_plan parts.methods.items ≡ base_methods (map view_class_plan progress.now.plans.items) base ++ map method_plan (map see_method looked.now.own.all.items)) }
    ensures inherited { IfOk result (λ parts. map view_chord_plan parts.inherited.items ≡ chords_without looked.now.taken.items (base_chords (map view_class_plan progress.now.plans.items) base)) }
{
    let number = narrow(progress.table.class_count())?;
    let methods = method_plans(alloc, &progress.plans, base, &looked.own.all)?;
    let chords = base_chords(&progress.plans, base);
    Ok(PlanParts {
        number,
        methods,
        inherited: chords_without(alloc, &looked.taken, chords)?,
    })
}

/// The classes so far, and one after them with these own methods, which has no plan yet.
fn with_shape<'a>(
    progress: Progress<'a>,
    class: &'a Class,
    base: Option<u32>,
    own: Methods<'a>,
) -> Result<Progress<'a>, AllocError>
    requires base { base ≡ base_of progress.table (see_class class.now) }
    requires own { IsGrown (inherited progress.table (base_of progress.table (see_class class.now))) (length progress.table) (headers_of (see_class class.now)) [] own.all.items }
    ensures { IfOk result (λ next. HasNextShape progress.entry (see_class class.now) base next) }
{
    let mut progress = progress;
    let depth = base_depth(&progress.depths, base)?;
    progress.depths.push(depth)?;
    let Progress {
        table,
        plans,
        depths,
        number,
    } = progress;
    Ok(Progress {
        table: table.with(class, base, own, first_builder(&class.members))?,
        plans,
        depths,
        number,
    })
}

/// The classes so far, of which the last gets its plan.
fn with_plan<'a>(
    alloc: Global,
    progress: Progress<'a>,
    class: &'a Class,
    base: Option<u32>,
    parts: PlanParts,
) -> Result<Progress<'a>, AllocError>
    ensures { IfOk result (λ next. HasNextPlan progress.entry (see_class class.now) (plan_parts (methods_at progress.entry.table parts.number) base (see_class class.now) (map view_method_plan parts.methods.items) (map view_chord_plan parts.inherited.items) progress.entry.number) next) }
{
    let mut progress = progress;
    let first = progress.number;
    let plan = class_plan(alloc, &progress.table, base, class, parts, first)?;
    progress.plans.push(plan)?;
    progress.number = after(first, member_count(class))?;
    Ok(progress)
}

/// The classes so far, and one after them.
fn with_class<'a>(
    alloc: Global,
    progress: Progress<'a>,
    class: &'a Class,
    looked: Looked<'a>,
) -> Result<Progress<'a>, AllocError>
    requires alike { AreAlike progress.table (map view_class_plan progress.plans.items) progress.depths.items }
    requires own { IsGrown (inherited progress.table (base_of progress.table (see_class class.now))) (length progress.table) (headers_of (see_class class.now)) [] looked.own.all.items }
    requires taken { looked.taken.items ≡ overridden (inherited progress.table (base_of progress.table (see_class class.now))) (headers_of (see_class class.now)) }
    ensures { IfOk result (λ next. IsNextClass progress.entry (see_class class.now) next) }
{
    let base = progress.table.base_of(class);
    let parts = plan_parts(alloc, &progress, base, &looked)?;
    let shaped = with_shape(progress, class, base, looked.own)?;
    with_plan(alloc, shaped, class, base, parts)
}

/// The plans of the classes so far.
fn into_plans(progress: Progress) -> Vec<ClassPlan>
    ensures { result.items ≡ progress.entry.plans.items }
{
    progress.plans
}

/// The plans of classes, if they break none of the plan's rules but C13; notes the least break of the first class that breaks one.
///
/// It goes no further: all that a later class breaks stands behind that, and the classes before are within the limits,
/// so that no look-up is long and no list that a class inherits. C13 speaks of all classes, and has a pass of its own.
pub fn look<'a>(
    alloc: Global,
    classes: &'a [Class],
    breaks: &mut Least,
) -> Result<Vec<ClassPlan>, AllocError>
    requires none { breaks.old.found ≡ None }
    requires numbered { ClassesNumbered (map see_class classes.now) }
    ensures plans { IfOk result (λ plans. breaks.new.found ≡ None → map view_class_plan plans.items ≡ plans_after [] [] 0 (map see_class classes.now)) }
    ensures noted { OnOk result (breaks.new.found ≡ least None (over_plans (class_keys (map see_class classes.now)) [] [] 0 (map see_class classes.now))) }
    ensures stops { IfOk result (λ plans. StopBeforeBreak (map see_class classes.now) (map view_class_plan plans.items)) }
{
    let mut progress = Progress {
        table: Table::new(alloc),
        plans: Vec::new(alloc),
        depths: Vec::new(alloc),
        number: 0,
    };
    for class in classes {
        let looked = class_breaks(alloc, classes, &progress, class, breaks)?;
        if breaks.found.is_some() {
            return Ok(into_plans(progress));
        }
        progress = with_class(alloc, progress, class, looked)?;
    }
    Ok(into_plans(progress))
}
