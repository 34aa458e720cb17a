//! The plan of a class.
#![tactic(auto)]

ghost use Rattle.std.specs.Prelude.{◌≡◌, ◌<◌, ◌≤◌, ◌+◌, [], ◌∷◌, ◌++◌, true, is_some, IfOk, OnErr, length, map};
ghost use Rattle.chord_tree.specs.View.{see_class, see_header, see_member};
ghost use Rattle.chord_bodies.specs.View.{view_method_plan, view_chord_plan, view_class_plan};
ghost use Rattle.chord_classes.specs.Table.{methods_at};
ghost use Rattle.chord_classes.specs.Plan.{method_plan, header_number, header_numbers, spared, chords_without, own_chords, own_builder, base_chords};
ghost use Rattle.chord_classes.specs.MethodViews.{see_method};
ghost use Rattle.chord_rules.specs.Planning.{chord_bodies, base_methods, plan_parts};

use crate::headers::is_sync;
use crate::numbers::among;
use chord_bodies::plan::{ChordPlan, ClassPlan, MethodPlan};
use chord_classes::main_headers::has_main;
use chord_classes::method::Method;
use chord_classes::numbers::{after, narrow};
use chord_classes::table::Table;
use chord_tree::classes::{Class, Header, Member};
use std::alloc::{AllocError, Global};

fn method_plan(alloc: Global, method: Method) -> Result<MethodPlan, AllocError>
    ensures { IfOk result (λ plan. view_method_plan plan ≡ method_plan (see_method method.entry)) }
{
    Ok(MethodPlan {
        name: method.header.name.text.copied(alloc)?,
        is_sync: is_sync(&method.header.result_type),
        parameters: narrow(method.header.formals.parameters.len())?,
    })
}

/// The plans of methods behind others.
fn with_methods(
    alloc: Global,
    plans: Vec<MethodPlan>,
    methods: &[Method],
) -> Result<Vec<MethodPlan>, AllocError>
    ensures { IfOk result (λ all. map view_method_plan all.items ≡ map view_method_plan plans.items ++ map method_plan (map see_method methods.now)) }
{
    let mut plans = plans;
    for method in methods {
        plans.push(method_plan(alloc, *method)?)?;
    }
    Ok(plans)
}

fn copied_method(alloc: Global, plan: &MethodPlan) -> Result<MethodPlan, AllocError>
    ensures { IfOk result (λ same. view_method_plan same ≡ view_method_plan plan.now) }
{
    Ok(MethodPlan {
        name: plan.name.copied(alloc)?,
        is_sync: plan.is_sync,
        parameters: plan.parameters,
    })
}

fn copied_methods(alloc: Global, plans: &[MethodPlan]) -> Result<Vec<MethodPlan>, AllocError>
    ensures { IfOk result (λ same. map view_method_plan same.items ≡ map view_method_plan plans.now) }
{
    let mut same = Vec::new(alloc);
    for plan in plans {
        same.push(copied_method(alloc, plan)?)?;
    }
    Ok(same)
}

/// The methods that are inherited from a base class.
fn base_methods(
    alloc: Global,
    plans: &[ClassPlan],
    base: Option<u32>,
) -> Result<Vec<MethodPlan>, AllocError>
    ensures methods { IfOk result (λ methods. map view_method_plan methods.items ≡ base_methods (map view_class_plan plans.now) base) }
    ensures derived { OnErr result (is_some base ≡ true) }
{
    let Some(class) = base else {
        return Ok(Vec::new(alloc));
    };
    match plans.get(class as usize) {
        Some(plan) => copied_methods(alloc, &plan.methods),
        None => Ok(Vec::new(alloc)),
    }
}

/// The methods of a class: those of its base, and its own.
pub fn method_plans(
    alloc: Global,
    plans: &[ClassPlan],
    base: Option<u32>,
    own: &[Method],
) -> Result<Vec<MethodPlan>, AllocError>
    ensures { IfOk result (λ methods. map view_method_plan methods.items ≡ base_methods (map view_class_plan plans.now) base ++ map method_plan (map see_method own.now)) }
{
    let methods = base_methods(alloc, plans, base)?;
    with_methods(alloc, methods, own)
}

/// The number of the method of a class that a header is of.
fn header_number(table: &Table, class: u32, header: &Header) -> u32
    ensures { result ≡ header_number (methods_at table.now class) (see_header header.now) }
{
    match table.method_named(class, header.name.text.items()) {
        Some(found) => found.number,
        None => 0,
    }
}

fn header_numbers(
    alloc: Global,
    table: &Table,
    class: u32,
    headers: &[Header],
) -> Result<Vec<u32>, AllocError>
    ensures { IfOk result (λ numbers. numbers.items ≡ header_numbers (methods_at table.now class) (map see_header headers.now)) }
{
    let mut numbers = Vec::new(alloc);
    for header in headers {
        numbers.push(header_number(table, class, header))?;
    }
    Ok(numbers)
}

/// Chords, and that of a member of this number, if it is one; that of `Main` is none.
fn with_chord(
    alloc: Global,
    table: &Table,
    class: u32,
    chords: Vec<ChordPlan>,
    number: u32,
    member: &Member,
) -> Result<Vec<ChordPlan>, AllocError>
    ensures chords { IfOk result (λ all. map view_chord_plan all.items ≡ map view_chord_plan chords.items ++ own_chords (methods_at table.now class) number (see_member member.now ∷ [])) }
    ensures one { OnErr result (0 < length (own_chords (methods_at table.now class) number (see_member member.now ∷ []))) }
{
    let mut chords = chords;
    match member {
        Member::Constructor { .. } => {}
        Member::Chord { headers, .. } => {
            if !has_main(headers) {
                let methods = header_numbers(alloc, table, class, headers)?;
                chords.push(ChordPlan {
                    body: number,
                    methods,
                })?;
            }
        }
    }
    Ok(chords)
}

/// The chords of a class's members, of which the first has this number.
pub fn own_chords(
    alloc: Global,
    table: &Table,
    class: u32,
    first: u32,
    members: &[Member],
) -> Result<Vec<ChordPlan>, AllocError>
    ensures { IfOk result (λ chords. map view_chord_plan chords.items ≡ own_chords (methods_at table.now class) first (map see_member members.now)) }
{
    let mut number = first;
    let mut chords = Vec::new(alloc);
    for member in members {
        chords = with_chord(alloc, table, class, chords, number, member)?;
        number = after(number, 1)?;
    }
    Ok(chords)
}

/// The first constructor among members, of which the first has this number.
pub fn own_builder(first: u32, members: &[Member]) -> Result<Option<u32>, AllocError>
    ensures builder { IfOk result (λ builder. builder ≡ own_builder first (map see_member members.now)) }
    ensures large { OnErr result (4294967296 ≤ first + length members.now) }
{
    let mut number = first;
    for member in members {
        match member {
            Member::Constructor { .. } => return Ok(Some(number)),
            Member::Chord { .. } => {}
        }
        number = after(number, 1)?;
    }
    Ok(None)
}

fn spared(others: &[u32], methods: &[u32]) -> bool
    ensures { result ≡ spared others.now methods.now }
{
    for method in methods {
        if among(*method, others) {
            return false;
        }
    }
    true
}

/// The chords that have none of these methods.
pub fn chords_without(
    alloc: Global,
    others: &[u32],
    chords: &[ChordPlan],
) -> Result<Vec<ChordPlan>, AllocError>
    ensures { IfOk result (λ left. map view_chord_plan left.items ≡ chords_without others.now (map view_chord_plan chords.now)) }
{
    let mut left = Vec::new(alloc);
    for chord in chords {
        if spared(others, &chord.methods) {
            let methods = Vec::from_slice(alloc, &chord.methods)?;
            left.push(ChordPlan {
                body: chord.body,
                methods,
            })?;
        }
    }
    Ok(left)
}

/// The bodies of chords.
pub fn chord_bodies(alloc: Global, chords: &[ChordPlan]) -> Result<Vec<u32>, AllocError>
    ensures { IfOk result (λ bodies. bodies.items ≡ chord_bodies (map view_chord_plan chords.now)) }
{
    let mut bodies = Vec::new(alloc);
    for chord in chords {
        bodies.push(chord.body)?;
    }
    Ok(bodies)
}

/// Chords, and others after them.
pub fn joined(chords: Vec<ChordPlan>, more: Vec<ChordPlan>) -> Result<Vec<ChordPlan>, AllocError>
    ensures { IfOk result (λ all. map view_chord_plan all.items ≡ map view_chord_plan chords.items ++ map view_chord_plan more.items) }
{
    let mut chords = chords;
    for chord in more {
        chords.push(chord)?;
    }
    Ok(chords)
}

/// The effective chords of a base class.
pub fn base_chords<'a>(plans: &'a [ClassPlan], base: Option<u32>) -> &'a [ChordPlan]
    ensures { map view_chord_plan result.now ≡ base_chords (map view_class_plan plans.now) base }
{
    let Some(class) = base else {
        return &[];
    };
    match plans.get(class as usize) {
        Some(plan) => plan.chords.as_slice(),
        None => &[],
    }
}

/// The chords of a class, and the bodies of those among them that are its own.
#[derive(Drop)]
struct ClassChords {
    chords: Vec<ChordPlan>,
    own: Vec<u32>,
}

/// The chords that a class inherits and its own, by its members, of which the first has this number.
fn class_chords(
    alloc: Global,
    table: &Table,
    number: u32,
    first: u32,
    members: &[Member],
    inherited: Vec<ChordPlan>,
) -> Result<ClassChords, AllocError>
    ensures chords { IfOk result (λ all. map view_chord_plan all.chords.items ≡ map view_chord_plan inherited.items ++ own_chords (methods_at table.now number) first (map see_member members.now)) }
    ensures own { IfOk result (λ all. all.own.items ≡ chord_bodies (own_chords (methods_at table.now number) first (map see_member members.now))) }
{
    let mine = own_chords(alloc, table, number, first, members)?;
    let own = chord_bodies(alloc, &mine)?;
    let chords = joined(inherited, mine)?;
    Ok(ClassChords { chords, own })
}

/// What the plan of a class has of the classes before it: its number among them, its methods, and the chords that it inherits.
#[derive(Drop)]
pub struct PlanParts {
    pub number: u32,
    pub methods: Vec<MethodPlan>,
    pub inherited: Vec<ChordPlan>,
}

/// The plan of a class, of which the first member has this number.
pub fn class_plan(
    alloc: Global,
    table: &Table,
    base: Option<u32>,
    class: &Class,
    parts: PlanParts,
    first: u32,
) -> Result<ClassPlan, AllocError>
    ensures { IfOk result (λ plan. view_class_plan plan ≡ plan_parts (methods_at table.now parts.number) base (see_class class.now) (map view_method_plan parts.methods.items) (map view_chord_plan parts.inherited.items) first) }
{
    let constructor_body = own_builder(first, &class.members)?;
    let name = class.name.text.copied(alloc)?;
    let PlanParts {
        number,
        methods,
        inherited,
    } = parts;
    let ClassChords { chords, own } = class_chords(
        alloc,
        table,
        number,
        first,
        &class.members,
        inherited,
    )?;
    Ok(ClassPlan {
        name,
        base,
        methods,
        chords,
        own,
        constructor_body,
    })
}
