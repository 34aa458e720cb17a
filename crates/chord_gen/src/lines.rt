//! The lines of classes: their methods and their chords.
#![tactic(auto)]

ghost use Rattle.std.specs.Prelude.{◌≡◌, ℕ, ◌<◌, ◌≤◌, length, map, IfOk, Some, slice_get, unwrap_or};
ghost use Rattle.chord_bodies.specs.declared.plan.MethodPlan.{MethodPlan as APlan};
ghost use Rattle.chord_bodies.specs.declared.plan.ChordPlan.{ChordPlan as AChord};
ghost use Rattle.chord_bodies.specs.View.{view_method_plan, view_chord_plan, view_class_plan};
ghost use Rattle.chord_gen.specs.Translation.{method_line, lines_from, origins};
ghost use Rattle.chord_gen.specs.TypedSource.{source_of, IsTypedSource};
ghost use Rattle.chord_gen.specs.Building.{IsBuilt, ChordFits, told_line, told_class};

use crate::built::Built;
use chord_bodies::body::Body;
use chord_bodies::plan::{ChordPlan, ClassPlan, Layout, MethodPlan};
use chord_code::lines::Lines;
use chord_code::parts::{ChordLine, ClassLine, MethodLine, MethodNumbers};
use std::alloc::{AllocError, Global};

/// The lines of all classes.
pub fn class_lines(
    alloc: Global,
    plan: &Layout,
    bodies: &[Body],
    built: &Built,
) -> Result<Vec<ClassLine>, AllocError>
    requires typed { IsTypedSource (source_of plan.now bodies.now) }
    requires built { IsBuilt (source_of plan.now bodies.now) built.now.blocks.items built.now.builders.items built.now.members.items (origins (source_of plan.now bodies.now)) }
    requires classes { length built.now.builders.items ≡ length plan.now.classes }
    ensures { IfOk result (λ lines. lines.items ≡ lines_from (source_of plan.now bodies.now) 0 plan.now.classes) }
{
    let mut lines = Vec::new(alloc);
    for (number, class) in plan.classes().iter().enumerate() {
        lines.push(class_line(alloc, built, number, class)?)?;
    }
    Ok(lines)
}

/// The line of a class, with the numbers that are told.
fn class_line(
    alloc: Global,
    built: &Built,
    number: usize,
    class: &ClassPlan,
) -> Result<ClassLine, AllocError>
    requires there { number < length built.now.builders.items }
    requires methods { (j : ℕ) (m : APlan) → slice_get class.now.methods.items j ≡ Some m → m.parameters ≤ 8 }
    requires chords { (k : ℕ) (c : AChord) → slice_get class.now.chords.items k ≡ Some c → ChordFits c }
    ensures { IfOk result (λ line. line ≡ told_class built.now.builders.items built.now.members.items number (view_class_plan class.now)) }
{
    Ok(ClassLine {
        name: class.name.copied(alloc)?,
        builder: built.builders[number],
        methods: Lines::of_items(method_lines(alloc, &class.methods)?),
        chords: Lines::of_items(chord_lines(alloc, &built.members, &class.chords)?),
    })
}

/// The lines of methods.
fn method_lines(alloc: Global, methods: &[MethodPlan]) -> Result<Vec<MethodLine>, AllocError>
    requires few { (j : ℕ) (m : APlan) → slice_get methods.now j ≡ Some m → m.parameters ≤ 8 }
    ensures { IfOk result (λ lines. lines.items ≡ map method_line (map view_method_plan methods.now)) }
{
    let mut lines = Vec::new(alloc);
    for method in methods {
        lines.push(line_of_method(alloc, method)?)?;
    }
    Ok(lines)
}

/// The line of a method.
fn line_of_method(alloc: Global, method: &MethodPlan) -> Result<MethodLine, AllocError>
    requires few { method.now.parameters ≤ 8 }
    ensures { IfOk result (λ line. line ≡ method_line (view_method_plan method.now)) }
{
    Ok(MethodLine {
        name: method.name.copied(alloc)?,
        sync: method.is_sync,
        parameters: method.parameters as u8,
    })
}

/// The lines of chords, with the numbers that are told for members.
fn chord_lines(
    alloc: Global,
    members: &[u32],
    chords: &[ChordPlan],
) -> Result<Vec<ChordLine>, AllocError>
    requires fit { (k : ℕ) (c : AChord) → slice_get chords.now k ≡ Some c → ChordFits c }
    ensures { IfOk result (λ lines. lines.items ≡ map (told_line members.now) (map view_chord_plan chords.now)) }
{
    let mut lines = Vec::new(alloc);
    for chord in chords {
        lines.push(line_of_chord(members, chord))?;
    }
    Ok(lines)
}

/// The line of a chord.
fn line_of_chord(members: &[u32], chord: &ChordPlan) -> ChordLine
    requires fits { ChordFits chord.now }
    ensures { result ≡ told_line members.now (view_chord_plan chord.now) }
{
    ChordLine {
        block: told(members, chord.body),
        methods: method_numbers(&chord.methods),
    }
}

/// The number that is told for a member, or 0.
fn told(members: &[u32], member: u32) -> u32
    ensures { result ≡ unwrap_or (slice_get members.now member) 0 }
{
    match members.get(member as usize) {
        None => 0,
        Some(number) => *number,
    }
}

/// The methods of a chord.
fn method_numbers(methods: &[u32]) -> MethodNumbers
    requires few { length methods.now ≤ 8 }
    requires low { (k j : ℕ) → slice_get methods.now k ≡ Some j → j < 16 }
    ensures { result ≡ methods.now }
{
    let mut numbers = MethodNumbers::new();
    for method in methods {
        numbers.push(*method as u8);
    }
    numbers
}
