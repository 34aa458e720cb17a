//! The groups of a class's methods: methods that effective chords link, directly or through others.
//!
//! Each method has a label, at first its own number, and a chord gives its methods, and all that have one of their labels, the label of its first.
#![tactic(auto)]

ghost use Rattle.std.specs.Prelude.{◌≡◌, IfOk, map, slice_index};
ghost use Rattle.chord_bodies.specs.View.{view_chord_plan};
ghost use Rattle.chord_rules.specs.Labels.{labels_of, merged_all, numbers, relabelled, AllIn, above_methods, above_chords};

use crate::numbers::among;
use chord_bodies::plan::ChordPlan;
use chord_classes::numbers::narrow;
use std::alloc::{AllocError, Global};

/// The label of each of the first methods: two methods have one label exactly where they are of one group.
pub fn labels(alloc: Global, count: usize, chords: &[ChordPlan]) -> Result<Vec<u32>, AllocError>
    requires { AllIn count (map view_chord_plan chords.now) }
    ensures { IfOk result (λ v. v.items ≡ labels_of count (map view_chord_plan chords.now)) }
{
    let mut found = first_labels(alloc, count)?;
    let mut left = chords.len();
    while left > 0 {
        left -= 1;
        found = merge(alloc, &found, &chords[left].methods)?;
    }
    Ok(found)
}

fn first_labels(alloc: Global, count: usize) -> Result<Vec<u32>, AllocError>
    ensures { IfOk result (λ v. v.items ≡ numbers 0 count) }
{
    let mut found = Vec::new(alloc);
    for i in 0..count {
        found.push(narrow(i)?)?;
    }
    Ok(found)
}

/// Gives all methods of a chord one label.
fn merge(alloc: Global, labels: &[u32], chord: &[u32]) -> Result<Vec<u32>, AllocError>
    ensures { IfOk result (λ v. v.items ≡ merged_all chord.now labels.now) }
{
    let mut joined = Vec::new(alloc);
    for method in chord {
        joined.push(label_at(labels, *method))?;
    }
    relabel(alloc, labels, &joined, first(&joined))
}

fn first(joined: &[u32]) -> u32
    ensures { result ≡ slice_index joined.now 0 }
{
    if joined.is_empty() { 0 } else { joined[0] }
}

/// Labels that stand in a list become its first.
fn relabel(
    alloc: Global,
    labels: &[u32],
    joined: &[u32],
    first: u32,
) -> Result<Vec<u32>, AllocError>
    ensures { IfOk result (λ v. v.items ≡ map (relabelled joined.now first) labels.now) }
{
    let mut changed = Vec::new(alloc);
    for label in labels {
        changed.push(relabelled(*label, joined, first))?;
    }
    Ok(changed)
}

fn relabelled(label: u32, joined: &[u32], first: u32) -> u32
    ensures { result ≡ relabelled joined.now first label }
{
    if among(label, joined) { first } else { label }
}

/// The label of a method.
pub fn label_at(labels: &[u32], method: u32) -> u32
    ensures { result ≡ slice_index labels.now method }
{
    match labels.get(method as usize) {
        Some(label) => *label,
        None => 0,
    }
}

/// The greater of a number and the one after the greatest of these.
fn above_methods(least: usize, methods: &[u32]) -> usize
    ensures { result ≡ above_methods least methods.now }
{
    let mut bound = least;
    for method in methods {
        let method = *method as usize;
        if bound <= method {
            bound = method + 1;
        }
    }
    bound
}

/// The greater of a number and the one after the greatest method of chords.
pub fn above_chords(least: usize, chords: &[ChordPlan]) -> usize
    ensures { result ≡ above_chords least (map view_chord_plan chords.now) }
{
    let mut bound = least;
    for chord in chords {
        bound = above_methods(bound, &chord.methods);
    }
    bound
}
