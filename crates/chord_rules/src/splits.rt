//! The rule on groups: a class overrides all methods of a group of its base class, or none.
#![tactic(auto)]

ghost use Rattle.std.specs.Prelude.{◌≡◌, ◌<◌, ◌∷◌, [], IfOk, OnOk, OnErr, length, map, slice_index};
ghost use Rattle.chord_tree.specs.View.{see_header};
ghost use Rattle.chord_bodies.specs.View.{view_chord_plan};
ghost use Rattle.chord_classes.specs.Table.{inherited};
ghost use Rattle.chord_classes.specs.Plan.{overridden};
ghost use Rattle.chord_classes.specs.Least.{least, keys};
ghost use Rattle.chord_rules.specs.FirstHeaders.{see_lent};
ghost use Rattle.chord_classes.specs.DeclarationRules.{overriding};
ghost use Rattle.chord_rules.specs.Splits.{split_from};
ghost use Rattle.chord_rules.specs.SplitHeaders.{overridden_number, spared_below, splits_from, seen_after};

use crate::first_headers::FirstHeaders;
use crate::groups::{above_chords, label_at, labels};
use crate::headers::overrides;
use crate::numbers::among;
use chord_bodies::plan::ChordPlan;
use chord_classes::least::Least;
use chord_classes::numbers::narrow;
use chord_classes::table::Table;
use chord_tree::classes::Header;
use std::alloc::{AllocError, Global};

/// The method of the base class that a header overrides, if it does.
fn overridden_number(table: &Table, base: Option<u32>, header: &Header) -> Option<u32>
    ensures { result ≡ overridden_number (inherited table.now base) (see_header header.now) }
{
    if !overrides(header) {
        return None;
    }
    let Some(class) = base else {
        return None;
    };
    match table.method_named(class, header.name.text.items()) {
        Some(found) => Some(found.number),
        None => None,
    }
}

/// The methods of the base class that the headers of a class override.
pub fn overridden(
    alloc: Global,
    table: &Table,
    base: Option<u32>,
    firsts: &FirstHeaders,
) -> Result<Vec<u32>, AllocError>
    ensures { IfOk result (λ all. all.items ≡ overridden (inherited table.now base) (map see_lent firsts.now.all.items)) }
{
    let mut found = Vec::new(alloc);
    for header in firsts.all.as_slice() {
        if let Some(number) = overridden_number(table, base, header) {
            found.push(number)?;
        }
    }
    Ok(found)
}

/// Whether one of the first methods has this label, and is not overridden.
fn any_spared(labels: &[u32], taken: &[u32], label: u32, count: usize) -> Result<bool, AllocError>
    ensures spared { IfOk result (λ spared. spared ≡ spared_below (slice_index labels.now) taken.now label count) }
    ensures large { OnErr result (4294967296 < count) }
{
    let mut left = count;
    while left > 0 {
        left -= 1;
        let method = narrow(left)?;
        if label_at(labels, method) == label && !among(method, taken) {
            return Ok(true);
        }
    }
    Ok(false)
}

/// C11: notes the header if it is the first of a group that is not overridden whole, and gives the labels that were seen with its own.
fn header_splits(
    table: &Table,
    base: Option<u32>,
    labels: &[u32],
    taken: &[u32],
    seen: Vec<u32>,
    header: &Header,
    breaks: &mut Least,
) -> Result<Vec<u32>, AllocError>
    ensures seen { IfOk result (λ after. after.items ≡ seen_after (slice_index labels.now) (inherited table.now base) seen.items (see_header header.now ∷ [])) }
    ensures noted { OnOk result (breaks.new.found ≡ least breaks.old.found (keys 11 (splits_from (slice_index labels.now) taken.now (inherited table.now base) seen.items (see_header header.now ∷ [])))) }
{
    let mut seen = seen;
    if let Some(number) = overridden_number(table, base, header) {
        let label = label_at(labels, number);
        if !among(label, &seen) {
            let spared = any_spared(labels, taken, label, table.inherited_count(base))?;
            breaks.note_if(11, spared, header.name.at);
            seen.push(label)?;
        }
    }
    Ok(seen)
}

/// C11: notes the first headers of the groups that are not overridden whole, by the labels of the methods.
fn labelled_splits(
    alloc: Global,
    table: &Table,
    base: Option<u32>,
    labels: &[u32],
    taken: &[u32],
    firsts: &FirstHeaders,
    breaks: &mut Least,
) -> Result<(), AllocError>
    ensures { OnOk result (breaks.new.found ≡ least breaks.old.found (keys 11 (splits_from (slice_index labels.now) taken.now (inherited table.now base) [] (map see_lent firsts.now.all.items)))) }
{
    let mut seen = Vec::new(alloc);
    for header in firsts.all.as_slice() {
        seen = header_splits(table, base, labels, taken, seen, header, breaks)?;
    }
    Ok(())
}

/// C11: notes the first headers of the groups of these chords that a class overrides in part.
pub fn splits(
    alloc: Global,
    table: &Table,
    base: Option<u32>,
    chords: &[ChordPlan],
    taken: &[u32],
    firsts: &FirstHeaders,
    breaks: &mut Least,
) -> Result<(), AllocError>
    requires { taken.now ≡ overridden (inherited table.now base) (map see_lent firsts.now.all.items) }
    ensures splits { OnOk result (breaks.new.found ≡ least breaks.old.found (keys 11 (split_from (map view_chord_plan chords.now) taken.now (inherited table.now base) [] (overriding (inherited table.now base) (map see_lent firsts.now.all.items))))) }
    ensures none { OnErr result (0 < length taken.now) }
{
    if taken.is_empty() {
        return Ok(());
    }
    let count = above_chords(table.inherited_count(base), chords);
    let labels = labels(alloc, count, chords)?;
    labelled_splits(alloc, table, base, &labels, taken, firsts, breaks)?;
    Ok(())
}
