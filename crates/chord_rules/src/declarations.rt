//! The rules on the names of classes, bases and constructors.
#![tactic(auto)]

ghost use Rattle.std.specs.Prelude.{◌≡◌, ◌||◌, false, map};
ghost use Rattle.chord_tree.specs.View.{see_class, see_member};
ghost use Rattle.chord_classes.specs.DeclarationRules.{declared_again, base_missing};
ghost use Rattle.chord_classes.specs.ChordRules.{misnamed_constructors, base_token, base_has, any_has, has_parameters};
ghost use Rattle.chord_classes.specs.Resolve.{is_builder};
ghost use Rattle.chord_classes.specs.Least.{least, keys};
ghost use Rattle.chord_rules.specs.Constructors.{misnamed_at};

use chord_classes::least::Least;
use chord_classes::table::Table;
use chord_tree::classes::{Class, Member};

/// C01: notes the class if its name was declared before, or is `Console`.
pub fn declared_again(table: &Table, class: &Class, breaks: &mut Least)
    ensures { breaks.new.found ≡ least breaks.old.found (keys 1 (declared_again table.now (see_class class.now))) }
{
    let name = class.name.text.items();
    let before = table.class_named(name).is_some();
    let console = name == b"Console".as_slice();
    breaks.note_if(1, before | console, class.name.at);
}

/// C03: notes the base if it is not declared earlier in the text.
pub fn base_missing(table: &Table, class: &Class, breaks: &mut Least)
    ensures { breaks.new.found ≡ least breaks.old.found (keys 3 (base_missing table.now (see_class class.now))) }
{
    let missing = table.base_of(class).is_none();
    if let Some(base) = &class.base {
        breaks.note_if(3, missing, base.at);
    }
}

/// C12: notes the constructors that have another name than their class, or are not the first.
pub fn misnamed_constructors(class: &Class, breaks: &mut Least)
    ensures { breaks.new.found ≡ least breaks.old.found (keys 12 (misnamed_constructors class.now.name.text (map see_member class.now.members.items))) }
{
    let mut seen = false;
    for member in &class.members {
        seen = misnamed(class, seen, member, breaks);
    }
}

/// C12: notes the member if it is a constructor that has another name than its class, or is not the first, and tells whether one was seen.
fn misnamed(class: &Class, seen: bool, member: &Member, breaks: &mut Least) -> bool
    ensures noted { breaks.new.found ≡ least breaks.old.found (keys 12 (misnamed_at class.now.name.text seen (see_member member.now))) }
    ensures seen { result ≡ (seen || is_builder (see_member member.now)) }
{
    match member {
        Member::Constructor { name, .. } => {
            let other = name.text.items() != class.name.text.items();
            breaks.note_if(12, seen | other, name.at);
            true
        }
        Member::Chord { .. } => seen,
    }
}

/// Whether a constructor has parameters.
fn has_parameters(member: &Member) -> bool
    ensures { result ≡ has_parameters (see_member member.now) }
{
    match member {
        Member::Constructor { formals, .. } => !formals.parameters.is_empty(),
        Member::Chord { .. } => false,
    }
}

fn any_has(members: &[Member]) -> bool
    ensures { result ≡ any_has (map see_member members.now) }
{
    for member in members {
        if has_parameters(member) {
            return true;
        }
    }
    false
}

/// Whether a base class has a constructor with parameters.
fn base_has(classes: &[Class], base: Option<u32>) -> bool
    ensures { result ≡ base_has (map see_class classes.now) base }
{
    let Some(number) = base else {
        return false;
    };
    match classes.get(number as usize) {
        Some(class) => any_has(&class.members),
        None => false,
    }
}

/// C12: notes the base if one of its constructors has parameters.
pub fn base_built(classes: &[Class], class: &Class, base: Option<u32>, breaks: &mut Least)
    ensures { breaks.new.found ≡ least breaks.old.found (keys 12 (base_token class.now.base (base_has (map see_class classes.now) base))) }
{
    let built = base_has(classes, base);
    if let Some(name) = &class.base {
        breaks.note_if(12, built, name.at);
    }
}
