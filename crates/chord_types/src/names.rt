//! The rules on names at one expression whose parts have been looked at: variables, `this`, numbers and literals.
#![tactic(auto)]

ghost use Rattle.std.specs.Prelude.{◌≡◌, bytes_eq, codes, map};
ghost use Rattle.chord_classes.specs.Site.{variable_named};
ghost use Rattle.chord_classes.specs.NameRules.{is_print, is_used, may_be_console};
ghost use Rattle.chord_classes.specs.Resolve.{slot_of};
ghost use Rattle.chord_classes.specs.TypedTerms.{VariableTyped, ThisTyped, NumberTyped, LiteralTyped, PrintTyped, is_console};
ghost use Rattle.chord_classes.specs.Typed.{judged};
ghost use Rattle.chord_classes.specs.Least.{least};
ghost use Rattle.chord_classes.specs.AllNotes.{typed_term_keys};
ghost use Rattle.chord_tree.specs.Terms.{VariableTerm};
ghost use Rattle.chord_tree.specs.Walk as walk;
ghost use Rattle.chord_classes.specs.Site as sites;
ghost use Rattle.chord_types.specs.Views.{see_role, see_passed};
ghost use Rattle.chord_types.specs.Sites.{see_site};

use crate::arguments::print_fits;
use crate::site::{Passed, Role, Site};
use chord_base::static_type::StaticType;
use chord_classes::least::Least;
use chord_tree::names::Name;

/// Whether this is the word `Console`.
fn is_console_word(name: &[u8]) -> bool
    ensures { result ≡ bytes_eq name.now (codes "Console") }
{
    name == b"Console".as_slice()
}

/// Whether a name before a dot may be the word `Console`.
fn may_be_console(role: Role, name: &Name) -> bool
    ensures { result ≡ may_be_console (see_role role) name.now }
{
    match role {
        Role::Receiver => is_console_word(name.text.items()),
        _ => false,
    }
}

/// Whether a name is the word `Console`, and no variable.
pub(crate) fn names_console(site: &Site, name: &Name) -> bool
    ensures { result ≡ is_console (see_site site.now) (VariableTerm name.now) }
{
    if is_console_word(name.text.items()) {
        site.scope.variable(name.text.items()).is_none()
    } else {
        false
    }
}

/// The slot of a variable.
pub(crate) fn slot(site: &Site, name: &[u8]) -> u32
    ensures { result ≡ slot_of (variable_named (see_site site.now).scope name.now) }
{
    match site.scope.variable(name) {
        Some(local) => local.slot,
        None => 0,
    }
}

/// Judges a variable.
pub(crate) fn judge_variable(
    site: &Site,
    role: Role,
    name: &Name,
    breaks: &mut Least,
) -> Option<StaticType>
    ensures typed { result ≡ judged (see_site site.now) (see_role role) (VariableTyped name.now) }
    ensures noted { breaks.new.found ≡ least breaks.old.found (typed_term_keys (see_site site.now) (see_role role) (VariableTyped name.now)) }
{
    match site.scope.variable(name.text.items()) {
        Some(local) => local.static_type,
        None => {
            breaks.note_if(14, !may_be_console(role, name), name.at);
            None
        }
    }
}

/// Judges `this`, which `Main` has not.
pub(crate) fn judge_this(site: &Site, role: Role, at: u32, breaks: &mut Least) -> Option<StaticType>
    ensures typed { result ≡ judged (see_site site.now) (see_role role) (ThisTyped at) }
    ensures noted { breaks.new.found ≡ least breaks.old.found (typed_term_keys (see_site site.now) (see_role role) (ThisTyped at)) }
{
    if site.in_main {
        breaks.note(14, at);
        None
    } else {
        Some(StaticType::Class(site.own))
    }
}

/// Notes a number that does not fit; it is an int all the same.
pub(crate) fn judge_number(value: u32, at: u32, after_minus: bool, breaks: &mut Least)
    ensures { (site : sites.Site) (role : walk.Role) → breaks.new.found ≡ least breaks.old.found (typed_term_keys site role (NumberTyped value at after_minus)) }
{
    let is_least = value == 2147483648 && after_minus;
    breaks.note_if(23, 2147483647 < value && !is_least, at);
}

/// Notes a literal that is too long; it is a text all the same.
pub(crate) fn judge_literal(bytes: &[u8], at: u32, breaks: &mut Least)
    ensures { (site : sites.Site) (role : walk.Role) → breaks.new.found ≡ least breaks.old.found (typed_term_keys site role (LiteralTyped bytes.now at)) }
{
    breaks.note_if(24, 1024 < bytes.len(), at);
}

/// Whether the value of an expression is used.
pub(crate) fn is_used(role: Role) -> bool
    ensures { result ≡ is_used (see_role role) }
{
    match role {
        Role::Alone => false,
        _ => true,
    }
}

/// Whether a call on `Console` is `WriteLine` with no or one argument.
fn is_print(name: &Name, actuals: &[Passed]) -> bool
    ensures { result ≡ is_print name.now (map see_passed actuals.now) }
{
    match actuals {
        [] => name.text.items() == b"WriteLine".as_slice(),
        [_] => name.text.items() == b"WriteLine".as_slice(),
        _ => false,
    }
}

/// Notes what a call on `Console` breaks; it has no type.
pub(crate) fn judge_print(role: Role, name: &Name, actuals: &[Passed], breaks: &mut Least)
    ensures { (site : sites.Site) → breaks.new.found ≡ least breaks.old.found (typed_term_keys site (see_role role) (PrintTyped name.now (map see_passed actuals.now))) }
{
    let is_print = is_print(name, actuals);
    breaks.note_if(14, !is_print, name.at);
    if is_print {
        print_fits(actuals, breaks);
    }
    breaks.note_if(19, is_used(role) && is_print, name.at);
}
