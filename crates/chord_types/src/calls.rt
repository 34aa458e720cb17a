//! The rules at calls and at `new`, whose arguments have been looked at.
#![tactic(auto)]

ghost use Rattle.std.specs.Prelude.{◌≡◌, ℕ, cond, not, map, is_none, Option, Some, None, option_map};
ghost use Rattle.chord_classes.specs.Table.{formal_types, class_named};
ghost use Rattle.chord_classes.specs.Types.{value_type};
ghost use Rattle.chord_classes.specs.TypedTerms.{NewTyped, typed_call, own_target, target_on};
ghost use Rattle.chord_classes.specs.NameRules.{when, may_reach, class_formals, barred_class};
ghost use Rattle.chord_classes.specs.Typed.{judged, target_type};
ghost use Rattle.chord_classes.specs.Least.{least};
ghost use Rattle.chord_classes.specs.AllNotes.{typed_term_keys};
ghost use Rattle.chord_classes.specs.MethodViews.{see_access};
ghost use Rattle.chord_types.specs.Views.{see_role, see_passed, see_target};
ghost use Rattle.chord_types.specs.Sites.{see_site};
ghost use Rattle.chord_types.specs.CallKeys.{call_keys, call_type, built_keys, built_type};

use crate::arguments::{all_typed, counts, fit_counted};
use crate::names::{is_used, judge_print};
use crate::site::{Passed, Role, Site, Target};
use chord_base::static_type::StaticType;
use chord_classes::least::Least;
use chord_classes::method::Access;
use chord_classes::table::Table;
use chord_tree::classes::{Formal, ReturnType};
use chord_tree::names::Name;

/// Whether a method is accessible.
fn may_reach(site: &Site, receiver: u32, owner: u32, access: Access) -> bool
    ensures { result ≡ may_reach (see_site site.now) receiver owner (see_access access) }
{
    match access {
        Access::Public => true,
        Access::Private => site.own == owner,
        Access::Protected => {
            if site.table.derives(site.own, owner) {
                site.table.derives(receiver, site.own)
            } else {
                false
            }
        }
    }
}

/// Whether a method gives no value.
fn is_valueless(result_type: &ReturnType) -> bool
    ensures { result ≡ is_none (value_type result_type.now) }
{
    match result_type {
        ReturnType::Value(_) => false,
        _ => true,
    }
}

/// The type of a call in which nothing is broken.
fn result_if(sound: bool, site: &Site, target: Target) -> Option<StaticType>
    ensures { result ≡ cond sound (target_type (see_site site.now) (Some (see_target target.entry))) None }
{
    if !sound {
        return None;
    }
    match &target.found.method.header.result_type {
        ReturnType::Value(written) => site.table.written(written),
        _ => None,
    }
}

/// Judges a call of what it names.
pub(crate) fn judge_call(
    site: &Site,
    role: Role,
    target: Option<Target>,
    at: u32,
    actuals: &[Passed],
    breaks: &mut Least,
) -> Option<StaticType>
    ensures typed { result ≡ call_type (see_site site.now) (see_role role) (option_map see_target target.entry) at (map see_passed actuals.now) }
    ensures noted { breaks.new.found ≡ least breaks.old.found (call_keys (see_site site.now) (see_role role) (option_map see_target target.entry) at (map see_passed actuals.now)) }
{
    match target {
        None => {
            breaks.note(14, at);
            None
        }
        Some(target) => {
            let method = target.found.method;
            let formals = method.header.formals.parameters.as_slice();
            let counted = counts(formals, actuals);
            let fitting = fit_counted(site.table, formals, actuals, breaks);
            let reached = may_reach(site, target.class, method.owner, method.access);
            breaks.note_if(16, !reached, at);
            let useless = is_used(role) & is_valueless(&method.header.result_type);
            breaks.note_if(19, useless, at);
            breaks.note_if(22, !counted, at);
            let sound = all_typed(actuals) & fitting & reached & !useless & counted;
            result_if(sound, site, target)
        }
    }
}

/// What a call without receiver names; `Main` has no `this`.
pub(crate) fn own_target<'a>(site: &Site<'_, 'a>, name: &[u8]) -> Option<Target<'a>>
    ensures { option_map see_target result ≡ own_target (see_site site.now) name.now }
{
    if site.in_main {
        return None;
    }
    match site.table.method_named(site.own, name) {
        Some(found) => Some(Target {
            class: site.own,
            found,
        }),
        None => None,
    }
}

/// What a call on a receiver of this type names.
pub(crate) fn target_on<'a>(
    site: &Site<'_, 'a>,
    receiver: Option<StaticType>,
    name: &[u8],
) -> Option<Target<'a>>
    ensures { option_map see_target result ≡ target_on (see_site site.now) receiver name.now }
{
    match receiver {
        Some(StaticType::Class(class)) => match site.table.method_named(class, name) {
            Some(found) => Some(Target { class, found }),
            None => None,
        },
        _ => None,
    }
}

/// Judges a call on a receiver of this type, which is the word `Console` or not.
pub(crate) fn judge_on(
    site: &Site,
    role: Role,
    is_console: bool,
    receiver: Option<StaticType>,
    target: Option<Target>,
    dot: u32,
    name: &Name,
    actuals: &[Passed],
    breaks: &mut Least,
) -> Option<StaticType>
    requires { option_map see_target target ≡ target_on (see_site site.now) receiver name.now.text }
    ensures typed { result ≡ judged (see_site site.now) (see_role role) (typed_call is_console receiver dot name.now (map see_passed actuals.now)) }
    ensures noted { breaks.new.found ≡ least breaks.old.found (typed_term_keys (see_site site.now) (see_role role) (typed_call is_console receiver dot name.now (map see_passed actuals.now))) }
{
    if is_console {
        judge_print(role, name, actuals, breaks);
        return None;
    }
    match receiver {
        None => None,
        Some(StaticType::Class(_)) => judge_call(site, role, target, name.at, actuals, breaks),
        Some(_) => {
            breaks.note(15, dot);
            None
        }
    }
}

/// What the objects of a class are built from.
fn class_formals<'a>(table: &Table<'a>, class: u32) -> &'a [Formal]
    ensures { formal_types result.now ≡ class_formals table.now class }
{
    match table.builder(class) {
        Some(builder) => builder.formals,
        None => &[],
    }
}

/// Whether a class's constructor is accessible.
fn may_build(site: &Site, class: u32) -> bool
    ensures { (at : ℕ) → barred_class (see_site site.now) (Some class) at ≡ when (not result) at }
{
    match site.table.builder(class) {
        None => true,
        Some(builder) => match builder.access {
            Access::Public => true,
            _ => class == site.own,
        },
    }
}

/// The type of an object of a class, if nothing is broken.
fn object_if(sound: bool, class: u32) -> Option<StaticType>
    ensures { result ≡ cond sound (Some (StaticType.Class class)) None }
{
    if sound {
        Some(StaticType::Class(class))
    } else {
        None
    }
}

/// Judges an object of a class that is declared.
fn judge_built(
    site: &Site,
    class: u32,
    at: u32,
    actuals: &[Passed],
    breaks: &mut Least,
) -> Option<StaticType>
    ensures typed { result ≡ built_type (see_site site.now) class at (map see_passed actuals.now) }
    ensures noted { breaks.new.found ≡ least breaks.old.found (built_keys (see_site site.now) class at (map see_passed actuals.now)) }
{
    let formals = class_formals(site.table, class);
    let counted = counts(formals, actuals);
    let fitting = fit_counted(site.table, formals, actuals, breaks);
    let reached = may_build(site, class);
    breaks.note_if(16, !reached, at);
    breaks.note_if(22, !counted, at);
    let sound = all_typed(actuals) & fitting & reached & counted;
    object_if(sound, class)
}

/// Judges `new` of a class.
pub(crate) fn judge_new(
    site: &Site,
    role: Role,
    class: Option<u32>,
    name: &Name,
    actuals: &[Passed],
    breaks: &mut Least,
) -> Option<StaticType>
    requires { class ≡ class_named (see_site site.now).table name.now.text }
    ensures typed { result ≡ judged (see_site site.now) (see_role role) (NewTyped name.now (map see_passed actuals.now)) }
    ensures noted { breaks.new.found ≡ least breaks.old.found (typed_term_keys (see_site site.now) (see_role role) (NewTyped name.now (map see_passed actuals.now))) }
{
    match class {
        None => {
            breaks.note(2, name.at);
            None
        }
        Some(class) => judge_built(site, class, name.at, actuals, breaks),
    }
}
