//! Expressions without parts: what they are resolved to, their types, and what they break.
#![tactic(auto)]

ghost use Rattle.std.specs.Prelude.{◌<◌, ◌≤◌, IfOk, OnErr, length};
ghost use Rattle.chord_tree.specs.Terms.{VariableTerm, ThisTerm, NumberTerm, LiteralTerm, BoolTerm};
ghost use Rattle.chord_types.specs.Checked.{IsReceiver};
ghost use Rattle.chord_types.specs.Views.{see_role};
ghost use Rattle.chord_types.specs.Sites.{see_site};

use crate::names::{judge_literal, judge_number, judge_this, judge_variable, names_console, slot};
use crate::operand::{Operand, int_of, text_of};
use crate::site::{Role, Site};
use chord_base::static_type::StaticType;
use chord_bodies::expr as built;
use chord_classes::least::Least;
use chord_tree::names::Name;
use std::alloc::{AllocError, Global};

/// A variable, or the word `Console` before a dot.
pub(crate) fn variable(site: &Site, role: Role, name: &Name, breaks: &mut Least) -> Operand
    ensures { IsReceiver (see_site site.now) (see_role role) (VariableTerm name.now) breaks.old.found breaks.new.found result }
{
    let static_type = judge_variable(site, role, name, breaks);
    Operand {
        expr: built::Expr::Load(slot(site, name.text.items())),
        static_type,
        is_console: names_console(site, name),
    }
}

/// `this`
pub(crate) fn this(site: &Site, role: Role, at: u32, breaks: &mut Least) -> Operand
    ensures { IsReceiver (see_site site.now) (see_role role) (ThisTerm at) breaks.old.found breaks.new.found result }
{
    let static_type = judge_this(site, role, at, breaks);
    Operand {
        expr: built::Expr::This,
        static_type,
        is_console: false,
    }
}

/// A number, directly after `-` or not.
pub(crate) fn number(
    site: &Site,
    role: Role,
    value: u32,
    at: u32,
    minus: bool,
    breaks: &mut Least,
) -> Operand
    ensures { IsReceiver (see_site site.now) (see_role role) (NumberTerm value at minus) breaks.old.found breaks.new.found result }
{
    judge_number(value, at, minus, breaks);
    Operand {
        expr: built::Expr::Int(int_of(value)),
        static_type: Some(StaticType::Int),
        is_console: false,
    }
}

/// A text literal.
pub(crate) fn literal(
    alloc: Global,
    site: &Site,
    role: Role,
    bytes: &[u8],
    at: u32,
    breaks: &mut Least,
) -> Result<Operand, AllocError>
    ensures receiver { IfOk result (λ r. IsReceiver (see_site site.now) (see_role role) (LiteralTerm bytes.now at) breaks.old.found breaks.new.found r) }
    ensures lacks { OnErr result ((8 < length bytes.now) × (length bytes.now ≤ 1024)) }
{
    judge_literal(bytes, at, breaks);
    Ok(Operand {
        expr: text_of(alloc, bytes)?,
        static_type: Some(StaticType::Text),
        is_console: false,
    })
}

/// `true` or `false`
pub(crate) fn flag(site: &Site, role: Role, value: bool, at: u32, breaks: &Least) -> Operand
    ensures { IsReceiver (see_site site.now) (see_role role) (BoolTerm value at) breaks.now.found breaks.now.found result }
{
    Operand {
        expr: built::Expr::Flag(value),
        static_type: Some(StaticType::Bool),
        is_console: false,
    }
}
