//! Statements in which no statement stands, and conditions: what they are resolved to, and what they break.
#![tactic(auto)]

ghost use Rattle.std.specs.Prelude.{◌≡◌, true, IfOk, map, is_some};
ghost use Rattle.chord_tree.specs.Tree.{AssignStmt, CallStmt, MethodCallStmt, ThisCallStmt, NewStmt, ReturnStmt, ReturnValueStmt, LocalItem, StmtItem, exprs, dots};
ghost use Rattle.chord_tree.specs.Terms.{Term, OwnCallTerm, called, terms};
ghost use Rattle.chord_tree.specs.ViewExprs.{see_expr, see_actuals, see_dot};
ghost use Rattle.chord_tree.specs.ViewStmts.{see_stmt};
ghost use Rattle.chord_classes.specs.Site.{variable_named};
ghost use Rattle.chord_classes.specs.Typed.{local_type};
ghost use Rattle.chord_classes.specs.TypeRules.{is_bool, when_typed};
ghost use Rattle.chord_classes.specs.ItemRules.{undeclared_type};
ghost use Rattle.chord_classes.specs.Least.{keys, least};
ghost use Rattle.chord_types.specs.Checked.{IsAlone, EndsAlone, on_dot};
ghost use Rattle.chord_types.specs.Sites.{see_site};
ghost use Rattle.chord_types.specs.StmtChecked.{is_plain_stmt, IsPlainStmt, IsCondition, IsItemChecked};

use crate::arguments::fit;
use crate::calls::{judge_call, judge_on, own_target, target_on};
use crate::exprs::{arguments, call_on, calls_on, expr, new_object, own_call};
use crate::leaves::{this, variable};
use crate::names::slot;
use crate::operand::{Arguments, Operand, done, ended};
use crate::site::{Role, Site};
use chord_base::static_type::StaticType;
use chord_bodies::expr::Expr as BuiltExpr;
use chord_bodies::stmt as built;
use chord_classes::least::Least;
use chord_classes::table::Table;
use chord_tree::exprs::{Actuals, Dot, Expr};
use chord_tree::names::{Name, ValueType};
use chord_tree::stmts::Stmt;
use std::alloc::{AllocError, Global};

/// Notes a type name that is not declared.
pub(crate) fn note_undeclared(table: &Table, written: &ValueType, breaks: &mut Least)
    ensures { breaks.new.found ≡ least breaks.old.found (keys 2 (undeclared_type table.now written.now)) }
{
    if let ValueType::Class(name) = written {
        breaks.note_if(2, table.class_named(name.text.items()).is_none(), name.at);
    }
}

/// The type of a variable, if it is there and has one.
fn variable_type(site: &Site, name: &[u8]) -> Option<StaticType>
    ensures { result ≡ local_type (variable_named (see_site site.now).scope name.now) }
{
    match site.scope.variable(name) {
        Some(local) => local.static_type,
        None => None,
    }
}

/// Whether a variable of that name is in scope.
fn is_declared(site: &Site, name: &[u8]) -> bool
    ensures { result ≡ is_some (variable_named (see_site site.now).scope name.now) }
{
    site.scope.variable(name).is_some()
}

/// A variable gets a value.
pub(crate) fn assign(
    alloc: Global,
    site: &Site,
    name: &Name,
    at: u32,
    value: &Expr,
    breaks: &mut Least,
) -> Result<built::Stmt, AllocError>
    ensures { IfOk result (λ r. IsPlainStmt (see_site site.now) (AssignStmt name.now at (see_expr value.now)) breaks.old.found breaks.new.found r) }
{
    let value = expr(alloc, site, false, value, breaks)?;
    let text = name.text.items();
    breaks.note_if(14, !is_declared(site, text), name.at);
    fit(
        site.table,
        variable_type(site, text),
        value.static_type,
        at,
        breaks,
    );
    Ok(built::Stmt::Store(slot(site, text), value.expr))
}

/// `return` without a value.
pub(crate) fn return_nothing(site: &Site, at: u32, breaks: &mut Least) -> built::Stmt
    ensures { IsPlainStmt (see_site site.now) (ReturnStmt at) breaks.old.found breaks.new.found result }
{
    breaks.note_if(18, site.gives(), at);
    built::Stmt::Return
}

/// `return` with a value.
pub(crate) fn return_value(
    alloc: Global,
    site: &Site,
    at: u32,
    value: &Expr,
    breaks: &mut Least,
) -> Result<built::Stmt, AllocError>
    ensures { IfOk result (λ r. IsPlainStmt (see_site site.now) (ReturnValueStmt at (see_expr value.now)) breaks.old.found breaks.new.found r) }
{
    let value = expr(alloc, site, false, value, breaks)?;
    fit(site.table, site.due_type(), value.static_type, at, breaks);
    breaks.note_if(18, !site.gives(), at);
    Ok(built::Stmt::Give(value.expr))
}

/// A call without receiver, which is the whole statement.
fn own_call_alone(
    alloc: Global,
    site: &Site,
    name: &Name,
    actuals: &Actuals,
    breaks: &mut Least,
) -> Result<built::Stmt, AllocError>
    ensures { IfOk result (λ r. IsAlone (see_site site.now) (OwnCallTerm name.now actuals.now.at (terms (exprs (map see_expr actuals.now.arguments.items)))) breaks.old.found breaks.new.found r) }
{
    let Arguments { exprs, passed } = arguments(alloc, site, &actuals.arguments, breaks)?;
    let target = own_target(site, name.text.items());
    judge_call(site, Role::Alone, target, name.at, &passed, breaks);
    done(alloc, site.table, target, BuiltExpr::This, exprs)
}

/// A call on a receiver that ends a statement.
fn call_alone(
    alloc: Global,
    site: &Site,
    receiver: Operand,
    dot: &Dot,
    breaks: &mut Least,
) -> Result<built::Stmt, AllocError>
    ensures { IfOk result (λ r. EndsAlone (see_site site.now) (λ (term : Term). on_dot term (see_dot dot.now)) breaks.old.found breaks.new.found receiver r) }
{
    let Arguments { exprs, passed } = arguments(alloc, site, &dot.actuals.arguments, breaks)?;
    let target = target_on(site, receiver.static_type, dot.name.text.items());
    judge_on(
        site,
        Role::Alone,
        receiver.is_console,
        receiver.static_type,
        target,
        dot.at,
        &dot.name,
        &passed,
        breaks,
    );
    let is_console = receiver.is_console;
    ended(alloc, site.table, is_console, target, receiver.expr, exprs)
}

/// Calls on a receiver, the last of which ends a statement.
fn calls_alone(
    alloc: Global,
    site: &Site,
    receiver: Operand,
    front: &[Dot],
    last: &Dot,
    breaks: &mut Least,
) -> Result<built::Stmt, AllocError>
    ensures { IfOk result (λ r. EndsAlone (see_site site.now) (λ (term : Term). on_dot (called (dots (map see_dot front.now)) term) (see_dot last.now)) breaks.old.found breaks.new.found receiver r) }
{
    let receiver = calls_on(alloc, site, receiver, front, breaks)?;
    call_alone(alloc, site, receiver, last, breaks)
}

/// A call on a receiver and the calls on what it gives, which are a statement.
fn first_then(
    alloc: Global,
    site: &Site,
    receiver: Operand,
    first: &Dot,
    calls: &[Dot],
    breaks: &mut Least,
) -> Result<built::Stmt, AllocError>
    ensures { IfOk result (λ r. EndsAlone (see_site site.now) (λ (term : Term). called (dots (map see_dot calls.now)) (on_dot term (see_dot first.now))) breaks.old.found breaks.new.found receiver r) }
{
    match calls.split_last() {
        None => call_alone(alloc, site, receiver, first, breaks),
        Some((last, front)) => {
            let receiver = call_on(alloc, site, Role::Receiver, receiver, first, breaks)?;
            calls_alone(alloc, site, receiver, front, last, breaks)
        }
    }
}

/// A call without receiver, and the calls on what it gives.
pub(crate) fn call(
    alloc: Global,
    site: &Site,
    name: &Name,
    actuals: &Actuals,
    calls: &[Dot],
    breaks: &mut Least,
) -> Result<built::Stmt, AllocError>
    ensures { IfOk result (λ r. IsPlainStmt (see_site site.now) (CallStmt name.now (see_actuals actuals.now) (dots (map see_dot calls.now))) breaks.old.found breaks.new.found r) }
{
    match calls.split_last() {
        None => own_call_alone(alloc, site, name, actuals, breaks),
        Some((last, front)) => {
            let receiver = own_call(alloc, site, Role::Receiver, name, actuals, breaks)?;
            calls_alone(alloc, site, receiver, front, last, breaks)
        }
    }
}

/// Calls on a variable, or on the word `Console`.
pub(crate) fn method_call(
    alloc: Global,
    site: &Site,
    name: &Name,
    first: &Dot,
    calls: &[Dot],
    breaks: &mut Least,
) -> Result<built::Stmt, AllocError>
    ensures { IfOk result (λ r. IsPlainStmt (see_site site.now) (MethodCallStmt name.now (see_dot first.now) (dots (map see_dot calls.now))) breaks.old.found breaks.new.found r) }
{
    let receiver = variable(site, Role::Receiver, name, breaks);
    first_then(alloc, site, receiver, first, calls, breaks)
}

/// Calls on `this`.
pub(crate) fn this_call(
    alloc: Global,
    site: &Site,
    at: u32,
    first: &Dot,
    calls: &[Dot],
    breaks: &mut Least,
) -> Result<built::Stmt, AllocError>
    ensures { IfOk result (λ r. IsPlainStmt (see_site site.now) (ThisCallStmt at (see_dot first.now) (dots (map see_dot calls.now))) breaks.old.found breaks.new.found r) }
{
    let receiver = this(site, Role::Receiver, at, breaks);
    first_then(alloc, site, receiver, first, calls, breaks)
}

/// `new` and a class, and the calls on the object.
pub(crate) fn new_alone(
    alloc: Global,
    site: &Site,
    at: u32,
    name: &Name,
    actuals: &Actuals,
    calls: &[Dot],
    breaks: &mut Least,
) -> Result<built::Stmt, AllocError>
    ensures { IfOk result (λ r. IsPlainStmt (see_site site.now) (NewStmt at name.now (see_actuals actuals.now) (dots (map see_dot calls.now))) breaks.old.found breaks.new.found r) }
{
    match calls.split_last() {
        None => {
            let object = new_object(alloc, site, Role::Alone, at, name, actuals, breaks)?;
            Ok(built::Stmt::Do(object.expr))
        }
        Some((last, front)) => {
            let receiver = new_object(alloc, site, Role::Receiver, at, name, actuals, breaks)?;
            calls_alone(alloc, site, receiver, front, last, breaks)
        }
    }
}

/// A statement in which no statement stands.
pub(crate) fn plain_stmt(
    alloc: Global,
    site: &Site,
    stmt: &Stmt,
    breaks: &mut Least,
) -> Result<built::Stmt, AllocError>
    requires plain { is_plain_stmt (see_stmt stmt.now) ≡ true }
    ensures { IfOk result (λ r. IsItemChecked site.now site.now (StmtItem (see_stmt stmt.now)) breaks.old.found breaks.new.found r) }
{
    match stmt {
        Stmt::Assign {
            name,
            assign: at,
            value,
        } => assign(alloc, site, name, *at, value, breaks),
        Stmt::Call {
            name,
            actuals,
            calls,
        } => call(alloc, site, name, actuals, calls, breaks),
        Stmt::MethodCall { name, first, calls } => {
            method_call(alloc, site, name, first, calls, breaks)
        }
        Stmt::ThisCall { at, first, calls } => this_call(alloc, site, *at, first, calls, breaks),
        Stmt::New {
            at,
            name,
            actuals,
            calls,
        } => new_alone(alloc, site, *at, name, actuals, calls, breaks),
        Stmt::Empty => Ok(built::Stmt::Block(Vec::new(alloc))),
        Stmt::Return { at } => Ok(return_nothing(site, *at, breaks)),
        Stmt::ReturnValue { at, value } => return_value(alloc, site, *at, value, breaks),
        Stmt::Block(_) | Stmt::If { .. } | Stmt::IfElse { .. } | Stmt::While { .. } => {
            unreachable!()
        }
    }
}

/// Notes a condition that is no bool.
fn note_condition(static_type: Option<StaticType>, at: u32, breaks: &mut Least)
    ensures { breaks.new.found ≡ least breaks.old.found (keys 15 (when_typed is_bool static_type at)) }
{
    match static_type {
        None | Some(StaticType::Bool) => {}
        Some(_) => breaks.note(15, at),
    }
}

/// The condition of `if` or `while`.
pub(crate) fn condition(
    alloc: Global,
    site: &Site,
    at: u32,
    test: &Expr,
    breaks: &mut Least,
) -> Result<BuiltExpr, AllocError>
    ensures { IfOk result (λ r. IsCondition (see_site site.now) at (see_expr test.now) breaks.old.found breaks.new.found r) }
{
    let test = expr(alloc, site, false, test, breaks)?;
    note_condition(test.static_type, at, breaks);
    Ok(test.expr)
}

/// A local with its value.
pub(crate) fn local<'t, 'a>(
    alloc: Global,
    site: &mut Site<'t, 'a>,
    written: &'a ValueType,
    name: &'a Name,
    at: u32,
    value: &Expr,
    breaks: &mut Least,
) -> Result<built::Stmt, AllocError>
    ensures { IfOk result (λ r. IsItemChecked site.old site.new (LocalItem written.now name.now at (see_expr value.now)) breaks.old.found breaks.new.found r) }
{
    let value = expr(alloc, site, false, value, breaks)?;
    note_undeclared(site.table, written, breaks);
    let wanted = site.table.written(written);
    fit(site.table, wanted, value.static_type, at, breaks);
    breaks.note_if(20, is_declared(site, name.text.items()), name.at);
    let slot = site.declare(written, name)?;
    Ok(built::Stmt::Store(slot, value.expr))
}
