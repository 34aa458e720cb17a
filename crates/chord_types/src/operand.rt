//! Resolved expressions with their types, to which operators and calls are added.
#![tactic(auto)]

ghost use Rattle.std.specs.Prelude.{◌≡◌, ◌<◌, ◌≤◌, ◌+◌, [], ◌∷◌, length, map, sum_by, cond, true, Some, is_some, IfOk, IsOk, OnErr, option_map};
ghost use Rattle.chord_bodies.specs.Resolved as to;
ghost use Rattle.chord_bodies.specs.View.{view_expr, view_stmt, view_call, view_link, calls_on, links_on, expr_list};
ghost use Rattle.chord_classes.specs.Types.{type_known, is_sync, result_known};
ghost use Rattle.chord_classes.specs.Resolve.{int_of_number, call_of, done, printed};
ghost use Rattle.chord_classes.specs.TypedTerms as terms;
ghost use Rattle.chord_types.specs.Views.{see_target};
ghost use Rattle.chord_types.specs.Flat.{doubled, doubled_link, doubled_call, doubled_stmt};

use crate::site::{Passed, Target};
use chord_base::static_type::StaticType;
use chord_base::text::{Text, TextFault};
use chord_bodies::expr::{Call, Expr, Link};
use chord_bodies::stmt::Stmt;
use chord_classes::table::Table;
use chord_tree::classes::ReturnType;
use chord_tree::names::ValueType;
use std::alloc::{AllocError, Global};

/// A resolved expression, its type if nothing in it is broken, and whether it is the word `Console`, on which a call prints.
#[derive(Drop)]
pub struct Operand {
    pub expr: Expr,
    pub static_type: Option<StaticType>,
    pub is_console: bool,
}

/// Resolved arguments, and what a call looks at of them.
#[derive(Drop)]
pub struct Arguments {
    pub exprs: Vec<Expr>,
    pub passed: Vec<Passed>,
}

/// The int that a number is; where it does not fit, the least one.
pub(crate) fn int_of(value: u32) -> i32
    ensures { result ≡ int_of_number value }
{
    if value < 2147483648 {
        value as i32
    } else {
        i32::MIN
    }
}

/// The text of a literal, if it is not too long.
pub(crate) fn text_of(alloc: Global, bytes: &[u8]) -> Result<Expr, AllocError>
    ensures built { IfOk result (λ e. length bytes.now ≤ 1024 → view_expr e ≡ to.TextOf bytes.now) }
    ensures flat { IfOk result (λ e. doubled e ≡ 0) }
    ensures lacks { OnErr result ((8 < length bytes.now) × (length bytes.now ≤ 1024)) }
{
    match Text::of_bytes(alloc, bytes) {
        Ok(text) => Ok(Expr::Text(text)),
        Err(TextFault::TooLong) => Ok(Expr::This),
        Err(TextFault::Memory) => Err(AllocError),
    }
}

/// The static type that is written; where its class is not declared, `int`.
pub(crate) fn type_known(table: &Table, written: &ValueType) -> StaticType
    ensures { result ≡ type_known table.now written.now }
{
    match table.written(written) {
        Some(static_type) => static_type,
        None => StaticType::Int,
    }
}

/// The static type of a result.
fn result_known(table: &Table, result_type: &ReturnType) -> Option<StaticType>
    ensures { result ≡ result_known table.now result_type.now }
{
    match result_type {
        ReturnType::Value(written) => Some(type_known(table, written)),
        _ => None,
    }
}

/// Whether the callers of a method wait.
fn is_sync(result_type: &ReturnType) -> bool
    ensures { result ≡ is_sync result_type.now }
{
    match result_type {
        ReturnType::Async { at: _ } => false,
        _ => true,
    }
}

/// An expression with one more call on it.
fn with_call(alloc: Global, receiver: Expr, call: Call) -> Result<Expr, AllocError>
    ensures built { IfOk result (λ e. view_expr e ≡ calls_on (view_expr receiver) (view_call call ∷ [])) }
    ensures flat { IfOk result (λ e. doubled e ≤ doubled receiver + doubled_call call) }
{
    match receiver {
        Expr::Calls {
            first,
            call: begin,
            mut more,
        } => {
            more.push(call)?;
            Ok(Expr::Calls {
                first,
                call: begin,
                more,
            })
        }
        other => Ok(Expr::Calls {
            first: Box::new(alloc, other)?,
            call: Box::new(alloc, call)?,
            more: Vec::new(alloc),
        }),
    }
}

/// An expression with one more operator on it.
pub(crate) fn with_link(alloc: Global, left: Expr, link: Link) -> Result<Expr, AllocError>
    ensures built { IfOk result (λ e. view_expr e ≡ links_on (view_expr left) (view_link link ∷ [])) }
    ensures flat { IfOk result (λ e. doubled e ≤ doubled left + doubled_link link) }
{
    match left {
        Expr::Chain {
            first,
            link: begin,
            mut more,
        } => {
            more.push(link)?;
            Ok(Expr::Chain {
                first,
                link: begin,
                more,
            })
        }
        other => Ok(Expr::Chain {
            first: Box::new(alloc, other)?,
            link: Box::new(alloc, link)?,
            more: Vec::new(alloc),
        }),
    }
}

/// A call of what is named, on this receiver.
pub(crate) fn call_of(
    alloc: Global,
    table: &Table,
    target: Option<Target>,
    receiver: Expr,
    arguments: Vec<Expr>,
) -> Result<Expr, AllocError>
    ensures built { IfOk result (λ e. view_expr e ≡ call_of table.now (option_map see_target target.entry) (view_expr receiver) (expr_list (map view_expr arguments.items))) }
    ensures flat { IfOk result (λ e. doubled e ≤ doubled receiver + sum_by doubled arguments.items) }
    ensures lacks { OnErr result (is_some (option_map see_target target.entry) ≡ true) }
{
    match target {
        Some(target) => {
            let call = Call {
                class: target.class,
                method: target.found.number,
                result: result_known(table, &target.found.method.header.result_type),
                arguments,
            };
            with_call(alloc, receiver, call)
        }
        None => Ok(receiver),
    }
}

/// A call as a statement: one of an asynchronous method sends.
pub(crate) fn done(
    alloc: Global,
    table: &Table,
    target: Option<Target>,
    receiver: Expr,
    arguments: Vec<Expr>,
) -> Result<Stmt, AllocError>
    ensures built { IfOk result (λ s. view_stmt s ≡ done table.now (option_map see_target target.entry) (view_expr receiver) (expr_list (map view_expr arguments.items))) }
    ensures flat { IfOk result (λ s. doubled_stmt s ≤ doubled receiver + sum_by doubled arguments.items) }
    ensures lacks { OnErr result (option_map (λ (t : terms.Target). is_sync t.method.result_type) (option_map see_target target.entry) ≡ Some true) }
{
    match target {
        None => Ok(Stmt::Do(receiver)),
        Some(target) => {
            if is_sync(&target.found.method.header.result_type) {
                let call = call_of(alloc, table, Some(target), receiver, arguments)?;
                return Ok(Stmt::Do(call));
            }
            Ok(Stmt::Send {
                receiver,
                class: target.class,
                method: target.found.number,
                arguments,
            })
        }
    }
}

/// What is printed: without an argument the empty text.
pub(crate) fn printed(alloc: Global, arguments: Vec<Expr>) -> Result<Expr, AllocError>
    ensures built { IfOk result (λ e. view_expr e ≡ printed (expr_list (map view_expr arguments.items))) }
    ensures flat { IfOk result (λ e. doubled e ≤ sum_by doubled arguments.items) }
    ensures always { IsOk result }
{
    let mut arguments = arguments;
    if arguments.is_empty() {
        text_of(alloc, b"")
    } else {
        Ok(arguments.swap_remove(0))
    }
}

/// The statement that a call on a receiver ends: a call on `Console` prints.
pub(crate) fn ended(
    alloc: Global,
    table: &Table,
    is_console: bool,
    target: Option<Target>,
    receiver: Expr,
    arguments: Vec<Expr>,
) -> Result<Stmt, AllocError>
    ensures built { IfOk result (λ s. view_stmt s ≡ cond is_console (to.Print (printed (expr_list (map view_expr arguments.items)))) (done table.now (option_map see_target target.entry) (view_expr receiver) (expr_list (map view_expr arguments.items)))) }
    ensures flat { IfOk result (λ s. doubled_stmt s ≤ doubled receiver + sum_by doubled arguments.items) }
{
    if !is_console {
        return done(alloc, table, target, receiver, arguments);
    }
    Ok(Stmt::Print(printed(alloc, arguments)?))
}
