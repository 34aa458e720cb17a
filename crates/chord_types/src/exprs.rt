//! Expressions: what they are resolved to, their types, and what they break.
#![tactic(auto)]

ghost use Rattle.std.specs.Prelude.{Bool, true, false, map, IfOk};
ghost use Rattle.chord_tree.specs.Tree.{exprs, dots, links};
ghost use Rattle.chord_tree.specs.Terms.{Term, term_after, term, started, terms, called, operated, GroupTerm, MinusTerm, NotTerm, OwnCallTerm, NewTerm};
ghost use Rattle.chord_tree.specs.Walk.{Used, Receiver};
ghost use Rattle.chord_tree.specs.ViewExprs.{see_expr, see_calls, see_start, see_own_call, see_creation, see_chain, see_link, see_dot};
ghost use Rattle.chord_types.specs.Checked.{IsChecked, AreChecked, IsReceiver, GoesOn, Operates, on_dot, on_link};
ghost use Rattle.chord_types.specs.Views.{see_role};
ghost use Rattle.chord_types.specs.Sites.{see_site};

use crate::calls::{judge_call, judge_new, judge_on, own_target, target_on};
use crate::leaves::{flag, literal, number, this, variable};
use crate::operand::{Arguments, Operand, call_of, with_link};
use crate::operators::{judge_minus, judge_not, judge_operation, resolved_operator};
use crate::site::{Passed, Role, Site};
use chord_bodies::expr as built;
use chord_classes::least::Least;
use chord_tree::exprs::{Actuals, Calls, Chain, Creation, Dot, Expr, Link, OwnCall, Start};
use chord_tree::names::Name;
use std::alloc::{AllocError, Global};

/// An expression, directly after `-` or not.
#[cycle(exprs)]
pub fn expr(
    alloc: Global,
    site: &Site,
    minus: bool,
    expr: &Expr,
    breaks: &mut Least,
) -> Result<Operand, AllocError>
    ensures { IfOk result (λ r. IsChecked (see_site site.now) Used (term_after (see_expr expr.now) minus) breaks.old.found breaks.new.found r) }
{
    match expr {
        Expr::Chain(chain) => joined(alloc, site, chain, breaks),
        Expr::Minus { at, operand } => minus_of(alloc, site, *at, operand, breaks),
        Expr::Not { at, operand } => not_of(alloc, site, *at, operand, breaks),
        Expr::Start(begin) => start(alloc, site, Role::Used, minus, begin, breaks),
        Expr::Calls(calls) => with_calls(alloc, site, minus, calls, breaks),
    }
}

/// `-` and its operand.
#[cycle(exprs)]
fn minus_of(
    alloc: Global,
    site: &Site,
    at: u32,
    operand: &Expr,
    breaks: &mut Least,
) -> Result<Operand, AllocError>
    ensures { IfOk result (λ r. IsChecked (see_site site.now) Used (MinusTerm at (term_after (see_expr operand.now) true)) breaks.old.found breaks.new.found r) }
{
    let operand = expr(alloc, site, true, operand, breaks)?;
    let static_type = judge_minus(at, operand.static_type, breaks);
    Ok(Operand {
        expr: built::Expr::Negate(Box::new(alloc, operand.expr)?),
        static_type,
        is_console: false,
    })
}

/// `!` and its operand.
#[cycle(exprs)]
fn not_of(
    alloc: Global,
    site: &Site,
    at: u32,
    operand: &Expr,
    breaks: &mut Least,
) -> Result<Operand, AllocError>
    ensures { IfOk result (λ r. IsChecked (see_site site.now) Used (NotTerm at (term (see_expr operand.now))) breaks.old.found breaks.new.found r) }
{
    let operand = expr(alloc, site, false, operand, breaks)?;
    let static_type = judge_not(at, operand.static_type, breaks);
    Ok(Operand {
        expr: built::Expr::Deny(Box::new(alloc, operand.expr)?),
        static_type,
        is_console: false,
    })
}

/// Operands joined by operators.
#[cycle(exprs)]
fn joined(
    alloc: Global,
    site: &Site,
    chain: &Chain,
    breaks: &mut Least,
) -> Result<Operand, AllocError>
    ensures { IfOk result (λ r. (minus : Bool) → IsChecked (see_site site.now) Used (term_after (see_chain chain.now) minus) breaks.old.found breaks.new.found r) }
{
    let first = expr(alloc, site, false, &chain.first, breaks)?;
    let left = link_on(alloc, site, first, &chain.link, breaks)?;
    links_on(alloc, site, left, &chain.more, breaks)
}

/// Operators with their right operands, one after another.
#[cycle(exprs)]
fn links_on(
    alloc: Global,
    site: &Site,
    first: Operand,
    more: &[Link],
    breaks: &mut Least,
) -> Result<Operand, AllocError>
    ensures { IfOk result (λ r. Operates (see_site site.now) (λ (left : Term). operated (links (map see_link more.now)) left) breaks.old.found breaks.new.found first r) }
{
    let mut left = first;
    'each: for link in more {
        left = link_on(alloc, site, left, link, breaks)?;
    }
    Ok(left)
}

/// An operator with its right operand.
#[cycle(exprs)]
fn link_on(
    alloc: Global,
    site: &Site,
    left: Operand,
    link: &Link,
    breaks: &mut Least,
) -> Result<Operand, AllocError>
    ensures { IfOk result (λ r. Operates (see_site site.now) (λ (before : Term). on_link before (see_link link.now)) breaks.old.found breaks.new.found left r) }
{
    let right = expr(alloc, site, false, &link.operand, breaks)?;
    let (from, to) = (left.static_type, right.static_type);
    let static_type = judge_operation(site.table, link.operator, link.at, from, to, breaks);
    let link = built::Link {
        operator: resolved_operator(link.operator, from, to),
        operand: right.expr,
    };
    Ok(Operand {
        expr: with_link(alloc, left.expr, link)?,
        static_type,
        is_console: false,
    })
}

/// A start and the calls on it.
#[cycle(exprs)]
fn with_calls(
    alloc: Global,
    site: &Site,
    minus: bool,
    calls: &Calls,
    breaks: &mut Least,
) -> Result<Operand, AllocError>
    ensures { IfOk result (λ r. IsChecked (see_site site.now) Used (term_after (see_calls calls.now) minus) breaks.old.found breaks.new.found r) }
{
    let receiver = start(alloc, site, Role::Receiver, minus, &calls.start, breaks)?;
    match calls.more.split_last() {
        None => call_on(alloc, site, Role::Used, receiver, &calls.first, breaks),
        Some((last, front)) => {
            let receiver = call_on(alloc, site, Role::Receiver, receiver, &calls.first, breaks)?;
            let receiver = calls_on(alloc, site, receiver, front, breaks)?;
            call_on(alloc, site, Role::Used, receiver, last, breaks)
        }
    }
}

/// What an expression without operators begins with.
#[cycle(exprs)]
fn start(
    alloc: Global,
    site: &Site,
    role: Role,
    minus: bool,
    start: &Start,
    breaks: &mut Least,
) -> Result<Operand, AllocError>
    ensures { IfOk result (λ r. IsReceiver (see_site site.now) (see_role role) (started (see_start start.now) minus) breaks.old.found breaks.new.found r) }
{
    match start {
        Start::Variable(name) => Ok(variable(site, role, name, breaks)),
        Start::This { at } => Ok(this(site, role, *at, breaks)),
        Start::Call(call) => start_call(alloc, site, role, call, breaks),
        Start::New(creation) => start_new(alloc, site, role, creation, breaks),
        Start::Number { value, at } => Ok(number(site, role, *value, *at, minus, breaks)),
        Start::Literal { at, bytes } => literal(alloc, site, role, bytes.items(), *at, breaks),
        Start::True { at } => Ok(flag(site, role, true, *at, breaks)),
        Start::False { at } => Ok(flag(site, role, false, *at, breaks)),
        Start::Group { at, inner } => group(alloc, site, role, *at, inner, breaks),
        Start::ChainGroup { at, chain } => chain_group(alloc, site, role, *at, chain, breaks),
    }
}

/// A chain in brackets.
#[cycle(exprs)]
fn chain_group(
    alloc: Global,
    site: &Site,
    role: Role,
    at: u32,
    chain: &Chain,
    breaks: &mut Least,
) -> Result<Operand, AllocError>
    ensures { IfOk result (λ r. IsReceiver (see_site site.now) (see_role role) (GroupTerm at (term (see_chain chain.now))) breaks.old.found breaks.new.found r) }
{
    let inner = joined(alloc, site, chain, breaks)?;
    Ok(Operand {
        expr: inner.expr,
        static_type: inner.static_type,
        is_console: false,
    })
}

/// Another expression in brackets.
#[cycle(exprs)]
fn group(
    alloc: Global,
    site: &Site,
    role: Role,
    at: u32,
    inner: &Expr,
    breaks: &mut Least,
) -> Result<Operand, AllocError>
    ensures { IfOk result (λ r. IsReceiver (see_site site.now) (see_role role) (GroupTerm at (term (see_expr inner.now))) breaks.old.found breaks.new.found r) }
{
    let inner = expr(alloc, site, false, inner, breaks)?;
    Ok(Operand {
        expr: inner.expr,
        static_type: inner.static_type,
        is_console: false,
    })
}

/// A call without receiver, as it stands in an expression.
#[cycle(exprs)]
fn start_call(
    alloc: Global,
    site: &Site,
    role: Role,
    call: &OwnCall,
    breaks: &mut Least,
) -> Result<Operand, AllocError>
    ensures { IfOk result (λ r. IsReceiver (see_site site.now) (see_role role) (started (see_own_call call.now) false) breaks.old.found breaks.new.found r) }
{
    own_call(alloc, site, role, &call.name, &call.actuals, breaks)
}

/// `new` and a class, as they stand in an expression.
#[cycle(exprs)]
fn start_new(
    alloc: Global,
    site: &Site,
    role: Role,
    creation: &Creation,
    breaks: &mut Least,
) -> Result<Operand, AllocError>
    ensures { IfOk result (λ r. IsReceiver (see_site site.now) (see_role role) (started (see_creation creation.now) false) breaks.old.found breaks.new.found r) }
{
    new_object(
        alloc,
        site,
        role,
        creation.at,
        &creation.name,
        &creation.actuals,
        breaks,
    )
}

/// A call without receiver.
#[cycle(exprs)]
pub(crate) fn own_call(
    alloc: Global,
    site: &Site,
    role: Role,
    name: &Name,
    actuals: &Actuals,
    breaks: &mut Least,
) -> Result<Operand, AllocError>
    ensures { IfOk result (λ r. IsReceiver (see_site site.now) (see_role role) (OwnCallTerm name.now actuals.now.at (terms (exprs (map see_expr actuals.now.arguments.items)))) breaks.old.found breaks.new.found r) }
{
    let Arguments { exprs, passed } = arguments(alloc, site, &actuals.arguments, breaks)?;
    let target = own_target(site, name.text.items());
    let static_type = judge_call(site, role, target, name.at, &passed, breaks);
    Ok(Operand {
        expr: call_of(alloc, site.table, target, built::Expr::This, exprs)?,
        static_type,
        is_console: false,
    })
}

/// `new` and a class.
#[cycle(exprs)]
pub(crate) fn new_object(
    alloc: Global,
    site: &Site,
    role: Role,
    at: u32,
    name: &Name,
    actuals: &Actuals,
    breaks: &mut Least,
) -> Result<Operand, AllocError>
    ensures { IfOk result (λ r. IsReceiver (see_site site.now) (see_role role) (NewTerm at name.now actuals.now.at (terms (exprs (map see_expr actuals.now.arguments.items)))) breaks.old.found breaks.new.found r) }
{
    let Arguments { exprs, passed } = arguments(alloc, site, &actuals.arguments, breaks)?;
    let class = site.table.class_named(name.text.items());
    let static_type = judge_new(site, role, class, name, &passed, breaks);
    Ok(Operand {
        expr: built::Expr::New {
            class: class.unwrap_or(0),
            arguments: exprs,
        },
        static_type,
        is_console: false,
    })
}

/// Calls on receivers, one after another.
#[cycle(exprs)]
pub(crate) fn calls_on(
    alloc: Global,
    site: &Site,
    first: Operand,
    calls: &[Dot],
    breaks: &mut Least,
) -> Result<Operand, AllocError>
    ensures { IfOk result (λ r. GoesOn (see_site site.now) Receiver (called (dots (map see_dot calls.now))) breaks.old.found breaks.new.found first r) }
{
    let mut receiver = first;
    'each: for dot in calls {
        receiver = call_on(alloc, site, Role::Receiver, receiver, dot, breaks)?;
    }
    Ok(receiver)
}

/// A call on a receiver.
#[cycle(exprs)]
pub(crate) fn call_on(
    alloc: Global,
    site: &Site,
    role: Role,
    receiver: Operand,
    dot: &Dot,
    breaks: &mut Least,
) -> Result<Operand, AllocError>
    ensures { IfOk result (λ r. GoesOn (see_site site.now) (see_role role) (λ (term : Term). on_dot term (see_dot dot.now)) breaks.old.found breaks.new.found receiver r) }
{
    let Arguments { exprs, passed } = arguments(alloc, site, &dot.actuals.arguments, breaks)?;
    let target = target_on(site, receiver.static_type, dot.name.text.items());
    let static_type = judge_on(
        site,
        role,
        receiver.is_console,
        receiver.static_type,
        target,
        dot.at,
        &dot.name,
        &passed,
        breaks,
    );
    Ok(Operand {
        expr: call_of(alloc, site.table, target, receiver.expr, exprs)?,
        static_type,
        is_console: false,
    })
}

/// Arguments.
#[cycle(exprs)]
pub(crate) fn arguments(
    alloc: Global,
    site: &Site,
    actuals: &[Expr],
    breaks: &mut Least,
) -> Result<Arguments, AllocError>
    ensures { IfOk result (λ r. AreChecked (see_site site.now) (terms (exprs (map see_expr actuals.now))) breaks.old.found breaks.new.found r) }
{
    let mut exprs = Vec::new(alloc);
    let mut passed = Vec::new(alloc);
    'each: for actual in actuals {
        let argument = expr(alloc, site, false, actual, breaks)?;
        exprs.push(argument.expr)?;
        passed.push(Passed {
            first: actual.first_token(),
            static_type: argument.static_type,
        })?;
    }
    Ok(Arguments { exprs, passed })
}
