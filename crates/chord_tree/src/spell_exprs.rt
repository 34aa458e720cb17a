//! The tokens that an expression spells.
#![tactic(auto)]

ghost use Rattle.std.specs.Prelude.{map, OnOk};
ghost use Rattle.chord_tree.specs.Program.{Adds};
ghost use Rattle.chord_tree.specs.ExprNodes.{bare, node_links, node_start, node_actuals, node_dot, node_dots, node_exprs};
ghost use Rattle.chord_tree.specs.Tree.{links, dots, exprs, MoreLinks, NoLinks};
ghost use Rattle.chord_tree.specs.ViewExprs.{see_expr, see_chain, see_calls, see_link, see_start, see_own_call, see_creation, see_actuals, see_dot};

use crate::exprs::{Actuals, Calls, Chain, Creation, Dot, Expr, Link, OwnCall, Start};
use crate::puts::{operator_mark, put, put_keyword, put_literal, put_mark, put_name};
use chord_lexer::token::{Keyword, Kind, Mark, Token};
use std::alloc::{AllocError, Global};

#[cycle(spell)]
pub fn put_expr(alloc: Global, out: &mut Vec<Token>, expr: &Expr) -> Result<(), AllocError>
    ensures { OnOk result (Adds out.old.items out.new.items (bare (see_expr expr.now))) }
{
    match expr {
        Expr::Chain(chain) => put_chain(alloc, out, chain),
        Expr::Minus { at: _, operand } => {
            put_mark(out, Mark::Minus)?;
            put_expr(alloc, out, operand)
        }
        Expr::Not { at: _, operand } => {
            put_mark(out, Mark::Not)?;
            put_expr(alloc, out, operand)
        }
        Expr::Start(start) => put_start(alloc, out, start),
        Expr::Calls(calls) => put_calls(alloc, out, calls),
    }
}

#[cycle(spell)]
fn put_chain(alloc: Global, out: &mut Vec<Token>, chain: &Chain) -> Result<(), AllocError>
    ensures { OnOk result (Adds out.old.items out.new.items (bare (see_chain chain.now))) }
{
    put_expr(alloc, out, &chain.first)?;
    put_link(alloc, out, &chain.link)?;
    put_links(alloc, out, &chain.more)
}

#[cycle(spell)]
fn put_calls(alloc: Global, out: &mut Vec<Token>, calls: &Calls) -> Result<(), AllocError>
    ensures { OnOk result (Adds out.old.items out.new.items (bare (see_calls calls.now))) }
{
    put_start(alloc, out, &calls.start)?;
    put_dot(alloc, out, &calls.first)?;
    put_dots(alloc, out, &calls.more)
}

#[cycle(spell)]
fn put_link(alloc: Global, out: &mut Vec<Token>, link: &Link) -> Result<(), AllocError>
    ensures { OnOk result (Adds out.old.items out.new.items (node_links 0 (MoreLinks (see_link link.now) NoLinks))) }
{
    put_mark(out, operator_mark(link.operator))?;
    put_expr(alloc, out, &link.operand)
}

#[cycle(spell)]
fn put_links(alloc: Global, out: &mut Vec<Token>, more: &[Link]) -> Result<(), AllocError>
    ensures { OnOk result (Adds out.old.items out.new.items (node_links 0 (links (map see_link more.now)))) }
{
    'each: for link in more {
        put_link(alloc, out, link)?;
    }
    Ok(())
}

#[cycle(spell)]
fn put_start(alloc: Global, out: &mut Vec<Token>, start: &Start) -> Result<(), AllocError>
    ensures { OnOk result (Adds out.old.items out.new.items (node_start (see_start start.now))) }
{
    match start {
        Start::Variable(name) => put_name(alloc, out, name),
        Start::Call(call) => put_own_call(alloc, out, call),
        Start::This { at: _ } => put_keyword(out, Keyword::This),
        Start::New(creation) => put_creation(alloc, out, creation),
        Start::Number { value, at: _ } => put(out, Kind::Number(*value)),
        Start::Literal { at: _, bytes } => put_literal(alloc, out, bytes),
        Start::True { at: _ } => put_keyword(out, Keyword::True),
        Start::False { at: _ } => put_keyword(out, Keyword::False),
        Start::Group { at: _, inner } => {
            put_mark(out, Mark::OpenParenthesis)?;
            put_expr(alloc, out, inner)?;
            put_mark(out, Mark::CloseParenthesis)
        }
        Start::ChainGroup { at: _, chain } => {
            put_mark(out, Mark::OpenParenthesis)?;
            put_chain(alloc, out, chain)?;
            put_mark(out, Mark::CloseParenthesis)
        }
    }
}

#[cycle(spell)]
fn put_own_call(alloc: Global, out: &mut Vec<Token>, call: &OwnCall) -> Result<(), AllocError>
    ensures { OnOk result (Adds out.old.items out.new.items (node_start (see_own_call call.now))) }
{
    put_name(alloc, out, &call.name)?;
    put_actuals(alloc, out, &call.actuals)
}

#[cycle(spell)]
fn put_creation(alloc: Global, out: &mut Vec<Token>, creation: &Creation) -> Result<(), AllocError>
    ensures { OnOk result (Adds out.old.items out.new.items (node_start (see_creation creation.now))) }
{
    put_keyword(out, Keyword::New)?;
    put_name(alloc, out, &creation.name)?;
    put_actuals(alloc, out, &creation.actuals)
}

#[cycle(spell)]
pub fn put_actuals(alloc: Global, out: &mut Vec<Token>, actuals: &Actuals) -> Result<(), AllocError>
    ensures { OnOk result (Adds out.old.items out.new.items (node_actuals (see_actuals actuals.now))) }
{
    put_mark(out, Mark::OpenParenthesis)?;
    put_exprs(alloc, out, &actuals.arguments)?;
    put_mark(out, Mark::CloseParenthesis)
}

#[cycle(spell)]
fn put_exprs(alloc: Global, out: &mut Vec<Token>, arguments: &[Expr]) -> Result<(), AllocError>
    ensures { OnOk result (Adds out.old.items out.new.items (node_exprs (exprs (map see_expr arguments.now)))) }
{
    let Some((first, more)) = arguments.split_first() else {
        return Ok(());
    };
    put_expr(alloc, out, first)?;
    'each: for expr in more {
        put_mark(out, Mark::Comma)?;
        put_expr(alloc, out, expr)?;
    }
    Ok(())
}

#[cycle(spell)]
pub fn put_dots(alloc: Global, out: &mut Vec<Token>, calls: &[Dot]) -> Result<(), AllocError>
    ensures { OnOk result (Adds out.old.items out.new.items (node_dots (dots (map see_dot calls.now)))) }
{
    'each: for dot in calls {
        put_dot(alloc, out, dot)?;
    }
    Ok(())
}

#[cycle(spell)]
pub fn put_dot(alloc: Global, out: &mut Vec<Token>, dot: &Dot) -> Result<(), AllocError>
    ensures { OnOk result (Adds out.old.items out.new.items (node_dot (see_dot dot.now))) }
{
    put_mark(out, Mark::Dot)?;
    put_name(alloc, out, &dot.name)?;
    put_actuals(alloc, out, &dot.actuals)
}
