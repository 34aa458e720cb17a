//! The tokens that a statement spells.
#![tactic(auto)]

ghost use Rattle.std.specs.Prelude.{map, OnOk};
ghost use Rattle.chord_tree.specs.StmtNodes.{node_block, node_items, node_stmt, node_item, node_local};
ghost use Rattle.chord_tree.specs.ClassNodes.{node_type};
ghost use Rattle.chord_tree.specs.Program.{Adds, node_test};
ghost use Rattle.chord_tree.specs.Tree.{dots, items, AssignStmt, CallStmt, MethodCallStmt, ThisCallStmt, NewStmt, IfStmt, IfElseStmt, WhileStmt, ReturnStmt, ReturnValueStmt};
ghost use Rattle.chord_tree.specs.ViewExprs.{see_expr, see_actuals, see_dot};
ghost use Rattle.chord_tree.specs.ViewStmts.{see_block, see_item, see_stmt};

use crate::exprs::{Actuals, Dot, Expr};
use crate::names::{Name, ValueType};
use crate::puts::{put_basic, put_keyword, put_mark, put_name};
use crate::spell_exprs::{put_actuals, put_dot, put_dots, put_expr};
use crate::stmts::{Block, Item, Stmt};
use chord_lexer::token::{Keyword, Mark, Token};
use std::alloc::{AllocError, Global};

pub fn put_type(
    alloc: Global,
    out: &mut Vec<Token>,
    value_type: &ValueType,
) -> Result<(), AllocError>
    ensures { OnOk result (Adds out.old.items out.new.items (node_type value_type.now)) }
{
    match value_type {
        ValueType::Basic { basic, at: _ } => put_basic(out, *basic),
        ValueType::Class(class) => put_name(alloc, out, class),
    }
}

fn put_local(
    alloc: Global,
    out: &mut Vec<Token>,
    value_type: &ValueType,
    name: &Name,
    value: &Expr,
) -> Result<(), AllocError>
    ensures { OnOk result (Adds out.old.items out.new.items (node_local value_type.now name.now 0 (see_expr value.now))) }
{
    put_type(alloc, out, value_type)?;
    put_name(alloc, out, name)?;
    put_mark(out, Mark::Assign)?;
    put_expr(alloc, out, value)?;
    put_mark(out, Mark::Semicolon)
}

fn put_assign(
    alloc: Global,
    out: &mut Vec<Token>,
    name: &Name,
    value: &Expr,
) -> Result<(), AllocError>
    ensures { OnOk result (Adds out.old.items out.new.items (node_stmt (AssignStmt name.now 0 (see_expr value.now)))) }
{
    put_name(alloc, out, name)?;
    put_mark(out, Mark::Assign)?;
    put_expr(alloc, out, value)?;
    put_mark(out, Mark::Semicolon)
}

fn put_call(
    alloc: Global,
    out: &mut Vec<Token>,
    name: &Name,
    actuals: &Actuals,
    calls: &[Dot],
) -> Result<(), AllocError>
    ensures { OnOk result (Adds out.old.items out.new.items (node_stmt (CallStmt name.now (see_actuals actuals.now) (dots (map see_dot calls.now))))) }
{
    put_name(alloc, out, name)?;
    put_actuals(alloc, out, actuals)?;
    put_dots(alloc, out, calls)?;
    put_mark(out, Mark::Semicolon)
}

fn put_through(
    alloc: Global,
    out: &mut Vec<Token>,
    name: &Name,
    first: &Dot,
    calls: &[Dot],
) -> Result<(), AllocError>
    ensures { OnOk result (Adds out.old.items out.new.items (node_stmt (MethodCallStmt name.now (see_dot first.now) (dots (map see_dot calls.now))))) }
{
    put_name(alloc, out, name)?;
    put_dot(alloc, out, first)?;
    put_dots(alloc, out, calls)?;
    put_mark(out, Mark::Semicolon)
}

fn put_this(
    alloc: Global,
    out: &mut Vec<Token>,
    first: &Dot,
    calls: &[Dot],
) -> Result<(), AllocError>
    ensures { OnOk result (Adds out.old.items out.new.items (node_stmt (ThisCallStmt 0 (see_dot first.now) (dots (map see_dot calls.now))))) }
{
    put_keyword(out, Keyword::This)?;
    put_dot(alloc, out, first)?;
    put_dots(alloc, out, calls)?;
    put_mark(out, Mark::Semicolon)
}

fn put_new(
    alloc: Global,
    out: &mut Vec<Token>,
    name: &Name,
    actuals: &Actuals,
    calls: &[Dot],
) -> Result<(), AllocError>
    ensures { OnOk result (Adds out.old.items out.new.items (node_stmt (NewStmt 0 name.now (see_actuals actuals.now) (dots (map see_dot calls.now))))) }
{
    put_keyword(out, Keyword::New)?;
    put_name(alloc, out, name)?;
    put_actuals(alloc, out, actuals)?;
    put_dots(alloc, out, calls)?;
    put_mark(out, Mark::Semicolon)
}

fn put_return(out: &mut Vec<Token>) -> Result<(), AllocError>
    ensures { OnOk result (Adds out.old.items out.new.items (node_stmt (ReturnStmt 0))) }
{
    put_keyword(out, Keyword::Return)?;
    put_mark(out, Mark::Semicolon)
}

fn put_return_value(alloc: Global, out: &mut Vec<Token>, value: &Expr) -> Result<(), AllocError>
    ensures { OnOk result (Adds out.old.items out.new.items (node_stmt (ReturnValueStmt 0 (see_expr value.now)))) }
{
    put_keyword(out, Keyword::Return)?;
    put_expr(alloc, out, value)?;
    put_mark(out, Mark::Semicolon)
}

#[cycle(spell)]
pub fn put_block(alloc: Global, out: &mut Vec<Token>, block: &Block) -> Result<(), AllocError>
    ensures { OnOk result (Adds out.old.items out.new.items (node_block (see_block block.now))) }
{
    put_mark(out, Mark::OpenBrace)?;
    put_items(alloc, out, &block.items)?;
    put_mark(out, Mark::CloseBrace)
}

#[cycle(spell)]
fn put_items(alloc: Global, out: &mut Vec<Token>, list: &[Item]) -> Result<(), AllocError>
    ensures { OnOk result (Adds out.old.items out.new.items (node_items (items (map see_item list.now)))) }
{
    'each: for item in list {
        put_item(alloc, out, item)?;
    }
    Ok(())
}

#[cycle(spell)]
fn put_item(alloc: Global, out: &mut Vec<Token>, item: &Item) -> Result<(), AllocError>
    ensures { OnOk result (Adds out.old.items out.new.items (node_item (see_item item.now))) }
{
    match item {
        Item::Local {
            value_type,
            name,
            assign: _,
            value,
        } => put_local(alloc, out, value_type, name, value),
        Item::Stmt(stmt) => put_stmt(alloc, out, stmt),
    }
}

#[cycle(spell)]
fn put_stmt(alloc: Global, out: &mut Vec<Token>, stmt: &Stmt) -> Result<(), AllocError>
    ensures { OnOk result (Adds out.old.items out.new.items (node_stmt (see_stmt stmt.now))) }
{
    match stmt {
        Stmt::Assign { name, value, .. } => put_assign(alloc, out, name, value),
        Stmt::Call {
            name,
            actuals,
            calls,
        } => put_call(alloc, out, name, actuals, calls),
        Stmt::MethodCall { name, first, calls } => put_through(alloc, out, name, first, calls),
        Stmt::ThisCall { first, calls, .. } => put_this(alloc, out, first, calls),
        Stmt::New {
            name,
            actuals,
            calls,
            ..
        } => put_new(alloc, out, name, actuals, calls),
        Stmt::Block(block) => put_block(alloc, out, block),
        Stmt::Empty => put_mark(out, Mark::Semicolon),
        Stmt::If { test, first, .. } => put_if(alloc, out, test, first),
        Stmt::IfElse {
            test,
            first,
            second,
            ..
        } => put_if_else(alloc, out, test, first, second),
        Stmt::While { test, body, .. } => put_while(alloc, out, test, body),
        Stmt::Return { .. } => put_return(out),
        Stmt::ReturnValue { value, .. } => put_return_value(alloc, out, value),
    }
}

#[cycle(spell)]
fn put_if(alloc: Global, out: &mut Vec<Token>, test: &Expr, first: &Stmt) -> Result<(), AllocError>
    ensures { OnOk result (Adds out.old.items out.new.items (node_stmt (IfStmt 0 0 (see_expr test.now) (see_stmt first.now)))) }
{
    put_keyword(out, Keyword::If)?;
    put_test(alloc, out, test)?;
    put_stmt(alloc, out, first)
}

#[cycle(spell)]
fn put_if_else(
    alloc: Global,
    out: &mut Vec<Token>,
    test: &Expr,
    first: &Stmt,
    second: &Stmt,
) -> Result<(), AllocError>
    ensures { OnOk result (Adds out.old.items out.new.items (node_stmt (IfElseStmt 0 0 (see_expr test.now) (see_stmt first.now) (see_stmt second.now)))) }
{
    put_keyword(out, Keyword::If)?;
    put_test(alloc, out, test)?;
    put_stmt(alloc, out, first)?;
    put_keyword(out, Keyword::Else)?;
    put_stmt(alloc, out, second)
}

#[cycle(spell)]
fn put_while(
    alloc: Global,
    out: &mut Vec<Token>,
    test: &Expr,
    body: &Stmt,
) -> Result<(), AllocError>
    ensures { OnOk result (Adds out.old.items out.new.items (node_stmt (WhileStmt 0 0 (see_expr test.now) (see_stmt body.now)))) }
{
    put_keyword(out, Keyword::While)?;
    put_test(alloc, out, test)?;
    put_stmt(alloc, out, body)
}

/// A condition in brackets.
fn put_test(alloc: Global, out: &mut Vec<Token>, test: &Expr) -> Result<(), AllocError>
    ensures { OnOk result (Adds out.old.items out.new.items (node_test (see_expr test.now))) }
{
    put_mark(out, Mark::OpenParenthesis)?;
    put_expr(alloc, out, test)?;
    put_mark(out, Mark::CloseParenthesis)
}
