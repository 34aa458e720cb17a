//! Statements, items and blocks: what they are resolved to, and what they break.
#![tactic(auto)]

ghost use Rattle.std.specs.Prelude.{ℕ, IfOk, map};
ghost use Rattle.chord_tree.specs.Tree.{BlockStmt, IfStmt, IfElseStmt, WhileStmt, StmtItem};
ghost use Rattle.chord_tree.specs.ViewExprs.{see_expr};
ghost use Rattle.chord_tree.specs.ViewStmts.{see_stmt, see_item, see_block};
ghost use Rattle.chord_types.specs.StmtChecked.{IsItemChecked, AreItemsChecked, IsBlockChecked};

use crate::plain::{condition, local, plain_stmt};
use crate::site::Site;
use chord_bodies::stmt as built;
use chord_classes::least::Least;
use chord_tree::exprs::Expr;
use chord_tree::stmts::{Block, Item, Stmt};
use std::alloc::{AllocError, Global};

/// A statement.
#[cycle(stmts)]
fn stmt<'t, 'a>(
    alloc: Global,
    site: &mut Site<'t, 'a>,
    stmt: &'a Stmt,
    breaks: &mut Least,
) -> Result<built::Stmt, AllocError>
    ensures { IfOk result (λ r. IsItemChecked site.old site.new (StmtItem (see_stmt stmt.now)) breaks.old.found breaks.new.found r) }
{
    match stmt {
        Stmt::Block(inner) => block_stmt(alloc, site, inner, breaks),
        Stmt::If {
            at,
            test,
            first,
            ..
        } => if_then(alloc, site, *at, test, first, breaks),
        Stmt::IfElse {
            at,
            test,
            first,
            second,
            ..
        } => if_else(alloc, site, *at, test, first, second, breaks),
        Stmt::While { at, test, body, .. } => while_loop(alloc, site, *at, test, body, breaks),
        _ => plain_stmt(alloc, site, stmt, breaks),
    }
}

/// A statement in a box, as a branch or as the body of a loop.
#[cycle(stmts)]
fn boxed_stmt<'t, 'a>(
    alloc: Global,
    site: &mut Site<'t, 'a>,
    inner: &'a Stmt,
    breaks: &mut Least,
) -> Result<Box<built::Stmt>, AllocError>
    ensures { IfOk result (λ r. IsItemChecked site.old site.new (StmtItem (see_stmt inner.now)) breaks.old.found breaks.new.found r.value) }
{
    let made = stmt(alloc, site, inner, breaks)?;
    Ok(Box::new(alloc, made)?)
}

/// `if` without `else`.
#[cycle(stmts)]
fn if_then<'t, 'a>(
    alloc: Global,
    site: &mut Site<'t, 'a>,
    at: u32,
    test: &Expr,
    first: &'a Stmt,
    breaks: &mut Least,
) -> Result<built::Stmt, AllocError>
    ensures { IfOk result (λ r. (bracket : ℕ) → IsItemChecked site.old site.new (StmtItem (IfStmt at bracket (see_expr test.now) (see_stmt first.now))) breaks.old.found breaks.new.found r) }
{
    let test = condition(alloc, site, at, test, breaks)?;
    let first = boxed_stmt(alloc, site, first, breaks)?;
    Ok(built::Stmt::If(test, first))
}

/// `if` with `else`.
#[cycle(stmts)]
fn if_else<'t, 'a>(
    alloc: Global,
    site: &mut Site<'t, 'a>,
    at: u32,
    test: &Expr,
    first: &'a Stmt,
    second: &'a Stmt,
    breaks: &mut Least,
) -> Result<built::Stmt, AllocError>
    ensures { IfOk result (λ r. (bracket : ℕ) → IsItemChecked site.old site.new (StmtItem (IfElseStmt at bracket (see_expr test.now) (see_stmt first.now) (see_stmt second.now))) breaks.old.found breaks.new.found r) }
{
    let test = condition(alloc, site, at, test, breaks)?;
    let first = boxed_stmt(alloc, site, first, breaks)?;
    let second = boxed_stmt(alloc, site, second, breaks)?;
    Ok(built::Stmt::IfElse(test, first, second))
}

/// `while`
#[cycle(stmts)]
fn while_loop<'t, 'a>(
    alloc: Global,
    site: &mut Site<'t, 'a>,
    at: u32,
    test: &Expr,
    body: &'a Stmt,
    breaks: &mut Least,
) -> Result<built::Stmt, AllocError>
    ensures { IfOk result (λ r. (bracket : ℕ) → IsItemChecked site.old site.new (StmtItem (WhileStmt at bracket (see_expr test.now) (see_stmt body.now))) breaks.old.found breaks.new.found r) }
{
    let test = condition(alloc, site, at, test, breaks)?;
    let body = boxed_stmt(alloc, site, body, breaks)?;
    Ok(built::Stmt::While(test, body))
}

/// A block as a statement.
#[cycle(stmts)]
fn block_stmt<'t, 'a>(
    alloc: Global,
    site: &mut Site<'t, 'a>,
    inner: &'a Block,
    breaks: &mut Least,
) -> Result<built::Stmt, AllocError>
    ensures { IfOk result (λ r. IsItemChecked site.old site.new (StmtItem (BlockStmt (see_block inner.now))) breaks.old.found breaks.new.found r) }
{
    let stmts = block(alloc, site, inner, breaks)?;
    Ok(built::Stmt::Block(stmts))
}

/// A block, whose locals are in scope up to its end.
#[cycle(stmts)]
pub(crate) fn block<'t, 'a>(
    alloc: Global,
    site: &mut Site<'t, 'a>,
    block: &'a Block,
    breaks: &mut Least,
) -> Result<Vec<built::Stmt>, AllocError>
    ensures { IfOk result (λ r. IsBlockChecked site.old site.new (see_block block.now) breaks.old.found breaks.new.found r.items) }
{
    let count = site.scope.len();
    let stmts = items(alloc, site, &block.items, breaks)?;
    site.scope.truncate(count);
    Ok(stmts)
}

/// Items, one after another.
#[cycle(stmts)]
fn items<'t, 'a>(
    alloc: Global,
    site: &mut Site<'t, 'a>,
    items: &'a [Item],
    breaks: &mut Least,
) -> Result<Vec<built::Stmt>, AllocError>
    ensures { IfOk result (λ r. AreItemsChecked site.old site.new (map see_item items.now) breaks.old.found breaks.new.found r.items) }
{
    let mut stmts = Vec::new(alloc);
    'each: for one in items {
        let made = item(alloc, site, one, breaks)?;
        stmts.push(made)?;
    }
    Ok(stmts)
}

/// A local or a statement.
#[cycle(stmts)]
fn item<'t, 'a>(
    alloc: Global,
    site: &mut Site<'t, 'a>,
    item: &'a Item,
    breaks: &mut Least,
) -> Result<built::Stmt, AllocError>
    ensures { IfOk result (λ r. IsItemChecked site.old site.new (see_item item.now) breaks.old.found breaks.new.found r) }
{
    match item {
        Item::Local {
            value_type,
            name,
            assign: at,
            value,
        } => local(alloc, site, value_type, name, *at, value, breaks),
        Item::Stmt(inner) => stmt(alloc, site, inner, breaks),
    }
}
