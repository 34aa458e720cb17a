//! Whether the body of a method surely returns.
#![tactic(auto)]

ghost use Rattle.std.specs.Prelude.{◌≡◌, ◌&&◌, [], ◌∷◌, map, false};
ghost use Rattle.chord_tree.specs.Terms.{term, started};
ghost use Rattle.chord_tree.specs.Tree.{items};
ghost use Rattle.chord_tree.specs.ViewExprs.{see_expr, see_start};
ghost use Rattle.chord_tree.specs.ViewStmts.{see_stmt, see_item, see_block};
ghost use Rattle.chord_classes.specs.ItemRules.{is_true_word, surely, block_surely, items_surely};

use chord_tree::exprs::{Expr, Start};
use chord_tree::stmts::{Block, Item, Stmt};

/// Whether a start, with no calls on it, is the word `true`.
fn begins_true(start: &Start) -> bool
    ensures { result ≡ is_true_word (started (see_start start.now) false) }
{
    match start {
        Start::Variable(_) => false,
        Start::Call(_) => false,
        Start::This { .. } => false,
        Start::New(_) => false,
        Start::Number { .. } => false,
        Start::Literal { .. } => false,
        Start::True { .. } => true,
        Start::False { .. } => false,
        Start::ChainGroup { .. } => false,
        Start::Group { .. } => false,
    }
}

/// Whether an expression is the word `true`.
fn is_true_word(expr: &Expr) -> bool
    ensures { result ≡ is_true_word (term (see_expr expr.now)) }
{
    match expr {
        Expr::Chain(_) => false,
        Expr::Minus { .. } => false,
        Expr::Not { .. } => false,
        Expr::Start(start) => begins_true(start),
        Expr::Calls(_) => false,
    }
}

/// Whether a statement surely returns.
#[cycle(returns)]
fn surely(stmt: &Stmt) -> bool
    ensures { result ≡ surely (see_stmt stmt.now) }
{
    match stmt {
        Stmt::Assign { .. } => false,
        Stmt::Call { .. } => false,
        Stmt::MethodCall { .. } => false,
        Stmt::ThisCall { .. } => false,
        Stmt::New { .. } => false,
        Stmt::Block(block) => block_surely(block),
        Stmt::Empty => false,
        Stmt::If { .. } => false,
        Stmt::IfElse { first, second, .. } => both_surely(first, second),
        Stmt::While { test, .. } => is_true_word(test),
        Stmt::Return { .. } => true,
        Stmt::ReturnValue { .. } => true,
    }
}

/// Whether two statements surely return.
#[cycle(returns)]
fn both_surely(first: &Stmt, second: &Stmt) -> bool
    ensures { result ≡ (surely (see_stmt first.now) && surely (see_stmt second.now)) }
{
    surely(first) & surely(second)
}

/// Whether a statement of a block surely returns.
#[cycle(returns)]
pub(crate) fn block_surely(block: &Block) -> bool
    ensures { result ≡ block_surely (see_block block.now) }
{
    items_surely(&block.items)
}

/// Whether one of the items surely returns.
#[cycle(returns)]
fn items_surely(all: &[Item]) -> bool
    ensures { result ≡ items_surely (items (map see_item all.now)) }
{
    'each: for item in all {
        if item_surely(item) {
            return true;
        }
    }
    false
}

/// Whether an item surely returns.
#[cycle(returns)]
fn item_surely(item: &Item) -> bool
    ensures { result ≡ items_surely (items (see_item item.now ∷ [])) }
{
    match item {
        Item::Local { .. } => false,
        Item::Stmt(stmt) => surely(stmt),
    }
}
