//! The limit on the locals of a body.
#![tactic(auto)]

ghost use Rattle.std.specs.Prelude.{◌≡◌, ◌++◌, map, drop};
ghost use Rattle.chord_tree.specs.Tree.{items, NoItems, MoreItems};
ghost use Rattle.chord_tree.specs.ViewStmts.{see_block, see_item, see_stmt};
ghost use Rattle.chord_classes.specs.ChordRules.{block_names, items_names, stmt_names};
ghost use Rattle.chord_classes.specs.Least.{least, keys};
ghost use Rattle.chord_rules.specs.Limits.{TakesRoom};

use crate::limits::take_room;
use chord_classes::least::Least;
use chord_tree::stmts::{Block, Item, Stmt};

/// How many locals a body declares at most.
const MAX_LOCALS: usize = 256;

/// C04: notes the locals of a body past those that are allowed.
pub fn locals_past(body: &Block, breaks: &mut Least)
    ensures { breaks.new.found ≡ least breaks.old.found (keys 4 (drop 256 (block_names (see_block body.now)))) }
{
    let mut room = MAX_LOCALS;
    block_past(&mut room, body, breaks);
}

#[cycle(locals)]
fn block_past(room: &mut usize, block: &Block, breaks: &mut Least)
    ensures { TakesRoom (block_names (see_block block.now)) room.old room.new breaks.old.found breaks.new.found }
{
    items_past(room, &block.items, breaks);
}

#[cycle(locals)]
fn items_past(room: &mut usize, list: &[Item], breaks: &mut Least)
    ensures { TakesRoom (items_names (items (map see_item list.now))) room.old room.new breaks.old.found breaks.new.found }
{
    'each: for item in list {
        item_past(room, item, breaks);
    }
}

#[cycle(locals)]
fn item_past(room: &mut usize, item: &Item, breaks: &mut Least)
    ensures { TakesRoom (items_names (MoreItems (see_item item.now) NoItems)) room.old room.new breaks.old.found breaks.new.found }
{
    match item {
        Item::Local { name, .. } => take_room(room, name.at, breaks),
        Item::Stmt(stmt) => stmt_past(room, stmt, breaks),
    }
}

#[cycle(locals)]
fn stmt_past(room: &mut usize, stmt: &Stmt, breaks: &mut Least)
    ensures { TakesRoom (stmt_names (see_stmt stmt.now)) room.old room.new breaks.old.found breaks.new.found }
{
    match stmt {
        Stmt::Block(block) => block_past(room, block, breaks),
        Stmt::If { first, .. } => stmt_past(room, first, breaks),
        Stmt::IfElse { first, second, .. } => both_past(room, first, second, breaks),
        Stmt::While { body, .. } => stmt_past(room, body, breaks),
        Stmt::Assign { .. } => {}
        Stmt::Call { .. } => {}
        Stmt::MethodCall { .. } => {}
        Stmt::ThisCall { .. } => {}
        Stmt::New { .. } => {}
        Stmt::Empty => {}
        Stmt::Return { .. } => {}
        Stmt::ReturnValue { .. } => {}
    }
}

#[cycle(locals)]
fn both_past(room: &mut usize, first: &Stmt, second: &Stmt, breaks: &mut Least)
    ensures { TakesRoom (stmt_names (see_stmt first.now) ++ stmt_names (see_stmt second.now)) room.old room.new breaks.old.found breaks.new.found }
{
    stmt_past(room, first, breaks);
    stmt_past(room, second, breaks);
}
