//! The parser of statements and blocks. It looks one token ahead.
#![tactic(auto)]

ghost use Rattle.std.specs.Prelude.{◌≡◌, ◌<◌, ◌≤◌, ◌-◌, [], ◌∷◌, true, false, map, IfOk, IfErr};
ghost use Rattle.chord_lexer.specs.declared.token.Mark.TheVariants as marks;
ghost use Rattle.chord_tree.specs.Derivation.{next, includes};
ghost use Rattle.chord_tree.specs.Node.{End, ◌▸◌, Leaf, unnumbered};
ghost use Rattle.chord_tree.specs.ExprNodes.{mark_leaf, name, node_expr, node_actuals, node_dots, node_dot};
ghost use Rattle.chord_tree.specs.StmtNodes.{semicolon, node_tail, node_other, node_stmt, node_block, node_items, node_item, basic_keyword};
ghost use Rattle.chord_tree.specs.Symbol.{Terminal, number_of};
ghost use Rattle.chord_tree.specs.Terminals.{keyword_symbol};
ghost use Rattle.chord_tree.specs.Program.{token_kinds};
ghost use Rattle.chord_tree.specs.Symbols as grammar;
ghost use Rattle.chord_tree.specs.Tree.{items, dots};
ghost use Rattle.chord_tree.specs.ViewExprs.{see_expr, see_actuals, see_dot};
ghost use Rattle.chord_tree.specs.ViewStmts.{see_item, see_stmt, see_block};
ghost use Rattle.chord_parser.specs.Reading.{StopsAs, StopsBefore, IsNamed, IsUnnamed, node_else, node_if, valued};
ghost use Rattle.chord_parser.specs.Runs.{Reads, ReadAll};
ghost use Rattle.chord_parser.specs.Samples.{sample};

use crate::exprs::{actuals, dot, dots_next, expr};
use crate::faults::Fault;
use crate::terminal;
use crate::tokens::{name_of, next, skip, take};
use chord_lexer::token::Token;
use chord_tree::exprs::{Actuals, Dot, Expr};
use chord_tree::names::{BasicType, Name, ValueType};
use chord_tree::stmts::{Block, Item, Stmt};
use std::alloc::Global;

/// Block = "{" { Item } "}"
#[cycle(statements)]
pub fn block(
    alloc: Global,
    count: u32,
    tokens: &[Token],
    depth: u32,
) -> Result<(Block, &[Token]), Fault>
    requires depth { depth ≤ 201 }
    ensures ok { IfOk result (λ r. Reads count grammar.Block depth (token_kinds tokens.now) (token_kinds r.1.now) (node_block (see_block r.0))) }
    ensures err { IfErr result (λ fault. StopsAs grammar.Block depth (token_kinds tokens.now) fault) }
{
    let rest = skip(count, tokens, terminal::OPEN_BRACE, depth)?;
    let (inside, rest) = items_of(alloc, count, rest, depth)?;
    let (end, rest) = take(count, rest, terminal::CLOSE_BRACE, depth)?;
    Ok((Block::new(inside, end), rest))
}

/// { Item }
#[cycle(statements)]
#[inline(never)]
fn items_of(
    alloc: Global,
    count: u32,
    tokens: &[Token],
    depth: u32,
) -> Result<(Vec<Item>, &[Token]), Fault>
    requires depth { depth ≤ 200 }
    ensures ok { IfOk result (λ r. Reads count grammar.Items depth (token_kinds tokens.now) (token_kinds r.1.now) (node_items (items (map see_item r.0.items)))) }
    ensures err { IfErr result (λ fault. StopsAs grammar.Items depth (token_kinds tokens.now) fault) }
{
    let mut inside = Vec::new(alloc);
    let mut left = tokens;
    'each: while next(left) != terminal::CLOSE_BRACE {
        let (one, rest) = item(alloc, count, left, depth)?;
        inside.push(one)?;
        left = rest;
    }
    Ok((inside, left))
}

/// Item = ( "int" | "bool" | "string" ) Name "=" Expr ";"
///     | Name ( Name "=" Expr | Tail ) ";"
///     | Other
#[cycle(statements)]
fn item(alloc: Global, count: u32, tokens: &[Token], depth: u32) -> Result<(Item, &[Token]), Fault>
    requires depth { depth ≤ 200 }
    ensures ok { IfOk result (λ r. Reads count grammar.Item depth (token_kinds tokens.now) (token_kinds r.1.now) (node_item (see_item r.0))) }
    ensures err { IfErr result (λ fault. StopsAs grammar.Item depth (token_kinds tokens.now) fault) }
{
    let ahead = next(tokens);
    if ahead == terminal::INT {
        return local(alloc, count, tokens, depth, BasicType::Int, terminal::INT);
    }
    if ahead == terminal::BOOL {
        return local(alloc, count, tokens, depth, BasicType::Bool, terminal::BOOL);
    }
    if ahead == terminal::STRING {
        return local(
            alloc,
            count,
            tokens,
            depth,
            BasicType::String,
            terminal::STRING,
        );
    }
    if ahead == terminal::NAME {
        return item_name(alloc, count, tokens, depth);
    }
    let (form, rest) = other(alloc, count, tokens, depth + 1)?;
    Ok((Item::stmt(form), rest))
}

/// Expr and the terminal behind it, which has no number in the tree.
#[inline(always)]
fn expr_before(
    alloc: Global,
    count: u32,
    tokens: &[Token],
    depth: u32,
    wanted: u8,
) -> Result<(Expr, &[Token]), Fault>
    requires depth { depth ≤ 200 }
    requires unnumbered { includes unnumbered wanted ≡ true }
    requires bare { includes valued wanted ≡ false }
    requires small { wanted < 52 }
    ensures ok { IfOk result (λ r. ReadAll count (grammar.Expr ∷ Terminal wanted ∷ []) depth (token_kinds tokens.now) (token_kinds r.1.now) (node_expr (see_expr r.0) ▸ Leaf (sample wanted) 0 ▸ End)) }
    ensures err { IfErr result (λ fault. StopsBefore (grammar.Expr ∷ Terminal wanted ∷ []) depth (token_kinds tokens.now) fault) }
{
    let (whole, rest) = expr(alloc, count, tokens, depth)?;
    let rest = skip(count, rest, wanted, depth)?;
    Ok((whole, rest))
}

/// "=" Expr ";"
#[inline(always)]
fn value_end(
    alloc: Global,
    count: u32,
    tokens: &[Token],
    depth: u32,
) -> Result<(u32, Expr, &[Token]), Fault>
    requires depth { depth ≤ 201 }
    ensures ok { IfOk result (λ r. ReadAll count (grammar.ASSIGN ∷ grammar.Expr ∷ grammar.SEMICOLON ∷ []) depth (token_kinds tokens.now) (token_kinds r.2.now) (mark_leaf marks.Assign r.0 ▸ node_expr (see_expr r.1) ▸ semicolon ▸ End)) }
    ensures err { IfErr result (λ fault. StopsBefore (grammar.ASSIGN ∷ grammar.Expr ∷ grammar.SEMICOLON ∷ []) depth (token_kinds tokens.now) fault) }
{
    let (assign, rest) = take(count, tokens, terminal::ASSIGN, depth)?;
    let (value, rest) = expr_before(alloc, count, rest, depth, terminal::SEMICOLON)?;
    Ok((assign, value, rest))
}

/// Name "=" Expr ";"
#[inline(never)]
fn named_value(
    alloc: Global,
    count: u32,
    tokens: &[Token],
    depth: u32,
) -> Result<(Name, u32, Expr, &[Token]), Fault>
    requires depth { depth ≤ 201 }
    ensures ok { IfOk result (λ r. ReadAll count (grammar.NAME ∷ grammar.ASSIGN ∷ grammar.Expr ∷ grammar.SEMICOLON ∷ []) depth (token_kinds tokens.now) (token_kinds r.3.now) (name r.0 ▸ mark_leaf marks.Assign r.1 ▸ node_expr (see_expr r.2) ▸ semicolon ▸ End)) }
    ensures err { IfErr result (λ fault. StopsBefore (grammar.NAME ∷ grammar.ASSIGN ∷ grammar.Expr ∷ grammar.SEMICOLON ∷ []) depth (token_kinds tokens.now) fault) }
{
    let (name, rest) = name_of(alloc, count, tokens, depth)?;
    let (assign, value, rest) = value_end(alloc, count, rest, depth)?;
    Ok((name, assign, value, rest))
}

/// ( "int" | "bool" | "string" ) Name "=" Expr ";"
#[inline(always)]
fn local(
    alloc: Global,
    count: u32,
    tokens: &[Token],
    depth: u32,
    basic: BasicType,
    wanted: u8,
) -> Result<(Item, &[Token]), Fault>
    requires depth { depth ≤ 200 }
    requires first { next (token_kinds tokens.now) ≡ wanted }
    requires basic { wanted ≡ number_of (keyword_symbol (basic_keyword basic)) }
    ensures ok { IfOk result (λ r. Reads count grammar.Item depth (token_kinds tokens.now) (token_kinds r.1.now) (node_item (see_item r.0))) }
    ensures err { IfErr result (λ fault. StopsAs grammar.Item depth (token_kinds tokens.now) fault) }
{
    let (at, rest) = take(count, tokens, wanted, depth + 1)?;
    let (name, rest) = name_of(alloc, count, rest, depth + 1)?;
    let (assign, value, rest) = value_end(alloc, count, rest, depth + 1)?;
    Ok((
        Item::local(ValueType::Basic { basic, at }, name, assign, value),
        rest,
    ))
}

/// Name ( Name "=" Expr | Tail ) ";"
fn item_name(
    alloc: Global,
    count: u32,
    tokens: &[Token],
    depth: u32,
) -> Result<(Item, &[Token]), Fault>
    requires depth { depth ≤ 200 }
    requires first { next (token_kinds tokens.now) ≡ number_of grammar.NAME }
    ensures ok { IfOk result (λ r. Reads count grammar.Item depth (token_kinds tokens.now) (token_kinds r.1.now) (node_item (see_item r.0))) }
    ensures err { IfErr result (λ fault. StopsAs grammar.Item depth (token_kinds tokens.now) fault) }
{
    let (first, rest) = name_of(alloc, count, tokens, depth + 1)?;
    if next(rest) == terminal::NAME {
        let (second, assign, value, rest) = named_value(alloc, count, rest, depth + 1)?;
        return Ok((
            Item::local(ValueType::Class(first), second, assign, value),
            rest,
        ));
    }
    let (form, rest) = tail(alloc, count, rest, depth + 1, first)?;
    Ok((Item::stmt(form), rest))
}

/// { Dot } ";"
fn calls_end(
    alloc: Global,
    count: u32,
    tokens: &[Token],
    depth: u32,
) -> Result<(Vec<Dot>, &[Token]), Fault>
    requires depth { depth ≤ 200 }
    ensures ok { IfOk result (λ r. ReadAll count (grammar.Dots ∷ grammar.SEMICOLON ∷ []) depth (token_kinds tokens.now) (token_kinds r.1.now) (node_dots (dots (map see_dot r.0.items)) ▸ semicolon ▸ End)) }
    ensures err { IfErr result (λ fault. StopsBefore (grammar.Dots ∷ grammar.SEMICOLON ∷ []) depth (token_kinds tokens.now) fault) }
{
    let (calls, rest) = dots_next(alloc, count, tokens, depth)?;
    let rest = skip(count, rest, terminal::SEMICOLON, depth)?;
    Ok((calls, rest))
}

/// Actuals { Dot } ";"
fn actuals_end(
    alloc: Global,
    count: u32,
    tokens: &[Token],
    depth: u32,
) -> Result<(Actuals, Vec<Dot>, &[Token]), Fault>
    requires depth { depth ≤ 200 }
    ensures ok { IfOk result (λ r. ReadAll count (grammar.Actuals ∷ grammar.Dots ∷ grammar.SEMICOLON ∷ []) depth (token_kinds tokens.now) (token_kinds r.2.now) (node_actuals (see_actuals r.0) ▸ node_dots (dots (map see_dot r.1.items)) ▸ semicolon ▸ End)) }
    ensures err { IfErr result (λ fault. StopsBefore (grammar.Actuals ∷ grammar.Dots ∷ grammar.SEMICOLON ∷ []) depth (token_kinds tokens.now) fault) }
{
    let (passed, rest) = actuals(alloc, count, tokens, depth)?;
    let (calls, rest) = calls_end(alloc, count, rest, depth)?;
    Ok((passed, calls, rest))
}

/// Dot { Dot } ";"
fn dot_end(
    alloc: Global,
    count: u32,
    tokens: &[Token],
    depth: u32,
) -> Result<(Dot, Vec<Dot>, &[Token]), Fault>
    requires depth { depth ≤ 200 }
    ensures ok { IfOk result (λ r. ReadAll count (grammar.Dot ∷ grammar.Dots ∷ grammar.SEMICOLON ∷ []) depth (token_kinds tokens.now) (token_kinds r.2.now) (node_dot (see_dot r.0) ▸ node_dots (dots (map see_dot r.1.items)) ▸ semicolon ▸ End)) }
    ensures err { IfErr result (λ fault. StopsBefore (grammar.Dot ∷ grammar.Dots ∷ grammar.SEMICOLON ∷ []) depth (token_kinds tokens.now) fault) }
{
    let (first, rest) = dot(alloc, count, tokens, depth)?;
    let (calls, rest) = calls_end(alloc, count, rest, depth)?;
    Ok((first, calls, rest))
}

/// Tail ";", where Tail = "=" Expr | Actuals { Dot } | Dot { Dot }
fn tail(
    alloc: Global,
    count: u32,
    tokens: &[Token],
    depth: u32,
    name: Name,
) -> Result<(Stmt, &[Token]), Fault>
    requires depth { depth ≤ 200 }
    ensures ok { IfOk result (λ r. ReadAll count (grammar.Tail ∷ grammar.SEMICOLON ∷ []) depth (token_kinds tokens.now) (token_kinds r.1.now) (node_tail (see_stmt r.0) ▸ semicolon ▸ End)) }
    ensures err { IfErr result (λ fault. StopsBefore (grammar.Tail ∷ grammar.SEMICOLON ∷ []) depth (token_kinds tokens.now) fault) }
    ensures named { IfOk result (λ r. IsNamed (see_stmt r.0) name) }
{
    let ahead = next(tokens);
    if ahead == terminal::ASSIGN {
        let (at, value, rest) = value_end(alloc, count, tokens, depth)?;
        return Ok((Stmt::assign(name, at, value), rest));
    }
    if ahead == terminal::OPEN {
        let (passed, calls, rest) = actuals_end(alloc, count, tokens, depth)?;
        return Ok((Stmt::call(name, passed, calls), rest));
    }
    if ahead == terminal::DOT {
        let (first, calls, rest) = dot_end(alloc, count, tokens, depth)?;
        return Ok((Stmt::method_call(name, first, calls), rest));
    }
    Err(Fault::At(tokens.len()))
}

/// Stmt = Name Tail ";" | Other
#[cycle(statements)]
fn stmt(alloc: Global, count: u32, tokens: &[Token], depth: u32) -> Result<(Stmt, &[Token]), Fault>
    requires depth { depth ≤ 200 }
    ensures ok { IfOk result (λ r. Reads count grammar.Stmt depth (token_kinds tokens.now) (token_kinds r.1.now) (node_stmt (see_stmt r.0))) }
    ensures err { IfErr result (λ fault. StopsAs grammar.Stmt depth (token_kinds tokens.now) fault) }
{
    if next(tokens) == terminal::NAME {
        let (name, rest) = name_of(alloc, count, tokens, depth + 1)?;
        return tail(alloc, count, rest, depth + 1, name);
    }
    let (form, rest) = other(alloc, count, tokens, depth + 1)?;
    Ok((form, rest))
}

/// Other = Block | ";"
///     | "if" "(" Expr ")" Stmt [ "else" Stmt ] | "while" "(" Expr ")" Stmt
///     | "return" [ Expr ] ";" | "this" Dot { Dot } ";" | "new" Name Actuals { Dot } ";"
#[cycle(statements)]
fn other(alloc: Global, count: u32, tokens: &[Token], depth: u32) -> Result<(Stmt, &[Token]), Fault>
    requires depth { depth ≤ 201 }
    ensures ok { IfOk result (λ r. Reads count grammar.Other depth (token_kinds tokens.now) (token_kinds r.1.now) (node_other (see_stmt r.0))) }
    ensures err { IfErr result (λ fault. StopsAs grammar.Other depth (token_kinds tokens.now) fault) }
    ensures unnamed { IfOk result (λ r. IsUnnamed (see_stmt r.0)) }
{
    let ahead = next(tokens);
    if ahead == terminal::OPEN_BRACE {
        let (inside, rest) = block(alloc, count, tokens, depth)?;
        return Ok((Stmt::block(inside), rest));
    }
    if ahead == terminal::SEMICOLON {
        let rest = skip(count, tokens, terminal::SEMICOLON, depth)?;
        return Ok((Stmt::empty(), rest));
    }
    if ahead == terminal::IF {
        return if_stmt(alloc, count, tokens, depth);
    }
    if ahead == terminal::WHILE {
        return while_stmt(alloc, count, tokens, depth);
    }
    if ahead == terminal::RETURN {
        return return_stmt(alloc, count, tokens, depth);
    }
    if ahead == terminal::THIS {
        return this_stmt(alloc, count, tokens, depth);
    }
    if ahead == terminal::NEW {
        return new_stmt(alloc, count, tokens, depth);
    }
    Err(Fault::At(tokens.len()))
}

/// Stmt, in a box of its own
#[cycle(statements)]
fn boxed_stmt(
    alloc: Global,
    count: u32,
    tokens: &[Token],
    depth: u32,
) -> Result<(Box<Stmt>, &[Token]), Fault>
    requires depth { depth ≤ 200 }
    ensures ok { IfOk result (λ r. Reads count grammar.Stmt depth (token_kinds tokens.now) (token_kinds r.1.now) (node_stmt (see_stmt r.0.value))) }
    ensures err { IfErr result (λ fault. StopsAs grammar.Stmt depth (token_kinds tokens.now) fault) }
{
    let (form, rest) = stmt(alloc, count, tokens, depth)?;
    let form = Box::new(alloc, form)?;
    Ok((form, rest))
}

/// [ "else" Stmt ]
#[cycle(statements)]
fn else_of(
    alloc: Global,
    count: u32,
    tokens: &[Token],
    depth: u32,
) -> Result<(Option<Box<Stmt>>, &[Token]), Fault>
    requires depth { depth ≤ 200 }
    ensures ok { IfOk result (λ r. Reads count grammar.Optional_else depth (token_kinds tokens.now) (token_kinds r.1.now) (node_else r.0)) }
    ensures err { IfErr result (λ fault. StopsAs grammar.Optional_else depth (token_kinds tokens.now) fault) }
{
    if next(tokens) == terminal::ELSE {
        let rest = skip(count, tokens, terminal::ELSE, depth)?;
        let (second, rest) = boxed_stmt(alloc, count, rest, depth)?;
        return Ok((Some(second), rest));
    }
    Ok((None, tokens))
}

/// "(" Expr ")"
fn tested(
    alloc: Global,
    count: u32,
    tokens: &[Token],
    depth: u32,
) -> Result<(u32, Expr, &[Token]), Fault>
    requires depth { depth ≤ 200 }
    ensures ok { IfOk result (λ r. ReadAll count (grammar.OPEN ∷ grammar.Expr ∷ grammar.CLOSE ∷ []) depth (token_kinds tokens.now) (token_kinds r.2.now) (mark_leaf marks.OpenParenthesis r.0 ▸ node_expr (see_expr r.1) ▸ mark_leaf marks.CloseParenthesis 0 ▸ End)) }
    ensures err { IfErr result (λ fault. StopsBefore (grammar.OPEN ∷ grammar.Expr ∷ grammar.CLOSE ∷ []) depth (token_kinds tokens.now) fault) }
{
    let (bracket, rest) = take(count, tokens, terminal::OPEN, depth)?;
    let (test, rest) = expr_before(alloc, count, rest, depth, terminal::CLOSE)?;
    Ok((bracket, test, rest))
}

/// Stmt [ "else" Stmt ]
#[cycle(statements)]
fn branches(
    alloc: Global,
    count: u32,
    tokens: &[Token],
    depth: u32,
) -> Result<(Box<Stmt>, Option<Box<Stmt>>, &[Token]), Fault>
    requires depth { depth ≤ 200 }
    ensures ok { IfOk result (λ r. ReadAll count (grammar.Stmt ∷ grammar.Optional_else ∷ []) depth (token_kinds tokens.now) (token_kinds r.2.now) (node_stmt (see_stmt r.0.value) ▸ node_else r.1 ▸ End)) }
    ensures err { IfErr result (λ fault. StopsBefore (grammar.Stmt ∷ grammar.Optional_else ∷ []) depth (token_kinds tokens.now) fault) }
{
    let (first, rest) = boxed_stmt(alloc, count, tokens, depth)?;
    let (second, rest) = else_of(alloc, count, rest, depth)?;
    Ok((first, second, rest))
}

/// `if`, with `else` if there is a second branch.
fn if_form(at: u32, bracket: u32, test: Expr, first: Box<Stmt>, second: Option<Box<Stmt>>) -> Stmt
    ensures node { node_other (see_stmt result) ≡ node_if at bracket (see_expr test) (see_stmt first.value) second }
    ensures unnamed { IsUnnamed (see_stmt result) }
{
    match second {
        Some(second) => Stmt::if_else(at, bracket, test, first, second),
        None => Stmt::if_then(at, bracket, test, first),
    }
}

/// "if" "(" Expr ")" Stmt [ "else" Stmt ]
#[cycle(statements)]
fn if_stmt(
    alloc: Global,
    count: u32,
    tokens: &[Token],
    depth: u32,
) -> Result<(Stmt, &[Token]), Fault>
    requires depth { depth ≤ 201 }
    requires first { next (token_kinds tokens.now) ≡ number_of grammar.IF }
    ensures ok { IfOk result (λ r. Reads count grammar.Other depth (token_kinds tokens.now) (token_kinds r.1.now) (node_other (see_stmt r.0))) }
    ensures err { IfErr result (λ fault. StopsAs grammar.Other depth (token_kinds tokens.now) fault) }
    ensures unnamed { IfOk result (λ r. IsUnnamed (see_stmt r.0)) }
{
    let (at, rest) = take(count, tokens, terminal::IF, depth)?;
    let (bracket, test, rest) = tested(alloc, count, rest, depth)?;
    let (first, second, rest) = branches(alloc, count, rest, depth)?;
    Ok((if_form(at, bracket, test, first, second), rest))
}

/// "while" "(" Expr ")" Stmt
#[cycle(statements)]
fn while_stmt(
    alloc: Global,
    count: u32,
    tokens: &[Token],
    depth: u32,
) -> Result<(Stmt, &[Token]), Fault>
    requires depth { depth ≤ 201 }
    requires first { next (token_kinds tokens.now) ≡ number_of grammar.WHILE }
    ensures ok { IfOk result (λ r. Reads count grammar.Other depth (token_kinds tokens.now) (token_kinds r.1.now) (node_other (see_stmt r.0))) }
    ensures err { IfErr result (λ fault. StopsAs grammar.Other depth (token_kinds tokens.now) fault) }
    ensures unnamed { IfOk result (λ r. IsUnnamed (see_stmt r.0)) }
{
    let (at, rest) = take(count, tokens, terminal::WHILE, depth)?;
    let (bracket, test, rest) = tested(alloc, count, rest, depth)?;
    let (body, rest) = boxed_stmt(alloc, count, rest, depth)?;
    Ok((Stmt::while_loop(at, bracket, test, body), rest))
}

/// "return" [ Expr ] ";"
fn return_stmt(
    alloc: Global,
    count: u32,
    tokens: &[Token],
    depth: u32,
) -> Result<(Stmt, &[Token]), Fault>
    requires depth { depth ≤ 201 }
    requires first { next (token_kinds tokens.now) ≡ number_of grammar.RETURN }
    ensures ok { IfOk result (λ r. Reads count grammar.Other depth (token_kinds tokens.now) (token_kinds r.1.now) (node_other (see_stmt r.0))) }
    ensures err { IfErr result (λ fault. StopsAs grammar.Other depth (token_kinds tokens.now) fault) }
    ensures unnamed { IfOk result (λ r. IsUnnamed (see_stmt r.0)) }
{
    let (at, rest) = take(count, tokens, terminal::RETURN, depth)?;
    if next(rest) == terminal::SEMICOLON {
        let rest = skip(count, rest, terminal::SEMICOLON, depth)?;
        return Ok((Stmt::return_nothing(at), rest));
    }
    let (value, rest) = expr_before(alloc, count, rest, depth, terminal::SEMICOLON)?;
    Ok((Stmt::return_value(at, value), rest))
}

/// "this" Dot { Dot } ";"
fn this_stmt(
    alloc: Global,
    count: u32,
    tokens: &[Token],
    depth: u32,
) -> Result<(Stmt, &[Token]), Fault>
    requires depth { depth ≤ 201 }
    requires first { next (token_kinds tokens.now) ≡ number_of grammar.THIS }
    ensures ok { IfOk result (λ r. Reads count grammar.Other depth (token_kinds tokens.now) (token_kinds r.1.now) (node_other (see_stmt r.0))) }
    ensures err { IfErr result (λ fault. StopsAs grammar.Other depth (token_kinds tokens.now) fault) }
    ensures unnamed { IfOk result (λ r. IsUnnamed (see_stmt r.0)) }
{
    let (at, rest) = take(count, tokens, terminal::THIS, depth)?;
    let (first, calls, rest) = dot_end(alloc, count, rest, depth)?;
    Ok((Stmt::this_call(at, first, calls), rest))
}

/// "new" Name Actuals { Dot } ";"
fn new_stmt(
    alloc: Global,
    count: u32,
    tokens: &[Token],
    depth: u32,
) -> Result<(Stmt, &[Token]), Fault>
    requires depth { depth ≤ 201 }
    requires first { next (token_kinds tokens.now) ≡ number_of grammar.NEW }
    ensures ok { IfOk result (λ r. Reads count grammar.Other depth (token_kinds tokens.now) (token_kinds r.1.now) (node_other (see_stmt r.0))) }
    ensures err { IfErr result (λ fault. StopsAs grammar.Other depth (token_kinds tokens.now) fault) }
    ensures unnamed { IfOk result (λ r. IsUnnamed (see_stmt r.0)) }
{
    let (at, rest) = take(count, tokens, terminal::NEW, depth)?;
    let (name, rest) = name_of(alloc, count, rest, depth)?;
    let (passed, calls, rest) = actuals_end(alloc, count, rest, depth)?;
    Ok((Stmt::new_object(at, name, passed, calls), rest))
}
