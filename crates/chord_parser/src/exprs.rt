//! The parser of expressions. It looks one token ahead.
#![tactic(auto)]

ghost use Rattle.std.specs.Prelude.{◌≡◌, ◌≢◌, ◌<◌, ◌≤◌, ◌-◌, map, IfOk, IfErr, IfSome, IfNone};
ghost use Rattle.chord_tree.specs.Derivation.{next};
ghost use Rattle.chord_tree.specs.Symbol.{number_of};
ghost use Rattle.chord_tree.specs.Program.{token_kinds};
ghost use Rattle.chord_tree.specs.ExprNodes.{operator_level, link_level, level_symbol, level_tail, precedence, node_at, node_links, node_start, node_actuals, node_exprs, node_dots, node_dot};
ghost use Rattle.chord_tree.specs.Symbols as grammar;
ghost use Rattle.chord_tree.specs.Tree.{DotTrees, PrimaryExpr, MoreLinks, links, dots, exprs};
ghost use Rattle.chord_tree.specs.ViewExprs.{see_expr, see_link, see_start, see_actuals, see_dot};
ghost use Rattle.chord_parser.specs.Reading.{StopsAs, IsOther, operator_at, operator_terminal};
ghost use Rattle.chord_parser.specs.Climbing.{NoneUpTo, Chains, IsLinkRead};
ghost use Rattle.chord_parser.specs.Runs.{Reads};

use crate::faults::Fault;
use crate::terminal;
use crate::tokens::{literal_next, name_of, next, number_next, skip, take, take_known};
use chord_lexer::token::{Kind, Mark, Token};
use chord_tree::exprs::{Actuals, Dot, Expr, Link, Operator, Start};
use std::alloc::Global;

/// The terminal of an operator.
fn terminal_of_operator(operator: Operator) -> u8
    ensures { result ≡ operator_terminal operator }
{
    match operator {
        Operator::Or => terminal::OR,
        Operator::And => terminal::AND,
        Operator::Equal => terminal::EQUAL,
        Operator::NotEqual => terminal::NOT_EQUAL,
        Operator::Less => terminal::LESS,
        Operator::Greater => terminal::GREATER,
        Operator::LessOrEqual => terminal::LESS_OR_EQUAL,
        Operator::GreaterOrEqual => terminal::GREATER_OR_EQUAL,
        Operator::Plus => terminal::PLUS,
        Operator::Minus => terminal::MINUS,
        Operator::Times => terminal::TIMES,
        Operator::Divide => terminal::DIVIDE,
        Operator::Remainder => terminal::REMAINDER,
    }
}

/// The level of an operator, from 1 for `*` to 6 for `||`.
fn level_of(operator: Operator) -> u8
    ensures { result ≡ operator_level operator }
{
    match operator {
        Operator::Or => 6,
        Operator::And => 5,
        Operator::Equal => 4,
        Operator::NotEqual => 4,
        Operator::Less => 3,
        Operator::Greater => 3,
        Operator::LessOrEqual => 3,
        Operator::GreaterOrEqual => 3,
        Operator::Plus => 2,
        Operator::Minus => 2,
        Operator::Times => 1,
        Operator::Divide => 1,
        Operator::Remainder => 1,
    }
}

fn operator_of_mark(sign: Mark) -> Option<Operator>
    ensures { result ≡ operator_at (Kind.Mark sign) }
{
    match sign {
        Mark::Or => Some(Operator::Or),
        Mark::And => Some(Operator::And),
        Mark::Equal => Some(Operator::Equal),
        Mark::NotEqual => Some(Operator::NotEqual),
        Mark::Less => Some(Operator::Less),
        Mark::Greater => Some(Operator::Greater),
        Mark::LessOrEqual => Some(Operator::LessOrEqual),
        Mark::GreaterOrEqual => Some(Operator::GreaterOrEqual),
        Mark::Plus => Some(Operator::Plus),
        Mark::Minus => Some(Operator::Minus),
        Mark::Times => Some(Operator::Times),
        Mark::Divide => Some(Operator::Divide),
        Mark::Remainder => Some(Operator::Remainder),
        _ => None,
    }
}

/// The operator that a kind of token is.
fn operator_of_kind(kind: &Kind) -> Option<Operator>
    ensures { result ≡ operator_at kind.now }
{
    match kind {
        Kind::Mark(sign) => operator_of_mark(*sign),
        _ => None,
    }
}

/// The operator that comes next, if it is of the level.
fn operator_of_level(tokens: &[Token], level: u8) -> Option<Operator>
    ensures some { IfSome result (λ o. next (token_kinds tokens.now) ≡ operator_terminal o) }
    ensures level { IfSome result (λ o. operator_level o ≡ level) }
    ensures none { IfNone result (IsOther level (token_kinds tokens.now)) }
{
    let (first, _) = tokens.split_first()?;
    let operator = operator_of_kind(&first.kind)?;
    if level_of(operator) == level {
        Some(operator)
    } else {
        None
    }
}

/// The operator that comes next, if its level is at most this.
fn operator_up_to(tokens: &[Token], level: u8) -> Option<Operator>
    ensures some { IfSome result (λ o. next (token_kinds tokens.now) ≡ operator_terminal o) }
    ensures within { IfSome result (λ o. operator_level o ≤ level) }
    ensures none { IfNone result (NoneUpTo level (token_kinds tokens.now)) }
{
    let (first, _) = tokens.split_first()?;
    let operator = operator_of_kind(&first.kind)?;
    if level_of(operator) <= level {
        Some(operator)
    } else {
        None
    }
}

/// Expr = And { "||" And }
#[inline(always)]
#[cycle(parser)]
pub fn expr(
    alloc: Global,
    count: u32,
    tokens: &[Token],
    depth: u32,
) -> Result<(Expr, &[Token]), Fault>
    requires depth { depth ≤ 200 }
    ensures ok { IfOk result (λ r. Reads count grammar.Expr depth (token_kinds tokens.now) (token_kinds r.1.now) (node_at 6 (see_expr r.0))) }
    ensures err { IfErr result (λ fault. StopsAs grammar.Expr depth (token_kinds tokens.now) fault) }
{
    let (first, rest) = chain(alloc, count, tokens, depth + 1, 5)?;
    if next(rest) != terminal::OR {
        return Ok((first, rest));
    }
    let (whole, rest) = chained_by_or(alloc, count, rest, depth + 1, first)?;
    Ok((whole, rest))
}

/// The chain of the operand before and the links of `||`, which comes next.
///
/// Apart from `expr`, since few expressions have one: what it takes on the stack would be cleared for each.
#[inline(never)]
#[cycle(parser)]
fn chained_by_or(
    alloc: Global,
    count: u32,
    tokens: &[Token],
    depth: u32,
    first: Expr,
) -> Result<(Expr, &[Token]), Fault>
    requires depth { depth ≤ 201 }
    requires next { next (token_kinds tokens.now) ≡ number_of grammar.OR }
    ensures ok { IfOk result (λ r. Chains count 6 depth (see_expr first) (see_expr r.0) (token_kinds tokens.now) (token_kinds r.1.now)) }
    ensures err { IfErr result (λ fault. StopsAs (level_tail 6) depth (token_kinds tokens.now) fault) }
{
    chained(alloc, count, tokens, depth, Operator::Or, first)
}

/// And = Equal { "&&" Equal }
/// Equal = Order { ( "==" | "!=" ) Order }
/// Order = Sum { ( "<" | ">" | "<=" | ">=" ) Sum }
/// Sum = Product { ( "+" | "-" ) Product }
/// Product = Unary { ( "*" | "/" | "%" ) Unary }
///
/// By precedence climbing: after an operand, the levels below that of the next operator have ended.
#[cycle(parser)]
fn chain(
    alloc: Global,
    count: u32,
    tokens: &[Token],
    depth: u32,
    level: u8,
) -> Result<(Expr, &[Token]), Fault>
    requires depth { depth ≤ 201 }
    requires level { level ≤ 5 }
    ensures ok { IfOk result (λ r. Reads count (level_symbol level) depth (token_kinds tokens.now) (token_kinds r.1.now) (node_at level (see_expr r.0))) }
    ensures err { IfErr result (λ fault. StopsAs (level_symbol level) depth (token_kinds tokens.now) fault) }
    ensures within { IfOk result (λ r. precedence (see_expr r.0) ≤ level) }
    ensures none { IfOk result (λ r. NoneUpTo level (token_kinds r.1.now)) }
{
    let (mut whole, mut left) = unary(alloc, count, tokens, depth)?;
    'each: while let Some(operator) = operator_up_to(left, level) {
        let (longer, rest) = chained(alloc, count, left, depth, operator, whole)?;
        whole = longer;
        left = rest;
    }
    Ok((whole, left))
}

/// The chain of the operand before and the links of the operator's level, of which this is the first.
#[inline(always)]
#[cycle(parser)]
fn chained(
    alloc: Global,
    count: u32,
    tokens: &[Token],
    depth: u32,
    operator: Operator,
    first: Expr,
) -> Result<(Expr, &[Token]), Fault>
    requires depth { depth ≤ 201 }
    requires next { next (token_kinds tokens.now) ≡ operator_terminal operator }
    ensures ok { IfOk result (λ r. Chains count (operator_level operator) depth (see_expr first) (see_expr r.0) (token_kinds tokens.now) (token_kinds r.1.now)) }
    ensures err { IfErr result (λ fault. StopsAs (level_tail (operator_level operator)) depth (token_kinds tokens.now) fault) }
    ensures none { IfOk result (λ r. NoneUpTo (operator_level operator) (token_kinds r.1.now)) }
{
    let (one, more, rest) = links(alloc, count, tokens, depth, operator)?;
    let whole = Expr::chain(alloc, first, one, more)?;
    Ok((whole, rest))
}

/// The links of the operator's level, of which this is the first: one, and those after it.
#[inline(always)]
#[cycle(parser)]
fn links(
    alloc: Global,
    count: u32,
    tokens: &[Token],
    depth: u32,
    operator: Operator,
) -> Result<(Link, Vec<Link>, &[Token]), Fault>
    requires depth { depth ≤ 201 }
    requires next { next (token_kinds tokens.now) ≡ operator_terminal operator }
    ensures ok { IfOk result (λ r. Reads count (level_tail (operator_level operator)) depth (token_kinds tokens.now) (token_kinds r.2.now) (node_links (operator_level operator) (MoreLinks (see_link r.0) (links (map see_link r.1.items))))) }
    ensures err { IfErr result (λ fault. StopsAs (level_tail (operator_level operator)) depth (token_kinds tokens.now) fault) }
    ensures level { IfOk result (λ r. link_level (see_link r.0) ≡ operator_level operator) }
    ensures none { IfOk result (λ r. NoneUpTo (operator_level operator) (token_kinds r.2.now)) }
{
    let (first, rest) = link(alloc, count, tokens, depth, operator)?;
    let Some(_following) = operator_of_level(rest, level_of(operator)) else {
        return Ok((first, Vec::new(alloc), rest));
    };
    let (more, rest) = more_links(alloc, count, rest, depth, operator)?;
    Ok((first, more, rest))
}

/// All links of the operator's level that come next.
#[inline(always)]
#[cycle(parser)]
fn more_links(
    alloc: Global,
    count: u32,
    tokens: &[Token],
    depth: u32,
    operator: Operator,
) -> Result<(Vec<Link>, &[Token]), Fault>
    requires depth { depth ≤ 201 }
    requires none { NoneUpTo (operator_level operator - 1) (token_kinds tokens.now) }
    ensures ok { IfOk result (λ r. Reads count (level_tail (operator_level operator)) depth (token_kinds tokens.now) (token_kinds r.1.now) (node_links (operator_level operator) (links (map see_link r.0.items)))) }
    ensures err { IfErr result (λ fault. StopsAs (level_tail (operator_level operator)) depth (token_kinds tokens.now) fault) }
    ensures none { IfOk result (λ r. NoneUpTo (operator_level operator) (token_kinds r.1.now)) }
{
    // most chains that have further links have one
    let mut more = Vec::with_capacity(alloc, 1)?;
    let mut left = tokens;
    'each: while let Some(following) = operator_of_level(left, level_of(operator)) {
        let (one, rest) = link(alloc, count, left, depth, following)?;
        more.push(one)?;
        left = rest;
    }
    Ok((more, left))
}

/// An operator, which comes next, and its right operand.
#[inline(always)]
#[cycle(parser)]
fn link(
    alloc: Global,
    count: u32,
    tokens: &[Token],
    depth: u32,
    operator: Operator,
) -> Result<(Link, &[Token]), Fault>
    requires depth { depth ≤ 201 }
    requires next { next (token_kinds tokens.now) ≡ operator_terminal operator }
    ensures ok { IfOk result (λ r. IsLinkRead count (operator_level operator) depth (token_kinds tokens.now) (token_kinds r.1.now) (see_link r.0)) }
    ensures err { IfErr result (λ fault. StopsAs (level_tail (operator_level operator)) depth (token_kinds tokens.now) fault) }
{
    let (at, rest) = take_known(count, tokens, terminal_of_operator(operator), depth)?;
    let (operand, rest) = operand(alloc, count, rest, depth, level_of(operator) - 1)?;
    Ok((Link::new(operator, at, operand), rest))
}

/// The right operand of an operator of the level above. Below the lowest level no operator is looked for.
#[inline(always)]
#[cycle(parser)]
fn operand(
    alloc: Global,
    count: u32,
    tokens: &[Token],
    depth: u32,
    level: u8,
) -> Result<(Expr, &[Token]), Fault>
    requires depth { depth ≤ 201 }
    requires level { level ≤ 5 }
    ensures ok { IfOk result (λ r. Reads count (level_symbol level) depth (token_kinds tokens.now) (token_kinds r.1.now) (node_at level (see_expr r.0))) }
    ensures err { IfErr result (λ fault. StopsAs (level_symbol level) depth (token_kinds tokens.now) fault) }
    ensures none { IfOk result (λ r. NoneUpTo level (token_kinds r.1.now)) }
{
    if level == 0 {
        let (bare, rest) = unary(alloc, count, tokens, depth)?;
        return Ok((bare, rest));
    }
    let (whole, rest) = chain(alloc, count, tokens, depth, level)?;
    Ok((whole, rest))
}

/// Unary = ( "-" | "!" ) Unary | Primary
///
/// A number on which nothing is called is read in line.
#[inline(always)]
#[cycle(parser)]
fn unary(alloc: Global, count: u32, tokens: &[Token], depth: u32) -> Result<(Expr, &[Token]), Fault>
    requires depth { depth ≤ 201 }
    ensures ok { IfOk result (λ r. Reads count grammar.Unary depth (token_kinds tokens.now) (token_kinds r.1.now) (node_at 0 (see_expr r.0))) }
    ensures err { IfErr result (λ fault. StopsAs grammar.Unary depth (token_kinds tokens.now) fault) }
    ensures precedence { IfOk result (λ r. precedence (see_expr r.0) ≡ 0) }
{
    let ahead = next(tokens);
    if ahead == terminal::NUMBER {
        let (value, at, rest) = number_next(count, tokens, depth + 1)?;
        let after = next(rest);
        if after != terminal::DOT {
            return Ok((Expr::start(Start::number(value, at)), rest));
        }
    }
    // taken apart, so that a number's parts above need no place in memory
    let (whole, rest) = any_unary(alloc, count, tokens, depth)?;
    Ok((whole, rest))
}

/// Unary = ( "-" | "!" ) Unary | Primary
/// Primary = Start { Dot }
#[inline(never)]
#[cycle(parser)]
fn any_unary(
    alloc: Global,
    count: u32,
    tokens: &[Token],
    depth: u32,
) -> Result<(Expr, &[Token]), Fault>
    requires depth { depth ≤ 201 }
    ensures ok { IfOk result (λ r. Reads count grammar.Unary depth (token_kinds tokens.now) (token_kinds r.1.now) (node_at 0 (see_expr r.0))) }
    ensures err { IfErr result (λ fault. StopsAs grammar.Unary depth (token_kinds tokens.now) fault) }
    ensures precedence { IfOk result (λ r. precedence (see_expr r.0) ≡ 0) }
{
    let ahead = next(tokens);
    if ahead == terminal::MINUS {
        return unary_minus(alloc, count, tokens, depth);
    }
    if ahead == terminal::NOT {
        return unary_not(alloc, count, tokens, depth);
    }
    let (first, rest) = start(alloc, count, tokens, depth + 1, ahead)?;
    if next(rest) == terminal::DOT {
        let (whole, rest) = calls_on(alloc, count, rest, depth + 1, first)?;
        return Ok((whole, rest));
    }
    Ok((Expr::start(first), rest))
}

/// Dot { Dot }, on the start before
#[inline(never)]
#[cycle(parser)]
fn calls_on(
    alloc: Global,
    count: u32,
    tokens: &[Token],
    depth: u32,
    start: Start,
) -> Result<(Expr, &[Token]), Fault>
    requires depth { depth ≤ 202 }
    requires first { next (token_kinds tokens.now) ≡ number_of grammar.DOT }
    ensures ok { IfOk result (λ r. (calls : DotTrees) × (see_expr r.0 ≡ PrimaryExpr (see_start start) calls) × Reads count grammar.Dots depth (token_kinds tokens.now) (token_kinds r.1.now) (node_dots calls)) }
    ensures err { IfErr result (λ fault. StopsAs grammar.Dots depth (token_kinds tokens.now) fault) }
{
    let (first, rest) = dot(alloc, count, tokens, depth)?;
    let (more, rest) = dots_next(alloc, count, rest, depth)?;
    Ok((Expr::calls(alloc, start, first, more)?, rest))
}

/// "-" Unary
#[cycle(parser)]
fn unary_minus(
    alloc: Global,
    count: u32,
    tokens: &[Token],
    depth: u32,
) -> Result<(Expr, &[Token]), Fault>
    requires depth { depth ≤ 201 }
    requires first { next (token_kinds tokens.now) ≡ number_of grammar.MINUS }
    ensures ok { IfOk result (λ r. Reads count grammar.Unary depth (token_kinds tokens.now) (token_kinds r.1.now) (node_at 0 (see_expr r.0))) }
    ensures err { IfErr result (λ fault. StopsAs grammar.Unary depth (token_kinds tokens.now) fault) }
    ensures precedence { IfOk result (λ r. precedence (see_expr r.0) ≡ 0) }
{
    let (at, rest) = take(count, tokens, terminal::MINUS, depth + 1)?;
    let (inner, rest) = unary(alloc, count, rest, depth + 1)?;
    Ok((Expr::minus(alloc, at, inner)?, rest))
}

/// "!" Unary
#[cycle(parser)]
fn unary_not(
    alloc: Global,
    count: u32,
    tokens: &[Token],
    depth: u32,
) -> Result<(Expr, &[Token]), Fault>
    requires depth { depth ≤ 201 }
    requires first { next (token_kinds tokens.now) ≡ number_of grammar.NOT }
    ensures ok { IfOk result (λ r. Reads count grammar.Unary depth (token_kinds tokens.now) (token_kinds r.1.now) (node_at 0 (see_expr r.0))) }
    ensures err { IfErr result (λ fault. StopsAs grammar.Unary depth (token_kinds tokens.now) fault) }
    ensures precedence { IfOk result (λ r. precedence (see_expr r.0) ≡ 0) }
{
    let (at, rest) = take(count, tokens, terminal::NOT, depth + 1)?;
    let (inner, rest) = unary(alloc, count, rest, depth + 1)?;
    Ok((Expr::not(alloc, at, inner)?, rest))
}

/// Start = Name [ Actuals ] | "this" | "new" Name Actuals
///     | Number | Literal | "true" | "false" | "(" Expr ")"
///
/// By the terminal of the next token, which the caller has read.
#[cycle(parser)]
fn start(
    alloc: Global,
    count: u32,
    tokens: &[Token],
    depth: u32,
    ahead: u8,
) -> Result<(Start, &[Token]), Fault>
    requires depth { depth ≤ 202 }
    requires ahead { ahead ≡ next (token_kinds tokens.now) }
    ensures ok { IfOk result (λ r. Reads count grammar.Operand_start depth (token_kinds tokens.now) (token_kinds r.1.now) (node_start (see_start r.0))) }
    ensures err { IfErr result (λ fault. StopsAs grammar.Operand_start depth (token_kinds tokens.now) fault) }
{
    if ahead == terminal::NAME {
        return start_name(alloc, count, tokens, depth);
    }
    if ahead == terminal::NEW {
        return start_new(alloc, count, tokens, depth);
    }
    if ahead == terminal::OPEN {
        return start_group(alloc, count, tokens, depth);
    }
    start_token(alloc, count, tokens, depth, ahead)
}

/// Name [ Actuals ]
#[cycle(parser)]
fn start_name(
    alloc: Global,
    count: u32,
    tokens: &[Token],
    depth: u32,
) -> Result<(Start, &[Token]), Fault>
    requires depth { depth ≤ 202 }
    requires first { next (token_kinds tokens.now) ≡ number_of grammar.NAME }
    ensures ok { IfOk result (λ r. Reads count grammar.Operand_start depth (token_kinds tokens.now) (token_kinds r.1.now) (node_start (see_start r.0))) }
    ensures err { IfErr result (λ fault. StopsAs grammar.Operand_start depth (token_kinds tokens.now) fault) }
{
    let (name, rest) = name_of(alloc, count, tokens, depth)?;
    if next(rest) == terminal::OPEN {
        let (passed, rest) = actuals(alloc, count, rest, depth)?;
        return Ok((Start::call(alloc, name, passed)?, rest));
    }
    Ok((Start::variable(name), rest))
}

/// "new" Name Actuals
#[cycle(parser)]
fn start_new(
    alloc: Global,
    count: u32,
    tokens: &[Token],
    depth: u32,
) -> Result<(Start, &[Token]), Fault>
    requires depth { depth ≤ 202 }
    requires first { next (token_kinds tokens.now) ≡ number_of grammar.NEW }
    ensures ok { IfOk result (λ r. Reads count grammar.Operand_start depth (token_kinds tokens.now) (token_kinds r.1.now) (node_start (see_start r.0))) }
    ensures err { IfErr result (λ fault. StopsAs grammar.Operand_start depth (token_kinds tokens.now) fault) }
{
    let (at, rest) = take(count, tokens, terminal::NEW, depth)?;
    let (name, rest) = name_of(alloc, count, rest, depth)?;
    let (passed, rest) = actuals(alloc, count, rest, depth)?;
    Ok((Start::new_object(alloc, at, name, passed)?, rest))
}

/// "(" Expr ")"
#[inline(always)]
#[cycle(parser)]
fn start_group(
    alloc: Global,
    count: u32,
    tokens: &[Token],
    depth: u32,
) -> Result<(Start, &[Token]), Fault>
    requires depth { depth ≤ 202 }
    requires first { next (token_kinds tokens.now) ≡ number_of grammar.OPEN }
    ensures ok { IfOk result (λ r. Reads count grammar.Operand_start depth (token_kinds tokens.now) (token_kinds r.1.now) (node_start (see_start r.0))) }
    ensures err { IfErr result (λ fault. StopsAs grammar.Operand_start depth (token_kinds tokens.now) fault) }
{
    let (at, rest) = take(count, tokens, terminal::OPEN, depth)?;
    let (inner, rest) = expr(alloc, count, rest, depth)?;
    let rest = skip(count, rest, terminal::CLOSE, depth)?;
    Ok((Start::group(alloc, at, inner)?, rest))
}

/// "this" | Number | Literal | "true" | "false"
fn start_token(
    alloc: Global,
    count: u32,
    tokens: &[Token],
    depth: u32,
    ahead: u8,
) -> Result<(Start, &[Token]), Fault>
    requires depth { depth ≤ 202 }
    requires ahead { ahead ≡ next (token_kinds tokens.now) }
    requires name { next (token_kinds tokens.now) ≢ number_of grammar.NAME }
    requires new { next (token_kinds tokens.now) ≢ number_of grammar.NEW }
    requires open { next (token_kinds tokens.now) ≢ number_of grammar.OPEN }
    ensures ok { IfOk result (λ r. Reads count grammar.Operand_start depth (token_kinds tokens.now) (token_kinds r.1.now) (node_start (see_start r.0))) }
    ensures err { IfErr result (λ fault. StopsAs grammar.Operand_start depth (token_kinds tokens.now) fault) }
{
    if ahead == terminal::THIS {
        let (at, rest) = take(count, tokens, terminal::THIS, depth)?;
        return Ok((Start::this(at), rest));
    }
    if ahead == terminal::NUMBER {
        let (value, at, rest) = number_next(count, tokens, depth)?;
        return Ok((Start::number(value, at), rest));
    }
    if ahead == terminal::LITERAL {
        let (bytes, at, rest) = literal_next(alloc, count, tokens, depth)?;
        return Ok((Start::literal(bytes, at), rest));
    }
    if ahead == terminal::TRUE {
        let (at, rest) = take(count, tokens, terminal::TRUE, depth)?;
        return Ok((Start::true_word(at), rest));
    }
    if ahead == terminal::FALSE {
        let (at, rest) = take(count, tokens, terminal::FALSE, depth)?;
        return Ok((Start::false_word(at), rest));
    }
    Err(Fault::At(tokens.len()))
}

/// { Dot }
#[cycle(parser)]
pub fn dots_next(
    alloc: Global,
    count: u32,
    tokens: &[Token],
    depth: u32,
) -> Result<(Vec<Dot>, &[Token]), Fault>
    requires depth { depth ≤ 202 }
    ensures ok { IfOk result (λ r. Reads count grammar.Dots depth (token_kinds tokens.now) (token_kinds r.1.now) (node_dots (dots (map see_dot r.0.items)))) }
    ensures err { IfErr result (λ fault. StopsAs grammar.Dots depth (token_kinds tokens.now) fault) }
{
    let mut calls = Vec::new(alloc);
    let mut left = tokens;
    'each: while next(left) == terminal::DOT {
        let (one, rest) = dot(alloc, count, left, depth)?;
        calls.push(one)?;
        left = rest;
    }
    Ok((calls, left))
}

/// Dot = "." Name Actuals
#[cycle(parser)]
pub fn dot(
    alloc: Global,
    count: u32,
    tokens: &[Token],
    depth: u32,
) -> Result<(Dot, &[Token]), Fault>
    requires depth { depth ≤ 202 }
    ensures ok { IfOk result (λ r. Reads count grammar.Dot depth (token_kinds tokens.now) (token_kinds r.1.now) (node_dot (see_dot r.0))) }
    ensures err { IfErr result (λ fault. StopsAs grammar.Dot depth (token_kinds tokens.now) fault) }
{
    let (at, rest) = take(count, tokens, terminal::DOT, depth)?;
    let (name, rest) = name_of(alloc, count, rest, depth)?;
    let (passed, rest) = actuals(alloc, count, rest, depth)?;
    Ok((Dot::new(at, name, passed), rest))
}

/// Actuals = "(" [ Expr { "," Expr } ] ")"
#[cycle(parser)]
pub fn actuals(
    alloc: Global,
    count: u32,
    tokens: &[Token],
    depth: u32,
) -> Result<(Actuals, &[Token]), Fault>
    requires depth { depth ≤ 202 }
    ensures ok { IfOk result (λ r. Reads count grammar.Actuals depth (token_kinds tokens.now) (token_kinds r.1.now) (node_actuals (see_actuals r.0))) }
    ensures err { IfErr result (λ fault. StopsAs grammar.Actuals depth (token_kinds tokens.now) fault) }
{
    let (at, rest) = take(count, tokens, terminal::OPEN, depth)?;
    let (passed, rest) = actuals_inside(alloc, count, rest, depth)?;
    let rest = skip(count, rest, terminal::CLOSE, depth)?;
    Ok((Actuals::new(at, passed), rest))
}

/// [ Expr { "," Expr } ]
#[cycle(parser)]
fn actuals_inside(
    alloc: Global,
    count: u32,
    tokens: &[Token],
    depth: u32,
) -> Result<(Vec<Expr>, &[Token]), Fault>
    requires depth { depth ≤ 200 }
    ensures ok { IfOk result (λ r. Reads count grammar.Optional_exprs depth (token_kinds tokens.now) (token_kinds r.1.now) (node_exprs (exprs (map see_expr r.0.items)))) }
    ensures err { IfErr result (λ fault. StopsAs grammar.Optional_exprs depth (token_kinds tokens.now) fault) }
{
    let mut passed = Vec::new(alloc);
    if next(tokens) == terminal::CLOSE {
        return Ok((passed, tokens));
    }
    let (first, mut left) = expr(alloc, count, tokens, depth)?;
    passed.push(first)?;
    'each: while next(left) == terminal::COMMA {
        let rest = skip(count, left, terminal::COMMA, depth)?;
        let (one, rest) = expr(alloc, count, rest, depth)?;
        passed.push(one)?;
        left = rest;
    }
    Ok((passed, left))
}
