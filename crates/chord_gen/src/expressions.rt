//! The code of expressions: operands from left to right, then the instruction.
#![tactic(auto)]

ghost use Rattle.std.specs.Prelude.{◌≡◌, ◌++◌, length, map, OnOk};
ghost use Rattle.chord_bodies.specs.View.{view_expr, view_link, view_call, expr_list, binary, links_on, calls_on};
ghost use Rattle.chord_bodies.specs.Resolved as to;
ghost use Rattle.chord_gen.specs.Emitted.{expr_code, exprs_code};
ghost use Rattle.chord_gen.specs.Emitting.{IsNarrow, AreNarrow, GoesOnAs, AreNarrowLinks, IsNarrowCall, AreNarrowCalls};

use crate::instructions::{instruction_of, next_place, patch, put};
use chord_bodies::expr::{BinaryOperator, Call, Expr, Link};
use chord_code::instruction::Instruction;
use std::alloc::{AllocError, Global};

/// Emits the code of an expression.
#[cycle(expressions)]
pub fn expression(alloc: Global, code: &mut Vec<Instruction>, expr: &Expr) -> Result<(), AllocError>
    requires narrow { IsNarrow (view_expr expr.now) }
    ensures { OnOk result (code.new.items ≡ code.old.items ++ expr_code (view_expr expr.now) (length code.old.items)) }
{
    match expr {
        Expr::Int(value) => put(code, Instruction::Int(*value)),
        Expr::Flag(value) => put(code, Instruction::Flag(*value)),
        Expr::Text(text) => put(code, Instruction::Text(text.copied(alloc)?)),
        Expr::Load(slot) => put(code, Instruction::Load(*slot)),
        Expr::This => put(code, Instruction::Load(0)),
        Expr::Negate(operand) => {
            expression(alloc, code, operand)?;
            put(code, Instruction::Neg)
        }
        Expr::Deny(operand) => {
            expression(alloc, code, operand)?;
            put(code, Instruction::Not)
        }
        Expr::Chain { first, link, more } => {
            expression(alloc, code, first)?;
            operation(alloc, code, link)?;
            operations(alloc, code, more)
        }
        Expr::New { class, arguments } => {
            expressions(alloc, code, arguments)?;
            put(
                code,
                Instruction::New(*class as u16, arguments.len() as u32),
            )
        }
        Expr::Calls { first, call, more } => {
            expression(alloc, code, first)?;
            method_call(alloc, code, call)?;
            method_calls(alloc, code, more)
        }
    }
}

/// Emits the code of arguments, the first one first.
#[cycle(expressions)]
pub fn expressions(
    alloc: Global,
    code: &mut Vec<Instruction>,
    exprs: &[Expr],
) -> Result<(), AllocError>
    requires narrow { AreNarrow (expr_list (map view_expr exprs.now)) }
    ensures { OnOk result (code.new.items ≡ code.old.items ++ exprs_code (expr_list (map view_expr exprs.now)) (length code.old.items)) }
{
    for expr in exprs {
        expression(alloc, code, expr)?;
    }
    Ok(())
}

/// Goes on behind the code of a left operand: emits that of an operator and its right operand.
#[cycle(expressions)]
fn operation(alloc: Global, code: &mut Vec<Instruction>, link: &Link) -> Result<(), AllocError>
    requires narrow { IsNarrow (view_link link.now).operand }
    ensures { OnOk result (GoesOnAs (λ left. binary (view_link link.now).operator left (view_link link.now).operand) code.old.items code.new.items) }
{
    match link.operator {
        BinaryOperator::And => right_of_and(alloc, code, &link.operand),
        BinaryOperator::Or => right_of_or(alloc, code, &link.operand),
        BinaryOperator::By(operation) => {
            expression(alloc, code, &link.operand)?;
            put(code, instruction_of(operation))
        }
    }
}

/// Goes on behind the code of a left operand with these operators, from the left.
#[cycle(expressions)]
fn operations(alloc: Global, code: &mut Vec<Instruction>, links: &[Link]) -> Result<(), AllocError>
    requires narrow { AreNarrowLinks (map view_link links.now) }
    ensures { OnOk result (GoesOnAs (λ left. links_on left (map view_link links.now)) code.old.items code.new.items) }
{
    for link in links {
        operation(alloc, code, link)?;
    }
    Ok(())
}

/// Goes on behind the left operand of `&&`: where it is false, so is the whole, and the right one is passed by.
#[cycle(expressions)]
fn right_of_and(alloc: Global, code: &mut Vec<Instruction>, right: &Expr) -> Result<(), AllocError>
    requires narrow { IsNarrow (view_expr right.now) }
    ensures { OnOk result (GoesOnAs (λ left. to.Both left (view_expr right.now)) code.old.items code.new.items) }
{
    let test = next_place(code)?;
    put(code, Instruction::Skip(0))?;
    expression(alloc, code, right)?;
    let done = next_place(code)?;
    put(code, Instruction::Jump(0))?;
    let other = next_place(code)?;
    put(code, Instruction::Flag(false))?;
    let end = next_place(code)?;
    patch(code, test, Instruction::Skip(other));
    patch(code, done, Instruction::Jump(end));
    Ok(())
}

/// Goes on behind the left operand of `||`: where it is true, so is the whole, and the right one is passed by.
#[cycle(expressions)]
fn right_of_or(alloc: Global, code: &mut Vec<Instruction>, right: &Expr) -> Result<(), AllocError>
    requires narrow { IsNarrow (view_expr right.now) }
    ensures { OnOk result (GoesOnAs (λ left. to.Either left (view_expr right.now)) code.old.items code.new.items) }
{
    let test = next_place(code)?;
    put(code, Instruction::Skip(0))?;
    put(code, Instruction::Flag(true))?;
    let done = next_place(code)?;
    put(code, Instruction::Jump(0))?;
    let other = next_place(code)?;
    expression(alloc, code, right)?;
    let end = next_place(code)?;
    patch(code, test, Instruction::Skip(other));
    patch(code, done, Instruction::Jump(end));
    Ok(())
}

/// Goes on behind the code of a receiver: emits that of a call's arguments, and the call.
#[cycle(expressions)]
fn method_call(alloc: Global, code: &mut Vec<Instruction>, call: &Call) -> Result<(), AllocError>
    requires narrow { IsNarrowCall (view_call call.now) }
    ensures { OnOk result (GoesOnAs (λ receiver. to.Call receiver (view_call call.now).class (view_call call.now).method (view_call call.now).result (view_call call.now).arguments) code.old.items code.new.items) }
{
    expressions(alloc, code, &call.arguments)?;
    put(
        code,
        Instruction::Call(call.method as u8, call.arguments.len() as u32),
    )
}

/// Goes on behind the code of a receiver with these calls, each on what those before it give.
#[cycle(expressions)]
fn method_calls(
    alloc: Global,
    code: &mut Vec<Instruction>,
    calls: &[Call],
) -> Result<(), AllocError>
    requires narrow { AreNarrowCalls (map view_call calls.now) }
    ensures { OnOk result (GoesOnAs (λ receiver. calls_on receiver (map view_call calls.now)) code.old.items code.new.items) }
{
    for call in calls {
        method_call(alloc, code, call)?;
    }
    Ok(())
}
