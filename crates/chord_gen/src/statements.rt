//! The code of statements.
#![tactic(auto)]

ghost use Rattle.std.specs.Prelude.{◌≡◌, ◌++◌, length, map, OnOk};
ghost use Rattle.chord_bodies.specs.View.{view_expr, view_stmt, stmt_list};
ghost use Rattle.chord_gen.specs.Emitted.{expr_code, way_code, ways_code, loop_code, return_code, stmt_code, stmts_code};
ghost use Rattle.chord_gen.specs.Emitting.{IsNarrow, IsNarrowStmt, AreNarrowStmts};

use crate::expressions::{expression, expressions};
use crate::instructions::{next_place, patch, put};
use chord_bodies::expr::Expr;
use chord_bodies::stmt::Stmt;
use chord_code::instruction::Instruction;
use std::alloc::{AllocError, Global};

/// Emits the code of a statement, of a builder or of another block.
#[cycle(statements)]
pub fn statement(
    alloc: Global,
    code: &mut Vec<Instruction>,
    builder: bool,
    stmt: &Stmt,
) -> Result<(), AllocError>
    requires narrow { IsNarrowStmt (view_stmt stmt.now) }
    ensures { OnOk result (code.new.items ≡ code.old.items ++ stmt_code builder (view_stmt stmt.now) (length code.old.items)) }
{
    match stmt {
        Stmt::Store(slot, value) => {
            expression(alloc, code, value)?;
            put(code, Instruction::Store(*slot))
        }
        Stmt::Do(value) => {
            expression(alloc, code, value)?;
            put(code, Instruction::Drop)
        }
        Stmt::Send {
            receiver,
            class: _,
            method,
            arguments,
        } => {
            expression(alloc, code, receiver)?;
            expressions(alloc, code, arguments)?;
            put(
                code,
                Instruction::Send(*method as u8, arguments.len() as u32),
            )
        }
        Stmt::Print(value) => {
            expression(alloc, code, value)?;
            put(code, Instruction::Print)
        }
        Stmt::If(test, first) => if_then(alloc, code, builder, test, first),
        Stmt::IfElse(test, first, second) => if_else(alloc, code, builder, test, first, second),
        Stmt::While(test, body) => while_loop(alloc, code, builder, test, body),
        Stmt::Return => put(code, return_instruction(builder)),
        Stmt::Give(value) => {
            expression(alloc, code, value)?;
            put(code, Instruction::Endv)
        }
        Stmt::Block(stmts) => statements(alloc, code, builder, stmts),
    }
}

/// Emits the code of statements in their order.
#[cycle(statements)]
pub fn statements(
    alloc: Global,
    code: &mut Vec<Instruction>,
    builder: bool,
    stmts: &[Stmt],
) -> Result<(), AllocError>
    requires narrow { AreNarrowStmts (stmt_list (map view_stmt stmts.now)) }
    ensures { OnOk result (code.new.items ≡ code.old.items ++ stmts_code builder (stmt_list (map view_stmt stmts.now)) (length code.old.items)) }
{
    for stmt in stmts {
        statement(alloc, code, builder, stmt)?;
    }
    Ok(())
}

/// Emits `if` without `else`: the test, `skip` to the end, and the branch.
#[cycle(statements)]
fn if_then(
    alloc: Global,
    code: &mut Vec<Instruction>,
    builder: bool,
    test: &Expr,
    first: &Stmt,
) -> Result<(), AllocError>
    requires test { IsNarrow (view_expr test.now) }
    requires first { IsNarrowStmt (view_stmt first.now) }
    ensures { OnOk result (code.new.items ≡ code.old.items ++ way_code (length code.old.items) (expr_code (view_expr test.now) (length code.old.items)) (stmt_code builder (view_stmt first.now))) }
{
    expression(alloc, code, test)?;
    let skip = next_place(code)?;
    put(code, Instruction::Skip(0))?;
    statement(alloc, code, builder, first)?;
    let end = next_place(code)?;
    patch(code, skip, Instruction::Skip(end));
    Ok(())
}

/// Emits `if` with `else`: the test, `skip` to the second branch, the first one, `jump` to the end, and the second one.
#[cycle(statements)]
fn if_else(
    alloc: Global,
    code: &mut Vec<Instruction>,
    builder: bool,
    test: &Expr,
    first: &Stmt,
    second: &Stmt,
) -> Result<(), AllocError>
    requires test { IsNarrow (view_expr test.now) }
    requires first { IsNarrowStmt (view_stmt first.now) }
    requires second { IsNarrowStmt (view_stmt second.now) }
    ensures { OnOk result (code.new.items ≡ code.old.items ++ ways_code (length code.old.items) (expr_code (view_expr test.now) (length code.old.items)) (stmt_code builder (view_stmt first.now)) (stmt_code builder (view_stmt second.now))) }
{
    expression(alloc, code, test)?;
    let skip = next_place(code)?;
    put(code, Instruction::Skip(0))?;
    statement(alloc, code, builder, first)?;
    let done = next_place(code)?;
    put(code, Instruction::Jump(0))?;
    let other = next_place(code)?;
    statement(alloc, code, builder, second)?;
    let end = next_place(code)?;
    patch(code, skip, Instruction::Skip(other));
    patch(code, done, Instruction::Jump(end));
    Ok(())
}

/// Emits a loop: `jump` to the test, the body, the test, and `again` to the body.
#[cycle(statements)]
fn while_loop(
    alloc: Global,
    code: &mut Vec<Instruction>,
    builder: bool,
    test: &Expr,
    body: &Stmt,
) -> Result<(), AllocError>
    requires test { IsNarrow (view_expr test.now) }
    requires body { IsNarrowStmt (view_stmt body.now) }
    ensures { OnOk result (code.new.items ≡ code.old.items ++ loop_code (length code.old.items) (expr_code (view_expr test.now)) (stmt_code builder (view_stmt body.now))) }
{
    let jump = next_place(code)?;
    put(code, Instruction::Jump(0))?;
    let round = next_place(code)?;
    statement(alloc, code, builder, body)?;
    let place = next_place(code)?;
    patch(code, jump, Instruction::Jump(place));
    expression(alloc, code, test)?;
    put(code, Instruction::Again(round))
}

/// The instruction of `return` without a value: a builder goes back, and a body ends.
pub fn return_instruction(builder: bool) -> Instruction
    ensures { result ≡ return_code builder }
{
    if builder {
        Instruction::Back
    } else {
        Instruction::End
    }
}
