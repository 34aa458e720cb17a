//! Resolved statements.
#![tactic(auto)]

use crate::expr::Expr;

/// A statement. A local's declaration is a `Store`, and `if` with and without `else` are two forms.
#[derive(Drop)]
pub enum Stmt {
    /// The variable in this slot gets a value.
    Store(u32, Expr),
    /// The value is dropped.
    Do(Expr),
    /// An asynchronous call.
    Send {
        receiver: Expr,
        class: u32,
        method: u32,
        arguments: Vec<Expr>,
    },
    /// The text of the value is a line.
    Print(Expr),
    If(Expr, Box<Stmt>),
    IfElse(Expr, Box<Stmt>, Box<Stmt>),
    While(Expr, Box<Stmt>),
    Return,
    /// `return` with a value.
    Give(Expr),
    Block(Vec<Stmt>),
}
