//! Resolved expressions. Chains of operators and of calls are lists that are never empty; brackets are gone.
#![tactic(auto)]

use chord_base::operation::Operation;
use chord_base::static_type::StaticType;
use chord_base::text::Text;

/// An operator with two operands. `&&` and `||` look at their right operand only where needed, all others at both.
#[derive(Clone, Copy, Debug, PartialEq, Eq)]
pub enum BinaryOperator {
    And,
    Or,
    By(Operation),
}

/// An expression, which a body evaluates to a value.
#[cycle(exprs)]
#[derive(Drop)]
pub enum Expr {
    Int(i32),
    Flag(bool),
    Text(Text),
    /// The value of the variable in this slot.
    Load(u32),
    This,
    Negate(Box<Expr>),
    Deny(Box<Expr>),
    /// `first`, then operators from the left, each with its right operand.
    Chain {
        first: Box<Expr>,
        link: Box<Link>,
        more: Vec<Link>,
    },
    /// A new object of the class of this number.
    New {
        class: u32,
        arguments: Vec<Expr>,
    },
    /// `first`, then synchronous calls, each on what those before it give.
    Calls {
        first: Box<Expr>,
        call: Box<Call>,
        more: Vec<Call>,
    },
}

/// An operator and its right operand.
#[cycle(exprs)]
#[derive(Drop)]
pub struct Link {
    pub operator: BinaryOperator,
    pub operand: Expr,
}

/// A synchronous call on what stands before it: the static class of the receiver, the number of the method, and the type of its result, if it has one.
#[cycle(exprs)]
#[derive(Drop)]
pub struct Call {
    pub class: u32,
    pub method: u32,
    pub result: Option<StaticType>,
    pub arguments: Vec<Expr>,
}
