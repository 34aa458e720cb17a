//! Expressions. Chains of operators and of dots are lists, brackets are kept, and tokens are known by their numbers.
#![tactic(auto)]

ghost use Rattle.std.specs.Prelude.{◌≡◌, false, IfOk, map};
ghost use Rattle.chord_tree.specs.Tree.{links, exprs, dots, ChainExpr, MinusExpr, NotExpr, PrimaryExpr, MakeLink, VariableStart, CallStart, ThisStart, NewStart, NumberStart, LiteralStart, TrueStart, FalseStart, GroupStart, MakeActuals, MakeDot, NoDots, MoreDots};
ghost use Rattle.chord_tree.specs.Terms.{term, started, first_token};
ghost use Rattle.chord_tree.specs.ViewExprs.{see_expr, see_link, see_start, see_actuals, see_dot};

use crate::names::Name;
use chord_lexer::bytes::Bytes;
use std::alloc::{AllocError, Global};

/// An operator with two operands.
#[derive(Clone, Copy, Debug, PartialEq, Eq)]
pub enum Operator {
    /// `||`
    Or,
    /// `&&`
    And,
    /// `==`
    Equal,
    /// `!=`
    NotEqual,
    /// `<`
    Less,
    /// `>`
    Greater,
    /// `<=`
    LessOrEqual,
    /// `>=`
    GreaterOrEqual,
    /// `+`
    Plus,
    /// `-`
    Minus,
    /// `*`
    Times,
    /// `/`
    Divide,
    /// `%`
    Remainder,
}

/// An expression.
#[cycle(exprs)]
#[derive(Drop)]
pub enum Expr {
    /// Operands joined by operators of one level.
    Chain(Box<Chain>),
    /// `-` and its operand.
    Minus { at: u32, operand: Box<Expr> },
    /// `!` and its operand.
    Not { at: u32, operand: Box<Expr> },
    /// A start on which nothing is called.
    Start(Start),
    /// A start and the calls on it.
    Calls(Box<Calls>),
}

/// Operands joined by operators of one level, which group from the left. There is one operator at least.
#[cycle(exprs)]
#[derive(Drop)]
pub struct Chain {
    /// The first operand.
    pub first: Expr,
    /// The first operator, and its right operand.
    pub link: Link,
    /// The other operators, each with its right operand.
    pub more: Vec<Link>,
}

/// An operator of a chain and its right operand.
#[cycle(exprs)]
#[derive(Drop)]
pub struct Link {
    /// The operator.
    pub operator: Operator,
    /// The number of its token.
    pub at: u32,
    /// Its right operand.
    pub operand: Expr,
}

/// A start and the calls on it, each on what those before it give. There is one call at least.
#[cycle(exprs)]
#[derive(Drop)]
pub struct Calls {
    /// What the first call is on.
    pub start: Start,
    /// The first call.
    pub first: Dot,
    /// The other calls.
    pub more: Vec<Dot>,
}

/// What an expression without operators begins with.
#[cycle(exprs)]
#[derive(Drop)]
pub enum Start {
    /// A variable, or the word `Console` before a dot.
    Variable(Name),
    /// A call without receiver.
    Call(Box<OwnCall>),
    /// `this`
    This { at: u32 },
    /// `new` and a class, with the arguments of its constructor.
    New(Box<Creation>),
    /// A number.
    Number { value: u32, at: u32 },
    /// A text literal.
    Literal { at: u32, bytes: Bytes },
    /// `true`
    True { at: u32 },
    /// `false`
    False { at: u32 },
    /// A chain in brackets, which needs no box of its own; the number is that of `(`.
    ChainGroup { at: u32, chain: Box<Chain> },
    /// Another expression in brackets; the number is that of `(`.
    Group { at: u32, inner: Box<Expr> },
}

/// A call without receiver.
#[cycle(exprs)]
#[derive(Drop)]
pub struct OwnCall {
    /// The method.
    pub name: Name,
    /// The arguments.
    pub actuals: Actuals,
}

/// `new` and a class, with the arguments of its constructor.
#[cycle(exprs)]
#[derive(Drop)]
pub struct Creation {
    /// The number of `new`.
    pub at: u32,
    /// The class.
    pub name: Name,
    /// The arguments.
    pub actuals: Actuals,
}

/// Arguments in brackets.
#[cycle(exprs)]
#[derive(Drop)]
pub struct Actuals {
    /// The number of `(`.
    pub at: u32,
    /// The arguments.
    pub arguments: Vec<Expr>,
}

/// A dot, a method and its arguments.
#[cycle(exprs)]
#[derive(Drop)]
pub struct Dot {
    /// The number of `.`.
    pub at: u32,
    /// The method.
    pub name: Name,
    /// The arguments.
    pub actuals: Actuals,
}

impl Expr {
    /// Operands joined by operators of one level: the first, an operator with its right operand, and the others.
    #[inline(always)]
    pub fn chain(
        alloc: Global,
        first: Expr,
        link: Link,
        more: Vec<Link>,
    ) -> Result<Expr, AllocError>
        ensures { IfOk result (λ e. see_expr e ≡ ChainExpr (see_expr first) (see_link link) (links (map see_link more.items))) }
    {
        let chain = Box::new(alloc, Chain { first, link, more })?;
        Ok(Expr::Chain(chain))
    }

    /// `-` and its operand.
    pub fn minus(alloc: Global, at: u32, operand: Expr) -> Result<Expr, AllocError>
        ensures { IfOk result (λ e. see_expr e ≡ MinusExpr at (see_expr operand)) }
    {
        Ok(Expr::Minus {
            at,
            operand: Box::new(alloc, operand)?,
        })
    }

    /// `!` and its operand.
    pub fn not(alloc: Global, at: u32, operand: Expr) -> Result<Expr, AllocError>
        ensures { IfOk result (λ e. see_expr e ≡ NotExpr at (see_expr operand)) }
    {
        Ok(Expr::Not {
            at,
            operand: Box::new(alloc, operand)?,
        })
    }

    /// A start on which nothing is called.
    pub fn start(start: Start) -> Expr
        ensures { see_expr result ≡ PrimaryExpr (see_start start) NoDots }
    {
        Expr::Start(start)
    }

    /// A start and the calls on it: the first one, and the others.
    pub fn calls(
        alloc: Global,
        start: Start,
        first: Dot,
        more: Vec<Dot>,
    ) -> Result<Expr, AllocError>
        ensures { IfOk result (λ e. see_expr e ≡ PrimaryExpr (see_start start) (MoreDots (see_dot first) (dots (map see_dot more.items)))) }
    {
        let calls = Box::new(alloc, Calls { start, first, more })?;
        Ok(Expr::Calls(calls))
    }

    /// The number of its first token.
    pub fn first_token(&self) -> u32
        ensures { result ≡ first_token (term (see_expr self.now)) }
    {
        match self {
            Expr::Chain(chain) => chain.first.first_token(),
            Expr::Minus { at, operand: _ } => *at,
            Expr::Not { at, operand: _ } => *at,
            Expr::Start(start) => start.first_token(),
            Expr::Calls(calls) => calls.start.first_token(),
        }
    }
}

impl Link {
    /// An operator and its right operand.
    pub fn new(operator: Operator, at: u32, operand: Expr) -> Link
        ensures { see_link result ≡ MakeLink operator at (see_expr operand) }
    {
        Link {
            operator,
            at,
            operand,
        }
    }
}

impl Start {
    /// A variable, or the word `Console` before a dot.
    pub fn variable(name: Name) -> Start
        ensures { see_start result ≡ VariableStart name }
    {
        Start::Variable(name)
    }

    /// A call without receiver.
    pub fn call(alloc: Global, name: Name, actuals: Actuals) -> Result<Start, AllocError>
        ensures { IfOk result (λ s. see_start s ≡ CallStart name (see_actuals actuals)) }
    {
        let call = Box::new(alloc, OwnCall { name, actuals })?;
        Ok(Start::Call(call))
    }

    /// `this`
    pub fn this(at: u32) -> Start
        ensures { see_start result ≡ ThisStart at }
    {
        Start::This { at }
    }

    /// `new`, a class and the arguments of its constructor.
    pub fn new_object(
        alloc: Global,
        at: u32,
        name: Name,
        actuals: Actuals,
    ) -> Result<Start, AllocError>
        ensures { IfOk result (λ s. see_start s ≡ NewStart at name (see_actuals actuals)) }
    {
        let creation = Box::new(alloc, Creation { at, name, actuals })?;
        Ok(Start::New(creation))
    }

    /// A number.
    pub fn number(value: u32, at: u32) -> Start
        ensures { see_start result ≡ NumberStart value at }
    {
        Start::Number { value, at }
    }

    /// A text literal.
    pub fn literal(bytes: Bytes, at: u32) -> Start
        ensures { see_start result ≡ LiteralStart bytes at }
    {
        Start::Literal { at, bytes }
    }

    /// `true`
    pub fn true_word(at: u32) -> Start
        ensures { see_start result ≡ TrueStart at }
    {
        Start::True { at }
    }

    /// `false`
    pub fn false_word(at: u32) -> Start
        ensures { see_start result ≡ FalseStart at }
    {
        Start::False { at }
    }

    /// An expression in brackets; the number is that of `(`.
    #[inline(always)]
    pub fn group(alloc: Global, at: u32, inner: Expr) -> Result<Start, AllocError>
        ensures { IfOk result (λ s. see_start s ≡ GroupStart at (see_expr inner)) }
    {
        match inner {
            Expr::Chain(chain) => Ok(Start::ChainGroup { at, chain }),
            other => Ok(Start::Group {
                at,
                inner: Box::new(alloc, other)?,
            }),
        }
    }

    /// The number of its first token.
    pub fn first_token(&self) -> u32
        ensures { result ≡ first_token (started (see_start self.now) false) }
    {
        match self {
            Start::Variable(name) => name.at,
            Start::Call(call) => call.name.at,
            Start::This { at } => *at,
            Start::New(creation) => creation.at,
            Start::Number { value: _, at } => *at,
            Start::Literal { at, bytes: _ } => *at,
            Start::True { at } => *at,
            Start::False { at } => *at,
            Start::ChainGroup { at, chain: _ } => *at,
            Start::Group { at, inner: _ } => *at,
        }
    }
}

impl Actuals {
    /// Arguments in brackets; the number is that of `(`.
    pub fn new(at: u32, arguments: Vec<Expr>) -> Actuals
        ensures { see_actuals result ≡ MakeActuals at (exprs (map see_expr arguments.items)) }
    {
        Actuals { at, arguments }
    }
}

impl Dot {
    /// A dot, a method and its arguments.
    pub fn new(at: u32, name: Name, actuals: Actuals) -> Dot
        ensures { see_dot result ≡ MakeDot at name (see_actuals actuals) }
    {
        Dot { at, name, actuals }
    }
}
