//! Tokens of no place, one at a time.
#![tactic(auto)]

ghost use Rattle.std.specs.Prelude.{◌≡◌, OnOk};
ghost use Rattle.chord_lexer.specs.declared.token.Kind.TheVariants as kinds;
ghost use Rattle.chord_tree.specs.Node.{Leaf};
ghost use Rattle.chord_tree.specs.Program.{Adds};
ghost use Rattle.chord_tree.specs.ExprNodes.{mark_leaf, keyword_leaf, name, mark_of};
ghost use Rattle.chord_tree.specs.StmtNodes.{basic_keyword};

use crate::exprs::Operator;
use crate::names::{BasicType, Name};
use chord_lexer::bytes::Bytes;
use chord_lexer::token::{Keyword, Kind, Mark, Token};
use std::alloc::{AllocError, Global};

/// One token, of no place.
pub fn put(out: &mut Vec<Token>, kind: Kind) -> Result<(), AllocError>
    ensures { OnOk result (Adds out.old.items out.new.items (Leaf kind 0)) }
{
    out.push(Token {
        kind,
        start: 0,
        end: 0,
    })?;
    Ok(())
}

pub fn put_mark(out: &mut Vec<Token>, sign: Mark) -> Result<(), AllocError>
    ensures { OnOk result (Adds out.old.items out.new.items (mark_leaf sign 0)) }
{
    put(out, Kind::Mark(sign))
}

pub fn put_keyword(out: &mut Vec<Token>, keyword: Keyword) -> Result<(), AllocError>
    ensures { OnOk result (Adds out.old.items out.new.items (keyword_leaf keyword 0)) }
{
    put(out, Kind::Word(keyword))
}

pub fn put_name(alloc: Global, out: &mut Vec<Token>, x: &Name) -> Result<(), AllocError>
    ensures { OnOk result (Adds out.old.items out.new.items (name x.now)) }
{
    let text = x.text.copied(alloc)?;
    put(out, Kind::Name(text))
}

/// The mark of an operator.
pub fn operator_mark(operator: Operator) -> Mark
    ensures { result ≡ mark_of operator }
{
    match operator {
        Operator::Or => Mark::Or,
        Operator::And => Mark::And,
        Operator::Equal => Mark::Equal,
        Operator::NotEqual => Mark::NotEqual,
        Operator::Less => Mark::Less,
        Operator::Greater => Mark::Greater,
        Operator::LessOrEqual => Mark::LessOrEqual,
        Operator::GreaterOrEqual => Mark::GreaterOrEqual,
        Operator::Plus => Mark::Plus,
        Operator::Minus => Mark::Minus,
        Operator::Times => Mark::Times,
        Operator::Divide => Mark::Divide,
        Operator::Remainder => Mark::Remainder,
    }
}

pub fn put_literal(alloc: Global, out: &mut Vec<Token>, bytes: &Bytes) -> Result<(), AllocError>
    ensures { OnOk result (Adds out.old.items out.new.items (Leaf (kinds.Literal bytes.now) 0)) }
{
    let bytes = bytes.copied(alloc)?;
    put(out, Kind::Literal(bytes))
}

/// The word of a basic type.
pub fn put_basic(out: &mut Vec<Token>, basic: BasicType) -> Result<(), AllocError>
    ensures { OnOk result (Adds out.old.items out.new.items (keyword_leaf (basic_keyword basic) 0)) }
{
    match basic {
        BasicType::Int => put_keyword(out, Keyword::Int),
        BasicType::Bool => put_keyword(out, Keyword::Bool),
        BasicType::String => put_keyword(out, Keyword::String),
    }
}
