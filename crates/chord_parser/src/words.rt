//! Modifiers and the words of results.
#![tactic(auto)]

ghost use Rattle.std.specs.Prelude.{◌≡◌, ◌≢◌, IfOk, IfErr, IfSome, IfNone};
ghost use Rattle.chord_tree.specs.Derivation.{next};
ghost use Rattle.chord_tree.specs.ClassNodes.{node_modifier, node_plain};
ghost use Rattle.chord_tree.specs.Program.{token_kinds};
ghost use Rattle.chord_tree.specs.Symbols as grammar;
ghost use Rattle.chord_parser.specs.Reading.{StopsAs};
ghost use Rattle.chord_parser.specs.Lists.{modifier_terminal, plain_terminal, plain_node, IsPlain};
ghost use Rattle.chord_parser.specs.Runs.{Reads};

use crate::faults::Fault;
use crate::plain::ResultKeyword;
use crate::terminal;
use crate::tokens::{next, take};
use chord_lexer::token::Token;
use chord_tree::classes::{Modifier, ModifierKeyword, ReturnType};
use chord_tree::names::{BasicType, ValueType};

fn terminal_of_modifier(word: ModifierKeyword) -> u8
    ensures { result ≡ modifier_terminal word }
{
    match word {
        ModifierKeyword::Public => terminal::PUBLIC,
        ModifierKeyword::Private => terminal::PRIVATE,
        ModifierKeyword::Protected => terminal::PROTECTED,
        ModifierKeyword::Virtual => terminal::VIRTUAL,
        ModifierKeyword::Override => terminal::OVERRIDE,
        ModifierKeyword::Static => terminal::STATIC,
    }
}

/// The modifier that comes next, if one does.
pub fn modifier_next(tokens: &[Token]) -> Option<ModifierKeyword>
    ensures some { IfSome result (λ w. next (token_kinds tokens.now) ≡ modifier_terminal w) }
    ensures none { IfNone result ((w : ModifierKeyword) → next (token_kinds tokens.now) ≢ modifier_terminal w) }
{
    let ahead = next(tokens);
    if ahead == terminal::PUBLIC {
        return Some(ModifierKeyword::Public);
    }
    if ahead == terminal::PRIVATE {
        return Some(ModifierKeyword::Private);
    }
    if ahead == terminal::PROTECTED {
        return Some(ModifierKeyword::Protected);
    }
    if ahead == terminal::VIRTUAL {
        return Some(ModifierKeyword::Virtual);
    }
    if ahead == terminal::OVERRIDE {
        return Some(ModifierKeyword::Override);
    }
    if ahead == terminal::STATIC {
        return Some(ModifierKeyword::Static);
    }
    None
}

/// Modifier = "public" | "private" | "protected" | "virtual" | "override" | "static"
///
/// The modifier, which comes next, and the tokens after it.
pub fn modifier(
    count: u32,
    tokens: &[Token],
    word: ModifierKeyword,
) -> Result<(Modifier, &[Token]), Fault>
    requires first { next (token_kinds tokens.now) ≡ modifier_terminal word }
    ensures ok { IfOk result (λ r. Reads count grammar.Modifier 0 (token_kinds tokens.now) (token_kinds r.1.now) (node_modifier r.0)) }
    ensures err { IfErr result (λ fault. StopsAs grammar.Modifier 0 (token_kinds tokens.now) fault) }
{
    let (at, rest) = take(count, tokens, terminal_of_modifier(word), 0)?;
    Ok((Modifier { keyword: word, at }, rest))
}

fn terminal_of_plain(word: ResultKeyword) -> u8
    ensures { result ≡ plain_terminal word }
{
    match word {
        ResultKeyword::Async => terminal::ASYNC,
        ResultKeyword::Void => terminal::VOID,
        ResultKeyword::Int => terminal::INT,
        ResultKeyword::Bool => terminal::BOOL,
        ResultKeyword::String => terminal::STRING,
    }
}

/// The word of a result that comes next, if one does.
pub fn plain_next(tokens: &[Token]) -> Option<ResultKeyword>
    ensures some { IfSome result (λ w. next (token_kinds tokens.now) ≡ plain_terminal w) }
    ensures none { IfNone result ((w : ResultKeyword) → next (token_kinds tokens.now) ≢ plain_terminal w) }
{
    let ahead = next(tokens);
    if ahead == terminal::ASYNC {
        return Some(ResultKeyword::Async);
    }
    if ahead == terminal::VOID {
        return Some(ResultKeyword::Void);
    }
    if ahead == terminal::INT {
        return Some(ResultKeyword::Int);
    }
    if ahead == terminal::BOOL {
        return Some(ResultKeyword::Bool);
    }
    if ahead == terminal::STRING {
        return Some(ResultKeyword::String);
    }
    None
}

fn plain_type(word: ResultKeyword, at: u32) -> ReturnType
    ensures node { node_plain result ≡ plain_node word at }
    ensures plain { IsPlain result }
{
    match word {
        ResultKeyword::Async => ReturnType::Async { at },
        ResultKeyword::Void => ReturnType::Void { at },
        ResultKeyword::Int => ReturnType::Value(ValueType::Basic {
            basic: BasicType::Int,
            at,
        }),
        ResultKeyword::Bool => ReturnType::Value(ValueType::Basic {
            basic: BasicType::Bool,
            at,
        }),
        ResultKeyword::String => ReturnType::Value(ValueType::Basic {
            basic: BasicType::String,
            at,
        }),
    }
}

/// Plain = "async" | "void" | "int" | "bool" | "string"
///
/// The result that the word says, which comes next, and the tokens after it.
pub fn plain(
    count: u32,
    tokens: &[Token],
    word: ResultKeyword,
) -> Result<(ReturnType, &[Token]), Fault>
    requires first { next (token_kinds tokens.now) ≡ plain_terminal word }
    ensures ok { IfOk result (λ r. Reads count grammar.Plain 0 (token_kinds tokens.now) (token_kinds r.1.now) (node_plain r.0)) }
    ensures err { IfErr result (λ fault. StopsAs grammar.Plain 0 (token_kinds tokens.now) fault) }
    ensures plain { IfOk result (λ r. IsPlain r.0) }
{
    let (at, rest) = take(count, tokens, terminal_of_plain(word), 0)?;
    Ok((plain_type(word, at), rest))
}
