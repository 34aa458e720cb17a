//! The tokens that a class spells.
#![tactic(auto)]

ghost use Rattle.std.specs.Prelude.{◌≡◌, map, OnOk};
ghost use Rattle.chord_tree.specs.ClassNodes.{modifier_keyword, node_modifier, node_modifiers, node_formal, node_formal_list, node_formals, node_result, node_header, node_member, node_members, node_chord, node_public, node_base, node_class, node_classes, node_name_parts, node_using, node_usings};
ghost use Rattle.chord_tree.specs.Program.{Adds, node_header_list};
ghost use Rattle.chord_tree.specs.Tree.{ConstructorMember};
ghost use Rattle.chord_tree.specs.View.{see_formals, see_header, see_member, see_class, see_using};
ghost use Rattle.chord_tree.specs.ViewStmts.{see_block};

use crate::classes::{
    Class, Formal, Formals, Header, Member, Modifier, ModifierKeyword, NamePart, ReturnType, Using,
};
use crate::names::Name;
use crate::puts::{put_keyword, put_mark, put_name};
use crate::spell_stmts::{put_block, put_type};
use crate::stmts::Block;
use chord_lexer::token::{Keyword, Mark, Token};
use std::alloc::{AllocError, Global};

fn modifier_keyword(modifier: ModifierKeyword) -> Keyword
    ensures { result ≡ modifier_keyword modifier }
{
    match modifier {
        ModifierKeyword::Public => Keyword::Public,
        ModifierKeyword::Private => Keyword::Private,
        ModifierKeyword::Protected => Keyword::Protected,
        ModifierKeyword::Virtual => Keyword::Virtual,
        ModifierKeyword::Override => Keyword::Override,
        ModifierKeyword::Static => Keyword::Static,
    }
}

fn put_modifier(out: &mut Vec<Token>, modifier: &Modifier) -> Result<(), AllocError>
    ensures { OnOk result (Adds out.old.items out.new.items (node_modifier modifier.now)) }
{
    put_keyword(out, modifier_keyword(modifier.keyword))
}

fn put_modifiers(out: &mut Vec<Token>, modifiers: &[Modifier]) -> Result<(), AllocError>
    ensures { OnOk result (Adds out.old.items out.new.items (node_modifiers modifiers.now)) }
{
    'each: for modifier in modifiers {
        put_modifier(out, modifier)?;
    }
    Ok(())
}

fn put_formal(alloc: Global, out: &mut Vec<Token>, formal: &Formal) -> Result<(), AllocError>
    ensures { OnOk result (Adds out.old.items out.new.items (node_formal formal.now)) }
{
    put_type(alloc, out, &formal.value_type)?;
    put_name(alloc, out, &formal.name)
}

fn put_formal_list(
    alloc: Global,
    out: &mut Vec<Token>,
    parameters: &[Formal],
) -> Result<(), AllocError>
    ensures { OnOk result (Adds out.old.items out.new.items (node_formal_list parameters.now)) }
{
    let Some((first, more)) = parameters.split_first() else {
        return Ok(());
    };
    put_formal(alloc, out, first)?;
    'each: for formal in more {
        put_mark(out, Mark::Comma)?;
        put_formal(alloc, out, formal)?;
    }
    Ok(())
}

fn put_formals(alloc: Global, out: &mut Vec<Token>, formals: &Formals) -> Result<(), AllocError>
    ensures { OnOk result (Adds out.old.items out.new.items (node_formals (see_formals formals.now))) }
{
    put_mark(out, Mark::OpenParenthesis)?;
    put_formal_list(alloc, out, &formals.parameters)?;
    put_mark(out, Mark::CloseParenthesis)
}

fn put_result(
    alloc: Global,
    out: &mut Vec<Token>,
    result_type: &ReturnType,
) -> Result<(), AllocError>
    ensures { OnOk result (Adds out.old.items out.new.items (node_result result_type.now)) }
{
    match result_type {
        ReturnType::Async { at: _ } => put_keyword(out, Keyword::Async),
        ReturnType::Void { at: _ } => put_keyword(out, Keyword::Void),
        ReturnType::Value(value_type) => put_type(alloc, out, value_type),
    }
}

fn put_header(alloc: Global, out: &mut Vec<Token>, header: &Header) -> Result<(), AllocError>
    ensures { OnOk result (Adds out.old.items out.new.items (node_header (see_header header.now))) }
{
    put_modifiers(out, &header.modifiers)?;
    put_result(alloc, out, &header.result_type)?;
    put_name(alloc, out, &header.name)?;
    put_formals(alloc, out, &header.formals)
}

fn put_headers(alloc: Global, out: &mut Vec<Token>, headers: &[Header]) -> Result<(), AllocError>
    ensures { OnOk result (Adds out.old.items out.new.items (node_header_list (map see_header headers.now))) }
{
    let Some((first, more)) = headers.split_first() else {
        return Ok(());
    };
    put_header(alloc, out, first)?;
    'each: for header in more {
        put_mark(out, Mark::Ampersand)?;
        put_header(alloc, out, header)?;
    }
    Ok(())
}

fn put_chord(
    alloc: Global,
    out: &mut Vec<Token>,
    headers: &[Header],
    body: &Block,
) -> Result<(), AllocError>
    ensures { OnOk result (Adds out.old.items out.new.items (node_chord (map see_header headers.now) (see_block body.now))) }
{
    put_headers(alloc, out, headers)?;
    put_block(alloc, out, body)
}

fn put_constructor(
    alloc: Global,
    out: &mut Vec<Token>,
    modifiers: &[Modifier],
    name: &Name,
    formals: &Formals,
    body: &Block,
) -> Result<(), AllocError>
    ensures { OnOk result (Adds out.old.items out.new.items (node_member (ConstructorMember modifiers.now name.now (see_formals formals.now) (see_block body.now)))) }
{
    put_modifiers(out, modifiers)?;
    put_name(alloc, out, name)?;
    put_formals(alloc, out, formals)?;
    put_block(alloc, out, body)
}

fn put_member(alloc: Global, out: &mut Vec<Token>, member: &Member) -> Result<(), AllocError>
    ensures { OnOk result (Adds out.old.items out.new.items (node_member (see_member member.now))) }
{
    match member {
        Member::Constructor {
            modifiers,
            name,
            formals,
            body,
        } => put_constructor(alloc, out, modifiers, name, formals, body),
        Member::Chord { headers, body } => put_chord(alloc, out, headers, body),
    }
}

fn put_members(alloc: Global, out: &mut Vec<Token>, members: &[Member]) -> Result<(), AllocError>
    ensures { OnOk result (Adds out.old.items out.new.items (node_members (map see_member members.now))) }
{
    'each: for member in members {
        put_member(alloc, out, member)?;
    }
    Ok(())
}

fn put_public(out: &mut Vec<Token>, public: Option<u32>) -> Result<(), AllocError>
    ensures { OnOk result (Adds out.old.items out.new.items (node_public public)) }
{
    match public {
        None => Ok(()),
        Some(_) => put_keyword(out, Keyword::Public),
    }
}

fn put_base(alloc: Global, out: &mut Vec<Token>, base: &Option<Name>) -> Result<(), AllocError>
    ensures { OnOk result (Adds out.old.items out.new.items (node_base base.now)) }
{
    match base {
        None => Ok(()),
        Some(name) => {
            put_mark(out, Mark::Colon)?;
            put_name(alloc, out, name)
        }
    }
}

pub fn put_class(alloc: Global, out: &mut Vec<Token>, class: &Class) -> Result<(), AllocError>
    ensures { OnOk result (Adds out.old.items out.new.items (node_class (see_class class.now))) }
{
    put_public(out, class.public)?;
    put_keyword(out, Keyword::Class)?;
    put_name(alloc, out, &class.name)?;
    put_base(alloc, out, &class.base)?;
    put_mark(out, Mark::OpenBrace)?;
    put_members(alloc, out, &class.members)?;
    put_mark(out, Mark::CloseBrace)
}

pub fn put_classes(alloc: Global, out: &mut Vec<Token>, classes: &[Class]) -> Result<(), AllocError>
    ensures { OnOk result (Adds out.old.items out.new.items (node_classes (map see_class classes.now))) }
{
    'each: for class in classes {
        put_class(alloc, out, class)?;
    }
    Ok(())
}

fn put_parts(alloc: Global, out: &mut Vec<Token>, parts: &[NamePart]) -> Result<(), AllocError>
    ensures { OnOk result (Adds out.old.items out.new.items (node_name_parts parts.now)) }
{
    'each: for part in parts {
        put_mark(out, Mark::Dot)?;
        put_name(alloc, out, &part.name)?;
    }
    Ok(())
}

fn put_using(alloc: Global, out: &mut Vec<Token>, line: &Using) -> Result<(), AllocError>
    ensures { OnOk result (Adds out.old.items out.new.items (node_using (see_using line.now))) }
{
    put_keyword(out, Keyword::Using)?;
    put_name(alloc, out, &line.first)?;
    put_parts(alloc, out, &line.more)?;
    put_mark(out, Mark::Semicolon)
}

pub fn put_usings(alloc: Global, out: &mut Vec<Token>, usings: &[Using]) -> Result<(), AllocError>
    ensures { OnOk result (Adds out.old.items out.new.items (node_usings (map see_using usings.now))) }
{
    'each: for line in usings {
        put_using(alloc, out, line)?;
    }
    Ok(())
}
