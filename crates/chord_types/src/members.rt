//! Members: their bodies resolved, and what they break.
#![tactic(auto)]

ghost use Rattle.std.specs.Prelude.{◌≡◌, ◌+◌, length, ◌&&◌, not, IfOk, OnOk, map, flat_map, is_some, option_map, sum_by};
ghost use Rattle.std.specs.Borrow.{Bor};
ghost use Rattle.chord_tree.specs.declared.names.ValueType as written_types;
ghost use Rattle.chord_tree.specs.View.{see_header, see_member};
ghost use Rattle.chord_tree.specs.ViewStmts.{see_block};
ghost use Rattle.chord_tree.specs.Walk.{body_of};
ghost use Rattle.chord_bodies.specs.View.{view_stmt, stmt_list};
ghost use Rattle.chord_bodies.specs.BodyView.{view_body};
ghost use Rattle.chord_classes.specs.Types.{type_known};
ghost use Rattle.chord_classes.specs.Site.{member_formals, headers_due, member_due};
ghost use Rattle.chord_classes.specs.ItemRules.{undeclared_formals, undeclared_header, undeclared_member, unreturned, block_surely};
ghost use Rattle.chord_classes.specs.Resolve.{is_builder};
ghost use Rattle.chord_classes.specs.Least.{keys, least};
ghost use Rattle.chord_types.specs.MemberChecked.{header_formals, DeclaresAll, IsEntered, IsMemberChecked};
ghost use Rattle.chord_types.specs.Flat.{doubled_stmt, doubled_body};

use crate::operand::type_known;
use crate::plain::note_undeclared;
use crate::returns::block_surely;
use crate::scope::Scope;
use crate::site::Site;
use crate::stmts::block;
use chord_base::static_type::StaticType;
use chord_bodies::body::Body;
use chord_bodies::stmt::Stmt;
use chord_classes::least::Least;
use chord_classes::main_headers::member_in_main;
use chord_classes::table::Table;
use chord_tree::classes::{Formal, Header, Member, ReturnType};
use chord_tree::names::ValueType;
use chord_tree::stmts::Block;
use std::alloc::{AllocError, Global};
use std::mem;

/// The body of a member.
fn body_of(member: &Member) -> &Block
    ensures { see_block result.now ≡ body_of (see_member member.now) }
{
    match member {
        Member::Constructor { body, .. } => body,
        Member::Chord { body, .. } => body,
    }
}

/// Whether a member is a constructor.
fn is_builder(member: &Member) -> bool
    ensures { result ≡ is_builder (see_member member.now) }
{
    match member {
        Member::Constructor { .. } => true,
        Member::Chord { .. } => false,
    }
}

/// The value that the first synchronous header is to give.
fn headers_due<'a>(headers: &'a [Header]) -> Option<&'a ValueType>
    ensures { option_map (λ (written : Bor written_types.ValueType). written.now) result ≡ headers_due (map see_header headers.now) }
{
    for header in headers {
        match &header.result_type {
            ReturnType::Async { at: _ } => {}
            ReturnType::Void { at: _ } => return None,
            ReturnType::Value(written) => return Some(written),
        }
    }
    None
}

/// What `return` is to give in the body of a member.
fn member_due<'a>(member: &'a Member) -> Option<&'a ValueType>
    ensures { option_map (λ (written : Bor written_types.ValueType). written.now) result ≡ member_due (see_member member.now) }
{
    match member {
        Member::Constructor { .. } => None,
        Member::Chord { headers, .. } => headers_due(headers),
    }
}

/// Declares parameters, in slots one after another.
fn declare_all<'t, 'a>(site: &mut Site<'t, 'a>, formals: &'a [Formal]) -> Result<(), AllocError>
    ensures { OnOk result (DeclaresAll site.old site.new formals.now) }
{
    for formal in formals {
        let _slot = site.declare(&formal.value_type, &formal.name)?;
    }
    Ok(())
}

/// Declares the parameters of headers.
fn declare_headers<'t, 'a>(site: &mut Site<'t, 'a>, headers: &'a [Header]) -> Result<(), AllocError>
    ensures { OnOk result (DeclaresAll site.old site.new (flat_map header_formals (map see_header headers.now))) }
{
    for header in headers {
        declare_all(site, &header.formals.parameters)?;
    }
    Ok(())
}

/// Declares the parameters of a member.
fn declare_formals<'t, 'a>(site: &mut Site<'t, 'a>, member: &'a Member) -> Result<(), AllocError>
    ensures { OnOk result (DeclaresAll site.old site.new (member_formals (see_member member.now))) }
{
    match member {
        Member::Constructor { formals, .. } => declare_all(site, &formals.parameters),
        Member::Chord { headers, .. } => declare_headers(site, headers),
    }
}

/// Where the body of a member begins: slot 0 is `this`, and then come the parameters.
fn enter<'t, 'a>(
    alloc: Global,
    table: &'t Table<'a>,
    own: u32,
    member: &'a Member,
) -> Result<Site<'t, 'a>, AllocError>
    ensures { IfOk result (λ site. IsEntered table.now own (see_member member.now) site) }
{
    let mut site = Site {
        table,
        own,
        in_main: member_in_main(member),
        due: member_due(member),
        scope: Scope::new(alloc),
        next: 1,
        types: Vec::new(alloc),
    };
    declare_formals(&mut site, member)?;
    Ok(site)
}

/// Notes the type names of parameters that are not declared.
fn note_formals(table: &Table, formals: &[Formal], breaks: &mut Least)
    ensures { breaks.new.found ≡ least breaks.old.found (keys 2 (undeclared_formals table.now formals.now)) }
{
    for formal in formals {
        note_undeclared(table, &formal.value_type, breaks);
    }
}

/// Notes the type names of a header that are not declared.
fn note_header(table: &Table, header: &Header, breaks: &mut Least)
    ensures { breaks.new.found ≡ least breaks.old.found (keys 2 (undeclared_header table.now (see_header header.now))) }
{
    if let ReturnType::Value(written) = &header.result_type {
        note_undeclared(table, written, breaks);
    }
    note_formals(table, &header.formals.parameters, breaks);
}

/// Notes the type names of headers that are not declared.
fn note_headers(table: &Table, headers: &[Header], breaks: &mut Least)
    ensures { breaks.new.found ≡ least breaks.old.found (keys 2 (flat_map (undeclared_header table.now) (map see_header headers.now))) }
{
    for header in headers {
        note_header(table, header, breaks);
    }
}

/// Notes the type names of parameters and results that are not declared.
fn note_types(table: &Table, member: &Member, breaks: &mut Least)
    ensures { breaks.new.found ≡ least breaks.old.found (keys 2 (undeclared_member table.now (see_member member.now))) }
{
    match member {
        Member::Constructor { formals, .. } => note_formals(table, &formals.parameters, breaks),
        Member::Chord { headers, .. } => note_headers(table, headers, breaks),
    }
}

/// Whether a value is due that the body does not surely give.
fn falls_off(member: &Member) -> bool
    ensures { result ≡ (is_some (member_due (see_member member.now)) && not (block_surely (body_of (see_member member.now)))) }
{
    if member_due(member).is_none() {
        return false;
    }
    !block_surely(body_of(member))
}

/// Notes the body of a method with a value that does not surely return.
fn note_unreturned(member: &Member, breaks: &mut Least)
    ensures { breaks.new.found ≡ least breaks.old.found (keys 17 (unreturned (see_member member.now))) }
{
    breaks.note_if(17, falls_off(member), body_of(member).end);
}

/// The type that is due.
fn due_known(table: &Table, due: Option<&ValueType>) -> Option<StaticType>
    ensures { result ≡ option_map (λ (written : Bor written_types.ValueType). type_known table.now written.now) due.entry }
{
    match due {
        Some(written) => Some(type_known(table, written)),
        None => None,
    }
}

/// A body. That it has this number of slots, which is an `u32`, shows that they are few.
fn made(
    own: u32,
    _slots: u32,
    site: Site,
    is_constructor: bool,
    due: Option<StaticType>,
    parameters: Vec<StaticType>,
    stmts: Vec<Stmt>,
) -> Body
    requires { _slots ≡ 1 + length parameters.items + length site.types.items }
    ensures built { view_body result ≡ record { class = own; is_main = site.entry.in_main; is_constructor = is_constructor; parameters = parameters.items; locals = site.entry.types.items; result = due; stmts = stmt_list (map view_stmt stmts.items) } }
    ensures flat { doubled_body result ≡ sum_by doubled_stmt stmts.items }
{
    Body {
        class: own,
        is_main: site.in_main,
        is_constructor,
        parameters,
        locals: site.types,
        result: due,
        stmts,
    }
}

/// A member: its body resolved.
pub(crate) fn member<'t, 'a>(
    alloc: Global,
    table: &'t Table<'a>,
    own: u32,
    member: &'a Member,
    breaks: &mut Least,
) -> Result<Body, AllocError>
    ensures { IfOk result (λ body. IsMemberChecked table.now own (see_member member.now) breaks.old.found breaks.new.found body) }
{
    let mut site = enter(alloc, table, own, member)?;
    let parameters = mem::replace(&mut site.types, Vec::new(alloc));
    let stmts = block(alloc, &mut site, body_of(member), breaks)?;
    note_types(table, member, breaks);
    note_unreturned(member, breaks);
    let due = due_known(table, site.due);
    let is_builder = is_builder(member);
    Ok(made(own, site.next, site, is_builder, due, parameters, stmts))
}
