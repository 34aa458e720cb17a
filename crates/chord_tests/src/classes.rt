//! chord_classes: a table of three classes by hand, and what look-ups find in it.

use chord_base::text::Text;
use chord_classes::build::with_class;
use chord_classes::least::Least;
use chord_classes::table::Table;
use chord_tree::classes::{Class, Formals, Header, Member, ReturnType};
use chord_tree::names::Name;
use chord_tree::stmts::Block;
use std::alloc::{AllocError, Global};
use std::process::Abort;

/// The letters of a class, of its base and of its method; a blank for no base.
const CLASSES: [[u8; 3]; 3] = [*b"A m", *b"BAn", *b"ABm"];

/// A class, a method's letter, and the number and owner of what is found.
type Case = (u32, u8, Option<(u32, u32)>);

const CASES: [Case; 6] = [
    (0, b'm', Some((0, 0))),
    (0, b'n', None),
    (1, b'm', Some((0, 0))),
    (1, b'n', Some((1, 1))),
    (2, b'm', Some((0, 0))),
    (3, b'm', None),
];

fn named(alloc: Global, letter: u8) -> Result<Name, AllocError> {
    match Text::of_bytes(alloc, &[letter]) {
        Ok(text) => Ok(Name::new(text, 0)),
        Err(_) => Err(AllocError),
    }
}

fn base_named(alloc: Global, letter: u8) -> Result<Option<Name>, AllocError> {
    if letter == b' ' {
        return Ok(None);
    }
    let name = named(alloc, letter)?;
    Ok(Some(name))
}

fn one<T: Drop>(alloc: Global, item: T) -> Result<Vec<T>, AllocError> {
    let mut items = Vec::new(alloc);
    items.push(item)?;
    Ok(items)
}

/// An asynchronous method.
fn header(alloc: Global, name: Name) -> Header {
    let formals = Formals::new(0, Vec::new(alloc));
    Header::new(Vec::new(alloc), ReturnType::asynchronous(0), name, formals)
}

/// A chord of one asynchronous method.
fn members(alloc: Global, method: u8) -> Result<Vec<Member>, AllocError> {
    let name = named(alloc, method)?;
    let headers = one(alloc, header(alloc, name))?;
    one(
        alloc,
        Member::chord(headers, Block::new(Vec::new(alloc), 0)),
    )
}

fn class(alloc: Global, [own, base, method]: [u8; 3]) -> Result<Class, AllocError> {
    let name = named(alloc, own)?;
    let base = base_named(alloc, base)?;
    let members = members(alloc, method)?;
    Ok(Class::new(None, name, base, members, 0))
}

fn classes(alloc: Global) -> Result<Vec<Class>, AllocError> {
    let mut classes = Vec::new(alloc);
    for letters in CLASSES {
        let class = class(alloc, letters)?;
        classes.push(class)?;
    }
    Ok(classes)
}

fn table<'a>(alloc: Global, classes: &'a [Class]) -> Result<Table<'a>, AllocError> {
    let mut table = Table::new(alloc);
    for class in classes {
        table = with_class(alloc, table, class)?;
    }
    Ok(table)
}

fn finds(rt: &impl Abort, table: &Table, (class, letter, wanted): Case) {
    let found = match table.method_named(class, &[letter]) {
        Some(found) => Some((found.number, found.method.owner)),
        None => None,
    };
    assert_eq!(rt; found, wanted, "a method of class {class}");
}

fn derives(rt: &impl Abort, table: &Table) {
    assert_eq!(rt;
        table.class_named(b"A"),
        Some(0),
        "the first class of a name"
    );
    assert_eq!(rt; table.class_named(b"C"), None, "no class");
    assert_eq!(rt; table.derives(2, 0), true, "along two bases");
    assert_eq!(rt; table.derives(0, 2), false, "not the other way");
}

#[test]
fn methods_are_inherited_by_number(rt: HostRuntime) -> Result<(), AllocError> {
    let classes = classes(rt.alloc())?;
    let table = table(rt.alloc(), &classes)?;
    for case in CASES {
        finds(&rt, &table, case);
    }
    derives(&rt, &table);
    Ok(())
}

#[test]
fn the_least_token_and_then_the_least_rule(rt: HostRuntime) {
    let mut least = Least::none();
    least.note(14, 7);
    least.note(15, 3);
    least.note_if(2, false, 1);
    least.note_if(14, true, 3);
    assert_eq!(rt; least.found, Some(110), "rule 14 at token 3");
}
