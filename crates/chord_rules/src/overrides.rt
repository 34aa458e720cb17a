//! The rules on headers of one name, in a class and above it.
#![tactic(auto)]

ghost use Rattle.std.specs.Prelude.{◌≡◌, map, flat_map};
ghost use Rattle.chord_tree.specs.View.{see_header};
ghost use Rattle.chord_classes.specs.Table.{inherited};
ghost use Rattle.chord_classes.specs.Least.{least, keys};
ghost use Rattle.chord_rules.specs.FirstHeaders.{see_lent};
ghost use Rattle.chord_rules.specs.ClassKeys.{differing, hiding, misfitting, header_keys};

use crate::agreement::{agree, may_override};
use crate::first_headers::FirstHeaders;
use crate::headers::overrides;
use chord_classes::least::Least;
use chord_classes::main_headers::is_main;
use chord_classes::table::Table;
use chord_tree::classes::Header;

/// C05: notes the header if it differs from the first of its name.
fn differing(firsts: &FirstHeaders, header: &Header, breaks: &mut Least)
    ensures { breaks.new.found ≡ least breaks.old.found (keys 5 (differing (map see_lent firsts.now.all.items) (see_header header.now))) }
{
    if is_main(header) {
        return;
    }
    if let Some(first) = firsts.first(header.name.text.items()) {
        let differs = !agree(first, header);
        breaks.note_if(5, differs, header.name.at);
    }
}

/// C09: notes the header if it has the name of a method of a base class, and no `override`.
fn hiding(table: &Table, base: Option<u32>, header: &Header, breaks: &mut Least)
    ensures { breaks.new.found ≡ least breaks.old.found (keys 9 (hiding (inherited table.now base) (see_header header.now))) }
{
    if is_main(header) {
        return;
    }
    let known = table.inherits(base, header.name.text.items());
    let plain = !overrides(header);
    breaks.note_if(9, plain & known, header.name.at);
}

/// C10: notes the header if it has `override` and fits no method of a base class.
fn misfitting(table: &Table, base: Option<u32>, header: &Header, breaks: &mut Least)
    ensures { breaks.new.found ≡ least breaks.old.found (keys 10 (misfitting (inherited table.now base) (see_header header.now))) }
{
    let found = match base {
        Some(class) => table.method_named(class, header.name.text.items()),
        None => None,
    };
    let fits = may_override(header, found);
    let overriding = overrides(header);
    breaks.note_if(10, overriding & !fits, header.name.at);
}

/// Notes what a header breaks of the rules on headers of one name.
fn header_breaks(
    table: &Table,
    base: Option<u32>,
    firsts: &FirstHeaders,
    header: &Header,
    breaks: &mut Least,
)
    ensures { breaks.new.found ≡ least breaks.old.found (header_keys (map see_lent firsts.now.all.items) (inherited table.now base) (see_header header.now)) }
{
    differing(firsts, header, breaks);
    hiding(table, base, header, breaks);
    misfitting(table, base, header, breaks);
}

/// Notes what the headers of a class break of the rules on headers of one name.
pub fn headers_break(table: &Table, base: Option<u32>, firsts: &FirstHeaders, breaks: &mut Least)
    ensures { breaks.new.found ≡ least breaks.old.found (flat_map (header_keys (map see_lent firsts.now.all.items) (inherited table.now base)) (map see_lent firsts.now.all.items)) }
{
    for header in firsts.all.as_slice() {
        header_breaks(table, base, firsts, header, breaks);
    }
}
