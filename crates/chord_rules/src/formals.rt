//! The rule on parameters: no name twice in one chord's header or in one constructor.
#![tactic(auto)]

ghost use Rattle.std.specs.Prelude.{◌≡◌, IfOk, OnOk, [], ◌++◌, map, reverse, flat_map};
ghost use Rattle.chord_tree.specs.View.{see_header};
ghost use Rattle.chord_classes.specs.DeclarationRules.{repeated_formals};
ghost use Rattle.chord_classes.specs.Least.{least, keys};
ghost use Rattle.chord_rules.specs.FormalNames.{formal_names, formals_of_header};

use chord_classes::least::Least;
use chord_classes::names::Names;
use chord_tree::classes::{Formal, Header};
use std::alloc::{AllocError, Global};

/// C08: notes the parameters whose name stands before them, and gives the names with theirs.
pub fn formals_again<'a>(
    names: Names<'a>,
    formals: &'a [Formal],
    breaks: &mut Least,
) -> Result<Names<'a>, AllocError>
    ensures names { IfOk result (λ after. after ≡ names.entry ++ formal_names formals.now) }
    ensures noted { OnOk result (breaks.new.found ≡ least breaks.old.found (keys 8 (repeated_formals (reverse names.entry) formals.now))) }
{
    let mut names = names;
    for formal in formals {
        let name = formal.name.text.items();
        breaks.note_if(8, names.place(name).is_some(), formal.name.at);
        names = names.with(name)?;
    }
    Ok(names)
}

/// C08: notes the parameters of a chord's headers whose name stands before them.
pub fn headers_again(
    alloc: Global,
    headers: &[Header],
    breaks: &mut Least,
) -> Result<(), AllocError>
    ensures { OnOk result (breaks.new.found ≡ least breaks.old.found (keys 8 (repeated_formals [] (flat_map formals_of_header (map see_header headers.now))))) }
{
    let mut names = Names::new(alloc);
    for header in headers {
        names = formals_again(names, &header.formals.parameters, breaks)?;
    }
    Ok(())
}
