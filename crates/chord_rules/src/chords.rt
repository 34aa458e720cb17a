//! The rules on the headers of one chord: no method twice, and one synchronous method at most.
#![tactic(auto)]

ghost use Rattle.std.specs.Prelude.{◌≡◌, ◌<◌, OnOk, OnErr, false, [], length, map, not, ◌&&◌, is_some};
ghost use Rattle.chord_tree.specs.View.{see_header};
ghost use Rattle.chord_classes.specs.Table.{is_main};
ghost use Rattle.chord_classes.specs.NameRules.{when};
ghost use Rattle.chord_classes.specs.NamePlaces.{name_place};
ghost use Rattle.chord_classes.specs.ChordRules.{repeated, second_sync};
ghost use Rattle.chord_classes.specs.Least.{least, keys};

use crate::headers::counts_sync;
use chord_classes::least::Least;
use chord_classes::main_headers::is_main;
use chord_classes::names::Names;
use chord_tree::classes::Header;
use std::alloc::{AllocError, Global};

/// C07: notes the headers of a chord whose method stands before them.
pub fn repeated_methods(
    alloc: Global,
    headers: &[Header],
    breaks: &mut Least,
) -> Result<(), AllocError>
    ensures repeated { OnOk result (breaks.new.found ≡ least breaks.old.found (keys 7 (repeated [] (map see_header headers.now)))) }
    ensures several { OnErr result (1 < length headers.now) }
{
    // Most chords have one header, which repeats none.
    if headers.len() < 2 {
        return Ok(());
    }
    let mut names = Names::new(alloc);
    for header in headers {
        repeated_method(&names, header, breaks);
        names = names.with(header.name.text.items())?;
    }
    Ok(())
}

/// C07: notes the header if its method stands before it, under one of these names.
fn repeated_method(names: &Names, header: &Header, breaks: &mut Least)
    ensures { breaks.new.found ≡ least breaks.old.found (keys 7 (when (not (is_main (see_header header.now)) && is_some (name_place names.now header.now.name.text)) header.now.name.at)) }
{
    if is_main(header) {
        return;
    }
    let known = names.place(header.name.text.items()).is_some();
    breaks.note_if(7, known, header.name.at);
}

/// C06: notes the synchronous headers of a chord that stand behind a synchronous one.
pub fn second_synchronous(headers: &[Header], breaks: &mut Least)
    ensures { breaks.new.found ≡ least breaks.old.found (keys 6 (second_sync false (map see_header headers.now))) }
{
    let mut seen = false;
    for header in headers {
        let counts = counts_sync(header);
        breaks.note_if(6, seen & counts, header.name.at);
        seen = seen | counts;
    }
}
