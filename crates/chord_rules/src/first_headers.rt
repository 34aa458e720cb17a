//! The headers of a class, and the first of each name.
#![tactic(auto)]

ghost use Rattle.std.specs.Prelude.{◌≡◌, IfOk, [], ◌∷◌, ◌++◌, map, flat_map, option_map, slice_get, vec_len, vec_capacity};
ghost use Rattle.chord_base.specs.Room.{HasGrown};
ghost use Rattle.chord_tree.specs.View.{see_header, see_member};
ghost use Rattle.chord_tree.specs.Walk.{member_headers};
ghost use Rattle.chord_classes.specs.OverrideRules.{first_named};
ghost use Rattle.chord_rules.specs.FirstHeaders.{see_lent, names_of_headers};

use chord_classes::build::headers_of;
use chord_classes::growth::add_one;
use chord_classes::names::Names;
use chord_tree::classes::{Header, Member};
use std::alloc::{AllocError, Global};

/// Headers in their order, and their first places by name.
#[derive(Drop)]
pub struct FirstHeaders<'a> {
    names: Names<'a>,
    /// The headers by their places.
    pub all: Vec<&'a Header>,
    ghost named: { names ≡ names_of_headers all.items },
}

impl<'a> FirstHeaders<'a> {
    /// No headers.
    fn new(alloc: Global) -> FirstHeaders<'a>
        ensures { result.all.items ≡ [] }
    {
        FirstHeaders {
            names: Names::new(alloc),
            all: Vec::new(alloc),
        }
    }

    /// The first header of a name.
    pub fn first(&self, name: &[u8]) -> Option<&'a Header>
        ensures { option_map see_lent result ≡ first_named (map see_lent self.now.all.items) name.now }
    {
        match self.names.place(name) {
            Some(place) => header_at(self.all.as_slice(), place),
            None => None,
        }
    }

    /// These headers, and one after them.
    fn with(self, header: &'a Header) -> Result<FirstHeaders<'a>, AllocError>
        ensures added { IfOk result (λ headers. map see_lent headers.all.items ≡ map see_lent self.entry.all.items ++ (see_header header.now ∷ [])) }
        ensures grown { IfOk result (λ headers. HasGrown (vec_len self.entry.all) (vec_capacity self.entry.all) (vec_capacity headers.all)) }
    {
        let FirstHeaders { names, mut all } = self;
        let names = names.with(header.name.text.items())?;
        add_one(&mut all, header)?;
        Ok(FirstHeaders { names, all })
    }
}

/// The header at a place.
fn header_at<'a>(headers: &[&'a Header], place: usize) -> Option<&'a Header>
    ensures { result ≡ slice_get headers.now place }
{
    headers.get(place).copied()
}

/// The headers, and those of a member.
fn with_member<'a>(
    all: FirstHeaders<'a>,
    member: &'a Member,
) -> Result<FirstHeaders<'a>, AllocError>
    ensures { IfOk result (λ more. map see_lent more.all.items ≡ map see_lent all.entry.all.items ++ member_headers (see_member member.now)) }
{
    let mut all = all;
    for header in headers_of(member) {
        all = all.with(header)?;
    }
    Ok(all)
}

/// The headers of members.
pub fn first_headers<'a>(
    alloc: Global,
    members: &'a [Member],
) -> Result<FirstHeaders<'a>, AllocError>
    ensures { IfOk result (λ headers. map see_lent headers.all.items ≡ flat_map member_headers (map see_member members.now)) }
{
    let mut all = FirstHeaders::new(alloc);
    for member in members {
        all = with_member(all, member)?;
    }
    Ok(all)
}
