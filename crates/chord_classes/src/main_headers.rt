//! Which headers and members are `Main`, which is no method.
ghost use Rattle.std.specs.Prelude.{◌≡◌, map};
ghost use Rattle.chord_tree.specs.View.{see_header, see_member};
ghost use Rattle.chord_classes.specs.Table.{is_main};
ghost use Rattle.chord_classes.specs.Site.{has_main, member_in_main};

use chord_tree::classes::{Header, Member};

/// Whether a header is that of `Main`.
pub fn is_main(header: &Header) -> bool
    ensures { result ≡ is_main (see_header header.now) }
{
    header.name.text.items() == b"Main".as_slice()
}

/// Whether one of the headers is that of `Main`.
pub fn has_main(headers: &[Header]) -> bool
    ensures { result ≡ has_main (map see_header headers.now) }
{
    for header in headers {
        if is_main(header) {
            return true;
        }
    }
    false
}

/// Whether the body of a member is that of `Main`.
pub fn member_in_main(member: &Member) -> bool
    ensures { result ≡ member_in_main (see_member member.now) }
{
    match member {
        Member::Constructor { .. } => false,
        Member::Chord { headers, .. } => has_main(headers),
    }
}
