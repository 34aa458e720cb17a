//! Where a byte stands in a text: its line and its column.
#![tactic(auto)]

ghost use Rattle.std.specs.Prelude.{◌≡◌, ◌+◌, ◌≤◌, length};
ghost use Rattle.chord_run.specs.Positions.{breaks_after, position_of};

/// A place in a text. Both parts count from 1, and the column counts bytes.
#[derive(Clone, Copy, Debug, PartialEq, Eq)]
pub struct Position {
    pub line: u32,
    pub column: u32,
}

/// Whether a line ends after this byte: LF ends one, and CR where no LF follows.
fn ends_after(byte: u8, behind: &[u8]) -> bool
    ensures { result ≡ breaks_after byte behind.now }
{
    match byte {
        b'\n' => true,
        b'\r' => match behind.first() {
            Some(next) => *next != b'\n',
            None => true,
        },
        _ => false,
    }
}

/// The place of byte `k`, or of the text's end.
pub fn position_at(text: &[u8], k: usize) -> Position
    requires within { k ≤ length text.now }
    requires short { length text.now ≤ 1048576 }
    ensures { result ≡ position_of text.now k }
{
    let mut place = Position { line: 1, column: 1 };
    for i in 0..k {
        let (_, behind) = text.split_at(i + 1);
        if ends_after(text[i], behind) {
            place.line += 1;
            place.column = 1;
        } else {
            place.column += 1;
        }
    }
    place
}
