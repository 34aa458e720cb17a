//! Texts of chord_base: how many bytes they have, at most.

use chord_base::text::{Text, TextFault};
use std::alloc::Global;
use std::test::Fail;

/// The length of a text of this many bytes, if there is one.
fn made(alloc: Global, length: usize) -> Result<usize, Fail> {
    let bytes = vec![in alloc; b'a'; length]?;
    Ok(match Text::of_bytes(alloc, &bytes) {
        Ok(text) => text.items().len(),
        Err(TextFault::TooLong) => 0,
        Err(TextFault::Memory) => 1,
    })
}

/// The length of two such texts joined.
fn joined(alloc: Global, left: usize, right: usize) -> Result<usize, Fail> {
    let left = vec![in alloc; b'a'; left]?;
    let right = vec![in alloc; b'b'; right]?;
    let left = Text::of_bytes(alloc, &left).ok().ok_or("no text")?;
    let right = Text::of_bytes(alloc, &right).ok().ok_or("no text")?;
    Ok(match Text::joined(alloc, &left, &right) {
        Ok(text) => text.items().len(),
        Err(TextFault::TooLong) => 0,
        Err(TextFault::Memory) => 1,
    })
}

#[test]
fn a_text_has_at_most_1024_bytes(rt: HostRuntime) -> Result<(), Fail> {
    for (length, expected) in [(0, 0), (2, 2), (8, 8), (9, 9), (1024, 1024), (1025, 0)] {
        assert_eq!(rt; made(rt.alloc(), length)?, expected, "{length}");
    }
    for (left, right, expected) in [
        (0, 0, 0),
        (2, 3, 5),
        (2, 6, 8),
        (8, 1, 9),
        (1024, 0, 1024),
        (1000, 24, 1024),
        (1024, 1, 0),
        (1, 1024, 0),
    ] {
        assert_eq!(rt;
            joined(rt.alloc(), left, right)?,
            expected,
            "{left} and {right}"
        );
    }
    Ok(())
}
