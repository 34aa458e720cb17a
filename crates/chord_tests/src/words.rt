//! chord_word: the words that the manual lists, in both directions, and the words that are none.
ghost use Rattle.chord_word.specs.Cells.{WordFits};
ghost use Rattle.chord_word.specs.Places.{PlaceFits};

use chord_base::value::Object;
use chord_word::{
    Cell, Word, pack, pack_head, pack_place, unpack, unpack_cell, unpack_head, unpack_next,
    unpack_place,
};
use std::process::Abort;

// The cell has this word, and the word has this cell.
fn both_ways(rt: &impl Abort, word: Word, value: u64)
    requires fits { WordFits word }
{
    let packed = pack(&word);
    assert_eq!(rt; packed, value, "{word:?}");
    assert_eq!(rt; unpack(value), Some(word), "{value}");
    assert_eq!(rt; unpack_cell(packed), word, "{value}");
    assert_eq!(rt; unpack_next(packed), word.next, "{value}");
}

#[test]
fn words_of_cells(rt: HostRuntime) {
    both_ways(
        &rt,
        Word {
            cell: Cell::Empty,
            next: None,
        },
        0,
    );
    both_ways(
        &rt,
        Word {
            cell: Cell::Pending,
            next: None,
        },
        1,
    );
    both_ways(
        &rt,
        Word {
            cell: Cell::Claimed,
            next: None,
        },
        2,
    );
    both_ways(
        &rt,
        Word {
            cell: Cell::Pending,
            next: Some(2),
        },
        25,
    );
    both_ways(
        &rt,
        Word {
            cell: Cell::Consumed,
            next: Some(65_535),
        },
        524_291,
    );
    both_ways(
        &rt,
        Word {
            cell: Cell::Woken(3),
            next: None,
        },
        3_145_732,
    );
    both_ways(
        &rt,
        Word {
            cell: Cell::Woken(65_535),
            next: Some(65_535),
        },
        68_718_952_452,
    );
    both_ways(
        &rt,
        Word {
            cell: Cell::Ready,
            next: None,
        },
        5,
    );
    both_ways(
        &rt,
        Word {
            cell: Cell::Started,
            next: None,
        },
        6,
    );
}

/// A word that is none of a cell, and why.
const NO_CELLS: [(u64, &str); 9] = [
    (7, "no state"),
    (524_297, "a next past the last message"),
    (1_048_577, "a waking message of a cell that isn't woken"),
    (1_099_512_676_353, "the same with bit 40"),
    (68_719_476_737, "bit 36 of a pending cell"),
    (8, "the next of an empty cell"),
    (13, "the next of a ready firing"),
    (14, "the next of a started firing"),
    (u64::MAX, "all bits"),
];

#[test]
fn words_of_no_cell(rt: HostRuntime) {
    for (value, why) in NO_CELLS {
        assert_eq!(rt; unpack(value), None, "{why}");
    }
}

#[test]
fn words_of_heads(rt: HostRuntime) {
    for (first, value) in [(None, 0), (Some(0), 1), (Some(65_535), 65_536)] {
        assert_eq!(rt; pack_head(first), value, "{first:?}");
    }
    assert_eq!(rt; unpack_head(0), None);
    assert_eq!(rt; unpack_head(1), Some(0));
    assert_eq!(rt; unpack_head(65_536), Some(65_535));
}

// The place has this word, and the word has this place.
fn place_both_ways(rt: &impl Abort, object: Object, method: u8, value: u64)
    requires fits { PlaceFits object method }
{
    assert_eq!(rt; pack_place(object, method), value);
    match unpack_place(value) {
        Some((found, at)) => {
            assert_eq!(rt;
                (found.number, found.class, at),
                (object.number, object.class, method),
                "{value}"
            );
        }
        None => assert!(rt; false, "{value} is a place"),
    }
}

#[test]
fn words_of_places(rt: HostRuntime) {
    place_both_ways(
        &rt,
        Object {
            number: 0,
            class: 0,
        },
        0,
        1,
    );
    place_both_ways(
        &rt,
        Object {
            number: 1,
            class: 0,
        },
        1,
        2_147_483_651,
    );
    place_both_ways(
        &rt,
        Object {
            number: 1_048_575,
            class: 0,
        },
        0,
        2_097_151,
    );
    place_both_ways(
        &rt,
        Object {
            number: 0,
            class: 1_023,
        },
        0,
        2_145_386_497,
    );
    place_both_ways(
        &rt,
        Object {
            number: 0,
            class: 0,
        },
        31,
        66_571_993_089,
    );
    place_both_ways(
        &rt,
        Object {
            number: 1_048_575,
            class: 1_023,
        },
        31,
        68_719_476_735,
    );
    for (value, why) in [
        (0, "bit 0 isn't set"),
        (2_147_483_650, "method 1 of o1.0 without bit 0"),
        (68_719_476_737, "bit 36"),
        (1_099_511_627_777, "bit 40"),
    ] {
        assert!(rt; unpack_place(value).is_none(), "{why}");
    }
}
