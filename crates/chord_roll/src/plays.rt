//! What each step tells its caller, and how a card is made from another. These types are for the proofs alone.
ghost use Rattle.chord_roll.specs.Roll.{count_begins, count_ends, reads_count, tells_all, reads_stop, hired_one, new_card};

use crate::turnout::Turnout;
use atomic_table::{Play, Split};

/// A worker counts from here on.
pub struct Begin;

impl Play<(), Turnout> for Begin {
    ghost then = { count_begins };
}

/// A worker counts no more.
pub struct End;

impl Play<(), Turnout> for End {
    ghost then = { count_ends };
}

/// The number on the roll is read.
pub struct Read;

impl Play<(), Turnout> for Read {
    ghost then = { reads_count };
}

/// All are told to stop.
pub struct Stop;

impl Play<(), Turnout> for Stop {
    ghost then = { tells_all };
}

/// Whether all are to stop is read.
pub struct ReadStop;

impl Play<(), Turnout> for ReadStop {
    ghost then = { reads_stop };
}

/// One more worker gets a card.
pub struct Hire;

impl Split<Turnout> for Hire {
    ghost left = { hired_one };

    ghost right = { λ _. new_card };
}
