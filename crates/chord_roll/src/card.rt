//! The cards of the workers of one run.
ghost use Rattle.std.specs.Prelude.{◌≡◌, ◌+◌, ◌<◌, true, false, None, Some, IfOk, OnErr};
ghost use Rattle.std.specs.Arc.{arc_value};

use crate::plays::{Begin, End, Hire, Read, ReadStop, Stop};
use crate::turnout::Turnout;
use atomic_table::{Seat, Table, TableRule};
use std::alloc::{AllocError, Global};
use std::sync::{Arc, Wait};
use std::time::Duration;

/// The word that says how many cards count.
const COUNT: usize = 0;
/// The word that is 1 once all are to stop.
const STOPPED: usize = 1;

/// The rule of the roll.
pub struct Law;

impl TableRule<(), Turnout, ()> for Law {
    ghost use Rattle.chord_roll.specs.Roll.{IsRoll, new_card};

    ghost holds = { λ _. IsRoll };

    ghost first = { λ _. new_card };
}

/// A worker's card: whether the worker counts among those at work, and where all cards of its run are counted.
///
/// Nothing copies it, and no step but those of its own worker changes whether it counts. One that is dropped while it counts, counts for ever.
#[derive(Drop)]
pub struct Card {
    roll: Arc<Table<(), Turnout, (), Law, Global>>,
    seat: Seat<(), Turnout>,
    at_work: bool,
    ghost two_words: { (arc_value roll).shared.table_id.words ≡ 2 },
    ghost seated: { seat.table_id ≡ (arc_value roll).shared.table_id },
    ghost said: { at_work ≡ seat.me.0.counts },
}

impl Card {
    ghost use Rattle.chord_roll.specs.Roll.{counted_as};
    ghost use Rattle.chord_roll.specs.Cards.{counts, ended, hired, last_read, reads, times_asked, stops, tells, roll_of, IsFirstCard, IsSameCard, HasReadNothing, HasAskedNothing};

    /// A new roll with one card, which does not count.
    ///
    /// # Errors
    ///
    /// `AllocError` where no memory is found.
    pub fn first(alloc: Global) -> Result<Card, AllocError>
        ensures { IfOk result (λ card. IsFirstCard card × (hired card ≡ 0) × (counts card ≡ false) × (stops card ≡ false) × (ended card ≡ 0) × (last_read card ≡ None) × (reads card ≡ 0) × (times_asked card ≡ 0)) }
    {
        let (table, seat) = Table::of_words(alloc, &[0, 0], &())?;
        let roll = Arc::new(alloc, table)?;
        Ok(Card {
            roll,
            seat,
            at_work: false,
        })
    }

    /// One more card of this roll, which does not count. Only the first card makes others, at most 65,535; a refused one is not among them.
    ///
    /// # Errors
    ///
    /// `AllocError` where the roll can be shared no more, as `Arc::clone` says.
    pub fn hire(&mut self) -> Result<Card, AllocError>
        requires first { IsFirstCard self.old × (hired self.old < 65535) }
        ensures same { HasAskedNothing self.old self.new × (counts self.new ≡ counts self.old) × (stops self.new ≡ stops self.old) }
        ensures ended { ended self.new ≡ ended self.old }
        ensures tells { tells self.new ≡ tells self.old }
        ensures refused { OnErr result (hired self.new ≡ hired self.old) }
        ensures other { IfOk result (λ card. (hired self.new ≡ hired self.old + 1) × (roll_of card ≡ roll_of self.old) × (counts card ≡ false) × (stops card ≡ false) × (ended card ≡ 0) × (last_read card ≡ None) × (reads card ≡ 0) × (times_asked card ≡ 0)) }
    {
        let roll = Arc::clone(&self.roll)?;
        let seat = self.roll.shared.split_seat::<Hire>(&mut self.seat);
        Ok(Card {
            roll,
            seat,
            at_work: false,
        })
    }

    /// Whether its worker counts among those at work.
    pub fn is_at_work(&self) -> bool
        ensures { result ≡ counts self.now }
    {
        self.at_work
    }

    /// The worker is at work from here on, if it was not.
    pub fn begin(&mut self)
        ensures same { HasAskedNothing self.old self.new × (hired self.new ≡ hired self.old) × (stops self.new ≡ stops self.old) }
        ensures counts { counts self.new ≡ true }
        ensures ended { ended self.new ≡ ended self.old }
        ensures tells { tells self.new ≡ tells self.old }
    {
        if !self.at_work {
            self.roll
                .shared
                .fetch_add::<Begin>(&mut self.seat, COUNT, 1);
            self.at_work = true;
        }
    }

    /// The worker is at work no more, if it was. Whoever sleeps is not woken, even if this was the last one at work: those that sleep look
    /// again by themselves, and a wake-up is a call of the system.
    pub fn end(&mut self)
        ensures same { HasAskedNothing self.old self.new × (hired self.new ≡ hired self.old) × (stops self.new ≡ stops self.old) }
        ensures counts { counts self.new ≡ false }
        ensures ended { ended self.new ≡ ended self.old + counted_as (counts self.old) }
        ensures tells { tells self.new ≡ tells self.old }
    {
        if self.at_work {
            self.roll.shared.fetch_sub::<End>(&mut self.seat, COUNT, 1);
            self.at_work = false;
        }
    }

    /// How many workers are at work.
    pub fn read(&mut self) -> u64
        ensures same { IsSameCard self.old self.new × (hired self.new ≡ hired self.old) × (counts self.new ≡ counts self.old) × (stops self.new ≡ stops self.old) }
        ensures ended { ended self.new ≡ ended self.old }
        ensures tells { tells self.new ≡ tells self.old }
        ensures read { last_read self.new ≡ Some result }
        ensures reads { reads self.new ≡ reads self.old + 1 }
        ensures asks { times_asked self.new ≡ times_asked self.old }
        ensures own { counts self.old ≡ true → 0 < result }
    {
        self.roll.shared.load::<Read>(&mut self.seat, COUNT)
    }

    /// Sleeps for so long, or until a wake-up, unless the number of those at work is another than this by now.
    pub fn sleep<R: Wait>(&self, rt: &R, read: u64, micros: u64) {
        let low = (read % (1 << 32)) as u32;
        self.roll
            .shared
            .park_timeout(rt, COUNT, low, Duration::from_micros(micros));
    }

    /// Those that sleep are to look once more.
    pub fn wake_all(&self) {
        self.roll.shared.wake_all(COUNT);
    }

    /// All are to stop, and those that sleep are woken.
    pub fn stop(&mut self)
        ensures same { HasAskedNothing self.old self.new × (hired self.new ≡ hired self.old) × (counts self.new ≡ counts self.old) }
        ensures ended { ended self.new ≡ ended self.old }
        ensures tells { (tells self.new ≡ true) × (stops self.new ≡ true) }
    {
        self.roll.shared.store::<Stop>(&mut self.seat, STOPPED, 1);
        self.wake_all();
    }

    /// Whether all are to stop.
    pub fn has_stopped(&mut self) -> bool
        ensures same { HasReadNothing self.old self.new × (hired self.new ≡ hired self.old) × (counts self.new ≡ counts self.old) }
        ensures ended { ended self.new ≡ ended self.old }
        ensures tells { tells self.new ≡ tells self.old }
        ensures asks { times_asked self.new ≡ times_asked self.old + 1 }
        ensures told { result ≡ true → stops self.new ≡ true }
        ensures not_yet { result ≡ false → (stops self.old ≡ false) × (stops self.new ≡ false) }
    {
        self.roll.shared.load::<ReadStop>(&mut self.seat, STOPPED) != 0
    }
}
