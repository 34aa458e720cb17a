//! How an idle worker waits: it spins, then yields, then sleeps, a little longer each time. No clause rests on it.
use chord_roll::Card;
use crossbeam_utils::Backoff;
use std::cell::Cell;
use std::sync::Wait;

/// The first sleep, in microseconds.
const FIRST_NAP_MICROS: u64 = 50;
/// How often a sleep is twice as long as the one before.
const LONGER_NAPS: u32 = 4;

/// How long an idle worker has waited.
#[derive(Drop)]
pub(crate) struct Pause {
    backoff: Backoff,
    naps: Cell<u32>,
}

impl Pause {
    /// It has not waited.
    pub(crate) fn new() -> Pause {
        Pause {
            backoff: Backoff::new(),
            naps: Cell::new(0),
        }
    }

    /// It has found work.
    pub(crate) fn reset(&self) {
        self.backoff.reset();
        self.naps.set(0);
    }

    /// Waits a little, while so many workers are at work.
    pub(crate) fn rest<R: Wait>(&self, rt: &R, card: &Card, working: u64) {
        if !self.backoff.is_completed() {
            self.backoff.snooze();
            return;
        }
        let naps = self.naps.get().min(LONGER_NAPS);
        card.sleep(rt, working, FIRST_NAP_MICROS << naps);
        self.naps.set(naps + 1);
    }
}
