//! Where workers crowd at the counter, one that draws less than its share stands aside for a moment. No clause says that it does.
ghost use Rattle.std.specs.Prelude.{◌≡◌, ◌≤◌, ◌+◌};
ghost use Rattle.chord_roll.specs.Cards.{counts, ended, reads, stops, times_asked, IsSameCard};

use chord_roll::Card;
use chord_worker::Worker;
use std::sync::Wait;

/// How long a worker stands aside at the least, in microseconds.
const ASIDE_MICROS: u64 = 100;
/// So many numbers, or more, are given from its last draw before it stands aside to its first one afterwards, where workers crowd.
const MANY: u32 = 800;
/// How many spells a worker plays on after it stood aside and there was no crowd.
const CALM: u32 = 64;
/// A worker that drew at most one in so many of its share computes, waited for work or had no processor, and is in nobody's way.
const FEW: u64 = 4;

/// What a worker had drawn when its last spell ended, which is `ROUNDS` rounds (`Player::rounds`).
///
/// Where workers draw numbers in turns, each draw waits until the line of the counter has come from another processor: together they
/// take more time than one after the other. So a worker that draws less than its share stands aside. How many numbers the others draw
/// meanwhile tells how quick they are: where these are few, bodies compute more than they draw, and no worker is in another's way.
///
/// Those that stand aside count as at work. Nothing says that one plays on: where all are aside at once few numbers are drawn, and
/// each then plays on for `CALM` spells.
#[derive(Drop)]
pub(crate) struct Crowd {
    /// How many entries the worker had drawn.
    drew: usize,
    /// The number of the newest one.
    newest: u32,
    /// Whether it slept then, as long as it was to.
    was_aside: bool,
    /// How many more spells it plays on.
    calm: u32,
}

impl Crowd {
    /// It has drawn nothing.
    pub(crate) fn new() -> Crowd {
        Crowd {
            drew: 0,
            newest: 0,
            was_aside: false,
            calm: 0,
        }
    }

    /// How many numbers the worker drew in this spell, and how many were given after its first one, up to its last.
    fn catch_up(&mut self, worker: &Worker) -> (usize, u32) {
        let draws = worker.draws();
        let mine = draws.len().saturating_sub(self.drew);
        let (Some(first), Some(last)) = (draws.get(self.drew), draws.last()) else {
            return (0, 0);
        };
        let (first, last) = (first.number, last.number);
        if self.was_aside && first.saturating_sub(self.newest) < MANY {
            self.calm = CALM;
        }
        self.drew = draws.len();
        self.newest = last;
        (mine, last.saturating_sub(first))
    }

    /// The worker has played a spell. If it has a task, and drew less than its share, it stands aside for a moment. It reads the roll
    /// twice at the most, and does not ask whether all are to stop.
    pub(crate) fn stand_aside<R: Wait>(&mut self, rt: &R, worker: &Worker, card: &mut Card)
        ensures card { IsSameCard card.old card.new × (counts card.new ≡ counts card.old) × (stops card.new ≡ stops card.old) }
        ensures ended { ended card.new ≡ ended card.old }
        ensures reads { reads card.new ≤ reads card.old + 2 }
        ensures asks { times_asked card.new ≡ times_asked card.old }
    {
        let (mine, all) = self.catch_up(worker);
        let (mine, all) = (mine as u64, all as u64);
        self.was_aside = false;
        if self.calm > 0 {
            self.calm -= 1;
            return;
        }
        if !worker.has_task() || all / 2 <= mine {
            return;
        }
        let working = card.read();
        if working > 1 && all / working > mine && all / working / FEW < mine {
            card.sleep(rt, working, ASIDE_MICROS);
            // where another number are at work by now, the sleep may have ended at once, and tells nothing
            self.was_aside = card.read() == working;
        }
    }
}
