//! The workers of a run go to threads of their own, and come back.
ghost use Rattle.std.specs.Prelude.{◌≡◌, ◌<◌, false, ◌≤◌, ◌++◌, ◌∷◌, [], IfSome, IfNone, option_to_list, length, vec_capacity};
ghost use Rattle.std.specs.Thread.{IsSync};
ghost use Rattle.chord_roll.specs.Cards.{roll_of};
ghost use Rattle.chord_pool.specs.Players.{IsOneRun, MayPlay, HasPlayed, PlaysOn, HasLeftOff, HaveAllLeftOff, CountsIfItPlays, AreOfRoll, IsHired, AreHired, HaveAllPlayed};

use crate::player::{Player, work};
use crate::run::Run;
use chord_worker::Gate;
use std::alloc::Global;
use std::sync::Wait;
use std::thread::{Threads, join};

/// The last of them.
fn last<'a>(run: &Run<'a>, players: &mut Vec<Player>) -> Option<Player>
    requires hired { AreHired run.now.space.now players.old.items }
    ensures hired { IfSome result (λ one. IsHired run.now.space.now one × AreHired run.now.space.now players.new.items) }
    ensures items { players.old.items ≡ players.new.items ++ option_to_list result }
    ensures none { IfNone result (HaveAllPlayed run.now.space.now players.new.items) }
    ensures empty { IfNone result ((players.old.items ≡ []) × (players.new.items ≡ [])) }
    ensures fewer { IfSome result (λ _. length players.new.items < length players.old.items) }
    ensures room { IfSome result (λ _. length players.new.items < vec_capacity players.new) × (vec_capacity players.new ≡ vec_capacity players.old) }
{
    let _space = run.space;
    players.pop()
}

/// The player stands behind the others.
fn back(players: Vec<Player>, one: Player) -> Vec<Player>
    requires room { length players.items < vec_capacity players }
    ensures items { result.items ≡ players.items ++ one ∷ [] }
    ensures room { vec_capacity players ≤ vec_capacity result }
{
    let mut players = players;
    match players.push(one) {
        Ok(()) => players,
        Err(_) => unreachable!(),
    }
}

/// Each plays at a thread of its own, until all have come back.
fn all<'a, R: Threads + Wait + Sync, G: Gate + Sync>(
    rt: &R,
    alloc: Global,
    run: &Run<'a>,
    players: Vec<Player>,
    gate: &G,
) -> Vec<Player>
    requires run { IsOneRun run.now.space.now run.now.code.now run.now.limits.now }
    requires hired { AreHired run.now.space.now players.items }
    ensures played { HaveAllPlayed run.now.space.now result.items }
    ensures off { HaveAllLeftOff G.knows run.now.space.now players.items result.items }
    ensures count { length result.items ≡ length players.items }
    ensures room { vec_capacity players ≤ vec_capacity result }
{
    let mut players = players;
    let Some(one) = last(run, &mut players) else {
        return players;
    };
    let (space, code, limits) = (run.space, run.code, run.limits);
    let (one, others) = join(
        rt,
        move || -> Player
            requires { IsOneRun space.now code.now limits.now × IsHired space.now one }
            ensures { HasPlayed space.entry.now result × HasLeftOff G.knows space.entry.now one result }
        {
            let run = Run {
                space,
                code,
                limits,
            };
            work(rt, alloc, &run, one, gate)
        },
        move || -> Vec<Player>
            requires { IsSync R.row × IsOneRun space.now code.now limits.now × AreHired space.now players.items }
            ensures { HaveAllPlayed space.entry.now result.items × (length result.items ≡ length players.items) × (vec_capacity players ≤ vec_capacity result) × HaveAllLeftOff G.knows space.entry.now players.items result.items }
        {
            let run = Run {
                space,
                code,
                limits,
            };
            all(rt, alloc, &run, players, gate)
        },
    );
    back(others, one)
}

/// The worker that plays `Main` stays at this thread, and the others are beside it.
///
/// Where no thread can be made, `join` runs its second closure first: so `Main` is played then before any of the others looks for work,
/// and they do not wait for what has not begun.
pub(crate) fn share<'a, R: Threads + Wait + Sync, G: Gate + Sync>(
    rt: &R,
    alloc: Global,
    run: &Run<'a>,
    main: Player,
    others: Vec<Player>,
    gate: &G,
) -> (Player, Vec<Player>)
    requires run { IsOneRun run.now.space.now run.now.code.now run.now.limits.now }
    requires main { MayPlay run.now.space.now main × CountsIfItPlays main × (main.failed ≡ false) }
    requires cards { AreOfRoll (roll_of main.card) others.items }
    requires others { AreHired run.now.space.now others.items }
    ensures main { HasPlayed run.now.space.now result.0 × PlaysOn main result.0 }
    ensures told { G.knows 0 }
    ensures others { HaveAllPlayed run.now.space.now result.1.items × (length result.1.items ≡ length others.items) }
    ensures off { HasLeftOff G.knows run.now.space.now main result.0 × HaveAllLeftOff G.knows run.now.space.now others.items result.1.items }
{
    let (space, code, limits) = (run.space, run.code, run.limits);
    let (back, first) = join(
        rt,
        move || -> Vec<Player>
            requires { IsSync R.row × IsOneRun space.now code.now limits.now × AreHired space.now others.items }
            ensures { HaveAllPlayed space.entry.now result.items × (length result.items ≡ length others.items) × HaveAllLeftOff G.knows space.entry.now others.items result.items }
        {
            let run = Run {
                space,
                code,
                limits,
            };
            all(rt, alloc, &run, others, gate)
        },
        move || -> Player
            requires { IsOneRun space.now code.now limits.now × MayPlay space.now main × CountsIfItPlays main × (main.failed ≡ false) }
            ensures { HasPlayed space.entry.now result × PlaysOn main result × G.knows 0 × HasLeftOff G.knows space.entry.now main result }
        {
            gate.started(0);
            let run = Run {
                space,
                code,
                limits,
            };
            work(rt, alloc, &run, main, gate)
        },
    );
    (first, back)
}
