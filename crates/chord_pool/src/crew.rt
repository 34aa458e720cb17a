//! The first worker hires the others, and takes them in when they have come back.
ghost use Rattle.std.specs.Prelude.{◌≡◌, ◌+◌, ◌<◌, ◌≤◌, false, [], ◌∷◌, List, IfOk, length};
ghost use Rattle.chord_base.specs.Story.{together};
ghost use Rattle.chord_pool.specs.declared.player.Player.{Player as ThePlayer};
ghost use Rattle.chord_space.specs.Desks.{view};
ghost use Rattle.chord_pool.specs.Players.{IsCrew, AreCards, IsBack, any_failed, with_draws};

use crate::player::Player;
use chord_space::Space;
use chord_task::parcel::Parcel;
use chord_worker::Worker;
use std::alloc::{AllocError, Global};

/// One more worker, with a desk and a card of its own.
fn hire_one(
    alloc: Global,
    space: &Space<Parcel>,
    main: &mut Player,
    others: &mut Vec<Player>,
) -> Result<(), AllocError>
    requires crew { IsCrew space.now main.old.worker others.old.items × ((view main.old.worker.desk).splits ≡ length others.old.items) × (length others.old.items < 65535) }
    requires cards { AreCards main.old.card others.old.items }
    ensures same { (main.new.failed ≡ main.old.failed) × (main.new.place ≡ main.old.place) × (main.new.known ≡ main.old.known) × (main.new.misses ≡ main.old.misses) }
    ensures crew { IfOk result (λ _. IsCrew space.now main.new.worker others.new.items × ((view main.new.worker.desk).splits ≡ length others.new.items) × (length others.new.items ≡ length others.old.items + 1)) }
    ensures cards { IfOk result (λ _. AreCards main.new.card others.new.items) }
    ensures task { IfOk result (λ _. main.new.worker.task ≡ main.old.worker.task) }
    ensures drawn { IfOk result (λ _. (view main.new.worker.desk).draws ≡ (view main.old.worker.desk).draws) }
{
    let card = main.card.hire()?;
    let worker = main.worker.hired(alloc, space);
    others.push(Player::new(worker, card))?;
    Ok(())
}

/// As many workers as there are to be beside the first one.
pub(crate) fn hire(
    alloc: Global,
    space: &Space<Parcel>,
    main: &mut Player,
    workers: u32,
) -> Result<Vec<Player>, AllocError>
    requires crew { IsCrew space.now main.old.worker [] × ((view main.old.worker.desk).splits ≡ 0) }
    requires card { AreCards main.old.card [] }
    requires few { (1 ≤ workers) × (workers ≤ 64) }
    ensures same { (main.new.failed ≡ main.old.failed) × (main.new.place ≡ main.old.place) × (main.new.known ≡ main.old.known) × (main.new.misses ≡ main.old.misses) }
    ensures crew { IfOk result (λ others. IsCrew space.now main.new.worker others.items) }
    ensures cards { IfOk result (λ others. AreCards main.new.card others.items) }
    ensures count { IfOk result (λ others. ((view main.new.worker.desk).splits ≡ length others.items) × (length others.items + 1 ≡ workers)) }
    ensures task { IfOk result (λ _. main.new.worker.task ≡ main.old.worker.task) }
    ensures drawn { IfOk result (λ _. (view main.new.worker.desk).draws ≡ (view main.old.worker.desk).draws) }
{
    let mut others = Vec::new(alloc);
    for _ in 1..workers {
        hire_one(alloc, space, main, &mut others)?;
    }
    Ok(others)
}

/// Takes in one that has come back.
fn take_one(space: &Space<Parcel>, main: &mut Worker, player: Player) -> Result<(), AllocError>
    requires back { (rest : List ThePlayer) × IsBack space.now main.old (player ∷ rest) }
    ensures back { IfOk result (λ _. (rest : List ThePlayer) → IsBack space.now main.old (player ∷ rest) → IsBack space.now main.new rest) }
    ensures splits { (view main.new.desk).splits ≡ (view main.old.desk).splits }
    ensures sane { IfOk result (λ _. player.failed ≡ false) }
    ensures drew { IfOk result (λ _. (view main.new.desk).draws ≡ together (view main.old.desk).draws (view player.worker.desk).draws) }
{
    if player.failed {
        return Err(AllocError);
    }
    main.take_in(space, player.worker)?;
    Ok(())
}

/// Takes in all that have come back.
///
/// # Errors
///
/// `AllocError` where one of them met want of memory, and where there is no memory for the lists of what they drew side by side.
pub(crate) fn take_all(
    space: &Space<Parcel>,
    main: &mut Worker,
    others: Vec<Player>,
) -> Result<(), AllocError>
    requires back { IsBack space.now main.old others.items }
    ensures back { IfOk result (λ _. IsBack space.now main.new []) }
    ensures splits { IfOk result (λ _. (view main.new.desk).splits ≡ (view main.old.desk).splits) }
    ensures sane { IfOk result (λ _. any_failed others.items ≡ false) }
    ensures drew { IfOk result (λ _. (view main.new.desk).draws ≡ with_draws (view main.old.desk).draws others.items) }
{
    for player in others {
        take_one(space, main, player)?;
    }
    Ok(())
}
