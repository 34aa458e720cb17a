//! What each step tells its caller, and how desks are split and joined. These types are for the proofs alone.
ghost use Rattle.std.specs.Prelude.{ℕ, List, []};
ghost use Rattle.chord_base.specs.declared.event.What.{What};
ghost use Rattle.chord_base.specs.declared.event.What.TheVariants.{Begun};
ghost use Rattle.chord_base.specs.declared.event.Limits.{Limits};
ghost use Rattle.chord_base.specs.declared.value.Object.{Object};
ghost use Rattle.chord_code.specs.declared.parts.Parts.{Parts};
ghost use Rattle.chord_rule.specs.Kinds.{newcomer, gone, lent_one, united};
ghost use Rattle.chord_rule.specs.Tells.{draws_firing, places, link_adds, arms, claims, holds, unclaims, consumes, slot_returns, posts_out, posts, starts, plays, finds_place, looks_count, looks_head, looks_cell, looks_place, bypasses_head, bypasses_cell, rests};
ghost use Rattle.chord_code.specs.Meaning.{code_program};
ghost use Rattle.chord_space.specs.Ruled.{draws_of_code};
ghost use Rattle.chord_space.specs.Desks.{no_parts, no_limits, no_object};

use atomic_table::{Join, Play, Split};
use chord_code::carry::Carry;
use chord_rule::view::View;
use std::marker::{Brand, PhantomData};

/// The entry that a draw makes, and the code and the limits of its run. Each call picks them.
pub trait Said {
    ghost parts: { Parts };

    ghost limits: { Limits };

    ghost body: { ℕ };

    ghost what: { What };
}

impl Said for Brand {
    ghost parts = { no_parts };

    ghost limits = { no_limits };

    ghost body = { 0 };

    ghost what = { Begun };
}

/// The object and the method of the bag of a message that is linked, or whose head is moved. Each call picks them.
pub trait Addressed {
    ghost object: { Object };

    ghost method: { ℕ };
}

impl Addressed for Brand {
    ghost object = { no_object };

    ghost method = { 0 };
}

/// The code and the limits of the tasks in parcels. Each call picks those of its space.
pub trait Governed {
    ghost parts: { Parts };

    ghost limits: { Limits };
}

impl Governed for Brand {
    ghost parts = { no_parts };

    ghost limits = { no_limits };
}

/// The firing that a draw makes, and the code and the limits of its run. Each call picks them.
pub trait Firing {
    ghost parts: { Parts };

    ghost limits: { Limits };

    ghost chord: { ℕ };

    ghost object: { Object };

    ghost members: { List ℕ };
}

impl Firing for Brand {
    ghost parts = { no_parts };

    ghost limits = { no_limits };

    ghost chord = { 0 };

    ghost object = { no_object };

    ghost members = { [] };
}

/// The bag at whose head is looked, and the code and the limits of its run. Each call picks them.
pub trait Headed {
    ghost parts: { Parts };

    ghost limits: { Limits };

    ghost object: { Object };

    ghost method: { ℕ };
}

impl Headed for Brand {
    ghost parts = { no_parts };

    ghost limits = { no_limits };

    ghost object = { no_object };

    ghost method = { 0 };
}

/// The message on which a duty is laid down. Each call picks it.
pub trait Resting {
    ghost message: { ℕ };
}

impl Resting for Brand {
    ghost message = { 0 };
}

/// An entry is drawn.
pub struct Draw<J> {
    of: PhantomData<J>,
}

impl<P, J: Said> Play<Option<P>, View> for Draw<J> {
    ghost then = { draws_of_code J.parts J.limits J.body J.what };
}

/// A firing is drawn.
pub struct DrawFiring<J> {
    of: PhantomData<J>,
}

impl<P, J: Firing> Play<Option<P>, View> for DrawFiring<J> {
    ghost then = { draws_firing (code_program J.parts J.limits) J.chord J.object J.members };
}

/// The place word of a message is set.
pub struct Set;

impl<P> Play<Option<P>, View> for Set {
    ghost then = { places };
}

/// A message is linked in its bag.
pub struct Link<P, J> {
    of: PhantomData<(P, J)>,
}

impl<P: Carry, J: Addressed> Play<Option<P>, View> for Link<P, J> {
    ghost then = { link_adds P.entries J.object J.method };
}

/// The message in flight is armed.
pub struct Arm;

impl<P> Play<Option<P>, View> for Arm {
    ghost then = { arms };
}

/// A message is claimed.
pub struct Take;

impl<P> Play<Option<P>, View> for Take {
    ghost then = { claims };
}

/// The cell of a claim is read.
pub struct Hold;

impl<P> Play<Option<P>, View> for Hold {
    ghost then = { holds };
}

/// A claim is given back.
pub struct GiveBack;

impl<P> Play<Option<P>, View> for GiveBack {
    ghost then = { unclaims };
}

/// A message is consumed.
pub struct Consume<P, J> {
    of: PhantomData<(P, J)>,
}

impl<P: Carry, J: Governed> Play<Option<P>, View> for Consume<P, J> {
    ghost then = { consumes (code_program J.parts J.limits) P.entries P.arguments (λ q. P.keeps_to q J.parts J.limits) };
}

/// The empty slot of a consumed message is home again.
pub struct ReturnSlot;

impl<P> Play<Option<P>, View> for ReturnSlot {
    ghost then = { slot_returns };
}

/// The slot of a firing comes out.
pub struct TakeSlot;

impl<P> Play<Option<P>, View> for TakeSlot {
    ghost then = { posts_out };
}

/// A firing is posted.
pub struct Post<P> {
    of: PhantomData<P>,
}

impl<P: Carry> Play<Option<P>, View> for Post<P> {
    ghost then = { posts P.entries };
}

/// A firing is started.
pub struct Start<P, J> {
    of: PhantomData<(P, J)>,
}

impl<P: Carry, J: Governed> Play<Option<P>, View> for Start<P, J> {
    ghost then = { starts (code_program J.parts J.limits) P.entries (λ q. P.keeps_to q J.parts J.limits) };
}

/// The empty slot of a started firing is home again.
pub struct GiveSlot;

impl<P> Play<Option<P>, View> for GiveSlot {
    ghost then = { plays };
}

/// The counter is looked at.
pub struct SeeCount;

impl<P> Play<Option<P>, View> for SeeCount {
    ghost then = { looks_count };
}

/// The head of a bag is looked at.
pub struct SeeHead<J> {
    of: PhantomData<J>,
}

impl<P: Carry, J: Headed> Play<Option<P>, View> for SeeHead<J> {
    ghost then = { looks_head P.entries P.arguments (λ q. P.keeps_to q J.parts J.limits) (code_program J.parts J.limits) J.object J.method };
}

/// A cell is looked at.
pub struct SeeCell;

impl<P> Play<Option<P>, View> for SeeCell {
    ghost then = { looks_cell };
}

/// A place word is looked at.
pub struct SeePlace<J> {
    of: PhantomData<J>,
}

impl<P: Carry, J: Governed> Play<Option<P>, View> for SeePlace<J> {
    ghost then = { looks_place P.entries P.arguments (λ q. P.keeps_to q J.parts J.limits) (code_program J.parts J.limits) };
}

/// A head is moved past consumed messages.
pub struct MoveHead<J> {
    of: PhantomData<J>,
}

impl<P, J: Addressed> Play<Option<P>, View> for MoveHead<J> {
    ghost then = { bypasses_head J.object J.method };
}

/// The next of a consumed message is moved past consumed messages.
pub struct MoveNext;

impl<P> Play<Option<P>, View> for MoveNext {
    ghost then = { bypasses_cell };
}

/// A duty is laid down.
pub struct LayDown<J> {
    of: PhantomData<J>,
}

impl<P, J: Resting> Play<Option<P>, View> for LayDown<J> {
    ghost then = { rests J.message };
}

/// What a desk keeps is found to be a place of the run.
pub struct FindPlace<J> {
    of: PhantomData<J>,
}

impl<P, J: Governed> Play<Option<P>, View> for FindPlace<J> {
    ghost then = { finds_place (code_program J.parts J.limits) };
}

/// The first desk lends a new one.
pub struct Lend;

impl Split<View> for Lend {
    ghost left = { lent_one };

    ghost right = { λ _. newcomer };
}

/// The first desk takes over what another one has.
pub struct Unite;

impl Join<View> for Unite {
    ghost both = { united };

    ghost spent = { gone };
}
