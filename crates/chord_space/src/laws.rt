//! What the rule of the table says of its journal, at any moment between two steps: functions whose contracts are the laws.
ghost use Rattle.chord_base.specs.declared.event.Limits.{Limits};
ghost use Rattle.chord_code.specs.declared.parts.Parts.{Parts};
ghost use Rattle.chord_rule.specs.Laws.{OneIsMinded, TakenShows, ConsumedTaken, ClaimedTaken, CellPending, PendingShows, WaysMissNone, WholeWaysMissNone, WaysMeetLinked, CellClaimed, ClaimedShows, ClaimedElsewhere, CounterBounded, CounterBoundedByDesks, NoneTwice};

use chord_code::carry::Carry;

/// Wherever the join machine may fire a chord, one of the pending messages is minded: it is not armed yet, a desk has a duty on
/// it, or a woken caller looks after it.
pub fn one_is_minded<P: Carry>()
    ensures { (code : Parts) (limits : Limits) → OneIsMinded P.entries P.arguments (λ q. P.keeps_to q code limits) }
{}

/// A message is taken by a firing exactly where its cell is consumed, or a desk has claimed it and drawn that firing.
pub fn taken_messages<P: Carry>()
    ensures shows { (code : Parts) (limits : Limits) → TakenShows P.entries P.arguments (λ q. P.keeps_to q code limits) }
    ensures consumed { (code : Parts) (limits : Limits) → ConsumedTaken P.entries P.arguments (λ q. P.keeps_to q code limits) }
    ensures claimed { (code : Parts) (limits : Limits) → ClaimedTaken P.entries P.arguments (λ q. P.keeps_to q code limits) }
{}

/// A message whose cell is Pending, or that is claimed for no firing yet, is pending; and this is what the table shows of a
/// pending message.
pub fn pending_messages<P: Carry>()
    ensures pending { (code : Parts) (limits : Limits) → CellPending P.entries P.arguments (λ q. P.keeps_to q code limits) }
    ensures shows { (code : Parts) (limits : Limits) → PendingShows P.entries P.arguments (λ q. P.keeps_to q code limits) }
{}

/// A way through a bag misses no message that had been linked there when the desk read its head, as `Space::look_head` tells:
/// each is consumed, or the desk has looked at it on this way, or the way has still to come to it, or was cut short by a message
/// that was not armed. So where the way went to the end of the bag, each is consumed or was looked at. A message to which the
/// way has come is in the bag.
pub fn ways_miss_none<P: Carry>()
    ensures ways { (code : Parts) (limits : Limits) → WaysMissNone P.entries P.arguments (λ q. P.keeps_to q code limits) }
    ensures whole { (code : Parts) (limits : Limits) → WholeWaysMissNone P.entries P.arguments (λ q. P.keeps_to q code limits) }
{}

/// Each message that a desk has looked at on a way is a message of the journal, linked in the bag whose head the desk read there,
/// which is the way's own where its object was made; and it was linked when the desk read that head.
pub fn ways_meet_linked<P: Carry>()
    ensures { (code : Parts) (limits : Limits) → WaysMeetLinked P.entries P.arguments (λ q. P.keeps_to q code limits) }
{}

/// A message's cell is Claimed exactly where a desk has claimed it. So where it is Claimed, and a desk has no claim on it, another
/// desk has.
pub fn claimed_messages<P: Carry>()
    ensures claimed { (code : Parts) (limits : Limits) → CellClaimed P.entries P.arguments (λ q. P.keeps_to q code limits) }
    ensures shows { (code : Parts) (limits : Limits) → ClaimedShows P.entries P.arguments (λ q. P.keeps_to q code limits) }
    ensures elsewhere { (code : Parts) (limits : Limits) → ClaimedElsewhere P.entries P.arguments (λ q. P.keeps_to q code limits) }
{}

/// The counter is at most the limit and one for each desk that was told that the limit is reached, or has been joined into the
/// first one. So it passes the limit by at most one for each desk: the first one, and each that was split from it.
pub fn counter_bounded<P: Carry>()
    ensures told { (code : Parts) (limits : Limits) → CounterBounded P.entries P.arguments (λ q. P.keeps_to q code limits) }
    ensures desks { (code : Parts) (limits : Limits) → CounterBoundedByDesks P.entries P.arguments (λ q. P.keeps_to q code limits) }
{}

/// No message is taken twice, whatever the order of the steps: two firings that have it as a member are one, which has it once,
/// and at most one desk has claimed it, once.
pub fn no_message_twice<P: Carry>()
    ensures { (code : Parts) (limits : Limits) → NoneTwice P.entries P.arguments (λ q. P.keeps_to q code limits) }
{}
