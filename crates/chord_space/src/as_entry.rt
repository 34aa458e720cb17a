//! What can be drawn as an entry.
ghost use Rattle.chord_base.specs.declared.event.What.{What as AWhat};

use chord_base::event::What;

/// Says what entry it becomes once it is drawn. It has no call of its own: a draw looks at nothing but the number that it gets.
pub trait AsEntry {
    /// What the entry says.
    ghost what: { Self → AWhat };
}

impl AsEntry for What {
    ghost what = { λ w. w };
}
