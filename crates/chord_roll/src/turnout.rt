//! What the roll's rule knows of a card.

/// A card, as the rule sees it. No value of it is made.
pub struct Turnout {
    /// Its worker is at work.
    pub counts: bool,
    /// How often its worker was counted off.
    pub ended: u64,
    /// How many cards were made from it.
    pub hired: u64,
    /// The number that its worker last read on the roll.
    pub read: Option<u64>,
    /// How often its worker read such a number.
    pub reads: u64,
    /// How often its worker asked whether all are to stop.
    pub asks: u64,
    /// Its worker told all to stop, or read that they are to.
    pub stops: bool,
    /// Its worker told all to stop.
    pub tells: bool,
}
