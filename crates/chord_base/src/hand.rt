//! Up to eight items, handed over one by one and without memory.
#![tactic(auto)]

ghost use Rattle.std.specs.Prelude.{◌≡◌, ◌<◌, ◌≤◌, List, [], ◌∷◌, ◌++◌, length, IsTrue, ◌↔◌, MatchOption};
ghost use Rattle.chord_base.specs.Hands.{items_in, HasNoGap, settled, left_over};

use std::marker::Model;
use std::mem;

/// At most eight items in order, which stand in the value itself. Contracts see the list of them.
#[derive(Drop)]
pub struct Hand<T> {
    first: Option<T>,
    second: Option<T>,
    third: Option<T>,
    fourth: Option<T>,
    fifth: Option<T>,
    sixth: Option<T>,
    seventh: Option<T>,
    eighth: Option<T>,
}

impl<T> Model for Hand<T> {
    ghost Value = { List T };

    ghost view = { λ h. items_in (h.first ∷ h.second ∷ h.third ∷ h.fourth ∷ h.fifth ∷ h.sixth ∷ h.seventh ∷ h.eighth ∷ []) };

    ghost invariant = { λ h. HasNoGap (h.first ∷ h.second ∷ h.third ∷ h.fourth ∷ h.fifth ∷ h.sixth ∷ h.seventh ∷ h.eighth ∷ []) };
}

/// Offers an item to a place, which takes it where it is empty. What is left of it is for the next place.
fn settle<T: Drop>(place: &mut Option<T>, item: Option<T>) -> Option<T>
    ensures place { place.new ≡ settled place.old item }
    ensures rest { result ≡ left_over place.old item }
{
    match place {
        Some(_) => item,
        None => {
            *place = item;
            None
        }
    }
}

impl<T: Drop> Hand<T> {
    /// No items.
    pub fn new() -> Hand<T>
        ensures { result ≡ [] }
    {
        Hand {
            first: None,
            second: None,
            third: None,
            fourth: None,
            fifth: None,
            sixth: None,
            seventh: None,
            eighth: None,
        }
    }

    /// Adds an item at the back. The places behind the first empty one are not looked at.
    pub fn put(&mut self, item: T)
        requires { length self.old < 8 }
        ensures { self.new ≡ self.old ++ item ∷ [] }
    {
        let item = settle(&mut self.first, Some(item));
        if item.is_none() {
            return;
        }
        let item = settle(&mut self.second, item);
        if item.is_none() {
            return;
        }
        let item = settle(&mut self.third, item);
        if item.is_none() {
            return;
        }
        let item = settle(&mut self.fourth, item);
        if item.is_none() {
            return;
        }
        let item = settle(&mut self.fifth, item);
        if item.is_none() {
            return;
        }
        let item = settle(&mut self.sixth, item);
        if item.is_none() {
            return;
        }
        let item = settle(&mut self.seventh, item);
        if item.is_none() {
            return;
        }
        let _ = settle(&mut self.eighth, item);
    }

    /// Whether there are eight items.
    pub fn is_full(&self) -> bool
        ensures full { IsTrue result ↔ (length self.now ≡ 8) }
        ensures few { length self.now ≤ 8 }
    {
        self.eighth.is_some()
    }

    /// Takes the first item out. None exactly where there is none. The places behind the first empty one are not looked at.
    #[inline(never)]
    pub fn take_first(&mut self) -> Option<T>
        ensures { MatchOption result ((self.old ≡ []) × (self.new ≡ [])) (λ item. self.old ≡ item ∷ self.new) }
    {
        let first = self.first.take();
        if self.second.is_none() {
            return first;
        }
        mem::swap(&mut self.first, &mut self.second);
        if self.third.is_none() {
            return first;
        }
        mem::swap(&mut self.second, &mut self.third);
        if self.fourth.is_none() {
            return first;
        }
        mem::swap(&mut self.third, &mut self.fourth);
        if self.fifth.is_none() {
            return first;
        }
        mem::swap(&mut self.fourth, &mut self.fifth);
        if self.sixth.is_none() {
            return first;
        }
        mem::swap(&mut self.fifth, &mut self.sixth);
        if self.seventh.is_none() {
            return first;
        }
        mem::swap(&mut self.sixth, &mut self.seventh);
        if self.eighth.is_none() {
            return first;
        }
        mem::swap(&mut self.seventh, &mut self.eighth);
        first
    }
}
