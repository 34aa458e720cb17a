//! Versions of a map from numbers to numbers: one with one more number is a new version, and the old one stays. They share what
//! they have in common, so that a look-up and a new version take time logarithmic in the number.
#![tactic(auto)]

ghost use Rattle.std.specs.Prelude.{◌≡◌, ◌<◌, [], IfOk, length, ◌%◌, ◌/◌};
ghost use Rattle.chord_classes.specs.Forks.{AreForks, IsVersion, IsNextVersion, IsFork, side, fork_of, under, with_side};

use crate::growth::add_one;
use crate::numbers::narrow;
use std::alloc::{AllocError, Global};
use std::marker::Model;

/// What a version has under 0, and the versions of what it has under other numbers: 2k + 1 is k in the odd one, and 2k + 2 is k
/// in the even one.
#[derive(Clone, Copy)]
pub struct Fork {
    pub value: Option<u32>,
    pub odd: Option<u32>,
    pub even: Option<u32>,
}

impl Fork {
    /// The version in which a number other than 0 is.
    fn side(self, number: usize) -> Option<u32>
        ensures { result ≡ side self number }
    {
        if number % 2 == 1 { self.odd } else { self.even }
    }

    /// This fork with another version for a number other than 0.
    fn with_side(self, number: usize, version: Option<u32>) -> Fork
        ensures { result ≡ with_side self number version }
    {
        if number % 2 == 1 {
            return Fork {
                value: self.value,
                odd: version,
                even: self.even,
            };
        }
        Fork {
            value: self.value,
            odd: self.odd,
            even: version,
        }
    }
}

/// All versions that were made, each known by the number of its fork; `None` is the empty one.
#[derive(Drop)]
pub struct Versions {
    forks: Vec<Fork>,
}

impl Model for Versions {
    ghost use Rattle.std.specs.Prelude.{List};
    ghost use Rattle.chord_classes.specs.declared.versions.Fork.{Fork};
    ghost use Rattle.chord_classes.specs.Forks.{AreForks};

    ghost Value = { List Fork };

    ghost view = { λ v. v.forks.items };

    ghost invariant = { λ v. AreForks v.forks.items };
}

impl Versions {
    /// The empty version alone.
    pub fn new(alloc: Global) -> Versions
        ensures { result ≡ [] }
    {
        Versions {
            forks: Vec::new(alloc),
        }
    }

    /// A version's fork.
    fn fork(&self, version: Option<u32>) -> Fork
        ensures fork { result ≡ fork_of self.now version }
        ensures closed { AreForks self.now }
    {
        let forks = &self.forks;
        let Some(at) = version else {
            return EMPTY;
        };
        match forks.get(at as usize) {
            Some(fork) => *fork,
            None => EMPTY,
        }
    }

    /// What a version has under a number.
    pub fn get(&self, version: Option<u32>, number: usize) -> Option<u32>
        ensures { result ≡ under self.now version number }
    {
        let mut at = version;
        let mut rest = number;
        while rest > 0 {
            at = self.fork(at).side(rest);
            rest = (rest - 1) / 2;
        }
        self.fork(at).value
    }

    /// A new version: it has this value under this number, and is else as the old one, which stays.
    pub fn with(
        &mut self,
        version: Option<u32>,
        number: usize,
        value: u32,
    ) -> Result<u32, AllocError>
        requires { IsVersion (length self.old) version }
        ensures { IfOk result (λ made. IsNextVersion self.old self.new version number value made) }
    {
        let fork = self.fork(version);
        if number == 0 {
            let made = self.push(Fork {
                value: Some(value),
                odd: fork.odd,
                even: fork.even,
            })?;
            return Ok(made);
        }
        let inner = self.with(fork.side(number), (number - 1) / 2, value)?;
        let whole = self.push(fork.with_side(number, Some(inner)))?;
        Ok(whole)
    }

    /// The version of one more fork.
    fn push(&mut self, fork: Fork) -> Result<u32, AllocError>
        requires odd { IsVersion (length self.old) fork.odd }
        requires even { IsVersion (length self.old) fork.even }
        ensures { IfOk result (λ made. IsFork self.old self.new fork made) }
    {
        let made = narrow(self.forks.len())?;
        add_one(&mut self.forks, fork)?;
        Ok(made)
    }
}

/// The fork of the empty version.
const EMPTY: Fork = Fork {
    value: None,
    odd: None,
    even: None,
};
