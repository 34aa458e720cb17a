//! The least of the breaks that were noted: least by its token, then by its rule.
#![tactic(auto)]

ghost use Rattle.std.specs.Prelude.{◌≡◌, ◌<◌, ◌^◌, [], ◌∷◌, None};
ghost use Rattle.std.specs.Option.{ForSome};
ghost use Rattle.chord_classes.specs.NameRules.{when};
ghost use Rattle.chord_classes.specs.Least.{least, keys};

/// The least break that was noted, if one was. A break is one number: 32 times its token, and its rule.
#[derive(Clone, Copy, Drop)]
pub struct Least {
    pub found: Option<u64>,
    pub ghost small: { ForSome found (λ key. key < 2 ^ 37) },
}

impl Least {
    /// Nothing was noted.
    pub fn none() -> Least
        ensures { result.found ≡ None }
    {
        Least { found: None }
    }

    /// Notes that a rule is broken at a token.
    pub fn note(&mut self, rule: u8, at: u32)
        requires { rule < 32 }
        ensures { self.new.found ≡ least self.old.found (keys rule (at ∷ [])) }
    {
        let key = at as u64 * 32 + rule as u64;
        match self.found {
            None => self.found = Some(key),
            Some(before) => {
                if key < before {
                    self.found = Some(key);
                }
            }
        }
    }

    /// Notes it where the condition holds.
    pub fn note_if(&mut self, rule: u8, condition: bool, at: u32)
        requires { rule < 32 }
        ensures { self.new.found ≡ least self.old.found (keys rule (when condition at)) }
    {
        if condition {
            self.note(rule, at);
        }
    }
}
