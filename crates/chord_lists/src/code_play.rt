//! Plays a code.
#![tactic(auto)]

ghost use Rattle.chord_base.specs.Story.{IsSound};
ghost use Rattle.chord_code.specs.Meaning.{code_program};
ghost use Rattle.chord_code.proofs.SoundProp.{sound_prop};

use crate::code_bodies::{CodeBodies, begin_body, begin_run, go_on, journal_of, repeat, served_by};
use crate::engine::{Candidate, Playable, Turn};
use chord_base::event::{Entry, Limits, What};
use chord_base::journal::Journal;
use chord_base::members::Members;
use chord_base::value::Object;
use chord_code::code::Code;
use std::alloc::{AllocError, Global};

/// A code under limits, and sound under them.
#[derive(Drop)]
pub struct CodePlay<'a> {
    pub code: &'a Code,
    pub limits: &'a Limits,
    ghost sound: { IsSound (code_program code.now limits.now) } by { sound_prop (code_program code.now limits.now) },
}

impl<'a> CodePlay<'a> {
    ghost use Rattle.std.specs.Prelude.{◌≡◌, ◌≢◌, ◌<◌, ◌++◌, ◌∷◌, [], length, reverse, slice_get, Some, None, IfOk, OnOk};
    ghost use Rattle.chord_base.specs.Bodies.{served};
    ghost use Rattle.chord_base.specs.Story.{IsOwn};
    ghost use Rattle.chord_code.specs.Meaning.{code_program};
    ghost use Rattle.chord_lists.specs.CodeStands.{StandsAfter, MayReplay, Replayed, HasTurnedAt, IsCut, BeginsABody, KeepsOthers, home, topped_by, with_over};

    /// The methods of a chord of the class, in header order.
    fn methods(&self, class: u16, chord: u16) -> &[u8]
        requires { chord < length ((code_program self.now.code.now self.now.limits.now).chords class) }
        ensures { slice_get ((code_program self.now.code.now self.now.limits.now).chords class) chord ≡ Some result.now }
    {
        self.code.chords(class)[chord as usize].methods.items()
    }

    /// The bodies make this entry again.
    pub fn replay(
        &self,
        alloc: Global,
        bodies: &mut CodeBodies,
        entry: &Entry,
    ) -> Result<(), AllocError>
        requires later { 0 < entry.now.number }
        requires room { entry.now.number < 65536 }
        requires may { MayReplay (code_program self.now.code.now self.now.limits.now) (StandsAfter self.now.code.now self.now.limits.now bodies.old) entry.now }
        ensures replayed { IfOk result (λ _. Replayed (code_program self.now.code.now self.now.limits.now) (StandsAfter self.now.code.now self.now.limits.now bodies.old) (StandsAfter self.now.code.now self.now.limits.now bodies.new) entry.now) }
        ensures ready { OnOk result (IsOwn entry.now.what → bodies.new.ready.items ≡ bodies.old.ready.items) }
        ensures homed { OnOk result (IsOwn entry.now.what → bodies.new.homes.items ≡ bodies.old.homes.items ++ home bodies.old.homes.items entry.now.body ∷ []) }
        ensures over { OnOk result (IsOwn entry.now.what → reverse bodies.new.over.items ≡ with_over bodies.new.tasks.items (home bodies.old.homes.items entry.now.body) (reverse bodies.old.over.items)) }
        ensures turned { OnOk result (IsOwn entry.now.what → HasTurnedAt self.now.code.now self.now.limits.now bodies.old.tasks.items bodies.new.tasks.items (home bodies.old.homes.items entry.now.body) entry.now.number) }
        ensures topped { OnOk result (BeginsABody entry.now.what → reverse bodies.new.ready.items ≡ topped_by (home bodies.new.homes.items entry.now.number) (reverse bodies.old.ready.items)) }
        ensures left { OnOk result (BeginsABody entry.now.what → IsCut bodies.old.over.items bodies.new.over.items) }
        ensures kept { OnOk result (BeginsABody entry.now.what → served (code_program self.now.code.now self.now.limits.now) entry.now.what ≢ None → bodies.new.over.items ≡ bodies.old.over.items) }
        ensures others { OnOk result (BeginsABody entry.now.what → KeepsOthers bodies.old.tasks.items bodies.new.tasks.items (home bodies.new.homes.items entry.now.number)) }
        ensures tasks { OnOk result (IsOwn entry.now.what → length bodies.new.tasks.items ≡ length bodies.old.tasks.items) }
    {
        match &entry.what {
            What::Begun => unreachable!(),
            What::Fired(chord, object, members, _) => {
                let methods = self.methods(object.class, *chord);
                let mut members = members.copied();
                self.begin(
                    alloc,
                    bodies,
                    entry.number,
                    *chord,
                    *object,
                    methods,
                    &mut members,
                )?;
                Ok(())
            }
            _ => {
                repeat(alloc, self.code, self.limits, bodies, entry)?;
                Ok(())
            }
        }
    }
}

impl<'a> Playable for CodePlay<'a> {
    ghost use Rattle.std.specs.Prelude.{◌≡◌, ◌≢◌, ◌<◌, ◌++◌, length, reverse, slice_get, take, Some, None, IfOk, OnOk};
    ghost use Rattle.chord_base.specs.Bodies.{served_among};
    ghost use Rattle.chord_code.specs.Meaning.{code_program, method_is_sync};
    ghost use Rattle.chord_lists.specs.CodeStands.{StandsAfter, StoodOrAlone, KeepsOthers, HasTurnedIfAny, IsCut, home, over_after, topped_by};
    ghost use Rattle.chord_lists.specs.Engine.{MayGoOn, Went, MayBegin, Began};

    type Bodies = CodeBodies;

    ghost program = { λ s. code_program s.code.now s.limits.now };

    ghost stands = { λ s. StandsAfter s.code.now s.limits.now };

    fn start(&self, alloc: Global) -> Result<CodeBodies, AllocError> {
        let _parts = self.code.parts();
        let bodies = begin_run(alloc, self.code, self.limits)?;
        Ok(bodies)
    }

    fn go_on(&self, alloc: Global, bodies: &mut CodeBodies, number: u32) -> Result<Turn, AllocError>
        requires room { number < 65536 }
        requires may { MayGoOn (code_program self.now.code.now self.now.limits.now) (StandsAfter self.now.code.now self.now.limits.now bodies.old) number }
        ensures went { IfOk result (λ turn. Went (code_program self.now.code.now self.now.limits.now) (StandsAfter self.now.code.now self.now.limits.now bodies.old) (StandsAfter self.now.code.now self.now.limits.now bodies.new) number turn) }
        ensures cut { OnOk result (IsCut bodies.old.ready.items bodies.new.ready.items) }
        ensures top { OnOk result (bodies.new.homes.items ≡ bodies.old.homes.items ++ take 1 (reverse bodies.new.ready.items)) }
        ensures over { OnOk result (reverse bodies.new.over.items ≡ over_after bodies.new.tasks.items (slice_get (reverse bodies.new.ready.items) 0) (reverse bodies.old.over.items)) }
        ensures tasks { OnOk result (length bodies.new.tasks.items ≡ length bodies.old.tasks.items) }
        ensures turned { OnOk result (HasTurnedIfAny self.now.code.now self.now.limits.now bodies.old.tasks.items bodies.new.tasks.items (slice_get (reverse bodies.new.ready.items) 0) number) }
    {
        let turn = go_on(alloc, self.code, self.limits, bodies, number)?;
        Ok(turn)
    }

    fn begin(
        &self,
        alloc: Global,
        bodies: &mut CodeBodies,
        number: u32,
        chord: u16,
        object: Object,
        methods: &[u8],
        members: &mut Members,
    ) -> Result<(), AllocError>
        requires room { number < 65536 }
        requires methods { slice_get ((code_program self.now.code.now self.now.limits.now).chords object.class) chord ≡ Some methods.now }
        requires may { MayBegin (code_program self.now.code.now self.now.limits.now) (StandsAfter self.now.code.now self.now.limits.now bodies.old) number chord object members.old }
        ensures began { IfOk result (λ _. Began (code_program self.now.code.now self.now.limits.now) (StandsAfter self.now.code.now self.now.limits.now bodies.old) (StandsAfter self.now.code.now self.now.limits.now bodies.new) number chord object members.old) }
        ensures top { OnOk result (bodies.new.homes.items ≡ bodies.old.homes.items ++ take 1 (reverse bodies.new.ready.items)) }
        ensures ready { OnOk result (reverse bodies.new.ready.items ≡ topped_by (home bodies.new.homes.items number) (reverse bodies.old.ready.items)) }
        ensures over { OnOk result (IsCut bodies.old.over.items bodies.new.over.items) }
        ensures kept { OnOk result (served_among (method_is_sync self.now.code.now object.class) methods.now members.old ≢ None → bodies.new.over.items ≡ bodies.old.over.items) }
        ensures reuse { OnOk result (StoodOrAlone bodies.old.tasks.items bodies.new.tasks.items (served_among (method_is_sync self.now.code.now object.class) methods.now members.old)) }
        ensures others { OnOk result (KeepsOthers bodies.old.tasks.items bodies.new.tasks.items (home bodies.new.homes.items number)) }
    {
        let served = served_by(self.code, object.class, methods, members.items());
        begin_body(
            alloc,
            self.code,
            self.limits,
            bodies,
            number,
            chord,
            object,
            members,
            served,
        )?;
        Ok(())
    }

    #[inline]
    fn chord_with(&self, class: u16, from: u16, method: u8) -> Option<Candidate<'_>> {
        // Not `line_with`, which gives a number by which the line is looked up again: a firing took 41 instructions more with it.
        let lines = self.code.chords(class);
        for at in from as usize..lines.len() {
            if lines[at].methods.has(method) {
                return Some(Candidate {
                    chord: at as u16,
                    methods: lines[at].methods.items(),
                });
            }
        }
        None
    }

    fn journal(&self, _alloc: Global, bodies: CodeBodies) -> Result<Journal, AllocError> {
        Ok(journal_of(bodies))
    }
}
