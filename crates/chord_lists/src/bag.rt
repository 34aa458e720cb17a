//! The bag: the numbers of the messages that no firing has taken, by what they are to.
#![tactic(auto)]

ghost use Rattle.std.specs.Prelude.{◌≡◌, ◌≢◌, Some, None, ℕ, ◌+◌, ◌≤◌, ◌==◌, ◌&&◌, max, List, [], ◌∷◌, length, reverse, vec_len, vec_capacity, IfNone, IfSome, IsOk, OnOk, true, false, if◌then◌else◌};
ghost use Rattle.chord_base.specs.Messages.{AreDifferent};
ghost use Rattle.chord_lists.specs.Bag.{Address, AddsClass, ArePopped, HasMessage, HasMessages, IsFirstOf, IsPopped, IsPushed, LacksAMessage, LacksBefore, LacksMessage, address_to, items_at, is_apart, numbers_in, numbers_of, older_of, stacked_at, stacked_by};
ghost use Rattle.chord_lists.specs.declared.bag.Noted.{Noted as ANoted};

use chord_base::members::Members;
use chord_base::value::Object;
use std::alloc::{AllocError, Global};
use std::mem;

/// The numbers of the messages to an object of this class: a stack for each method, newest last.
#[derive(Drop)]
struct ClassStacks {
    class: u16,
    stacks: Vec<Vec<u16>>,
}

/// A message: what it is to, and its number.
#[derive(Drop)]
struct Noted {
    object: Object,
    method: u8,
    number: u16,
}

/// All messages but the newest: the last of them stands apart too, the others on stacks.
#[derive(Drop)]
struct Older {
    last: Option<Noted>,
    objects: Vec<Vec<ClassStacks>>,
}

/// The numbers of the messages that no firing has taken, by object, class and method. An object has one class; that it does is not asked for here.
///
/// The newest message stands apart, and so does the one before it: most often a firing takes them before more come.
#[derive(Drop)]
pub struct Bag {
    newest: Option<Noted>,
    older: Older,
}

/// Adds empty lists until there are so many, if there are fewer.
fn lengthen<T: Drop>(alloc: Global, lists: &mut Vec<Vec<T>>, count: usize) -> Result<(), AllocError>
    ensures same { OnOk result ((i : ℕ) → items_at lists.new.items i ≡ items_at lists.old.items i) }
    ensures long { OnOk result (vec_len lists.new ≡ max (vec_len lists.old) count) }
{
    for _ in lists.len()..count {
        lists.push(Vec::new(alloc))?;
    }
    Ok(())
}

/// Puts a number on the stack of a method.
#[inline(always)]
fn push_on(
    alloc: Global,
    stacks: &mut Vec<Vec<u16>>,
    method: u8,
    number: u16,
) -> Result<(), AllocError>
    ensures pushed { OnOk result ((j : ℕ) → stacked_at stacks.new.items j ≡ (if method == j then number ∷ stacked_at stacks.old.items j else stacked_at stacks.old.items j)) }
    ensures long { OnOk result (vec_len stacks.new ≡ max (vec_len stacks.old) (method + 1)) }
{
    let place = method as usize;
    lengthen(alloc, stacks, place + 1)?;
    stacks[place].push(number)?;
    Ok(())
}

/// Takes the number on top of the stack of a method.
fn pop_from(stacks: &mut Vec<Vec<u16>>, method: u8) -> u16
    requires { (n : ℕ) × (ns : List ℕ) × (stacked_at stacks.old.items method ≡ n ∷ ns) }
    ensures here { stacked_at stacks.old.items method ≡ result ∷ stacked_at stacks.new.items method }
    ensures others { (j : ℕ) → (method == j) ≡ false → stacked_at stacks.new.items j ≡ stacked_at stacks.old.items j }
{
    match stacks[method as usize].pop() {
        None => unreachable!(),
        Some(number) => number,
    }
}

/// The place of the stacks of a class.
fn place_of(classes: &[ClassStacks], class: u16) -> Option<usize>
    ensures some { IfSome result (λ i. IsFirstOf class classes.now i) }
    ensures none { IfNone result (LacksBefore class classes.now (length classes.now)) }
{
    for i in 0..classes.len() {
        if classes[i].class == class {
            return Some(i);
        }
    }
    None
}

/// The stack of a method of a class, newest last.
fn stack_in(classes: &[ClassStacks], class: u16, method: u8) -> &[u16]
    ensures { reverse result.now ≡ numbers_in classes.now class method }
{
    match place_of(classes, class) {
        None => &[],
        Some(i) => match classes[i].stacks.get(method as usize) {
            None => &[],
            Some(stack) => stack.as_slice(),
        },
    }
}

/// Puts a number on the stack of a method of a class.
fn note_in(
    alloc: Global,
    classes: &mut Vec<ClassStacks>,
    class: u16,
    method: u8,
    number: u16,
) -> Result<(), AllocError>
    ensures pushed { OnOk result ((c j : ℕ) → numbers_in classes.new.items c j ≡ (if (class == c) && (method == j) then number ∷ numbers_in classes.old.items c j else numbers_in classes.old.items c j)) }
    ensures long { OnOk result (AddsClass class classes.old.items classes.new.items) }
{
    match place_of(classes, class) {
        Some(i) => push_on(alloc, &mut classes[i].stacks, method, number),
        None => {
            let mut stacks = Vec::new(alloc);
            push_on(alloc, &mut stacks, method, number)?;
            classes.push(ClassStacks { class, stacks })?;
            Ok(())
        }
    }
}

/// Takes the number on top of the stack of a method of a class.
fn take_in(classes: &mut Vec<ClassStacks>, class: u16, method: u8) -> u16
    requires { (n : ℕ) × (ns : List ℕ) × (numbers_in classes.old.items class method ≡ n ∷ ns) }
    ensures here { numbers_in classes.old.items class method ≡ result ∷ numbers_in classes.new.items class method }
    ensures others { (c j : ℕ) → ((class == c) && (method == j)) ≡ false → numbers_in classes.new.items c j ≡ numbers_in classes.old.items c j }
{
    match place_of(classes, class) {
        None => unreachable!(),
        Some(i) => pop_from(&mut classes[i].stacks, method),
    }
}

/// Puts a message on the stack of the method of the object that it is to.
#[inline(never)]
fn note_on(
    alloc: Global,
    objects: &mut Vec<Vec<ClassStacks>>,
    noted: &Noted,
) -> Result<(), AllocError>
    ensures pushed { OnOk result (IsPushed (address_to noted.now.object noted.now.method) noted.now.number (stacked_by objects.old.items) (stacked_by objects.new.items)) }
    ensures long { OnOk result (vec_len objects.new ≡ max (vec_len objects.old) (noted.now.object.number + 1)) }
    ensures class { OnOk result (AddsClass noted.now.object.class (items_at objects.old.items noted.now.object.number) (items_at objects.new.items noted.now.object.number)) }
{
    let place = noted.object.number as usize;
    lengthen(alloc, objects, place + 1)?;
    note_in(
        alloc,
        &mut objects[place],
        noted.object.class,
        noted.method,
        noted.number,
    )
}

/// Whether a message stands on the stack of this method of this object.
fn has_on(objects: &[Vec<ClassStacks>], object: Object, method: u8) -> bool
    ensures yes { result ≡ true → HasMessage object method (stacked_by objects.now) }
    ensures no { result ≡ false → LacksMessage object method (stacked_by objects.now) }
{
    match objects.get(object.number as usize) {
        None => false,
        Some(classes) => !stack_in(classes, object.class, method).is_empty(),
    }
}

/// Takes the message on top of the stack of this method of this object.
fn take_on(objects: &mut Vec<Vec<ClassStacks>>, object: Object, method: u8) -> u16
    requires { HasMessage object method (stacked_by objects.old.items) }
    ensures { IsPopped (address_to object method) result (stacked_by objects.old.items) (stacked_by objects.new.items) }
{
    take_in(&mut objects[object.number as usize], object.class, method)
}

/// Whether the newest message, if it stands apart, is to this method of this object.
fn is_newest_to(newest: &Option<Noted>, object: Object, method: u8) -> bool
    ensures { result ≡ is_apart newest.now (address_to object method) }
{
    match newest {
        None => false,
        Some(noted) => {
            // the other methods of a chord are asked for most often
            noted.method == method
                && (noted.object.number == object.number && noted.object.class == object.class)
        }
    }
}

/// Takes the newest message, which stands apart.
fn take_newest(newest: &mut Option<Noted>) -> u16
    requires { newest.old ≢ None }
    ensures taken { (noted : ANoted) × (newest.old ≡ Some noted) × (result ≡ noted.number) }
    ensures none { newest.new ≡ None }
{
    match newest.take() {
        None => unreachable!(),
        Some(noted) => noted.number,
    }
}

impl Older {
    /// Notes a message that was the newest. Takes no memory where none stood apart.
    fn note(&mut self, alloc: Global, noted: Noted) -> Result<(), AllocError>
        ensures pushed { OnOk result (IsPushed (address_to noted.object noted.method) noted.number (older_of self.old) (older_of self.new)) }
        ensures apart { self.new.last ≡ Some noted }
        ensures first { self.old.last ≡ None → (self.new.objects ≡ self.old.objects) × IsOk result }
        ensures long { (before : ANoted) → self.old.last ≡ Some before → OnOk result (vec_len self.new.objects ≡ max (vec_len self.old.objects) (before.object.number + 1)) }
        ensures class { (before : ANoted) → self.old.last ≡ Some before → OnOk result (AddsClass before.object.class (items_at self.old.objects.items before.object.number) (items_at self.new.objects.items before.object.number)) }
    {
        match mem::replace(&mut self.last, Some(noted)) {
            None => Ok(()),
            Some(before) => note_on(alloc, &mut self.objects, &before),
        }
    }

    /// Whether one of them is to this method of this object.
    fn has(&self, object: Object, method: u8) -> bool
        ensures yes { result ≡ true → HasMessage object method (older_of self.now) }
        ensures no { result ≡ false → LacksMessage object method (older_of self.now) }
    {
        if is_newest_to(&self.last, object, method) {
            return true;
        }
        has_on(&self.objects, object, method)
    }

    /// Takes the newest of them to this method of this object.
    fn take(&mut self, object: Object, method: u8) -> u16
        requires { HasMessage object method (older_of self.old) }
        ensures { IsPopped (address_to object method) result (older_of self.old) (older_of self.new) }
    {
        if is_newest_to(&self.last, object, method) {
            return take_newest(&mut self.last);
        }
        take_on(&mut self.objects, object, method)
    }
}

impl Bag {
    /// The bag before any entry. No message stands apart, there is no list of an object, and no memory is taken for any.
    pub fn new(alloc: Global) -> Bag
        ensures empty { (k : Address) → numbers_of result k ≡ [] }
        ensures bare { (result.newest ≡ None) × (result.older.last ≡ None) × (vec_len result.older.objects ≡ 0) × (vec_capacity result.older.objects ≡ 0) }
    {
        Bag {
            newest: None,
            older: Older {
                last: None,
                objects: Vec::new(alloc),
            },
        }
    }

    /// Notes the message of this number, which is to this method of this object. Takes no memory unless two stood apart.
    ///
    /// Where two stood apart, the older one goes to its stack: lists are added until its object has one, and stacks of its class where its object has none.
    pub fn note(
        &mut self,
        alloc: Global,
        object: Object,
        method: u8,
        number: u16,
    ) -> Result<(), AllocError>
        ensures pushed { OnOk result (IsPushed (address_to object method) number (numbers_of self.old) (numbers_of self.new)) }
        ensures apart { self.new.newest ≡ Some (record { object = object; method = method; number = number }) }
        ensures first { self.old.newest ≡ None → (self.new.older ≡ self.old.older) × IsOk result }
        ensures second { self.old.older.last ≡ None → (self.new.older.objects ≡ self.old.older.objects) × IsOk result }
        ensures next { (before : ANoted) → self.old.newest ≡ Some before → self.new.older.last ≡ Some before }
        ensures long { (last before : ANoted) → self.old.newest ≡ Some last → self.old.older.last ≡ Some before → OnOk result (vec_len self.new.older.objects ≡ max (vec_len self.old.older.objects) (before.object.number + 1)) }
        ensures class { (last before : ANoted) → self.old.newest ≡ Some last → self.old.older.last ≡ Some before → OnOk result (AddsClass before.object.class (items_at self.old.older.objects.items before.object.number) (items_at self.new.older.objects.items before.object.number)) }
    {
        let noted = Noted {
            object,
            method,
            number,
        };
        match mem::replace(&mut self.newest, Some(noted)) {
            None => Ok(()),
            Some(before) => self.older.note(alloc, before),
        }
    }

    /// Whether a message to this method of this object is pending.
    fn has(&self, object: Object, method: u8) -> bool
        ensures yes { result ≡ true → HasMessage object method (numbers_of self.now) }
        ensures no { result ≡ false → LacksMessage object method (numbers_of self.now) }
    {
        if is_newest_to(&self.newest, object, method) {
            return true;
        }
        self.older.has(object, method)
    }

    /// Whether to each of these methods of this object a message is pending.
    #[inline(always)]
    pub fn has_all(&self, object: Object, methods: &[u8]) -> bool
        ensures yes { result ≡ true → HasMessages object methods.now (numbers_of self.now) }
        ensures no { result ≡ false → LacksAMessage object methods.now (numbers_of self.now) }
    {
        for method in methods {
            if !self.has(object, *method) {
                return false;
            }
        }
        true
    }

    /// Takes the newest message to this method of this object.
    fn take(&mut self, object: Object, method: u8) -> u16
        requires { HasMessage object method (numbers_of self.old) }
        ensures { IsPopped (address_to object method) result (numbers_of self.old) (numbers_of self.new) }
    {
        if is_newest_to(&self.newest, object, method) {
            return take_newest(&mut self.newest);
        }
        self.older.take(object, method)
    }

    /// Takes the newest message to each of these methods of this object. The members are their numbers.
    #[inline(always)]
    pub fn take_all(&mut self, object: Object, methods: &[u8], members: &mut Members)
        requires there { HasMessages object methods.now (numbers_of self.old) }
        requires different { AreDifferent methods.now }
        requires few { length methods.now ≤ 8 }
        requires none { members.old ≡ [] }
        ensures { ArePopped object methods.now members.new (numbers_of self.old) (numbers_of self.new) }
    {
        for method in methods {
            members.push(self.take(object, *method));
        }
    }
}
