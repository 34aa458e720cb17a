//! Values of the language, and lists of them.
#![tactic(auto)]

ghost use Rattle.std.specs.Prelude.{◌≡◌, ◌+◌, ◌≤◌, List, [], ◌∷◌, ◌++◌, length, vec_len, vec_capacity, true, All, IfOk, IsOk, OnOk};
ghost use Rattle.chord_base.specs.Copies.{IsAlwaysCopied};
ghost use Rattle.chord_base.specs.Stores.{values_in};

use crate::text::Text;
use std::alloc::{AllocError, Global};
use std::marker::Model;
use std::mem;
use std::slice::from_ref;

/// The most values that a list of values has: eight methods of a chord with eight parameters each.
pub const MAX_VALUES: usize = 64;

/// The identity of an object: the number of the entry that made it, and its class.
#[derive(Clone, Copy)]
pub struct Object {
    pub number: u32,
    pub class: u16,
}

/// A value of the language.
#[derive(Drop)]
pub enum Value {
    /// What a call without a result gives.
    Unit,
    /// A number of 32 bits.
    Int(i32),
    /// A truth value.
    Flag(bool),
    /// A text.
    Text(Text),
    /// An object.
    Ref(Object),
}

impl Value {
    /// An equal value. It is always made but of a text of more than 8 bytes, which has too many owners to be counted where it fails.
    pub fn copied(&self, alloc: Global) -> Result<Value, AllocError>
        ensures equal { IfOk result (λ v. v ≡ self.now) }
        ensures short { IsAlwaysCopied self.now → IsOk result }
    {
        match self {
            Value::Unit => Ok(Value::Unit),
            Value::Int(number) => Ok(Value::Int(*number)),
            Value::Flag(flag) => Ok(Value::Flag(*flag)),
            Value::Text(text) => Ok(Value::Text(text.copied(alloc)?)),
            Value::Ref(object) => Ok(Value::Ref(*object)),
        }
    }
}

/// At most 64 values, as the arguments of a message or of a firing. Most messages have one, which lies in the list itself and asks for no memory.
#[derive(Drop)]
pub struct Values {
    values: Store,
}

/// Where the values of a list lie.
#[derive(Drop)]
enum Store {
    /// There is none.
    Nothing,
    /// In the list.
    One(Value),
    /// In memory.
    Several(Vec<Value>),
}

impl Model for Values {
    ghost use Rattle.std.specs.Prelude.{◌≤◌, List, length};
    ghost use Rattle.chord_base.specs.declared.value.Value as value;
    ghost use Rattle.chord_base.specs.Stores.{values_in};

    ghost Value = { List value.Value };

    ghost view = { λ v. values_in v.values };

    ghost invariant = { λ v. length (values_in v.values) ≤ 64 };
}

/// Copies of these values.
#[inline(never)]
fn copies_of(alloc: Global, values: &[Value]) -> Result<Vec<Value>, AllocError>
    ensures { IfOk result (λ copies. copies.items ≡ values.now) }
{
    let mut copies = Vec::with_capacity(alloc, values.len())?;
    for value in values {
        copies.push(value.copied(alloc)?)?;
    }
    Ok(copies)
}

/// Copies of these values. Up to one value asks for no memory.
#[inline(always)]
fn stored_copies(alloc: Global, values: &[Value]) -> Result<Store, AllocError>
    ensures equal { IfOk result (λ store. values_in store ≡ values.now) }
    ensures short { length values.now ≤ 1 → All IsAlwaysCopied values.now → IsOk result }
{
    match values {
        [] => Ok(Store::Nothing),
        [value] => {
            let copy = value.copied(alloc)?;
            Ok(Store::One(copy))
        }
        _ => {
            let copies = copies_of(alloc, values)?;
            Ok(Store::Several(copies))
        }
    }
}

/// Whether there is none, in memory or in the list.
#[inline(always)]
fn is_nothing(store: &Store) -> bool
    ensures { result ≡ true → store.now ≡ Store.Nothing }
{
    match store {
        Store::Nothing => true,
        _ => false,
    }
}

/// Puts values where there are none: nothing is to be dropped there, which an assignment would look for.
#[inline(always)]
fn put_first(store: &mut Store, values: Store)
    requires nothing { store.old ≡ Store.Nothing }
    ensures put { store.new ≡ values }
{
    match mem::replace(store, values) {
        Store::Nothing => {}
        _ => unreachable!(),
    }
}

/// Adds values to a list.
fn add_stored(values: &mut Vec<Value>, more: Store) -> Result<(), AllocError>
    ensures { OnOk result (values.new.items ≡ values.old.items ++ values_in more) }
{
    match more {
        Store::Nothing => Ok(()),
        Store::One(value) => {
            values.push(value)?;
            Ok(())
        }
        Store::Several(more) => {
            let mut more = more;
            values.append(&mut more)?;
            Ok(())
        }
    }
}

/// The values of both, one list after the other, in memory.
#[inline(never)]
fn stored_together(alloc: Global, values: Store, more: Store) -> Result<Vec<Value>, AllocError>
    ensures { IfOk result (λ all. all.items ≡ values_in values ++ values_in more) }
{
    match values {
        Store::Several(values) => {
            let mut all = values;
            add_stored(&mut all, more)?;
            Ok(all)
        }
        Store::One(value) => {
            let mut all = Vec::new(alloc);
            all.push(value)?;
            add_stored(&mut all, more)?;
            Ok(all)
        }
        Store::Nothing => {
            let mut all = Vec::new(alloc);
            add_stored(&mut all, more)?;
            Ok(all)
        }
    }
}

/// Moves all values of one list to the end of another one that has room for them.
#[inline(never)]
fn move_all(values: Vec<Value>, list: &mut Vec<Value>)
    requires { vec_len list.old + length values.items ≤ vec_capacity list.old }
    ensures items { list.new.items ≡ list.old.items ++ values.items }
    ensures capacity { vec_capacity list.new ≡ vec_capacity list.old }
{
    for value in values {
        list.push_reserved(value);
    }
}

impl Values {
    /// No values.
    #[inline(always)]
    pub fn none() -> Values
        ensures { result ≡ [] }
    {
        Values {
            values: Store::Nothing,
        }
    }

    /// This value alone. It asks for no memory.
    #[inline(always)]
    pub fn one(value: Value) -> Values
        ensures { result ≡ value ∷ [] }
    {
        Values {
            values: Store::One(value),
        }
    }

    /// The list of these values.
    pub fn of_items(values: Vec<Value>) -> Values
        requires { length values.items ≤ 64 }
        ensures { result ≡ values.items }
    {
        Values {
            values: Store::Several(values),
        }
    }

    /// The values.
    #[inline(always)]
    pub fn items(&self) -> &[Value]
        ensures values { result.now ≡ self.now }
        ensures few { length self.now ≤ 64 }
    {
        match &self.values {
            Store::Nothing => &[],
            Store::One(value) => from_ref(value),
            Store::Several(values) => values.as_slice(),
        }
    }

    /// An equal list. One of up to one value is always made where a copy of that value is.
    pub fn copied(&self, alloc: Global) -> Result<Values, AllocError>
        ensures equal { IfOk result (λ v. v ≡ self.now) }
        ensures short { length self.now ≤ 1 → All IsAlwaysCopied self.now → IsOk result }
    {
        let values = stored_copies(alloc, self.items())?;
        Ok(Values { values })
    }

    /// Adds copies of these values. The first value asks for no memory.
    #[inline(always)]
    pub fn add_copies(&mut self, alloc: Global, more: &[Value]) -> Result<(), AllocError>
        requires { length self.old + length more.now ≤ 64 }
        ensures { OnOk result (self.new ≡ self.old ++ more.now) }
    {
        if more.is_empty() {
            return Ok(());
        }
        if is_nothing(&self.values) {
            let copies = stored_copies(alloc, more)?;
            put_first(&mut self.values, copies);
            return Ok(());
        }
        self.add_after(alloc, more)
    }

    /// Adds copies of these values after others. It stands apart, so that its places are not cleared for a list that has none before.
    #[inline(never)]
    fn add_after(&mut self, alloc: Global, more: &[Value]) -> Result<(), AllocError>
        requires { length self.old + length more.now ≤ 64 }
        ensures { OnOk result (self.new ≡ self.old ++ more.now) }
    {
        let before = mem::replace(&mut self.values, Store::Nothing);
        let copies = stored_copies(alloc, more)?;
        self.values = Store::Several(stored_together(alloc, before, copies)?);
        Ok(())
    }

    /// Moves the values to the end of a list that has room for them. Takes no memory.
    #[inline(always)]
    pub fn move_to(self, list: &mut Vec<Value>)
        requires { vec_len list.old + length self ≤ vec_capacity list.old }
        ensures items { list.new.items ≡ list.old.items ++ self }
        ensures capacity { vec_capacity list.new ≡ vec_capacity list.old }
    {
        match self.values {
            Store::Nothing => {}
            Store::One(value) => list.push_reserved(value),
            Store::Several(values) => move_all(values, list),
        }
    }
}
