ghost use Rattle.std.specs.Prelude.{◌≡◌, ◌+◌, ◌-◌, ◌^◌, ◌<◌, ◌≤◌, ◌++◌, [], ◌∷◌, ◌↔◌, length, IfOk};
ghost use Rattle.std.specs.Prelude.{IfErr, OnOk, OnErr, IsTrue, slice_get, take, drop};

use crate::Id;
use std::alloc::{AllocError, Global};
use std::marker::{Model, PhantomData};

/// A list whose entries are numbered from 0, by numbers of the type `I`.
#[derive(Drop)]
pub struct Pool<I: Id, T> {
    items: Vec<T>,
    of: PhantomData<I>,
}

impl<I: Id, T> Model for Pool<I, T> {
    ghost use Rattle.std.specs.Prelude.{◌-◌, ◌<◌, ◌^◌, length, vec_len, vec_capacity};
    ghost use Rattle.lw_pool.specs.Pools.{PoolState};

    ghost Value = { PoolState T };

    ghost view = { λ p. record {
      items = p.items.items;
      spare = vec_capacity p.items - vec_len p.items;
    } };

    ghost invariant = { λ p. length p.items.items < 2 ^ 32 };
}

impl<I: Id, T> Pool<I, T> {
    /// An empty pool, whose growth takes memory from `alloc`.
    pub fn new(alloc: Global) -> Self
        ensures { result.items ≡ [] }
    {
        Pool {
            items: Vec::new(alloc),
            of: PhantomData,
        }
    }

    /// Appends a value, and answers its number. If memory runs out, it hands the value back and
    /// changes nothing.
    pub fn push(&mut self, value: T) -> Result<I, T>
        requires { length self.old.items < 2 ^ 32 - 1 }
        ensures ok { OnOk result (self.new.items ≡ self.old.items ++ value ∷ []) }
        ensures id { IfOk result (λ id. id ≡ I.of (length self.old.items)) }
        ensures err { OnErr result (self.new ≡ self.old) }
        ensures value_returned { IfErr result (λ x. x ≡ value) }
    {
        if self.items.reserve(1).is_err() {
            return Err(value);
        }
        let number = self.items.len() as u32;
        self.items.push_reserved(value);
        Ok(I::of(number))
    }

    /// Makes room for `n` more entries. If memory runs out, it changes nothing.
    pub fn reserve(&mut self, n: usize) -> Result<(), AllocError>
        ensures spare { OnOk result (n ≤ self.new.spare) }
        ensures items { self.new.items ≡ self.old.items }
        ensures err { OnErr result (self.new ≡ self.old) }
    {
        self.items.reserve(n)
    }

    /// Appends a value to the room that was made, and answers its number. It takes no memory.
    pub fn push_reserved(&mut self, value: T) -> I
        requires spare { 1 ≤ self.old.spare }
        requires few { length self.old.items < 2 ^ 32 - 1 }
        ensures items { self.new.items ≡ self.old.items ++ value ∷ [] }
        ensures id { result ≡ I.of (length self.old.items) }
        ensures spare { self.new.spare ≡ self.old.spare - 1 }
    {
        let number = self.items.len() as u32;
        self.items.push_reserved(value);
        I::of(number)
    }

    /// The entry with a number.
    pub fn get(&self, id: I) -> &T
        requires { I.number id < length self.now.items }
        ensures { slice_get self.now.items (I.number id) ≡ Some result.now }
    {
        &self.items[id.number() as usize]
    }

    /// Some entries that stand one after another, from a place on.
    pub fn part(&self, first: u32, count: u32) -> &[T]
        requires { first + count ≤ length self.now.items }
        ensures { result.now ≡ take count (drop first self.now.items) }
    {
        let start = first as usize;
        &self.items[start..start + count as usize]
    }

    /// How many entries there are.
    pub fn len(&self) -> u32
        ensures { result ≡ length self.now.items }
    {
        self.items.len() as u32
    }

    /// Whether there is none.
    pub fn is_empty(&self) -> bool
        ensures { IsTrue result ↔ (self.now.items ≡ []) }
    {
        self.items.is_empty()
    }
}
