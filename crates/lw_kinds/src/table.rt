// Tables with a value past their end.
use std::alloc::{AllocError, Global};

/// A value for each number: those of a vector, and past its end one for all.
#[derive(Drop)]
pub struct Table<T: Copy> {
    items: Vec<T>,
    rest: T,
}

impl<T: Copy> Table<T> {
    /// The same value for each number, with room to set the first `len`.
    pub fn new(alloc: Global, len: usize, rest: T) -> Result<Table<T>, AllocError> {
        let items = vec![in alloc; rest; len]?;
        Ok(Table { items, rest })
    }

    /// How many values can be set.
    pub fn len(&self) -> u32 {
        self.items.len().min(u32::MAX as usize) as u32
    }

    /// The value of a number.
    #[inline]
    pub fn get(&self, number: u32) -> T {
        let place = number as usize;
        if place < self.items.len() {
            self.items[place]
        } else {
            self.rest
        }
    }

    /// Sets the value of a number, where there is room for it.
    #[inline]
    pub fn set(&mut self, number: u32, value: T) {
        let place = number as usize;
        if place < self.items.len() {
            self.items[place] = value;
        }
    }

    /// Makes room for the next number, with this value.
    pub fn push(&mut self, value: T) -> Result<(), AllocError> {
        self.items.push(value)?;
        Ok(())
    }

    /// Sets all values to one.
    pub fn fill(&mut self, value: T) {
        for number in 0..self.len() {
            self.set(number, value);
        }
    }

    /// Takes the values of another table over.
    pub fn copy(&mut self, from: &Table<T>) {
        for number in 0..self.len() {
            self.set(number, from.get(number));
        }
    }
}
