// Values in patterns as rows of a matrix modulo 2, each less earlier ones: its pivot, the first
// place that is true in it, is false in all later rows.
use crate::patterns::BASE;
use std::alloc::{AllocError, Global};

#[derive(Debug, Drop)]
pub(crate) struct Rows {
    // By row: its pivot, of which of what was pushed it is the sum, and BASE words of values.
    pivots: Vec<u32>,
    sums: Vec<u64>,
    values: Vec<u64>,
}

fn word(items: &[u64], place: usize) -> u64 {
    items.get(place).copied().unwrap_or(0)
}

impl Rows {
    pub(crate) fn new(alloc: Global) -> Self {
        Rows {
            pivots: Vec::new(alloc),
            sums: Vec::new(alloc),
            values: Vec::new(alloc),
        }
    }

    // Takes rows from values, until these are false at all pivots: of what those rows are the sum.
    pub(crate) fn reduce(&self, values: &mut [u64]) -> u64 {
        let mut sum = 0;
        for (row, pivot) in self.pivots.iter().enumerate() {
            let place = *pivot as usize;
            if word(values, place / 64) >> (place % 64) & 1 == 1 {
                let start = row.wrapping_mul(BASE);
                for (k, value) in values.iter_mut().enumerate() {
                    *value ^= word(&self.values, start.wrapping_add(k));
                }
                sum ^= word(&self.sums, row);
            }
        }
        sum
    }

    // Takes values that are false at all pivots, if some are true: whether it does.
    pub(crate) fn push(&mut self, values: &[u64], sum: u64) -> Result<bool, AllocError> {
        for (k, value) in values.iter().enumerate() {
            if *value != 0 {
                let place = k
                    .wrapping_mul(64)
                    .wrapping_add(value.trailing_zeros() as usize);
                self.pivots.push(u32::try_from(place).unwrap_or(0))?;
                self.sums.push(sum)?;
                self.values.extend_from_slice(values)?;
                return Ok(true);
            }
        }
        Ok(false)
    }
}
