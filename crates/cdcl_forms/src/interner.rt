// Lists that are kept once: equal lists have one number.

use cdcl_fuel::{Fault, at, put, small};
use std::alloc::Global;
use std::mem;

/// What lists are of.
pub trait Letter: Copy {
    /// The same number for equal letters.
    fn code(self) -> u64;

    fn is_same(self, other: Self) -> bool;
}

#[derive(Clone, Copy)]
struct Place {
    start: usize,
    end: usize,
    code: u64,
}

const FREE: u32 = 0xFFFF_FFFF;

#[derive(Drop)]
pub struct Interner<T> {
    alloc: Global,
    letters: Vec<T>,
    places: Vec<Place>,
    /// An open hash table, of a power of two.
    slots: Vec<u32>,
}

#[inline]
fn mixed(code: u64, more: u64) -> u64 {
    (code.rotate_left(23) ^ more).wrapping_mul(0x9E37_79B9_7F4A_7C15)
}

impl<T: Letter + Drop> Interner<T> {
    pub fn new(alloc: Global) -> Interner<T> {
        Interner {
            alloc,
            letters: Vec::new(alloc),
            places: Vec::new(alloc),
            slots: Vec::new(alloc),
        }
    }

    /// How many lists there are.
    pub fn len(&self) -> usize {
        self.places.len()
    }

    /// The list with this number.
    #[inline]
    pub fn get(&self, n: u32) -> Result<&[T], Fault> {
        let place = at(&self.places, n as usize)?;
        match self.letters.as_slice().get(place.start..place.end) {
            Some(list) => Ok(list),
            None => Err(Fault::Broken),
        }
    }

    fn code_of(list: &[T]) -> u64 {
        let mut code = list.len() as u64;
        for x in list {
            code = mixed(code, x.code());
        }
        code ^ code.rotate_left(32)
    }

    fn is_at(&self, n: u32, code: u64, list: &[T]) -> Result<bool, Fault> {
        if at(&self.places, n as usize)?.code != code {
            return Ok(false);
        }
        let old = self.get(n)?;
        if old.len() != list.len() {
            return Ok(false);
        }
        for (x, y) in old.iter().zip(list.iter()) {
            if !x.is_same(*y) {
                return Ok(false);
            }
        }
        Ok(true)
    }

    /// The number of a list that is there, or the slot that is free for it.
    fn seek(&self, code: u64, list: &[T]) -> Result<Result<u32, usize>, Fault> {
        let mask = self.slots.len().wrapping_sub(1);
        let mut i = (code as usize) & mask;
        for _ in 0..self.slots.len() {
            let n = at(&self.slots, i)?;
            if n == FREE {
                return Ok(Err(i));
            }
            if self.is_at(n, code, list)? {
                return Ok(Ok(n));
            }
            i = i.wrapping_add(1) & mask;
        }
        Err(Fault::Broken)
    }

    /// The number of a list, if it is there.
    pub fn find(&self, list: &[T]) -> Result<Option<u32>, Fault> {
        if self.slots.is_empty() {
            return Ok(None);
        }
        match self.seek(Self::code_of(list), list)? {
            Ok(n) => Ok(Some(n)),
            Err(_) => Ok(None),
        }
    }

    fn free_slot(&self, code: u64) -> Result<usize, Fault> {
        let mask = self.slots.len().wrapping_sub(1);
        let mut i = (code as usize) & mask;
        for _ in 0..self.slots.len() {
            if at(&self.slots, i)? == FREE {
                return Ok(i);
            }
            i = i.wrapping_add(1) & mask;
        }
        Err(Fault::Broken)
    }

    /// A table of twice the size.
    fn grow(&mut self) -> Result<(), Fault> {
        let size = self
            .slots
            .len()
            .max(32)
            .checked_mul(2)
            .ok_or(Fault::Overflow)?;
        let mut slots: Vec<u32> = Vec::with_capacity(self.alloc, size)?;
        for _ in 0..size {
            slots.push(FREE)?;
        }
        let _old = mem::replace(&mut self.slots, slots);
        for n in 0..self.places.len() {
            let place = at(&self.places, n)?;
            let i = self.free_slot(place.code)?;
            put(&mut self.slots, i, small(n)?)?;
        }
        Ok(())
    }

    /// The number of the list, which is new if none is equal to it.
    pub fn intern(&mut self, list: &[T]) -> Result<u32, Fault> {
        if self.places.len().saturating_mul(2) >= self.slots.len() {
            self.grow()?;
        }
        let code = Self::code_of(list);
        match self.seek(code, list)? {
            Ok(n) => Ok(n),
            Err(slot) => {
                let n = small(self.places.len())?;
                let start = self.letters.len();
                self.letters.extend_from_slice(list)?;
                let end = self.letters.len();
                self.places.push(Place { start, end, code })?;
                put(&mut self.slots, slot, n)?;
                Ok(n)
            }
        }
    }
}

impl Letter for u64 {
    #[inline]
    fn code(self) -> u64 {
        self
    }

    #[inline]
    fn is_same(self, other: u64) -> bool {
        self == other
    }
}
