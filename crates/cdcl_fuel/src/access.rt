// Access by an index that is tested.

use crate::fault::Fault;

/// The element at i.
#[inline]
pub fn at<T: Copy>(s: &[T], i: usize) -> Result<T, Fault> {
    match s.get(i) {
        Some(x) => Ok(*x),
        None => Err(Fault::Broken),
    }
}

/// Writes the element at i.
#[inline]
pub fn put<T: Copy>(s: &mut [T], i: usize, x: T) -> Result<(), Fault> {
    if i < s.len() {
        s[i] = x;
        Ok(())
    } else {
        Err(Fault::Broken)
    }
}

/// The element at i, lent.
#[inline]
pub fn near<T>(s: &[T], i: usize) -> Result<&T, Fault> {
    match s.get(i) {
        Some(x) => Ok(x),
        None => Err(Fault::Broken),
    }
}

/// The element at i, lent to be changed.
#[inline]
pub fn near_mut<T>(s: &mut [T], i: usize) -> Result<&mut T, Fault> {
    match s.get_mut(i) {
        Some(x) => Ok(x),
        None => Err(Fault::Broken),
    }
}

/// Puts the last element in the place of the one at i.
pub fn drop_at<T: Drop>(v: &mut Vec<T>, i: usize) -> Result<(), Fault> {
    if i < v.len() {
        let _gone = v.swap_remove(i);
        Ok(())
    } else {
        Err(Fault::Broken)
    }
}

/// Swaps two elements.
#[inline]
pub fn swap<T>(s: &mut [T], i: usize, j: usize) -> Result<(), Fault> {
    if i < s.len() && j < s.len() {
        s.swap(i, j);
        Ok(())
    } else {
        Err(Fault::Broken)
    }
}

/// A length as the number of a place.
#[inline]
pub fn small(n: usize) -> Result<u32, Fault> {
    u32::try_from(n).map_err(|_| Fault::Overflow)
}
