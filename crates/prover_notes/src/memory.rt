// The greatest memory of the process, as the system tells it.

use prover_io::{FileSource, read_all};
use std::alloc::Global;
use std::rt::Files;

/// How many bytes of the system's file are read at most.
const MOST: u64 = 65_536;

/// The line of the system's file that has it.
const LINE: &[u8] = b"VmHWM:";

/// The greatest memory of this process so far, in KiB, where the system tells that in `/proc/self/status`.
pub fn greatest_memory<R: Files>(alloc: Global, rt: &R) -> Option<u64> {
    let mut source = FileSource::new(alloc, rt);
    let text = read_all(alloc, &mut source, "/proc/self/status", MOST).ok()?;
    number_behind(text.as_slice())
}

/// The first number after the line's name.
fn number_behind(text: &[u8]) -> Option<u64> {
    let mut number = None;
    for i in 0..text.len() {
        if text.get(i..).unwrap_or(&[]).starts_with(LINE) {
            number = first_number(text.get(i..).unwrap_or(&[]));
            break;
        }
    }
    number
}

/// The first decimal number of a text.
fn first_number(text: &[u8]) -> Option<u64> {
    let mut number: Option<u64> = None;
    for byte in text {
        if byte.is_ascii_digit() {
            let digit = u64::from(*byte - b'0');
            number = Some(number.unwrap_or(0).saturating_mul(10).saturating_add(digit));
        } else if number.is_some() {
            return number;
        }
    }
    number
}
