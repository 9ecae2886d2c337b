// All bytes of a name, up to a limit.

ghost use Rattle.prover_io.specs.Outside.{BeginsFront, Broke, GrowsAtMost, IsLonger, IsWhole, LeavesPast, ReadGives, ReadsAtMost, Rose, TakesAtMost};
ghost use Rattle.std.specs.Prelude.{◌≡◌, ℕ, ◌+◌, ◌^◌, ◌<◌, ◌≤◌, ◌++◌, List, [], ◌∷◌, length, take, false, true, Some, vec_len, IfOk, OnOk, OnErr, IsErrOf, IsSome};

use crate::source::{BeginFault, Source};
use std::alloc::Global;
use thiserror::Error;

// How many bytes one read is lent room for, at most.
const PIECE: usize = 65_536;

/// Why the bytes of a name are not held.
#[derive(Clone, Copy, Debug, PartialEq, Eq, Error)]
pub enum ReadFault {
    #[error("the source failed")]
    Failed,
    #[error("the name has too many bytes")]
    Long,
    #[error("no memory")]
    Memory,
}

/// Reads all bytes of a name, in pieces of at most 65,536 bytes. Long where it has more than `most`; Failed where the source
/// failed, which comes before Long. Whatever it answers, it begins the name once at
/// most, and moves at most one byte past `most`.
pub fn read_all<S: Source>(
    alloc: Global,
    source: &mut S,
    name: &str,
    most: u64,
) -> Result<Vec<u8>, ReadFault>
    requires { most < 2 ^ 63 }
    ensures whole { IfOk result (λ bytes. IsWhole (S.bytes_of source.old name.now) bytes.items) }
    ensures within { IfOk result (λ bytes. vec_len bytes ≤ most) }
    ensures long { IsErrOf result ReadFault.Long → IsLonger (S.bytes_of source.old name.now) most }
    ensures stops { IsErrOf result ReadFault.Long → LeavesPast (S.bytes_of source.old name.now) (S.left source.new) most }
    ensures past { ReadsAtMost (S.bytes_of source.old name.now) (S.left source.old) (S.left source.new) (most + 1) }
    ensures named { ¬ (IsErrOf result ReadFault.Memory) → S.at source.new ≡ Some name.now }
    ensures listed { ¬ (IsErrOf result ReadFault.Memory) → S.names source.new ≡ S.names source.old ++ name.now ∷ [] }
    ensures begins { BeginsFront (name.now ∷ []) (S.names source.old) (S.names source.new) }
    ensures moved { GrowsAtMost (S.moved source.old) (S.moved source.new) (most + 1) }
    ensures failed { IsErrOf result ReadFault.Failed → Rose (S.faults source.old) (S.faults source.new) }
    ensures broke { IsErrOf result ReadFault.Failed → Broke (Some name.now) (S.at source.new) (S.broken source.new) }
    ensures later { S.faults source.old ≤ S.faults source.new }
    ensures same { (n : List ℕ) → S.bytes_of source.new n ≡ S.bytes_of source.old n }
{
    match source.begin(name) {
        Ok(()) => {}
        Err(BeginFault::Failed) => return Err(ReadFault::Failed),
        Err(BeginFault::Memory) => return Err(ReadFault::Memory),
    }
    let limit = most as usize + 1;
    let Ok(mut buffer) = vec![in alloc; 0u8; limit.min(PIECE)] else {
        return Err(ReadFault::Memory);
    };
    let mut bytes = Vec::new(alloc);
    while bytes.len() < limit {
        let room = (limit - bytes.len()).min(PIECE);
        if read_piece(source, &mut buffer[..room], &mut bytes)? == 0 {
            return Ok(bytes);
        }
    }
    Err(ReadFault::Long)
}

// Reads one piece into the buffer and adds it to the bytes held.
fn read_piece<S: Source>(
    source: &mut S,
    buffer: &mut [u8],
    bytes: &mut Vec<u8>,
) -> Result<usize, ReadFault>
    requires begun { IsSome (S.at source.old) }
    requires unbroken { S.broken source.old ≡ false }
    requires room { 0 < length buffer.old }
    requires piece { length buffer.old ≤ 65536 }
    ensures bound { IfOk result (λ n. n ≤ length buffer.old) }
    ensures read { IfOk result (λ n. ReadGives (S.left source.old) (S.left source.new) n buffer.new) }
    ensures added { IfOk result (λ n. bytes.new.items ≡ bytes.old.items ++ take n buffer.new) }
    ensures taken { TakesAtMost (S.left source.old) (S.left source.new) (length buffer.old) }
    ensures unbroken { OnOk result (S.broken source.new ≡ false) }
    ensures named { S.at source.new ≡ S.at source.old }
    ensures unlisted { S.names source.new ≡ S.names source.old }
    ensures counted { IfOk result (λ n. GrowsAtMost (S.moved source.old) (S.moved source.new) n) }
    ensures moved { GrowsAtMost (S.moved source.old) (S.moved source.new) (length buffer.old) }
    ensures short { ¬ (IsErrOf result ReadFault.Long) }
    ensures failed { IsErrOf result ReadFault.Failed → Rose (S.faults source.old) (S.faults source.new) }
    ensures broke { IsErrOf result ReadFault.Failed → S.broken source.new ≡ true }
    ensures later { S.faults source.old ≤ S.faults source.new }
    ensures same { (n : List ℕ) → S.bytes_of source.new n ≡ S.bytes_of source.old n }
{
    let Ok(count) = source.read(buffer) else {
        return Err(ReadFault::Failed);
    };
    let Ok(()) = bytes.extend_from_slice(&buffer[..count]) else {
        return Err(ReadFault::Memory);
    };
    Ok(count)
}
