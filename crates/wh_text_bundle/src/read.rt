//! Reads all bytes of a reader, up to a limit.
ghost use Rattle.std.specs.Prelude.{◌≡◌, ◌≤◌, ◌<◌, ◌++◌, length, vec_len, is_ok, if◌then◌else◌, IfOk, IfSome, IsErrOf, OnOk};
ghost use Rattle.std.specs.Io.KnownBytes.{IsAtEnd};
ghost use Rattle.wh_text_bundle.specs.Reading.{number_of_read_fault};

use std::alloc::{AllocError, Global};
use wh_stream::Source;

/// How many bytes one read asks for.
const CHUNK: usize = 1 << 17;

/// Below this capacity the buffer doubles, and from there on it grows by an eighth.
const LARGE: usize = 1 << 20;

/// Why the bytes of a reader were not read.
#[derive(Debug, Drop, PartialEq, Eq)]
pub enum ReadFault {
    /// The reader answered an error, of any kind.
    Read,
    /// The reader has more bytes than the limit.
    TooLong,
    /// The buffer could not grow.
    Memory,
}

impl ReadFault {
    /// Returns the fault's number among the faults of an input.
    pub fn number(&self) -> u8
        ensures { result ≡ number_of_read_fault self.now }
    {
        match self {
            ReadFault::Read => 10,
            ReadFault::Memory => 11,
            ReadFault::TooLong => 13,
        }
    }
}

/// Adds bytes to the buffer. Where memory fails, the buffer is as it was. A large one grows by an eighth, as doubling would take twice the
/// input's memory.
fn append(all: &mut Vec<u8>, bytes: &[u8]) -> Result<(), AllocError>
    ensures { all.new.items ≡ (if is_ok result then all.old.items ++ bytes.now else all.old.items) }
{
    let capacity = all.capacity();
    if bytes.len() > capacity.saturating_sub(all.len()) {
        let growth = if capacity < LARGE {
            capacity
        } else {
            capacity / 8
        };
        all.reserve_exact(growth.max(bytes.len()))?;
    }
    all.extend_from_slice(bytes)
}

/// Reads to the end, a chunk at a time, and stops at the first read that fails.
fn read_by_chunks<R: Source>(
    reader: &mut R,
    chunk: &mut [u8],
    alloc: Global,
    limit: usize,
) -> Result<Vec<u8>, ReadFault>
    requires { 0 < length chunk.old }
    ensures within { IfOk result (λ v. vec_len v ≤ limit) }
    ensures bytes { IfOk result (λ v. IfSome (R.remaining reader.old) (λ xs. v.items ≡ xs)) }
    ensures end { OnOk result (IsAtEnd (R.remaining reader.new)) }
    ensures too_long { IsErrOf result ReadFault.TooLong → IfSome (R.remaining reader.old) (λ xs. limit < length xs) }
    ensures failed { IsErrOf result ReadFault.Read → R.faults reader.old < R.faults reader.new }
    ensures faultless { ¬ (IsErrOf result ReadFault.Read) → R.faults reader.new ≡ R.faults reader.old }
{
    let mut all = Vec::new(alloc);
    for turn in 0..u64::MAX {
        match reader.read(chunk) {
            Ok(0) => return Ok(all),
            Ok(n) => {
                if n > limit - all.len() {
                    return Err(ReadFault::TooLong);
                }
                if append(&mut all, &chunk[..n]).is_err() {
                    return Err(ReadFault::Memory);
                }
            }
            Err(_) => return Err(ReadFault::Read),
        }
    }
    unreachable!()
}

/// Reads to the end of the reader, and returns its bytes. Fails with Read exactly where a read failed, with TooLong where there are more
/// than `limit` bytes, and for want of memory. After an error the reader stands anywhere. Takes O(n) for n bytes that are read.
pub fn read_all<R: Source>(
    reader: &mut R,
    alloc: Global,
    limit: usize,
) -> Result<Vec<u8>, ReadFault>
    ensures within { IfOk result (λ v. vec_len v ≤ limit) }
    ensures bytes { IfOk result (λ v. IfSome (R.remaining reader.old) (λ xs. v.items ≡ xs)) }
    ensures end { OnOk result (IsAtEnd (R.remaining reader.new)) }
    ensures too_long { IsErrOf result ReadFault.TooLong → IfSome (R.remaining reader.old) (λ xs. limit < length xs) }
    ensures failed { IsErrOf result ReadFault.Read → R.faults reader.old < R.faults reader.new }
    ensures faultless { ¬ (IsErrOf result ReadFault.Read) → R.faults reader.new ≡ R.faults reader.old }
{
    let Ok(mut chunk) = vec![in alloc; 0u8; CHUNK] else {
        return Err(ReadFault::Memory);
    };
    read_by_chunks(reader, &mut chunk, alloc, limit)
}
