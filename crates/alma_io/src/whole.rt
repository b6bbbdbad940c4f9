// A source that is read to its end.
ghost use Rattle.std.specs.Prelude.{◌≡◌, ◌≤◌, ◌<◌, ◌+◌, ◌^◌, length, vec_len, IfOk, OnErr, IsErrOf};
ghost use Rattle.std.specs.Io.KnownBytes.{Consumes, IsAtEnd};
ghost use Rattle.alma_io.specs.Whole.{LosesAtMost, LosesBytes, MayHaveMore, HasReadCause};

use crate::Source;
use alma_base::NoMemory;
use std::alloc::Global;

// How much of a source one call reads.
const CHUNK: usize = 65_536;

/// Why not all bytes of a source were read: it failed, more than the limit were left, or memory was
/// wanting.
#[derive(Clone, Copy, Debug, PartialEq, Eq)]
pub enum ReadAll {
    Fault,
    TooLong,
    Memory,
}

/// A buffer of this length on the heap.
fn make_buffer(alloc: Global, len: usize) -> Result<Vec<u8>, NoMemory>
    ensures { IfOk result (λ v. vec_len v ≡ len) }
{
    Ok(Vec::from_elem(alloc, 0, len)?)
}

/// Reads all bytes that are left, if they are at most `limit`. It stops at the first fault. What
/// was read before an error is lost.
pub fn read_all<S: Source>(alloc: Global, source: &mut S, limit: usize) -> Result<Vec<u8>, ReadAll>
    requires limit { limit < 2 ^ 62 }
    ensures all { IfOk result
        (λ bytes. Consumes (S.side source.old).left (S.side source.new).left bytes.items
        × IsAtEnd (S.side source.new).left) }
    ensures within { IfOk result (λ bytes. length bytes.items ≤ limit) }
    ensures too_long { IsErrOf result ReadAll.TooLong → MayHaveMore (S.side source.old).left limit }
    ensures one_past { IsErrOf result ReadAll.TooLong → LosesBytes (S.side source.old).left
        (S.side source.new).left (limit + 1) }
    ensures prefix { OnErr result
        (LosesAtMost (S.side source.old).left (S.side source.new).left (limit + 1)) }
    ensures cause { HasReadCause (S.side source.old).faults (S.side source.new).faults result }
{
    let mut bytes = Vec::new(alloc);
    let Ok(mut chunk) = make_buffer(alloc, CHUNK) else {
        return Err(ReadAll::Memory);
    };
    loop {
        // One byte more than may be kept tells that the source has too many.
        let room = limit - bytes.len();
        let most = chunk.len().min(room + 1);
        let piece = &mut chunk[..most];
        let Ok(count) = source.read(piece) else {
            return Err(ReadAll::Fault);
        };
        if count == 0 {
            return Ok(bytes);
        }
        if count > room {
            return Err(ReadAll::TooLong);
        }
        if bytes.extend_from_slice(&piece[..count]).is_err() {
            return Err(ReadAll::Memory);
        }
    }
}
