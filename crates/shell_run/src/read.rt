//! Reads a stream to its end.

ghost use Rattle.std.specs.Prelude.{◌≡◌, ◌≤◌, ◌^◌, ◌⊎◌, length, Err, IfOk, OnOk, IfErr, IfSome};
ghost use Rattle.std.specs.Io.KnownBytes.{IsAtEnd};

use shell_readers::fault::RunFault;
use std::alloc::Global;
use std::io::Read;

/// The greatest number of reads from one reader.
const READ_LIMIT: u32 = 1 << 26;

/// All bytes of a reader up to its end.
///
/// # Errors
///
/// `Read` where a read fails, `ReadLimit` where the end isn't reached in 2^26 reads, or lack of memory.
pub fn read_all<R: Read>(alloc: Global, reader: &mut R) -> Result<Vec<u8>, RunFault>
    ensures bytes { IfOk result (λ v. IfSome (R.remaining reader.old) (λ bs. v.items ≡ bs)) }
    ensures ended { OnOk result (IfSome (R.remaining reader.old) (λ _. IsAtEnd (R.remaining reader.new))) }
    ensures limit { result ≡ Err RunFault.ReadLimit
        → IfSome (R.remaining reader.old) (λ bs. 2 ^ 26 ≤ length bs) }
    ensures faults { IfErr result (λ e.
        (e ≡ RunFault.Read) ⊎ (e ≡ RunFault.ReadLimit) ⊎ (e ≡ RunFault.OutOfMemory)) }
{
    let mut bytes = Vec::new(alloc);
    let mut buffer = [0u8; 4096];
    for _ in 0..READ_LIMIT {
        let Ok(count) = reader.read(&mut buffer) else {
            return Err(RunFault::Read);
        };
        if count == 0 {
            return Ok(bytes);
        }
        bytes.extend_from_slice(&buffer[..count])?;
    }
    Err(RunFault::ReadLimit)
}
