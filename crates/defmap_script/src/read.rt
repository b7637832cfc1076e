//! Reads a whole input.
ghost use Rattle.std.specs.Prelude.{◌≡◌, ◌++◌, IfSome, OnOk, OnErr, take, length};

use std::io::Read;

/// How reading the whole input failed.
#[derive(Clone, Copy, PartialEq, Eq, Debug)]
pub enum ReadFault {
    /// A read failed.
    Failed,
    /// The input had not ended after 16,777,216 reads.
    Endless,
    OutOfMemory,
}

/// Reads to the end of the input, behind what is in `input` already.
///
/// Fails where a read fails, where the input has not ended after 16,777,216 reads, and where an allocation fails, and
/// says which it was. What was read until then stays in `input`.
pub fn read_all<R: Read>(reader: &mut R, input: &mut Vec<u8>) -> Result<(), ReadFault>
    ensures ok { OnOk result
        (IfSome (R.remaining reader.old) (λ bytes. input.new.items ≡ input.old.items ++ bytes)) }
    ensures err { OnErr result (take (length input.old.items) input.new.items ≡ input.old.items) }
{
    let mut buffer = [0u8; 4096];
    for _ in 0..16_777_216u32 {
        match reader.read(&mut buffer) {
            Err(_failed) => return Err(ReadFault::Failed),
            Ok(0) => return Ok(()),
            Ok(n) => {
                if input.extend_from_slice(&buffer[..n]).is_err() {
                    return Err(ReadFault::OutOfMemory);
                }
            }
        }
    }
    Err(ReadFault::Endless)
}
