//! Reading an input to its end, or to one byte more than a script may have.
ghost use Rattle.std.specs.Prelude.{◌≡◌, ◌≤◌, ◌⊎◌, ◌<◌, ◌+◌, ◌++◌, IfOk, IsErrOf, IsOk, OnErr, OnOk, length, vec_len};
ghost use Rattle.hr_cause.specs.Stream.{Gave, HasCause, IsEnded};
ghost use Rattle.hr_top.specs.Input.{Appends, IsLong, WasRead};

use hr_base::PIECE;
use hr_cause::Source;
use hr_script::SCRIPT_LIMIT;
use std::alloc::{AllocError, Global};

/// Why an input is not taken.
#[derive(Clone, Copy, Debug, PartialEq, Eq)]
pub enum InputRefused {
    /// The device failed.
    Failed,
    /// There are more than 1,048,576 bytes.
    TooLong,
    /// There was no room for them.
    Memory,
}

/// All bytes of an input.
pub fn read_input<S: Source>(alloc: Global, input: &mut S) -> Result<Vec<u8>, InputRefused>
    ensures ok { IfOk result (λ bytes. WasRead (S.left input.old) bytes.items (S.left input.new)) }
    ensures too_long { IsErrOf result InputRefused.TooLong
        → IsLong (S.left input.old) (S.left input.new) }
    ensures cause { HasCause (λ why. why ≡ InputRefused.Failed) (S.faults input.old)
        (S.faults input.new) result }
{
    match make_buffer(alloc) {
        Ok(mut buffer) => read_pieces(alloc, input, &mut buffer),
        Err(_) => Err(InputRefused::Memory),
    }
}

fn make_buffer(alloc: Global) -> Result<Vec<u8>, AllocError>
    ensures { IfOk result (λ buffer. 0 < vec_len buffer) }
{
    vec![in alloc; 0u8; PIECE]
}

// All bytes of an input, piece after piece through a buffer.
#[tactic(auto, using(hr_cause::proofs::StreamLaws::gave_none, hr_cause::proofs::StreamLaws::gave_more))]
fn read_pieces<S: Source>(
    alloc: Global,
    input: &mut S,
    buffer: &mut [u8],
) -> Result<Vec<u8>, InputRefused>
    requires { 0 < length buffer.old }
    ensures ok { IfOk result (λ bytes. WasRead (S.left input.old) bytes.items (S.left input.new)) }
    ensures too_long { IsErrOf result InputRefused.TooLong
        → IsLong (S.left input.old) (S.left input.new) }
    ensures cause { HasCause (λ why. why ≡ InputRefused.Failed) (S.faults input.old)
        (S.faults input.new) result }
{
    let mut bytes = Vec::new(alloc);
    while bytes.len() <= SCRIPT_LIMIT {
        let room = buffer.len().min(SCRIPT_LIMIT + 1 - bytes.len());
        if read_piece(input, buffer, room, &mut bytes)? == 0 {
            return Ok(bytes);
        }
    }
    Err(InputRefused::TooLong)
}

// Reads a piece of at most so many bytes, puts it behind those that were read, and answers how many
// they are. The buffer is for its use alone.
fn read_piece<S: Source>(
    input: &mut S,
    buffer: &mut [u8],
    room: usize,
    bytes: &mut Vec<u8>,
) -> Result<usize, InputRefused>
    requires some { 0 < room }
    requires fits { room ≤ length buffer.old }
    ensures ok { IfOk result (λ count. Appends (S.left input.old) bytes.old.items room count
        bytes.new.items (S.left input.new)) }
    ensures cause { HasCause (λ why. why ≡ InputRefused.Failed) (S.faults input.old)
        (S.faults input.new) result }
    ensures known { IsErrOf result InputRefused.TooLong → ⊥ }
{
    let Ok(count) = input.read(&mut buffer[..room]) else {
        return Err(InputRefused::Failed);
    };
    match bytes.extend_from_slice(&buffer[..count]) {
        Ok(()) => Ok(count),
        Err(_) => Err(InputRefused::Memory),
    }
}
