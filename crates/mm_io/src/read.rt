//! Reads of whole files and inputs.

ghost use Rattle.std.specs.Prelude.{◌≡◌, ◌^◌, ◌<◌, ◌≤◌, length, IfOk, OnOk, IsErrOf};
ghost use Rattle.std.specs.Io.KnownBytes.{IsAtEnd};
ghost use Rattle.mm_io.specs.declared.read.ReadError.TheVariants.{ReadFault, NoMemory};
ghost use Rattle.mm_io.specs.Files.{Rose, NoneFell, Holds, IsLonger, DrawnFrom, AsksOnly, AsksWhole, AsksBeyond};

use crate::{Failed, Files, Source};
use std::alloc::{AllocError, Global};
use thiserror::Error;

/// Why a file or an input was not read whole.
#[derive(Clone, Copy, Debug, PartialEq, Eq, Error)]
pub enum ReadError {
    /// A read failed, and the count of faults rose or is at its last value.
    #[error("read fault")]
    ReadFault,
    /// More bytes than the limit were read.
    #[error("too long")]
    TooLong,
    /// Memory ran out.
    #[error("out of memory")]
    NoMemory,
}

impl From<Failed> for ReadError {
    ghost from_gives = { λ _ e. e ≡ ReadFault };

    fn from(_: Failed) -> Self {
        ReadError::ReadFault
    }
}

impl From<AllocError> for ReadError {
    ghost from_gives = { λ _ e. e ≡ NoMemory };

    fn from(_: AllocError) -> Self {
        ReadError::NoMemory
    }
}

/// The most bytes that one read asks for. A read of a real file is several system calls.
const PIECE: usize = 65_536;

/// All bytes of a file, at most `limit`. The file is read to its end.
///
/// `TooLong` comes if more than `limit` bytes were read, `ReadFault` if a read failed, and `NoMemory` if memory ran
/// out.
#[tactic(auto, using(crate::proofs::Asking::asks_nothing))]
pub fn read_all<F: Files>(
    alloc: Global,
    files: &mut F,
    name: &str,
    limit: u64,
) -> Result<Vec<u8>, ReadError>
    requires { limit < 2 ^ 31 }
    ensures bytes { IfOk result (λ bytes. Holds (F.held files.old name.now) bytes.items) }
    ensures short { IfOk result (λ bytes. length bytes.items ≤ limit) }
    ensures too_long { IsErrOf result ReadError.TooLong → IsLonger (F.held files.old name.now) limit }
    ensures fault { IsErrOf result ReadError.ReadFault
        → Rose (F.faults files.old name.now) (F.faults files.new name.now) }
    ensures kept { F.held files.new ≡ F.held files.old }
    ensures later { NoneFell (F.faults files.old) (F.faults files.new) }
    ensures asks { AsksOnly F.asked files.old files.new name.now }
    ensures whole { IfOk result (λ bytes. AsksWhole F.asked files.old files.new name.now (length bytes.items)) }
    ensures beyond { IsErrOf result ReadError.TooLong → AsksBeyond F.asked files.old files.new name.now limit }
{
    let mut buffer = vec![in alloc; 0u8; PIECE]?;
    read_pieces(alloc, files, name, limit, &mut buffer)
}

/// [`read_all`] through a given buffer.
#[tactic(auto, using(crate::proofs::Asking::front_nothing))]
fn read_pieces<F: Files>(
    alloc: Global,
    files: &mut F,
    name: &str,
    limit: u64,
    buffer: &mut [u8],
) -> Result<Vec<u8>, ReadError>
    requires small { limit < 2 ^ 31 }
    requires room { 0 < length buffer.old }
    ensures bytes { IfOk result (λ bytes. Holds (F.held files.old name.now) bytes.items) }
    ensures short { IfOk result (λ bytes. length bytes.items ≤ limit) }
    ensures too_long { IsErrOf result ReadError.TooLong → IsLonger (F.held files.old name.now) limit }
    ensures fault { IsErrOf result ReadError.ReadFault
        → Rose (F.faults files.old name.now) (F.faults files.new name.now) }
    ensures kept { F.held files.new ≡ F.held files.old }
    ensures later { NoneFell (F.faults files.old) (F.faults files.new) }
    ensures asks { AsksOnly F.asked files.old files.new name.now }
    ensures whole { IfOk result (λ bytes. AsksWhole F.asked files.old files.new name.now (length bytes.items)) }
    ensures beyond { IsErrOf result ReadError.TooLong → AsksBeyond F.asked files.old files.new name.now limit }
{
    let mut bytes = Vec::new(alloc);
    loop {
        let count = files.read_at(name, bytes.len() as u64, buffer)?;
        if count == 0 {
            return Ok(bytes);
        }
        if (bytes.len() + count) as u64 > limit {
            return Err(ReadError::TooLong);
        }
        bytes.extend_from_slice(&buffer[..count])?;
    }
}

/// All bytes that a source has left, at most `limit`. The source is read to its end.
///
/// `TooLong` comes if more than `limit` bytes were read, `ReadFault` if a read failed, and `NoMemory` if memory ran
/// out. After an error a prefix of the source's bytes is gone.
pub fn read_input<I: Source>(alloc: Global, input: &mut I, limit: u64) -> Result<Vec<u8>, ReadError>
    requires { limit < 2 ^ 31 }
    ensures bytes { IfOk result (λ bytes. Holds (I.left input.old) bytes.items) }
    ensures end { OnOk result (IsAtEnd (I.left input.new)) }
    ensures short { IfOk result (λ bytes. length bytes.items ≤ limit) }
    ensures too_long { IsErrOf result ReadError.TooLong → IsLonger (I.left input.old) limit }
    ensures fault { IsErrOf result ReadError.ReadFault → Rose (I.faults input.old) (I.faults input.new) }
    ensures drawn { DrawnFrom (I.left input.old) (I.left input.new) }
    ensures later { I.faults input.old ≤ I.faults input.new }
{
    let mut buffer = vec![in alloc; 0u8; PIECE]?;
    read_input_pieces(alloc, input, limit, &mut buffer)
}

/// [`read_input`] through a given buffer.
fn read_input_pieces<I: Source>(
    alloc: Global,
    input: &mut I,
    limit: u64,
    buffer: &mut [u8],
) -> Result<Vec<u8>, ReadError>
    requires small { limit < 2 ^ 31 }
    requires room { 0 < length buffer.old }
    ensures bytes { IfOk result (λ bytes. Holds (I.left input.old) bytes.items) }
    ensures end { OnOk result (IsAtEnd (I.left input.new)) }
    ensures short { IfOk result (λ bytes. length bytes.items ≤ limit) }
    ensures too_long { IsErrOf result ReadError.TooLong → IsLonger (I.left input.old) limit }
    ensures fault { IsErrOf result ReadError.ReadFault → Rose (I.faults input.old) (I.faults input.new) }
    ensures drawn { DrawnFrom (I.left input.old) (I.left input.new) }
    ensures later { I.faults input.old ≤ I.faults input.new }
{
    let mut bytes = Vec::new(alloc);
    loop {
        let count = input.read(buffer)?;
        if count == 0 {
            return Ok(bytes);
        }
        if (bytes.len() + count) as u64 > limit {
            return Err(ReadError::TooLong);
        }
        bytes.extend_from_slice(&buffer[..count])?;
    }
}
