// Reading all that a source has, and writing the whole of a piece.
ghost use Rattle.std.specs.Prelude.{◌≡◌, ◌≤◌, ◌<◌, List, ℕ, length, take, IfOk, OnOk, OnErr, IsErrOf};
ghost use Rattle.std.specs.Io.KnownBytes.{Appends, Consumes, IsAtEnd};
ghost use Rattle.ww_base.specs.Faults.{HasCause, RoseByOne};
ghost use Rattle.ww_base.specs.declared.whole.ReadAllError.TheVariants.{NoMemory, ReadFault};

use crate::{Failed, Sink, Source};
use lists::Bytes;
use std::alloc::{AllocError, Global};
use thiserror::Error;

/// Why a source was not read to its end.
#[derive(Clone, Copy, Debug, PartialEq, Eq, Error)]
pub enum ReadAllError {
    /// A read failed.
    #[error("a read failed")]
    ReadFault,
    /// The source has given more bytes than the limit.
    #[error("the source has more bytes than the limit")]
    TooLong,
    #[error("out of memory")]
    NoMemory,
}

impl From<Failed> for ReadAllError {
    ghost from_gives = { λ _ e. e ≡ ReadFault };

    fn from(_: Failed) -> Self {
        ReadAllError::ReadFault
    }
}

impl From<AllocError> for ReadAllError {
    ghost from_gives = { λ _ e. e ≡ NoMemory };

    fn from(_: AllocError) -> Self {
        ReadAllError::NoMemory
    }
}

/// Reads all bytes up to the end of the source, which are at most `limit`. If there is an error,
/// the source has given some prefix of its bytes; `TooLong` comes only if this prefix has more than
/// `limit` bytes.
pub fn read_all<S: Source>(alloc: Global, src: &mut S, limit: usize) -> Result<Bytes, ReadAllError>
    ensures all { IfOk result (λ bytes. Consumes (S.left src.old) (S.left src.new) bytes) }
    ensures end { OnOk result (IsAtEnd (S.left src.new)) }
    ensures within { IfOk result (λ bytes. length bytes ≤ limit) }
    ensures calm { (IsErrOf result ReadAllError.ReadFault → ⊥) →
        S.faults src.new ≡ S.faults src.old }
    ensures fault { IsErrOf result ReadAllError.ReadFault →
        RoseByOne (S.faults src.old) (S.faults src.new) }
    ensures too_long { IsErrOf result ReadAllError.TooLong →
        (given : List ℕ) × Consumes (S.left src.old) (S.left src.new) given ×
        (limit < length given) }
    ensures front { OnErr result ((given : List ℕ) ×
        Consumes (S.left src.old) (S.left src.new) given) }
{
    let mut bytes = Vec::new(alloc);
    let mut buf = [0u8; 4096];
    'reads: loop {
        let count = src.read(&mut buf)?;
        if count == 0 {
            return Ok(Bytes::of(bytes));
        }
        if count > limit - bytes.len() {
            return Err(ReadAllError::TooLong);
        }
        bytes.extend_from_slice(&buf[..count])?;
    }
}

/// Writes the whole piece, or a prefix of it if a write fails.
pub fn write_all<O: Sink>(sink: &mut O, piece: &[u8]) -> Result<(), Failed>
    ensures ok { OnOk result (Appends (O.written sink.old) (O.written sink.new) piece.now) }
    ensures front { OnErr result (
        (n : ℕ) × Appends (O.written sink.old) (O.written sink.new) (take n piece.now)
        ) }
    ensures cause { HasCause (O.faults sink.old) (O.faults sink.new) result }
{
    let mut at = 0;
    'writes: while at < piece.len() {
        at += sink.write(&piece[at..])?;
    }
    Ok(())
}
