//! Reading a source to its end.
ghost use Rattle.std.specs.Prelude.{◌≡◌, ◌+◌, ◌<◌, ◌≤◌, IfOk, OnOk, IfSome, Err, length, vec_len};
ghost use Rattle.std.specs.Io.KnownBytes.{Consumes, IsAtEnd};
ghost use Rattle.az_outside.specs.Causes.{Rose};
ghost use Rattle.az_outside.specs.Bytes.{TakesAtMost, Takes};
ghost use Rattle.az_outside.specs.declared.reading.ReadAll.TheVariants.{NoMemory};

use crate::source::Source;
use std::alloc::{AllocError, Global};
use thiserror::Error;

/// Why a source was not read to its end.
#[derive(Clone, Copy, Debug, PartialEq, Eq, Error)]
pub enum ReadAll {
    /// A read failed.
    #[error("a read failed")]
    Fault,
    /// The source gave more bytes than the limit.
    #[error("more bytes than the limit")]
    TooLong,
    /// Memory ran out.
    #[error("out of memory")]
    NoMemory,
}

impl From<AllocError> for ReadAll {
    ghost from_gives = { λ _ e. e ≡ NoMemory };

    fn from(_error: AllocError) -> ReadAll {
        ReadAll::NoMemory
    }
}

/// How many bytes a source is asked for at a time.
const CHUNK: usize = 4096;

/// All bytes of the source, from here to its end, in time linear in them. At each turn the source is given a buffer of
/// 4,096 bytes, or of as many as are missing to `limit` + 1. Bytes that were read before a refusal are gone.
///
/// Fault only where the source's count of faults rose in this call; TooLong exactly where more than `limit` bytes came
/// before the end, and then it has stopped at the first byte past the limit. NoMemory only where no more than `limit`
/// bytes came.
pub fn read_all<S: Source>(alloc: Global, source: &mut S, limit: usize) -> Result<Vec<u8>, ReadAll>
    // All bytes, where the source tells them, were given and are gone.
    ensures bytes { IfOk result (λ v. Consumes (S.left source.old) (S.left source.new) v.items) }
    ensures end { OnOk result (IsAtEnd (S.left source.new)) }
    ensures whole { IfOk result (λ v. IfSome (S.left source.old) (λ bytes. v.items ≡ bytes)) }
    ensures within { IfOk result (λ v. vec_len v ≤ limit) }

    ensures stopped { result ≡ Err ReadAll.TooLong →
        Takes (limit + 1) (S.left source.old) (S.left source.new) }
    ensures too_long { result ≡ Err ReadAll.TooLong →
        IfSome (S.left source.old) (λ bytes. limit < length bytes) }
    ensures taken { TakesAtMost (limit + 1) (S.left source.old) (S.left source.new) }

    ensures memory { result ≡ Err ReadAll.NoMemory →
        TakesAtMost limit (S.left source.old) (S.left source.new) }

    ensures later { S.faults source.old ≤ S.faults source.new }
    ensures fault { result ≡ Err ReadAll.Fault →
        Rose (S.faults source.old) (S.faults source.new) }
{
    let mut bytes = Vec::new(alloc);
    let mut buf = [0u8; CHUNK];
    'turns: loop {
        let room = limit - bytes.len();
        let most = room.saturating_add(1).min(CHUNK);
        match source.read(&mut buf[..most]) {
            Err(_) => return Err(ReadAll::Fault),
            Ok(0) => return Ok(bytes),
            Ok(count) => {
                if count > room {
                    return Err(ReadAll::TooLong);
                }
                bytes.extend_from_slice(&buf[..count])?;
            }
        }
    }
}
