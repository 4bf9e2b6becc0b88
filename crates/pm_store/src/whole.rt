// All that a source has, or its first bytes, and all of a piece into a sink.

ghost use Rattle.std.specs.Prelude.{◌≡◌, ◌<◌, ◌≤◌, ◌^◌, Some, [], IfOk, IfSome, OnOk, OnErr, IsErrOf, length, take, vec_len};
ghost use Rattle.pm_store.specs.Outside.{Rose, GainsTold, GainsPart, LosesTold};
ghost use Rattle.pm_store.specs.declared.whole.ReadFail.TheVariants.{Fault, Memory};

use crate::{Failed, Sink, Source, StoreFail};
use std::alloc::{AllocError, Global};
use thiserror::Error;

const CHUNK: usize = 4096;

/// Why not all of a source was read.
#[derive(Clone, Copy, Debug, PartialEq, Eq, Error)]
pub enum ReadFail {
    /// The source failed.
    #[error("the source failed")]
    Fault,
    /// The source has more bytes than the limit.
    #[error("the source is too long")]
    TooLong,
    /// Memory ran out.
    #[error("out of memory")]
    Memory,
}

impl From<Failed> for ReadFail {
    ghost from_gives = { λ _ e. e ≡ Fault };

    fn from(_e: Failed) -> ReadFail {
        ReadFail::Fault
    }
}

impl From<AllocError> for ReadFail {
    ghost from_gives = { λ _ e. e ≡ Memory };

    fn from(_e: AllocError) -> ReadFail {
        ReadFail::Memory
    }
}

/// Reads a source to its end, where that comes within `limit` bytes, and answers all that it gave.
/// `TooLong` comes where it gave a byte after the first `limit`, and `Fault` where it failed.
/// After an error the bytes that it gave until then are gone from it.
pub fn read_up_to<S: Source>(
    alloc: Global,
    source: &mut S,
    limit: usize,
) -> Result<Vec<u8>, ReadFail>
    ensures all { IfOk result (λ v.
        IfSome (S.left source.old) (λ all. (v.items ≡ all) × (S.left source.new ≡ Some []))) }
    ensures bound { IfOk result (λ v. vec_len v ≤ limit) }
    ensures fault { IsErrOf result ReadFail.Fault → Rose (S.faults source.old) (S.faults source.new) }
    ensures too_long { IsErrOf result ReadFail.TooLong
        → IfSome (S.left source.old) (λ all. limit < length all) }
    ensures left { LosesTold (S.left source.old) (S.left source.new) }
    ensures never_falls { S.faults source.old ≤ S.faults source.new }
{
    let mut bytes = Vec::new(alloc);
    let mut chunk = [0u8; CHUNK];
    loop {
        let count = source.read(&mut chunk)?;
        if count == 0 {
            return Ok(bytes);
        }
        if count > limit - bytes.len() {
            return Err(ReadFail::TooLong);
        }
        bytes.extend_from_slice(&chunk[..count])?;
    }
}

/// Reads a source to its end, or `limit` bytes of it where it has more.
/// After an error the bytes that it gave until then are gone from it.
pub(crate) fn read_first<S: Source>(
    alloc: Global,
    source: &mut S,
    limit: usize,
) -> Result<Vec<u8>, StoreFail>
    ensures first { IfOk result (λ v. IfSome (S.left source.old) (λ all. v.items ≡ take limit all)) }
    ensures bound { IfOk result (λ v. vec_len v ≤ limit) }
    ensures fault { IsErrOf result StoreFail.Failed → Rose (S.faults source.old) (S.faults source.new) }
    ensures left { LosesTold (S.left source.old) (S.left source.new) }
    ensures never_falls { S.faults source.old ≤ S.faults source.new }
{
    let mut bytes = Vec::new(alloc);
    let mut chunk = [0u8; CHUNK];
    while bytes.len() < limit {
        let most = CHUNK.min(limit - bytes.len());
        let count = source.read(&mut chunk[..most])?;
        if count == 0 {
            break;
        }
        bytes.extend_from_slice(&chunk[..count])?;
    }
    Ok(bytes)
}

/// Writes all of a piece. At `Failed` the sink failed, and took a first part of the piece and not all of it.
pub fn write_all<K: Sink>(sink: &mut K, piece: &[u8]) -> Result<(), Failed>
    ensures ok { OnOk result (GainsTold (K.taken sink.old) (K.taken sink.new) piece.now) }
    ensures part { OnErr result (GainsPart (K.taken sink.old) (K.taken sink.new) piece.now) }
    ensures fault { OnErr result (Rose (K.faults sink.old) (K.faults sink.new)) }
    ensures never_falls { K.faults sink.old ≤ K.faults sink.new }
{
    let mut done = 0;
    while done < piece.len() {
        done += sink.write(&piece[done..])?;
    }
    Ok(())
}
