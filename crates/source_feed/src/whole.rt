ghost use Rattle.std.specs.Prelude.{◌≡◌, ◌≢◌, ◌≤◌, [], length, true, IfOk, IfErr, IfSome, IsErrOf, OnOk};
ghost use Rattle.outside.specs.Outside.{KeepsWord, Rose};
ghost use Rattle.source_feed.specs.Whole.{GoesOn, PassesLimit, with_given};

use crate::store::Store;
use crate::whole_fault::WholeFault;
use byte_pieces::Pieces;
use outside::Source;
use std::alloc::Global;

/// The most bytes of a source.
pub const SOURCE_MAX: u64 = 268_435_456;

// How many bytes one read of the source may give.
const PIECE: usize = 32_768;

/// All bytes of a source, up to its end, where they are at most `limit`. A source with more is read
/// until it has given one byte too many.
///
/// `Read` is answered where a read of the source failed, `TooLong` where it gave more than `limit`
/// bytes, and `NoMemory` where an allocation was refused.
pub fn read_whole<S: Source>(
    alloc: Global,
    source: &mut S,
    limit: u64,
) -> Result<Vec<u8>, WholeFault>
    requires { limit ≤ SOURCE_MAX }
    ensures whole { IfOk result (λ bytes.
        S.reads source.new ≡ with_given bytes.items true (S.reads source.old)) }
    ensures within { IfOk result (λ bytes. length bytes.items ≤ limit) }
    ensures too_long { IsErrOf result WholeFault.TooLong
        → PassesLimit limit (S.reads source.old) (S.reads source.new) }
    ensures read { IsErrOf result WholeFault.Read
        → Rose (S.reads source.old).faults (S.reads source.new).faults }
    ensures quiet_fault { IfErr result (λ fault. fault ≢ WholeFault.Read
        → (S.reads source.new).faults ≡ (S.reads source.old).faults) }
    ensures on { GoesOn (S.reads source.old) (S.reads source.new) }
    ensures told { S.told source.new ≡ S.told source.old }
    ensures word { OnOk result (IfSome (S.told source.new) (KeepsWord (S.reads source.new))) }
    ensures word_too_long { IsErrOf result WholeFault.TooLong
        → IfSome (S.told source.new) (KeepsWord (S.reads source.new)) }
{
    let mut bytes = Vec::new(alloc);
    read_into(source, limit, &mut bytes)?;
    Ok(bytes)
}

/// The same bytes in pieces, each of which is freed as soon as it was read.
pub fn read_pieces<S: Source>(
    alloc: Global,
    source: &mut S,
    limit: u64,
) -> Result<Pieces, WholeFault>
    requires { limit ≤ SOURCE_MAX }
    ensures whole { IfOk result (λ bytes.
        S.reads source.new ≡ with_given bytes true (S.reads source.old)) }
    ensures within { IfOk result (λ bytes. length bytes ≤ limit) }
    ensures too_long { IsErrOf result WholeFault.TooLong
        → PassesLimit limit (S.reads source.old) (S.reads source.new) }
    ensures read { IsErrOf result WholeFault.Read
        → Rose (S.reads source.old).faults (S.reads source.new).faults }
    ensures quiet_fault { IfErr result (λ fault. fault ≢ WholeFault.Read
        → (S.reads source.new).faults ≡ (S.reads source.old).faults) }
    ensures on { GoesOn (S.reads source.old) (S.reads source.new) }
    ensures told { S.told source.new ≡ S.told source.old }
    ensures word { OnOk result (IfSome (S.told source.new) (KeepsWord (S.reads source.new))) }
    ensures word_too_long { IsErrOf result WholeFault.TooLong
        → IfSome (S.told source.new) (KeepsWord (S.reads source.new)) }
{
    let mut bytes = Pieces::new(alloc);
    read_into(source, limit, &mut bytes)?;
    Ok(bytes)
}

// Puts all bytes of a source, up to its end, into a store that holds none, where they are at most
// `limit`. A source with more is read until it has given one byte too many.
fn read_into<S: Source, B: Store>(
    source: &mut S,
    limit: u64,
    store: &mut B,
) -> Result<(), WholeFault>
    requires limited { limit ≤ SOURCE_MAX }
    requires empty { B.held store.old ≡ [] }
    ensures whole { OnOk result (S.reads source.new
        ≡ with_given (B.held store.new) true (S.reads source.old)) }
    ensures within { OnOk result (length (B.held store.new) ≤ limit) }
    ensures too_long { IsErrOf result WholeFault.TooLong
        → PassesLimit limit (S.reads source.old) (S.reads source.new) }
    ensures read { IsErrOf result WholeFault.Read
        → Rose (S.reads source.old).faults (S.reads source.new).faults }
    ensures quiet_fault { IfErr result (λ fault. fault ≢ WholeFault.Read
        → (S.reads source.new).faults ≡ (S.reads source.old).faults) }
    ensures on { GoesOn (S.reads source.old) (S.reads source.new) }
    ensures told { S.told source.new ≡ S.told source.old }
    ensures word { OnOk result (IfSome (S.told source.new) (KeepsWord (S.reads source.new))) }
    ensures word_too_long { IsErrOf result WholeFault.TooLong
        → IfSome (S.told source.new) (KeepsWord (S.reads source.new)) }
{
    let mut piece = [0; PIECE];
    let limit = limit as usize;
    let mut len = 0;
    'pieces: while len <= limit {
        let room = PIECE.min(limit + 1 - len);
        let given = source.read(&mut piece[..room])?;
        if given == 0 {
            return Ok(());
        }
        store.put(&piece[..given])?;
        len += given;
    }
    Err(WholeFault::TooLong)
}
