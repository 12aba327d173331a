ghost use Rattle.std.specs.Prelude.{◌≡◌, ◌+◌, ◌^◌, ◌<◌, ◌≤◌, [], ◌∷◌, ◌++◌, length, min, take, drop, Some, OnOk, OnErr, IfOk};
ghost use Rattle.desk_io.specs.Inputs.{TakesFirst};
ghost use Rattle.desk_io.specs.Outputs.{GrowsByFirst};

use lit_base::{List, NoMemory, Text};
use std::alloc::Global;

/// Copies the front of `bytes` to the front of `buf`: at most `most` of them, and as many as there
/// are and have room. Answers how many.
fn copy_front(bytes: &[u8], most: usize, buf: &mut [u8]) -> usize
    ensures count { result ≡ min (min (length bytes.now) most) (length buf.new) }
    ensures copied { take result buf.new ≡ take result bytes.now }
{
    let count = bytes.len().min(most).min(buf.len());
    buf[..count].copy_from_slice(&bytes[..count]);
    count
}

/// Copies the bytes from a position on: at most `most` of them, and as many as `buf` has room for.
pub(crate) fn read_from(bytes: &[u8], position: usize, most: usize, buf: &mut [u8]) -> usize
    requires most { 0 < most }
    requires room { 0 < length buf.old }
    ensures fits { position + result < 2 ^ 64 }
    ensures count { result ≡ min (min (length (drop position bytes.now)) most) (length buf.new) }
    ensures taken { TakesFirst result buf.new (Some (drop position bytes.now))
        (Some (drop (position + result) bytes.now)) }
{
    match bytes.get(position..) {
        Some(left) => copy_front(left, most, buf),
        None => 0,
    }
}

/// Keeps the front of `piece` behind what is kept: at most `most` bytes, and as many as memory has
/// room for. Answers how many.
fn keep_front(kept: &mut List<u8>, piece: &[u8], most: usize) -> usize
    ensures within { result ≤ length piece.now }
    ensures most { result ≤ most }
    ensures grown { kept.new ≡ kept.old ++ take result piece.now }
{
    let front = &piece[..most.min(piece.len())];
    for (i, byte) in front.iter().enumerate() {
        if kept.push(*byte).is_err() {
            return i;
        }
    }
    front.len()
}

/// Keeps at least one byte of the front of `piece`, and at most `most`. Memory ran out where there
/// was room for none.
pub(crate) fn keep_some(kept: &mut List<u8>, piece: &[u8], most: usize) -> Result<usize, NoMemory>
    requires most { 0 < most }
    requires some { 0 < length piece.now }
    ensures most { IfOk result (λ n. n ≤ most) }
    ensures ok { IfOk result (λ n. GrowsByFirst n piece.now (Some kept.old) (Some kept.new)) }
    ensures err { OnErr result (kept.new ≡ kept.old) }
{
    match keep_front(kept, piece, most) {
        0 => Err(NoMemory),
        taken => Ok(taken),
    }
}

/// Keeps a name behind those that are kept.
pub(crate) fn keep_name(alloc: Global, names: &mut List<Text>, name: &str) -> Result<(), NoMemory>
    ensures ok { OnOk result (names.new ≡ names.old ++ name.now ∷ []) }
    ensures err { OnErr result (names.new ≡ names.old) }
{
    names.push(Text::of(alloc, name)?)
}
