//! The bytes that no id and no text has: bars, CRs and LFs.

ghost use Rattle.std.specs.Prelude.{◌≡◌, ◌≤◌, ◌+◌, length};
ghost use Rattle.std.specs.List.{list_all, list_any};
ghost use Rattle.std.specs.Simd.Lanes.{chunk};
ghost use Rattle.sip_reader.specs.Devices.Bars.{is_clean};
ghost use Rattle.sip_reader.specs.Texts.{is_barred};

use std::simd::prelude::*;

/// How many bytes a processor looks at at once.
const BLOCK: usize = 16;

/// Whether a bar, CR or LF is among the bytes.
pub(crate) fn has_barred(bytes: &[u8]) -> bool
    ensures { result ≡ list_any is_barred bytes.now }
{
    !are_clean(bytes)
}

/// Whether none is among the bytes. Most ids have four to fifteen bytes, which two blocks cover,
/// one at the front and one at the end.
fn are_clean(bytes: &[u8]) -> bool
    ensures { result ≡ list_all is_clean bytes.now }
{
    let len = bytes.len();
    if len >= BLOCK {
        are_clean_by_blocks(bytes)
    } else if len >= 8 {
        is_clean_block::<8>(bytes, 0) && is_clean_block::<8>(bytes, len - 8)
    } else if len >= 4 {
        is_clean_block::<4>(bytes, 0) && is_clean_block::<4>(bytes, len - 4)
    } else {
        bytes
            .iter()
            .all(|b| !(*b == b'|' || *b == b'\r' || *b == b'\n'))
    }
}

/// The same, a block at a time. The last block may reach over a part of the one before.
fn are_clean_by_blocks(bytes: &[u8]) -> bool
    requires { BLOCK ≤ length bytes.now }
    ensures { result ≡ list_all is_clean bytes.now }
{
    let mut at = 0;
    while bytes.len() - at > BLOCK {
        if !is_clean_block::<BLOCK>(bytes, at) {
            return false;
        }
        at += BLOCK;
    }
    is_clean_block::<BLOCK>(bytes, bytes.len() - BLOCK)
}

/// Whether none is among the N bytes from a place on.
fn is_clean_block<const N: usize>(bytes: &[u8], at: usize) -> bool
    requires few { N ≤ 64 }
    requires room { at + N ≤ length bytes.now }
    ensures { result ≡ list_all is_clean (chunk at N bytes.now) }
{
    let block = Simd::<u8, N>::from_slice(&bytes[at..]);
    let ends = block.simd_eq(Simd::splat(b'\r')) | block.simd_eq(Simd::splat(b'\n'));
    (block.simd_eq(Simd::splat(b'|')) | ends).to_bitmask() == 0
}
