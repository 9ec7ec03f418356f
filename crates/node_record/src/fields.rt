//! The fields of which rows are made.

ghost use Rattle.std.specs.Prelude.{◌≡◌, ◌+◌, ◌≤◌, ◌∷◌, [], length, take, drop, option_map, IfOk, vec_len, vec_capacity, if◌then◌else◌};
ghost use Rattle.std.specs.Int.{to_be_bytes, w32};
ghost use Rattle.fine_model.specs.RowBytes.{FitsKey, FitsValue, key_bytes, value_bytes};
ghost use Rattle.node_record.specs.declared.fault.RowFault.TheVariants as fault;
ghost use Rattle.node_record.specs.Reading.{Gives, Finds, within, text_at, byte_at, number_at, signed_at, key_at, pair_at, child_at};
ghost use Rattle.node_record.specs.Writing.{Appends};

use crate::fault::RowFault;
use fine_model::Bytes;
use fine_model::format::{MOST_IN_KEY, MOST_IN_VALUE, NODE_NUMBERS};
use std::alloc::Global;

/// Appends bytes for which there is room.
pub fn put(out: &mut Vec<u8>, bytes: &[u8])
    requires { vec_len out.old + length bytes.now ≤ vec_capacity out.old }
    ensures { Appends out.old out.new bytes.now }
{
    let _room = out.extend_from_slice(bytes);
}

/// Appends a key behind its length in one byte.
pub fn put_key(out: &mut Vec<u8>, key: &Bytes)
    requires fits { FitsKey key.now }
    requires room { vec_len out.old + length (key_bytes key.now) ≤ vec_capacity out.old }
    ensures { Appends out.old out.new (key_bytes key.now) }
{
    put(out, &[key.len() as u8]);
    put(out, key.as_slice());
}

/// Appends a value behind its length in two bytes.
pub fn put_value(out: &mut Vec<u8>, value: &Bytes)
    requires fits { FitsValue value.now }
    requires room { vec_len out.old + length (value_bytes value.now) ≤ vec_capacity out.old }
    ensures { Appends out.old out.new (value_bytes value.now) }
{
    put(out, &(value.len() as u16).to_be_bytes());
    put(out, value.as_slice());
}

/// The field of `N` bytes at a place, where the bytes reach so far.
#[inline(always)]
pub fn field<const N: usize>(bytes: &[u8], at: usize) -> Option<[u8; N]>
    requires { at ≤ length bytes.now }
    ensures { result ≡ option_map (λ text. text.0) (text_at N (drop at bytes.now)) }
{
    bytes[at..].first_chunk::<N>().copied()
}

/// The field of `N` bytes at a place, where the bytes are known to reach so far.
#[inline(always)]
pub fn part<const N: usize>(bytes: &[u8], at: usize) -> [u8; N]
    requires { at + N ≤ length bytes.now }
    ensures { result ≡ take N (drop at bytes.now) }
{
    match bytes[at..at + N].as_array::<N>() {
        Some(part) => *part,
        None => unreachable!(),
    }
}

/// Goes on where a test holds. The row that is read starts at `start`.
#[inline(always)]
pub fn sure(holds: bool, start: usize) -> Result<(), RowFault>
    ensures { result ≡ (if holds then Ok tt else Err (fault.Bad start)) }
{
    if holds {
        Ok(())
    } else {
        Err(RowFault::Bad { at: start })
    }
}

/// A number of one byte, and the place behind it, as below.
#[inline(always)]
#[tactic(auto, unfolding(crate::specs::Reading::byte_at))]
pub fn byte(bytes: &[u8], start: usize, at: usize) -> Result<(u8, usize), RowFault>
    requires { at ≤ length bytes.now }
    ensures { Finds (λ n. n) bytes.now start result (byte_at (drop at bytes.now)) }
{
    match field::<1>(bytes, at) {
        Some(text) => Ok((text[0], at + 1)),
        None => Err(RowFault::Bad { at: start }),
    }
}

#[inline(always)]
#[tactic(auto, unfolding(crate::specs::Reading::number_at))]
pub fn number_u32(bytes: &[u8], start: usize, at: usize) -> Result<(u32, usize), RowFault>
    requires { at ≤ length bytes.now }
    ensures { Finds (λ n. n) bytes.now start result (number_at w32 (drop at bytes.now)) }
{
    match field::<4>(bytes, at) {
        Some(text) => Ok((u32::from_be_bytes(text), at + 4)),
        None => Err(RowFault::Bad { at: start }),
    }
}

/// A number with a sign, in two's complement.
#[tactic(auto, unfolding(crate::specs::Reading::signed_at, crate::specs::Reading::number_at))]
pub fn number_i64(bytes: &[u8], start: usize, at: usize) -> Result<(i64, usize), RowFault>
    requires { at ≤ length bytes.now }
    ensures { Finds (λ n. n) bytes.now start result (signed_at (drop at bytes.now)) }
{
    match field::<8>(bytes, at) {
        Some(text) => Ok((i64::from_be_bytes(text), at + 8)),
        None => Err(RowFault::Bad { at: start }),
    }
}

/// So many bytes, as they stand there.
#[inline(always)]
fn text_in(bytes: &[u8], start: usize, at: usize, len: usize) -> Result<(&[u8], usize), RowFault>
    requires { at ≤ length bytes.now }
    ensures { Finds (λ text. text.now) bytes.now start result (text_at len (drop at bytes.now)) }
{
    sure(len <= bytes.len() - at, start)?;
    let end = at + len;
    Ok((&bytes[at..end], end))
}

/// A key, as it stands there.
#[inline(always)]
#[tactic(auto, unfolding(crate::specs::Reading::key_at))]
pub fn key_in(bytes: &[u8], start: usize, at: usize) -> Result<(&[u8], usize), RowFault>
    requires { at ≤ length bytes.now }
    ensures { Finds (λ key. key.now) bytes.now start result (key_at (drop at bytes.now)) }
{
    let (len, at) = byte(bytes, start, at)?;
    sure(1 <= len && len as usize <= MOST_IN_KEY, start)?;
    text_in(bytes, start, at, len as usize)
}

/// Whether a length is that of a text of at most so many bytes.
#[inline(always)]
fn is_len(len: usize, most: usize) -> bool
    ensures { result ≡ within 1 most len }
{
    1 <= len && len <= most
}

/// A key and a value, as they stand there. Key and length of the value are known to be there by one test, and so are both texts by another.
#[inline(always)]
#[tactic(auto, unfolding(crate::specs::Reading::pair_at, crate::specs::Reading::key_at))]
pub fn pair_in(bytes: &[u8], start: usize, at: usize) -> Result<((&[u8], &[u8]), usize), RowFault>
    requires { at ≤ length bytes.now }
    ensures { Finds (λ pair. (pair.0.now, pair.1.now)) bytes.now start result (pair_at (drop at bytes.now)) }
{
    let (len, key_at) = byte(bytes, start, at)?;
    let key_len = len as usize;
    sure(is_len(key_len, MOST_IN_KEY), start)?;
    let left = bytes.len() - key_at;
    sure(key_len + 2 <= left, start)?;
    let key_end = key_at + key_len;
    let value_len = u16::from_be_bytes(part::<2>(bytes, key_end)) as usize;
    sure(is_len(value_len, MOST_IN_VALUE), start)?;
    let len = key_len + 2 + value_len;
    sure(len <= left, start)?;
    let end = key_at + len;
    Ok(((&bytes[key_at..key_end], &bytes[key_end + 2..end]), end))
}

pub fn key(alloc: Global, bytes: &[u8], start: usize, at: usize) -> Result<(Bytes, usize), RowFault>
    requires { at ≤ length bytes.now }
    ensures { Gives (λ key. key) bytes.now start result (key_at (drop at bytes.now)) }
{
    let (key, at) = key_in(bytes, start, at)?;
    Ok((Bytes::from_slice(alloc, key)?, at))
}

#[tactic(auto, unfolding(crate::specs::Reading::child_at))]
pub fn child(bytes: &[u8], start: usize, at: usize) -> Result<(u32, usize), RowFault>
    requires { at ≤ length bytes.now }
    ensures { Finds (λ child. child) bytes.now start result (child_at (drop at bytes.now)) }
{
    let (child, at) = number_u32(bytes, start, at)?;
    sure(1 <= child && child < NODE_NUMBERS, start)?;
    Ok((child, at))
}
