//! Calls on accounts, whose keys and balances are of one byte each.

ghost use Rattle.std.specs.Prelude.{◌≡◌, ◌≤◌, [], ◌∷◌, length, IfSome};
ghost use Rattle.fine_model.specs.Bounds.{FitsCall};

use fine_model::{Bytes, Call, Reply};
use std::alloc::Global;

/// The lowest account of a scan, and the first one that is not in it.
const FIRST: u8 = 1;

const END: u8 = 255;

fn copy_of(alloc: Global, bytes: &[u8]) -> Option<Bytes>
    ensures { IfSome result (λ copy. copy ≡ bytes.now) }
{
    match Bytes::from_slice(alloc, bytes) {
        Ok(copy) => Some(copy),
        Err(_refused) => None,
    }
}

fn byte(alloc: Global, byte: u8) -> Option<Bytes>
    ensures { IfSome result (λ bytes. bytes ≡ byte ∷ []) }
{
    copy_of(alloc, &[byte])
}

/// Asks for a balance.
pub fn get_of(alloc: Global, account: u8) -> Option<Call>
    ensures { IfSome result FitsCall }
{
    Some(Call::Get {
        key: byte(alloc, account)?,
    })
}

/// A put of these bytes.
pub(crate) fn put_bytes(alloc: Global, key: &[u8], value: &[u8]) -> Option<Call>
    requires key { (1 ≤ length key.now) × (length key.now ≤ 64) }
    requires value { (1 ≤ length value.now) × (length value.now ≤ 256) }
    ensures { IfSome result FitsCall }
{
    Some(Call::Put {
        key: copy_of(alloc, key)?,
        value: copy_of(alloc, value)?,
    })
}

/// Sets a balance.
pub fn put_of(alloc: Global, account: u8, balance: u8) -> Option<Call>
    ensures { IfSome result FitsCall }
{
    put_bytes(alloc, &[account], &[balance])
}

/// The key of two bytes with a number, of which the last one is chosen so that it is of a bucket: it is added to 31 times the first.
fn key_in(bucket: u8, number: u8) -> [u8; 2] {
    [number, bucket.wrapping_sub(number.wrapping_mul(31))]
}

/// Asks for the pair with a number in a bucket.
pub(crate) fn get_in(alloc: Global, bucket: u8, number: u8) -> Option<Call>
    ensures { IfSome result FitsCall }
{
    Some(Call::Get {
        key: copy_of(alloc, &key_in(bucket, number))?,
    })
}

/// Puts the pair with a number in a bucket, whose value is the number.
pub(crate) fn put_in(alloc: Global, bucket: u8, number: u8) -> Option<Call>
    ensures { IfSome result FitsCall }
{
    put_bytes(alloc, &key_in(bucket, number), &[number])
}

/// Asks for all accounts from 1 to 254.
pub fn scan_of(alloc: Global) -> Option<Call>
    ensures { IfSome result FitsCall }
{
    Some(Call::Scan {
        low: byte(alloc, FIRST)?,
        high: byte(alloc, END)?,
        limit: 1000,
    })
}

fn first_byte(bytes: &Bytes) -> u8 {
    match bytes.as_slice().first() {
        Some(byte) => *byte,
        None => 0,
    }
}

/// The balance that a reply tells, or 0.
pub fn balance_of(reply: Option<&Reply>) -> u8 {
    match reply {
        Some(Reply::Value { value }) => first_byte(value),
        _ => 0,
    }
}

/// The sum of all balances that a reply tells, or 0.
pub fn sum_of(reply: Option<&Reply>) -> u64 {
    let Some(Reply::Found { pairs }) = reply else {
        return 0;
    };
    let mut sum: u64 = 0;
    for (_key, value) in pairs.as_slice() {
        sum = sum.saturating_add(u64::from(first_byte(value)));
    }
    sum
}
