//! Calls of transactions.

ghost use Rattle.std.specs.Prelude.{◌≡◌, false, IfOk};
ghost use Rattle.open_txn_tests.specs.Cited.{FitsCall, FitsKey, FitsValue, is_scan, key_of};

use fine_model::{Bytes, Call};
use std::alloc::{AllocError, Global};

/// A copy of a text.
pub fn text(alloc: Global, text: &[u8]) -> Result<Bytes, AllocError>
    ensures { IfOk result (λ b. b ≡ text.now) }
{
    Ok(Bytes::from_vec(Vec::from_slice(alloc, text)?))
}

/// A call that sets a key.
pub fn put(alloc: Global, key: &[u8], value: &[u8]) -> Result<Call, AllocError>
    requires key { FitsKey key.now }
    requires value { FitsValue value.now }
    ensures fits { IfOk result FitsCall }
    ensures no_scan { IfOk result (λ c. is_scan c ≡ false) }
    ensures key { IfOk result (λ c. key_of c ≡ key.now) }
{
    Ok(Call::Put {
        key: text(alloc, key)?,
        value: text(alloc, value)?,
    })
}
