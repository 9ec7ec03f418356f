//! Whether a node on a way is fit.

ghost use Rattle.std.specs.Prelude.{◌≡◌, ◌==◌, true, nat_lt, ◌&&◌, IsTrue, map, option_copied};
ghost use Rattle.std.specs.Bool.{OnTrue};
ghost use Rattle.std.specs.List.{list_all};
ghost use Rattle.fine_model.specs.Map.{is_ascending};
ghost use Rattle.fine_model.specs.Paths.{is_inner};
ghost use Rattle.fine_model.specs.Trees.{is_leaf, is_from, is_above, is_up_to, bucket_of};
ghost use Rattle.node_record.specs.Bounds.{FitsNode};
ghost use Rattle.node_cache.specs.Marked.{HasOwnKeys};

use crate::hash::bucket_number;
use fine_model::{Bytes, Node};
use node_record::is_below;

/// Whether a key lies at a bound or above it.
fn is_from(low: Option<&Bytes>, key: &[u8]) -> bool
    ensures { result ≡ is_from (option_copied low.entry) key.now }
{
    match low {
        Some(low) => !is_below(key, low.as_slice()),
        None => true,
    }
}

/// Whether a key lies above a bound.
pub fn is_above(low: Option<&Bytes>, key: &[u8]) -> bool
    ensures { result ≡ is_above (option_copied low.entry) key.now }
{
    match low {
        Some(low) => is_below(low.as_slice(), key),
        None => true,
    }
}

/// Whether a key lies below a bound.
pub fn is_up_to(high: Option<&Bytes>, key: &[u8]) -> bool
    ensures { result ≡ is_up_to (option_copied high.entry) key.now }
{
    match high {
        Some(high) => is_below(key, high.as_slice()),
        None => true,
    }
}

/// Whether the keys of pairs, which ascend, lie within bounds: so they do where the first key is at the low bound or above it, and the last one below
/// the high one.
fn are_within(low: Option<&Bytes>, high: Option<&Bytes>, pairs: &[(Bytes, Bytes)]) -> bool
    requires { IsTrue (is_ascending (map (λ p. p.0) pairs.now)) }
    ensures { result ≡ list_all (λ p. is_from (option_copied low.entry) p.0 && is_up_to (option_copied high.entry) p.0) pairs.now }
{
    let Some(first) = pairs.first() else {
        return true;
    };
    let Some(last) = pairs.last() else {
        return true;
    };
    is_from(low, first.0.as_slice()) && is_up_to(high, last.0.as_slice())
}

/// Whether the keys of pairs belong to a bucket, which may be known.
pub fn are_of(bucket: u16, are_own: bool, pairs: &[(Bytes, Bytes)]) -> bool
    requires { OnTrue are_own (list_all (λ p. bucket_of p.0 == bucket) pairs.now ≡ true) }
    ensures { result ≡ list_all (λ p. bucket_of p.0 == bucket) pairs.now }
{
    are_own || pairs.iter().all(|pair| u16::from(bucket_number(pair.0.as_slice())) == bucket)
}

/// Whether a node is a leaf whose keys ascend, lie within bounds and belong to a bucket. Those of a node within the format's bounds
/// ascend, and that they belong to the bucket may be known.
pub fn is_fit_leaf(
    bucket: u16,
    are_own: bool,
    low: Option<&Bytes>,
    high: Option<&Bytes>,
    node: &Node,
) -> bool
    requires fits { FitsNode node.now }
    requires own { OnTrue are_own (HasOwnKeys bucket node.now) }
    ensures { result ≡ is_leaf bucket (record { low = option_copied low.entry; high = option_copied high.entry }) node.now }
{
    match node {
        Node::Leaf { pairs } => {
            let pairs = pairs.as_slice();
            are_within(low, high, pairs) && are_of(bucket, are_own, pairs)
        }
        _ => false,
    }
}

/// Whether separators, which ascend, lie strictly within bounds: so they do where the first one does above the low one, and the last one below the high one.
fn are_between(low: Option<&Bytes>, high: Option<&Bytes>, seps: &[Bytes]) -> bool
    requires { IsTrue (is_ascending seps.now) }
    ensures { result ≡ list_all (λ sep. is_above (option_copied low.entry) sep && is_up_to (option_copied high.entry) sep) seps.now }
{
    let Some(first) = seps.first() else {
        return true;
    };
    let Some(last) = seps.last() else {
        return true;
    };
    is_above(low, first.as_slice()) && is_up_to(high, last.as_slice())
}

/// Whether all numbers are below one.
fn are_below(next: u32, kids: &[u32]) -> bool
    ensures { result ≡ list_all (λ kid. nat_lt kid next) kids.now }
{
    kids.iter().all(|kid| *kid < next)
}

/// Whether a node is an inner one whose separators ascend within bounds, with one child more, and each child below `next`. The
/// separators of a node within the format's bounds ascend, and it has one child more.
pub fn is_fit_inner(next: u32, low: Option<&Bytes>, high: Option<&Bytes>, node: &Node) -> bool
    requires { FitsNode node.now }
    ensures { result ≡ is_inner (record { low = option_copied low.entry; high = option_copied high.entry }) next node.now }
{
    match node {
        Node::Inner { seps, kids } => {
            are_between(low, high, seps.as_slice()) && are_below(next, kids.as_slice())
        }
        _ => false,
    }
}
