//! The bytes of the keys of cached nodes. That they are bytes is told by reading them.

ghost use Rattle.std.specs.Prelude.{◌≡◌, ℕ, ◌<◌};
ghost use Rattle.std.specs.List.{AllByRecursion};
ghost use Rattle.fine_model.specs.ScanLaws.{AreBytes};
ghost use Rattle.node_cache.specs.Given.{given};
ghost use Rattle.log_commands.specs.Reading.{HasByteKeys, next_of};

use fine_model::{Bytes, Node};
use node_cache::Bucket;

fn note_bytes(bytes: &[u8])
    ensures { AreBytes bytes.now }
{
    let [byte, rest @ ..] = bytes else {
        return;
    };
    let _byte = *byte;
    note_bytes(rest);
}

fn note_pairs(pairs: &[(Bytes, Bytes)])
    ensures { AllByRecursion (λ p. AreBytes p.0) pairs.now }
{
    let [pair, rest @ ..] = pairs else {
        return;
    };
    note_bytes(pair.0.as_slice());
    note_pairs(rest);
}

fn note_keys(keys: &[Bytes])
    ensures { AllByRecursion AreBytes keys.now }
{
    let [key, rest @ ..] = keys else {
        return;
    };
    note_bytes(key.as_slice());
    note_keys(rest);
}

fn note_node(node: &Node)
    ensures { HasByteKeys node.now }
{
    match node {
        Node::Leaf { pairs } => note_pairs(pairs.as_slice()),
        Node::Inner { seps, kids: _ } => note_keys(seps.as_slice()),
        _ => {}
    }
}

/// The same of what is cached of a number.
#[tactic(auto, unfolding(node_cache::specs::Given::given))]
fn note_cached(bucket: &Bucket, number: u32)
    ensures { HasByteKeys (given bucket.now number).0 }
{
    if let Some(kept) = bucket.peek(number) {
        note_node(&kept.node);
    }
}

/// The next unused number of a cached head, or 0.
#[tactic(auto, unfolding(node_cache::specs::Given::given))]
fn next_of(bucket: &Bucket) -> u32
    ensures { result ≡ next_of (given bucket.now 0).0 }
{
    let Some(kept) = bucket.peek(0) else {
        return 0;
    };
    match &kept.node {
        Node::Head {
            root: _,
            next,
            depth: _,
        } => *next,
        _ => 0,
    }
}

/// Goes over the cached nodes of the numbers that the head has used.
pub(crate) fn note_bucket(bucket: &Bucket)
    ensures { (number : ℕ) → number < next_of (given bucket.now 0).0 → HasByteKeys (given bucket.now number).0 }
{
    for number in 0..next_of(bucket) {
        note_cached(bucket, number);
    }
}
