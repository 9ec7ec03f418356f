//! Looking into a leaf.

ghost use Rattle.std.specs.Prelude.{◌≡◌, IsTrue, IfOk, map, option_copied};
ghost use Rattle.fine_model.specs.Map.{get, is_ascending};
ghost use Rattle.fine_model.specs.Trees.{pairs_of};
ghost use Rattle.node_record.specs.Bounds.{FitsNode};
ghost use Rattle.node_cache.specs.Given.{given};

use fine_model::{Bytes, Copied, NoMemory, Node, Pairs};
use node_cache::Bucket;
use node_record::find_pair;

/// The value of a key among pairs in order.
pub fn value_of<'a>(pairs: &'a Pairs, key: &[u8]) -> Option<&'a Bytes>
    requires { IsTrue (is_ascending (map (λ p. p.0) pairs.now)) }
    ensures { option_copied result ≡ get pairs.now key.now }
{
    match find_pair(pairs, key) {
        Ok(i) => Some(&pairs.at(i).1),
        Err(_) => None,
    }
}

/// The value of a key in a cached leaf. A node that is no leaf has none.
#[tactic(auto, unfolding(node_cache::specs::Given::given, fine_model::specs::Map::get))]
pub fn value_in<'a>(bucket: &'a Bucket, number: u32, key: &[u8]) -> Option<&'a Bytes>
    ensures { option_copied result ≡ get (pairs_of (given bucket.now number).0) key.now }
{
    match &bucket.peek(number)?.node {
        Node::Leaf { pairs } => value_of(pairs, key),
        _ => None,
    }
}

/// A copy of a value, where there is one.
pub fn copy_of(value: Option<&Bytes>) -> Result<Option<Bytes>, NoMemory>
    ensures { IfOk result (λ copy. copy ≡ option_copied value.entry) }
{
    match value {
        Some(value) => Ok(Some(value.copy()?)),
        None => Ok(None),
    }
}
