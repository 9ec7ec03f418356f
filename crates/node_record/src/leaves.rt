//! Changes of a leaf and of an inner node, in place.

ghost use Rattle.std.specs.Prelude.{◌≡◌, ◌≤◌, ◌++◌, ◌∷◌, ◌+◌, IsTrue, IfOk, IsOk, OnErr, length, take, drop, map};
ghost use Rattle.fine_model.specs.Map.{is_ascending, set, unset, get, pairs_below};
ghost use Rattle.fine_model.specs.Nodes.{leaf, linked, added, keys_below};
ghost use Rattle.fine_model.specs.declared.Node.TheVariants as node;
ghost use Rattle.fine_model.specs.RowBytes.{most_in_node};
ghost use Rattle.node_record.specs.Bounds.{whole_or_broken};

use crate::places::{find_key, find_place};
use fine_model::format::MOST_IN_NODE;
use fine_model::{Bytes, Copied, Keys, Kids, NoMemory, Pairs, number_of, number_text};
use std::alloc::Global;

/// Sets a pair. Answers whether the pairs are still a leaf; where they are not, they stay as they were.
#[tactic(auto, unfolding(fine_model::specs::Map::set))]
pub fn put(pairs: &mut Pairs, key: &Bytes, value: &Bytes) -> Result<bool, NoMemory>
    requires few { length pairs.old ≤ most_in_node }
    requires order { IsTrue (is_ascending (map (λ p. p.0) pairs.old)) }
    ensures ok { IfOk result (λ whole. whole_or_broken whole (node.Leaf pairs.new) ≡ leaf (set pairs.old key.now value.now)) }
    ensures err { OnErr result (pairs.new ≡ pairs.old) }
{
    match find_place(pairs, key) {
        Ok(i) => {
            let pair = (key.copy()?, value.copy()?);
            let _old = pairs.replace(i, pair);
            Ok(true)
        }
        Err(i) => {
            if pairs.len() == MOST_IN_NODE {
                return Ok(false);
            }
            let pair = (key.copy()?, value.copy()?);
            pairs.insert(i, pair)?;
            Ok(true)
        }
    }
}

/// Removes the pair with the key, where there is one.
#[tactic(auto, unfolding(fine_model::specs::Map::unset))]
pub fn remove(pairs: &mut Pairs, key: &Bytes)
    requires { IsTrue (is_ascending (map (λ p. p.0) pairs.old)) }
    ensures { pairs.new ≡ unset pairs.old key.now }
{
    if let Ok(i) = find_place(pairs, key) {
        let _old = pairs.remove(i);
    }
}

/// Keeps the pairs with lower keys.
pub fn cut_leaf(pairs: &mut Pairs, key: &Bytes)
    requires { IsTrue (is_ascending (map (λ p. p.0) pairs.old)) }
    ensures { pairs.new ≡ pairs_below key.now pairs.old }
{
    let i = match find_place(pairs, key) {
        Ok(i) => i,
        Err(i) => i,
    };
    pairs.truncate(i);
}

/// Adds to the number of a key. Answers whether the pairs are still a leaf; where they are not, they stay as they were.
pub fn add(alloc: Global, pairs: &mut Pairs, key: &Bytes, by: i64) -> Result<bool, NoMemory>
    requires { IsTrue (is_ascending (map (λ p. p.0) pairs.old)) }
    ensures ok { IfOk result (λ whole. whole_or_broken whole (node.Leaf pairs.new) ≡ added pairs.old key.now by (get pairs.old key.now)) }
    ensures err { OnErr result (pairs.new ≡ pairs.old) }
{
    let Ok(i) = find_place(pairs, key) else {
        return Ok(false);
    };
    let Some(number) = number_of(pairs.at(i).1.as_slice()) else {
        return Ok(false);
    };
    let Some(sum) = number.checked_add(by) else {
        return Ok(false);
    };
    let pair = (key.copy()?, number_text(alloc, sum)?);
    let _old = pairs.replace(i, pair);
    Ok(true)
}

/// Keeps the separators below a key, and one child more than these.
pub fn cut_inner(seps: &mut Keys, kids: &mut Kids, key: &Bytes)
    requires few { length seps.old ≤ most_in_node }
    requires order { IsTrue (is_ascending seps.old) }
    requires kids { length kids.old ≡ length seps.old + 1 }
    ensures seps { seps.new ≡ keys_below key.now seps.old }
    ensures kids { kids.new ≡ take (length (keys_below key.now seps.old) + 1) kids.old }
{
    let i = match find_key(seps, key) {
        Ok(i) => i,
        Err(i) => i,
    };
    seps.truncate(i);
    kids.truncate(i + 1);
}

/// Sets a separator, and the child to its right. Answers whether the node is still one; where it is not, it stays as it was.
pub fn link(seps: &mut Keys, kids: &mut Kids, key: &Bytes, child: u32) -> Result<bool, NoMemory>
    requires few { length seps.old ≤ most_in_node }
    requires order { IsTrue (is_ascending seps.old) }
    requires kids { length kids.old ≡ length seps.old + 1 }
    ensures ok { IfOk result (λ whole. whole_or_broken whole (node.Inner seps.new kids.new) ≡ linked seps.old kids.old key.now child) }
    ensures err_seps { OnErr result (seps.new ≡ seps.old) }
    ensures err_kids { OnErr result (kids.new ≡ kids.old) }
{
    let Err(i) = find_key(seps, key) else {
        return Ok(false);
    };
    if seps.len() == MOST_IN_NODE {
        return Ok(false);
    }
    let separator = key.copy()?;
    kids.insert(i + 1, child)?;
    if let Err(refused) = seps.insert(i, separator) {
        let _child = kids.remove(i + 1);
        return Err(NoMemory::from(refused));
    }
    Ok(true)
}
