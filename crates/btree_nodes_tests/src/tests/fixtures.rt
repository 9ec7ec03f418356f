//! Trees in memory, on the rows that bytes spell.

use super::keys::{is_of, key_at};
use crate::rows::Rows;
use btree_nodes::{TreeFault, add_to, find, insert, remove, scan};
use fine_model::{Bytes, Items, NoMemory, Pairs, Reply};
use node_cache::Bucket;
use private_log::PrivateLog;
use std::alloc::Global;

/// A bucket with its source, and the rows that its calls push.
#[derive(Drop)]
pub struct Tree {
    pub alloc: Global,
    pub source: Rows,
    pub bucket: Bucket,
    pub log: PrivateLog,
}

impl Tree {
    /// What a call takes of it.
    fn parts(&mut self) -> (Global, &mut Rows, &mut Bucket, &mut PrivateLog) {
        (
            self.alloc,
            &mut self.source,
            &mut self.bucket,
            &mut self.log,
        )
    }
}

/// A tree of bucket 64 on a log that has no rows, with nothing cached.
fn bare_tree(alloc: Global) -> Tree {
    Tree {
        alloc,
        source: Rows::none(alloc, 0),
        bucket: Bucket::new(alloc, 64),
        log: PrivateLog::new(alloc),
    }
}

/// What is asked of such a tree. No other function owns one, since its drop at each exit costs a check seconds.
pub fn on_bare<R, F: FnOnce(&mut Tree) -> R>(alloc: Global, ask: F) -> R
    requires { F.IsAlwaysCallable ask }
{
    let mut tree = bare_tree(alloc);
    ask(&mut tree)
}

/// Lays the rows that bytes spell behind those of the tree's source.
pub fn lay(tree: &mut Tree, rows: &[u8]) -> Result<(), NoMemory> {
    tree.source.bytes.extend_from_slice(rows)?;
    Ok(())
}

pub fn get(tree: &mut Tree, key: &[u8]) -> Result<Option<Bytes>, TreeFault> {
    if !is_of(&tree.bucket, key) {
        return Err(TreeFault::NoMemory);
    }
    find(&mut tree.source, &mut tree.bucket, key)
}

pub fn put(tree: &mut Tree, key: &[u8], value: &[u8]) -> Result<(), TreeFault> {
    let (alloc, source, bucket, log) = tree.parts();
    if !is_of(bucket, key) || value.is_empty() || value.len() > 256 {
        return Err(TreeFault::NoMemory);
    }
    insert(alloc, source, bucket, log, key, value)
}

pub fn del(tree: &mut Tree, key: &[u8]) -> Result<bool, TreeFault> {
    let (alloc, source, bucket, log) = tree.parts();
    if !is_of(bucket, key) {
        return Err(TreeFault::NoMemory);
    }
    remove(alloc, source, bucket, log, key)
}

pub fn add(tree: &mut Tree, key: &[u8], by: i64) -> Result<Reply, TreeFault> {
    let (alloc, source, bucket, log) = tree.parts();
    if !is_of(bucket, key) {
        return Err(TreeFault::NoMemory);
    }
    add_to(alloc, source, bucket, log, key, by)
}

pub fn pairs(tree: &mut Tree, low: &[u8], high: &[u8], limit: u32) -> Result<Pairs, TreeFault> {
    if tree.bucket.bucket() > 255 {
        return Err(TreeFault::NoMemory);
    }
    let mut out = Items::new(tree.alloc);
    scan(
        &mut tree.source,
        &mut tree.bucket,
        low,
        high,
        limit,
        &mut out,
    )?;
    Ok(out)
}

/// The calls on the key of so many pieces at a place.
pub fn get_at(tree: &mut Tree, place: u32, pieces: u32) -> Result<Option<Bytes>, TreeFault> {
    let key = key_at(tree.alloc, place, pieces)?;
    get(tree, key.as_slice())
}

pub fn put_at(tree: &mut Tree, place: u32, pieces: u32, value: &[u8]) -> Result<(), TreeFault> {
    let key = key_at(tree.alloc, place, pieces)?;
    put(tree, key.as_slice(), value)
}

pub fn del_at(tree: &mut Tree, place: u32, pieces: u32) -> Result<bool, TreeFault> {
    let key = key_at(tree.alloc, place, pieces)?;
    del(tree, key.as_slice())
}

pub fn add_at(tree: &mut Tree, place: u32, pieces: u32, by: i64) -> Result<Reply, TreeFault> {
    let key = key_at(tree.alloc, place, pieces)?;
    add(tree, key.as_slice(), by)
}

/// The calls on a key.
#[derive(Clone, Copy, Debug, PartialEq, Eq)]
pub enum Kind {
    Get,
    Put,
    Del,
    Add,
    Scan,
}

pub const KINDS: [Kind; 5] = [Kind::Get, Kind::Put, Kind::Del, Kind::Add, Kind::Scan];

/// An answer without what it gives.
fn outcome_of<T: Drop>(answer: Result<T, TreeFault>) -> Result<(), TreeFault> {
    match answer {
        Ok(_given) => Ok(()),
        Err(fault) => Err(fault),
    }
}

/// One of the calls on a key, of which the scan begins there.
pub fn call(tree: &mut Tree, key: &[u8], kind: Kind) -> Result<(), TreeFault> {
    match kind {
        Kind::Get => outcome_of(get(tree, key)),
        Kind::Put => put(tree, key, b"2"),
        Kind::Del => outcome_of(del(tree, key)),
        Kind::Add => outcome_of(add(tree, key, 1)),
        Kind::Scan => outcome_of(pairs(tree, key, b"C", 9)),
    }
}
