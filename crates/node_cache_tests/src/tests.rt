ghost use Rattle.std.specs.Prelude.{◌≡◌, ◌≤◌, [], IfOk, length};
ghost use Rattle.fine_model.specs.RowBytes.{FitsRec, greatest};
ghost use Rattle.fine_model.specs.declared.Node.TheVariants as node;

use fine_model::{Bytes, Items, NoMemory, Node, NodeId, Pairs, Rec, Row};
use node_cache::{Bucket, Cached};
use std::alloc::Global;
use std::test::*;

/// An empty leaf of this version, last changed in this epoch.
fn leaf(alloc: Global, version: u64, epoch: u64) -> Cached
    requires { version ≤ greatest }
    ensures { result.node ≡ node.Leaf [] }
{
    Cached {
        node: Node::Leaf {
            pairs: Items::new(alloc),
        },
        version,
        epoch,
    }
}

/// The version that is cached of a number, or 0.
fn version_of(bucket: &Bucket, number: u32) -> u64 {
    match bucket.peek(number) {
        Some(kept) => kept.version,
        None => 0,
    }
}

/// Puts an empty leaf of this version, last changed in this epoch.
fn put_leaf(
    bucket: &mut Bucket,
    alloc: Global,
    number: u32,
    version: u64,
    epoch: u64,
) -> Result<(), NoMemory>
    requires { version ≤ greatest }
    ensures { bucket.new.saved ≡ bucket.old.saved }
{
    bucket.put(number, leaf(alloc, version, epoch))
}

/// Puts the nodes 1 to `count` of the epochs 1 to `count`. What is done to a bucket stands in functions that borrow it, as this one: its drop at
/// each exit of one that owns it costs a check seconds.
fn fill(bucket: &mut Bucket, alloc: Global, count: u32) -> Result<(), NoMemory>
    requires { bucket.old.saved ≡ [] }
    ensures { bucket.new.saved ≡ [] }
{
    for number in 1..=count {
        put_leaf(bucket, alloc, number, 1, u64::from(number))?;
    }
    Ok(())
}

/// A bucket's number, and whether nodes 1 and, once node 1 was put, 1 and 2 are cached.
fn look_up(bucket: &mut Bucket, alloc: Global) -> Result<(u16, [bool; 3]), NoMemory> {
    let at_first = bucket.get(1).is_some();
    put_leaf(bucket, alloc, 1, 7, 3)?;
    let found = [at_first, bucket.get(1).is_some(), bucket.get(2).is_some()];
    Ok((bucket.bucket(), found))
}

fn looked_up(alloc: Global) -> Result<(u16, [bool; 3]), NoMemory> {
    let mut bucket = Bucket::new(alloc, 97);
    look_up(&mut bucket, alloc)
}

/// How many of the numbers below 50 are cached.
fn count_kept(bucket: &Bucket) -> u32 {
    let mut left = 0u32;
    for number in 0..50u32 {
        if bucket.peek(number).is_some() {
            left = left.saturating_add(1);
        }
    }
    left
}

/// Which of these numbers are cached.
fn kept_of(bucket: &Bucket, numbers: [u32; 4]) -> [bool; 4] {
    let [a, b, c, d] = numbers;
    [
        bucket.peek(a).is_some(),
        bucket.peek(b).is_some(),
        bucket.peek(c).is_some(),
        bucket.peek(d).is_some(),
    ]
}

/// Of 41 nodes, of which node 1 is the last used: whether it was there, how many are kept, and which of four.
fn evict_some(bucket: &mut Bucket, alloc: Global) -> Result<(bool, u32, [bool; 4]), NoMemory>
    requires { bucket.old.saved ≡ [] }
{
    fill(bucket, alloc, 41)?;
    let there = bucket.touch(1);
    bucket.evict(40, 8);
    Ok((there, count_kept(bucket), kept_of(bucket, [41, 1, 33, 34])))
}

fn evicted(alloc: Global) -> Result<(bool, u32, [bool; 4]), NoMemory> {
    let mut bucket = Bucket::new(alloc, 64);
    evict_some(&mut bucket, alloc)
}

/// Gives a cached node a version, where memory allows it.
fn set_version(bucket: &mut Bucket, number: u32, version: u64) -> Result<(), NoMemory>
    requires { version ≤ greatest }
{
    bucket.save(number)?;
    if bucket.touch(number) {
        let kept = bucket.get_mut(number)?;
        kept.version = version;
    }
    Ok(())
}

/// Puts node 3, and gives node 1 the version 4, each of which was saved before.
fn change_saved(bucket: &mut Bucket, alloc: Global) -> Result<(), NoMemory> {
    bucket.save(3)?;
    put_leaf(bucket, alloc, 3, 5, 9)?;
    set_version(bucket, 1, 4)?;
    bucket.save(1)
}

/// The versions of nodes 1 to 3.
fn versions(bucket: &Bucket) -> [u64; 3] {
    [
        version_of(bucket, 1),
        version_of(bucket, 2),
        version_of(bucket, 3),
    ]
}

/// The versions of two nodes behind a change of one and a node more, those once that is taken back, and whether the third is there then.
fn undo_change(bucket: &mut Bucket, alloc: Global) -> Result<([u64; 3], [u64; 3], bool), NoMemory>
    requires { bucket.old.saved ≡ [] }
{
    fill(bucket, alloc, 2)?;
    change_saved(bucket, alloc)?;
    let changed = versions(bucket);
    bucket.undo();
    Ok((changed, versions(bucket), bucket.peek(3).is_some()))
}

fn undone(alloc: Global) -> Result<([u64; 3], [u64; 3], bool), NoMemory> {
    let mut bucket = Bucket::new(alloc, 64);
    undo_change(&mut bucket, alloc)
}

/// Of two nodes, of which node 1 was saved, settled and then taken back: how many stay once what is published may go, and which.
fn settle_one(bucket: &mut Bucket, alloc: Global) -> Result<(usize, [bool; 2]), NoMemory>
    requires { bucket.old.saved ≡ [] }
{
    fill(bucket, alloc, 2)?;
    bucket.save(1)?;
    bucket.settle(9);
    bucket.undo();
    bucket.evict(8, 0);
    let there = [bucket.peek(1).is_some(), bucket.peek(2).is_some()];
    Ok((bucket.len(), there))
}

fn settled(alloc: Global) -> Result<(usize, [bool; 2]), NoMemory> {
    let mut bucket = Bucket::new(alloc, 64);
    settle_one(&mut bucket, alloc)
}

/// Puts an empty leaf, and notes of it that all its keys are of the bucket.
fn put_noted(bucket: &mut Bucket, alloc: Global, number: u32) -> Result<(), NoMemory> {
    bucket.put(number, leaf(alloc, 1, 1))?;
    bucket.note_own_keys(number);
    Ok(())
}

/// Of which of nodes 1 and 2 it is known that all their keys are of the bucket.
fn known(bucket: &Bucket) -> (bool, bool) {
    (bucket.has_own_keys(1), bucket.has_own_keys(2))
}

/// What is known of two leaves once it was noted of both, then once the first was put anew, and then once the second was given a version.
fn forget_both(bucket: &mut Bucket, alloc: Global) -> Result<[(bool, bool); 3], NoMemory> {
    put_noted(bucket, alloc, 1)?;
    put_noted(bucket, alloc, 2)?;
    let at_first = known(bucket);
    put_leaf(bucket, alloc, 1, 1, 1)?;
    let behind_put = known(bucket);
    set_version(bucket, 2, 4)?;
    Ok([at_first, behind_put, known(bucket)])
}

fn forgotten(alloc: Global) -> Result<[(bool, bool); 3], NoMemory> {
    let mut bucket = Bucket::new(alloc, 64);
    forget_both(&mut bucket, alloc)
}

/// Of two leaves that are noted, and of which the first is saved and settled: whether it was there, what is known of both, and what of them
/// once the first is saved and taken back.
fn keep_both(bucket: &mut Bucket, alloc: Global) -> Result<(bool, [(bool, bool); 2]), NoMemory> {
    put_noted(bucket, alloc, 1)?;
    put_noted(bucket, alloc, 2)?;
    bucket.save(1)?;
    let there = bucket.touch(1);
    bucket.settle(5);
    bucket.evict(0, 0);
    let kept = known(bucket);
    bucket.save(1)?;
    bucket.undo();
    Ok((there, [kept, known(bucket)]))
}

fn kept_known(alloc: Global) -> Result<(bool, [(bool, bool); 2]), NoMemory> {
    let mut bucket = Bucket::new(alloc, 64);
    keep_both(&mut bucket, alloc)
}

/// A text of one byte.
fn text(alloc: Global, byte: u8) -> Result<Bytes, NoMemory>
    ensures { IfOk result (λ text. length text ≡ 1) }
{
    Bytes::from_slice(alloc, &[byte])
}

/// A row of node 1.
fn row_of(version: u64, rec: Rec) -> Row
    ensures rec { result.rec ≡ rec }
    ensures version { result.version ≡ version }
{
    Row {
        node: NodeId {
            bucket: 64,
            number: 1,
        },
        version,
        rec,
    }
}

/// A change of one key of a leaf, or a cut from it on.
#[derive(Clone, Copy)]
enum Step {
    Put(u8),
    Del,
    Cut,
}

/// What a row records of a step at a key.
fn rec_of(alloc: Global, key: u8, step: Step) -> Result<Rec, NoMemory>
    ensures { IfOk result FitsRec }
{
    let key = text(alloc, key)?;
    Ok(match step {
        Step::Put(value) => Rec::Put {
            key,
            value: text(alloc, value)?,
        },
        Step::Del => Rec::Del { key },
        Step::Cut => Rec::CutLeaf { key },
    })
}

/// Does a step to node 1, by the row of this version. Answers whether that was done.
fn change(
    bucket: &mut Bucket,
    alloc: Global,
    version: u64,
    key: u8,
    step: Step,
) -> Result<bool, NoMemory>
    requires { version ≤ greatest }
{
    let row = row_of(version, rec_of(alloc, key, step)?);
    bucket.change_pair(&row)
}

/// The value of a key in node 1, or 0.
fn value_of(bucket: &Bucket, key: u8) -> u8 {
    let Some(kept) = bucket.peek(1) else {
        return 0;
    };
    let Node::Leaf { pairs } = &kept.node else {
        return 0;
    };
    for pair in pairs.as_slice() {
        if pair.0.as_slice().first() == Some(&key) {
            return pair.1.as_slice().first().copied().unwrap_or(0);
        }
    }
    0
}

/// Makes node 1 a leaf of version 3 with 10 to 1 and 20 to 2.
fn put_pairs(bucket: &mut Bucket, alloc: Global) -> Result<(), NoMemory>
    requires { bucket.old.saved ≡ [] }
{
    fill(bucket, alloc, 1)?;
    change(bucket, alloc, 2, 10, Step::Put(1))?;
    change(bucket, alloc, 3, 20, Step::Put(2))?;
    bucket.settle(5);
    Ok(())
}

/// Whether node 1 has these values of 10, 15 and 20, and this version.
fn has(bucket: &Bucket, values: [u8; 3], version: u64) -> bool {
    [
        value_of(bucket, 10),
        value_of(bucket, 15),
        value_of(bucket, 20),
    ] == values
        && version_of(bucket, 1) == version
}

/// Does rows to node 1, by the version, the key and the step of each. Answers whether these are the versions of those that were not done.
fn refuses(
    bucket: &mut Bucket,
    alloc: Global,
    rows: &[(u8, u8, Step)],
    wanted: &[u8],
) -> Result<bool, NoMemory> {
    let mut many = 0usize;
    for (version, key, step) in rows {
        if !change(bucket, alloc, u64::from(*version), *key, *step)? {
            if wanted.get(many) != Some(version) {
                return Ok(false);
            }
            many = many.saturating_add(1);
        }
    }
    Ok(many == wanted.len())
}

/// Whether of six rows on node 1 those are refused that should be, whether the others are done, and whether all is taken back.
fn change_six(bucket: &mut Bucket, alloc: Global) -> Result<[bool; 3], NoMemory>
    requires { bucket.old.saved ≡ [] }
{
    put_pairs(bucket, alloc)?;
    let rows = [
        (4, 10, Step::Put(7)),
        // not the next version
        (9, 15, Step::Put(4)),
        (5, 20, Step::Del),
        // no such key
        (6, 20, Step::Del),
        (6, 15, Step::Put(4)),
        (7, 20, Step::Put(9)),
    ];
    let refused = refuses(bucket, alloc, &rows, &[9, 6])?;
    let done = has(bucket, [7, 4, 9], 7);
    bucket.undo();
    Ok([refused, done, has(bucket, [1, 0, 2], 3)])
}

fn six_changed(alloc: Global) -> Result<[bool; 3], NoMemory> {
    let mut bucket = Bucket::new(alloc, 64);
    change_six(&mut bucket, alloc)
}

/// Whether two times a key is set and then some are cut off, which is done, and whether all is taken back.
fn cut_twice(bucket: &mut Bucket, alloc: Global) -> Result<[bool; 5], NoMemory>
    requires { bucket.old.saved ≡ [] }
{
    put_pairs(bucket, alloc)?;
    let some = [(4, 15, Step::Put(4)), (5, 15, Step::Cut)];
    let are_cut = refuses(bucket, alloc, &some, &[])?;
    let one_left = has(bucket, [1, 0, 0], 5);
    let all = [(6, 20, Step::Put(9)), (7, 3, Step::Cut)];
    let all_cut = refuses(bucket, alloc, &all, &[])?;
    let none_left = has(bucket, [0, 0, 0], 7);
    bucket.undo();
    Ok([
        are_cut,
        one_left,
        all_cut,
        none_left,
        has(bucket, [1, 0, 2], 3),
    ])
}

fn twice_cut(alloc: Global) -> Result<[bool; 5], NoMemory> {
    let mut bucket = Bucket::new(alloc, 64);
    cut_twice(&mut bucket, alloc)
}

/// Makes node 1 a leaf with the keys 1 to 32, which were set since it was saved.
fn fill_leaf(bucket: &mut Bucket, alloc: Global) -> Result<(), NoMemory>
    requires { bucket.old.saved ≡ [] }
{
    fill(bucket, alloc, 1)?;
    for key in 1..=32u8 {
        change(bucket, alloc, u64::from(key) + 1, key, Step::Put(1))?;
    }
    Ok(())
}

/// Whether key 33, which is not there, and key 32, which is, are set in a full leaf, and what 32 then has and once all is taken back, beside
/// the version.
fn set_two(bucket: &mut Bucket, alloc: Global) -> Result<([bool; 2], u8, (u8, u64)), NoMemory>
    requires { bucket.old.saved ≡ [] }
{
    fill_leaf(bucket, alloc)?;
    let other = change(bucket, alloc, 34, 33, Step::Put(1))?;
    let same = change(bucket, alloc, 34, 32, Step::Put(2))?;
    let value = value_of(bucket, 32);
    bucket.undo();
    Ok((
        [other, same],
        value,
        (value_of(bucket, 32), version_of(bucket, 1)),
    ))
}

fn two_set(alloc: Global) -> Result<([bool; 2], u8, (u8, u64)), NoMemory> {
    let mut bucket = Bucket::new(alloc, 64);
    set_two(&mut bucket, alloc)
}

/// Makes node 1 the leaf with pairs, of which one was removed since.
fn put_less(bucket: &mut Bucket, alloc: Global) -> Result<(), NoMemory>
    requires { bucket.old.saved ≡ [] }
{
    put_pairs(bucket, alloc)?;
    change(bucket, alloc, 4, 10, Step::Del)?;
    Ok(())
}

/// Whether such a leaf takes another version and then a pair, and whether all is taken back.
fn change_more(bucket: &mut Bucket, alloc: Global) -> Result<[bool; 2], NoMemory>
    requires { bucket.old.saved ≡ [] }
{
    put_less(bucket, alloc)?;
    set_version(bucket, 1, 9)?;
    change(bucket, alloc, 10, 15, Step::Put(4))?;
    let changed = has(bucket, [0, 4, 2], 10);
    bucket.undo();
    Ok([changed, has(bucket, [1, 0, 2], 3)])
}

fn more_changed(alloc: Global) -> Result<[bool; 2], NoMemory> {
    let mut bucket = Bucket::new(alloc, 64);
    change_more(&mut bucket, alloc)
}

/// Whether such a leaf comes back once another was put in its place.
fn put_over(bucket: &mut Bucket, alloc: Global) -> Result<bool, NoMemory>
    requires { bucket.old.saved ≡ [] }
{
    put_less(bucket, alloc)?;
    put_leaf(bucket, alloc, 1, 1, 1)?;
    bucket.undo();
    Ok(has(bucket, [1, 0, 2], 3))
}

fn comes_back(alloc: Global) -> Result<bool, NoMemory> {
    let mut bucket = Bucket::new(alloc, 64);
    put_over(&mut bucket, alloc)
}

#[test]
fn nodes_are_cached_and_go(rt: HostRuntime) -> Result<(), Fail> {
    // an uncached number is none
    assert_eq!(rt; looked_up(rt.alloc())?, (97, [false, true, false]));
    // the open epoch and the last used are kept
    assert_eq!(rt; evicted(rt.alloc())?, (true, 9, [true, true, false, true]));
    // what was saved is restored
    assert_eq!(rt; undone(rt.alloc())?, ([4, 1, 5], [1, 1, 0], false));
    // what was saved is stamped
    assert_eq!(rt; settled(rt.alloc())?, (1, [true, false]));
    Ok(())
}

#[test]
fn what_is_known_of_keys_goes_with_a_change_alone(rt: HostRuntime) -> Result<(), Fail> {
    let gone = [(true, true), (false, true), (false, false)];
    assert!(rt; forgotten(rt.alloc())? == gone);
    let stays = [(true, true), (false, true)];
    assert!(rt; kept_known(rt.alloc())? == (true, stays));
    Ok(())
}

#[test]
fn changes_of_pairs_are_done_and_taken_back(rt: HostRuntime) -> Result<(), Fail> {
    assert_eq!(rt; six_changed(rt.alloc())?, [true; 3]);
    // pairs that are cut off come back
    assert_eq!(rt; twice_cut(rt.alloc())?, [true; 5]);
    // a full leaf takes no other key
    assert!(rt; two_set(rt.alloc())? == ([false, true], 2, (0, 1)));
    // a changed node is changed in any way, or another is put in its place, and both are taken back
    assert_eq!(rt; more_changed(rt.alloc())?, [true; 2]);
    assert!(rt; comes_back(rt.alloc())?);
    Ok(())
}
