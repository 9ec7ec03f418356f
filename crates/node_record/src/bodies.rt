//! The bodies of rows: how long each is, how it is written, and how it is read.

ghost use Rattle.std.specs.Prelude.{◌≡◌, ℕ, List, Option, ◌+◌, ◌++◌, ◌≤◌, length, drop, vec_len, vec_capacity};
ghost use Rattle.std.specs.Int.{to_be_bytes, cast_unsigned, w32, w64};
ghost use Rattle.fine_model.specs.declared.Rec.{Rec};
ghost use Rattle.fine_model.specs.declared.Rec.TheVariants as rec;
ghost use Rattle.fine_model.specs.RowBytes.{FitsKey, FitsRec, body, key_bytes};
ghost use Rattle.node_record.specs.Reading.{Gives, Finds, Passes, behind, head_at, leaf_at, inner_at, put_at, key_at, keyed_at, tailed_at, child_at, signed_at};
ghost use Rattle.node_record.specs.Writing.{Appends};

use crate::fault::RowFault;
use crate::fields::{child, number_i64, put};

/// Root, next number and depth.
pub mod head {
    use crate::fault::RowFault;
    use crate::fields::{byte, child, number_u32, put, sure};
    use fine_model::format::{GREATEST_DEPTH, NODE_NUMBERS};
    use std::alloc::Global;

    #[tactic(auto, unfolding(fine_model::specs::RowBytes::body))]
    pub fn len(root: &u32, next: &u32, depth: &u8) -> u32
        ensures is { result ≡ length (body (rec.HeadImage root.now next.now depth.now)) }
        ensures most { result ≤ 10337 }
    {
        9
    }

    #[tactic(auto, unfolding(fine_model::specs::RowBytes::body))]
    pub fn write(out: &mut Vec<u8>, root: &u32, next: &u32, depth: &u8)
        requires { vec_len out.old + length (body (rec.HeadImage root.now next.now depth.now)) ≤ vec_capacity out.old }
        ensures { Appends out.old out.new (body (rec.HeadImage root.now next.now depth.now)) }
    {
        put(out, &root.to_be_bytes());
        put(out, &next.to_be_bytes());
        put(out, &[*depth]);
    }

    #[tactic(auto, unfolding(crate::specs::Reading::head_at))]
    fn fields(bytes: &[u8], start: usize, at: usize) -> Result<((u32, u32, u8), usize), RowFault>
        requires { at ≤ length bytes.now }
        ensures { Finds (λ x. rec.HeadImage x.0 x.1 x.2) bytes.now start result (head_at (drop at bytes.now)) }
    {
        let (root, at) = child(bytes, start, at)?;
        let (next, at) = number_u32(bytes, start, at)?;
        sure(2 <= next && next <= NODE_NUMBERS, start)?;
        let (depth, at) = byte(bytes, start, at)?;
        sure(1 <= depth && depth <= GREATEST_DEPTH, start)?;
        Ok(((root, next, depth), at))
    }

    pub fn read(
        _alloc: Global,
        bytes: &[u8],
        start: usize,
        at: usize,
    ) -> Result<((u32, u32, u8), usize), RowFault>
        requires { at ≤ length bytes.now }
        ensures { Gives (λ x. rec.HeadImage x.0 x.1 x.2) bytes.now start result (head_at (drop at bytes.now)) }
    {
        fields(bytes, start, at)
    }

    /// The place behind it.
    #[tactic(auto, unfolding(crate::specs::Reading::head_at))]
    pub fn end(bytes: &[u8], start: usize, at: usize) -> Result<usize, RowFault>
        requires { at ≤ length bytes.now }
        ensures { Passes bytes.now start result (behind (head_at (drop at bytes.now))) }
    {
        let (_, end) = fields(bytes, start, at)?;
        Ok(end)
    }
}

/// The number of the pairs, and the pairs.
pub mod leaf {
    use super::pair::write as write_pair;
    use crate::fault::RowFault;
    use crate::fields::{byte, put, sure};
    use crate::items::{items, pairs_end};
    use crate::places::pairs_ascend;
    use fine_model::format::MOST_IN_NODE;
    use fine_model::{Bytes, Pairs};
    use std::alloc::Global;

    #[tactic(auto, unfolding(fine_model::specs::RowBytes::body))]
    pub fn len(pairs: &Pairs) -> u32
        requires { FitsRec (rec.LeafImage pairs.now) }
        ensures is { result ≡ length (body (rec.LeafImage pairs.now)) }
        ensures most { result ≤ 10337 }
    {
        let mut len = 1;
        for pair in pairs.as_slice() {
            len += 3 + pair.0.len() as u32 + pair.1.len() as u32;
        }
        len
    }

    #[tactic(auto, unfolding(fine_model::specs::RowBytes::body))]
    pub fn write(out: &mut Vec<u8>, pairs: &Pairs)
        requires fits { FitsRec (rec.LeafImage pairs.now) }
        requires room { vec_len out.old + length (body (rec.LeafImage pairs.now)) ≤ vec_capacity out.old }
        ensures { Appends out.old out.new (body (rec.LeafImage pairs.now)) }
    {
        put(out, &[pairs.len() as u8]);
        for pair in pairs.as_slice() {
            write_pair(out, &pair.0, &pair.1);
        }
    }

    #[tactic(auto, unfolding(crate::specs::Reading::leaf_at))]
    pub fn read(
        alloc: Global,
        bytes: &[u8],
        start: usize,
        at: usize,
    ) -> Result<(Pairs, usize), RowFault>
        requires { at ≤ length bytes.now }
        ensures { Gives (λ x. rec.LeafImage x) bytes.now start result (leaf_at (drop at bytes.now)) }
    {
        let (count, at) = byte(bytes, start, at)?;
        sure(count as usize <= MOST_IN_NODE, start)?;
        let (pairs, at) = items::<(Bytes, Bytes)>(alloc, count, bytes, start, at)?;
        sure(pairs_ascend(pairs.as_slice()), start)?;
        Ok((pairs, at))
    }

    /// The place behind it.
    #[tactic(auto, unfolding(crate::specs::Reading::leaf_at))]
    pub fn end(bytes: &[u8], start: usize, at: usize) -> Result<usize, RowFault>
        requires { at ≤ length bytes.now }
        ensures { Passes bytes.now start result (behind (leaf_at (drop at bytes.now))) }
    {
        let (count, at) = byte(bytes, start, at)?;
        sure(count as usize <= MOST_IN_NODE, start)?;
        pairs_end(bytes, start, at, count)
    }
}

/// The number of the separators, the children, and the separators.
pub mod inner {
    use crate::fault::RowFault;
    use crate::fields::{byte, put, put_key, sure};
    use crate::items::{children_end, items, keys_end};
    use crate::places::keys_ascend;
    use fine_model::format::MOST_IN_NODE;
    use fine_model::{Bytes, Keys, Kids};
    use std::alloc::Global;

    #[tactic(auto, unfolding(fine_model::specs::RowBytes::body))]
    pub fn len(seps: &Keys, kids: &Kids) -> u32
        requires { FitsRec (rec.InnerImage seps.now kids.now) }
        ensures is { result ≡ length (body (rec.InnerImage seps.now kids.now)) }
        ensures most { result ≤ 10337 }
    {
        let mut len = 1 + 4 * kids.len() as u32;
        for key in seps.as_slice() {
            len += 1 + key.len() as u32;
        }
        len
    }

    #[tactic(auto, unfolding(fine_model::specs::RowBytes::body))]
    pub fn write(out: &mut Vec<u8>, seps: &Keys, kids: &Kids)
        requires fits { FitsRec (rec.InnerImage seps.now kids.now) }
        requires room { vec_len out.old + length (body (rec.InnerImage seps.now kids.now)) ≤ vec_capacity out.old }
        ensures { Appends out.old out.new (body (rec.InnerImage seps.now kids.now)) }
    {
        put(out, &[seps.len() as u8]);
        for kid in kids.as_slice() {
            put(out, &kid.to_be_bytes());
        }
        for key in seps.as_slice() {
            put_key(out, key);
        }
    }

    #[tactic(auto, unfolding(crate::specs::Reading::inner_at))]
    pub fn read(
        alloc: Global,
        bytes: &[u8],
        start: usize,
        at: usize,
    ) -> Result<((Keys, Kids), usize), RowFault>
        requires { at ≤ length bytes.now }
        ensures { Gives (λ x. rec.InnerImage x.0 x.1) bytes.now start result (inner_at (drop at bytes.now)) }
    {
        let (count, at) = byte(bytes, start, at)?;
        sure(count as usize <= MOST_IN_NODE, start)?;
        let (kids, at) = items::<u32>(alloc, count + 1, bytes, start, at)?;
        let (seps, at) = items::<Bytes>(alloc, count, bytes, start, at)?;
        sure(keys_ascend(seps.as_slice()), start)?;
        Ok(((seps, kids), at))
    }

    /// The place behind it.
    #[tactic(auto, unfolding(crate::specs::Reading::inner_at))]
    pub fn end(bytes: &[u8], start: usize, at: usize) -> Result<usize, RowFault>
        requires { at ≤ length bytes.now }
        ensures { Passes bytes.now start result (behind (inner_at (drop at bytes.now))) }
    {
        let (count, at) = byte(bytes, start, at)?;
        sure(count as usize <= MOST_IN_NODE, start)?;
        let at = children_end(bytes, start, at, count + 1)?;
        keys_end(bytes, start, at, count, &[])
    }
}

/// A key and a value.
pub mod pair {
    use crate::fault::RowFault;
    use crate::fields::{pair_in, put_key, put_value};
    use crate::items::Field;
    use fine_model::Bytes;
    use std::alloc::Global;

    #[tactic(auto, unfolding(fine_model::specs::RowBytes::body))]
    pub fn len(key: &Bytes, value: &Bytes) -> u32
        requires { FitsRec (rec.Put key.now value.now) }
        ensures is { result ≡ length (body (rec.Put key.now value.now)) }
        ensures most { result ≤ 10337 }
    {
        3 + key.len() as u32 + value.len() as u32
    }

    #[tactic(auto, unfolding(fine_model::specs::RowBytes::body))]
    pub fn write(out: &mut Vec<u8>, key: &Bytes, value: &Bytes)
        requires fits { FitsRec (rec.Put key.now value.now) }
        requires room { vec_len out.old + length (body (rec.Put key.now value.now)) ≤ vec_capacity out.old }
        ensures { Appends out.old out.new (body (rec.Put key.now value.now)) }
    {
        put_key(out, key);
        put_value(out, value);
    }

    #[tactic(auto, unfolding(crate::specs::Reading::put_at))]
    pub fn read(
        alloc: Global,
        bytes: &[u8],
        start: usize,
        at: usize,
    ) -> Result<((Bytes, Bytes), usize), RowFault>
        requires { at ≤ length bytes.now }
        ensures { Gives (λ x. rec.Put x.0 x.1) bytes.now start result (put_at (drop at bytes.now)) }
    {
        <(Bytes, Bytes)>::read(alloc, bytes, start, at)
    }

    /// The place behind it.
    #[inline(always)]
    #[tactic(auto, unfolding(crate::specs::Reading::put_at))]
    pub fn end(bytes: &[u8], start: usize, at: usize) -> Result<usize, RowFault>
        requires { at ≤ length bytes.now }
        ensures { Passes bytes.now start result (behind (put_at (drop at bytes.now))) }
    {
        let (_, end) = pair_in(bytes, start, at)?;
        Ok(end)
    }
}

/// A key.
pub mod key {
    use crate::fault::RowFault;
    use crate::fields::{key, key_in, put_key};
    use fine_model::Bytes;
    use std::alloc::Global;

    pub fn len(key: &Bytes) -> u32
        requires { FitsKey key.now }
        ensures is { result ≡ length (key_bytes key.now) }
        ensures most { result ≤ 10337 }
    {
        1 + key.len() as u32
    }

    pub fn write(out: &mut Vec<u8>, key: &Bytes)
        requires fits { FitsKey key.now }
        requires room { vec_len out.old + length (key_bytes key.now) ≤ vec_capacity out.old }
        ensures { Appends out.old out.new (key_bytes key.now) }
    {
        put_key(out, key);
    }

    pub fn read(
        alloc: Global,
        bytes: &[u8],
        start: usize,
        at: usize,
    ) -> Result<(Bytes, usize), RowFault>
        requires { at ≤ length bytes.now }
        ensures { Gives (λ x. x) bytes.now start result (key_at (drop at bytes.now)) }
    {
        key(alloc, bytes, start, at)
    }

    /// The place behind it.
    #[tactic(auto, unfolding(crate::specs::Reading::keyed_at))]
    pub fn end(bytes: &[u8], start: usize, at: usize) -> Result<usize, RowFault>
        requires { at ≤ length bytes.now }
        ensures { (make : List ℕ → Rec) → Passes bytes.now start result (behind (keyed_at make (drop at bytes.now))) }
    {
        let (_, end) = key_in(bytes, start, at)?;
        Ok(end)
    }
}

/// What stands behind a key, in so many bytes.
pub trait Tail: Sized {
    ghost reads: { List ℕ → Option (Self × List ℕ) };

    ghost spells: { Self → List ℕ };

    fn len(&self) -> u32
        ensures is { result ≡ length (spells self.now) }
        ensures most { result ≤ 8 };

    fn write(&self, out: &mut Vec<u8>)
        requires { vec_len out.old + length (spells self.now) ≤ vec_capacity out.old }
        ensures { Appends out.old out.new (spells self.now) };

    fn read(bytes: &[u8], start: usize, at: usize) -> Result<(Self, usize), RowFault>
        requires { at ≤ length bytes.now }
        ensures { Finds (λ x. x) bytes.now start result (reads (drop at bytes.now)) };
}

/// The number of a child.
impl Tail for u32 {
    ghost reads = { child_at };

    ghost spells = { to_be_bytes w32 };

    fn len(&self) -> u32 {
        4
    }

    fn write(&self, out: &mut Vec<u8>) {
        put(out, &self.to_be_bytes());
    }

    fn read(bytes: &[u8], start: usize, at: usize) -> Result<(u32, usize), RowFault> {
        child(bytes, start, at)
    }
}

/// What is added to a number.
impl Tail for i64 {
    ghost reads = { signed_at };

    ghost spells = { λ by. to_be_bytes w64 (cast_unsigned w64 by) };

    fn len(&self) -> u32 {
        8
    }

    fn write(&self, out: &mut Vec<u8>) {
        put(out, &self.to_be_bytes());
    }

    fn read(bytes: &[u8], start: usize, at: usize) -> Result<(i64, usize), RowFault> {
        number_i64(bytes, start, at)
    }
}

/// A key and what stands behind it.
pub mod tailed {
    use super::Tail;
    use crate::fault::RowFault;
    use crate::fields::{key, key_in, put_key};
    use fine_model::Bytes;
    use std::alloc::Global;

    pub fn len<T: Tail>(key: &Bytes, tail: &T) -> u32
        requires { FitsKey key.now }
        ensures is { result ≡ length (key_bytes key.now ++ T.spells tail.now) }
        ensures most { result ≤ 10337 }
    {
        1 + key.len() as u32 + tail.len()
    }

    pub fn write<T: Tail>(out: &mut Vec<u8>, key: &Bytes, tail: &T)
        requires fits { FitsKey key.now }
        requires room { vec_len out.old + length (key_bytes key.now ++ T.spells tail.now) ≤ vec_capacity out.old }
        ensures { Appends out.old out.new (key_bytes key.now ++ T.spells tail.now) }
    {
        put_key(out, key);
        tail.write(out);
    }

    #[tactic(auto, unfolding(crate::specs::Reading::tailed_at))]
    pub fn read<T: Tail + Drop>(
        alloc: Global,
        bytes: &[u8],
        start: usize,
        at: usize,
    ) -> Result<((Bytes, T), usize), RowFault>
        requires { at ≤ length bytes.now }
        ensures { (make : List ℕ → T → Rec) → Gives (λ x. make x.0 x.1) bytes.now start result (tailed_at T.reads make (drop at bytes.now)) }
    {
        let (key, at) = key(alloc, bytes, start, at)?;
        let (tail, at) = T::read(bytes, start, at)?;
        Ok(((key, tail), at))
    }

    /// The place behind it.
    #[tactic(auto, unfolding(crate::specs::Reading::tailed_at))]
    pub fn end<T: Tail + Drop>(bytes: &[u8], start: usize, at: usize) -> Result<usize, RowFault>
        requires { at ≤ length bytes.now }
        ensures { (make : List ℕ → T → Rec) → Passes bytes.now start result (behind (tailed_at T.reads make (drop at bytes.now))) }
    {
        let (_, at) = key_in(bytes, start, at)?;
        let (_, end) = T::read(bytes, start, at)?;
        Ok(end)
    }
}

/// A separator and the child to its right.
pub mod link {
    pub use super::tailed::{len, read, write};
    use crate::fault::RowFault;

    /// The place behind it.
    pub fn end(bytes: &[u8], start: usize, at: usize) -> Result<usize, RowFault>
        requires { at ≤ length bytes.now }
        ensures { Passes bytes.now start result (behind (tailed_at child_at (λ key child. rec.Link key child) (drop at bytes.now))) }
    {
        super::tailed::end::<u32>(bytes, start, at)
    }
}

/// A key and what is added to its number.
pub mod plus {
    pub use super::tailed::{len, read, write};
    use crate::fault::RowFault;

    /// The place behind it.
    pub fn end(bytes: &[u8], start: usize, at: usize) -> Result<usize, RowFault>
        requires { at ≤ length bytes.now }
        ensures { Passes bytes.now start result (behind (tailed_at signed_at (λ key by. rec.Plus key by) (drop at bytes.now))) }
    {
        super::tailed::end::<i64>(bytes, start, at)
    }
}
