//! Rows as bytes.

ghost use Rattle.std.specs.Prelude.{◌≡◌, ◌+◌, ◌≤◌, ◌<◌, ◌++◌, ◌==◌, length, drop, option_map, vec_len, vec_capacity, IfOk, IfErr, OnOk, OnErr, MatchOption, Some, None, if◌then◌else◌};
ghost use Rattle.fine_model.specs.RowBytes.{FitsRec, body, kind, row_bytes, row_len, last_kind, row_front};
ghost use Rattle.node_record.specs.declared.fault.RowFault.TheVariants as fault;
ghost use Rattle.node_record.specs.Reading.{Finds, Gives, Passes, behind, body_at, fits_kind, front_at, is_front};
ghost use Rattle.node_record.specs.Rows.{IsRowAt, IsFault, IsReadAgain};
ghost use Rattle.node_record.specs.Writing.{Appends, front};

use crate::bodies::{head, inner, key, leaf, link, pair, plus};
use crate::fault::RowFault;
use crate::fields::{part, put, sure};
use crate::front::Front;
use fine_model::format::{BUCKETS, GREATEST, NODE_NUMBERS, ROW_FRONT};
use fine_model::{Mark, NoMemory, NodeId, Rec, Row};
use std::alloc::Global;

/// The kinds of rows, one in each line: its number, its fields, and the form of its body.
macro_rules! kinds {
    ($each:ident $of:tt) => {
        $each! { $of
            1 HeadImage { root, next, depth } head;
            2 LeafImage { pairs } leaf;
            3 InnerImage { seps, kids } inner;
            4 Put { key, value } pair;
            5 Del { key } key;
            6 CutLeaf { key } key;
            7 CutInner { key } key;
            8 Link { key, child } link;
            9 Plus { key, by } plus;
        }
    };
}

macro_rules! length_of {
    (($rec:expr) $($kind:literal $name:ident { $($field:ident),* } $body:ident;)*) => {
        match $rec {
            $(Rec::$name { $($field),* } => ROW_FRONT as u32 + $body::len($($field),*),)*
        }
    };
}

macro_rules! read_by {
    (($alloc:expr, $bytes:expr, $start:expr, $at:expr, $kind:expr) $($number:literal $name:ident { $($field:ident),* } $body:ident;)*) => {
        match $kind {
            $($number => {
                let (($($field),*), end) = $body::read($alloc, $bytes, $start, $at)?;
                Ok((Rec::$name { $($field),* }, end))
            })*
            _ => Err(RowFault::Bad { at: $start }),
        }
    };
}

macro_rules! end_of {
    (($kind:expr, $bytes:expr, $start:expr, $at:expr) $($number:literal $name:ident { $($field:ident),* } $body:ident;)*) => {
        match $kind {
            $($number => $body::end($bytes, $start, $at),)*
            _ => Err(RowFault::Bad { at: $start }),
        }
    };
}

macro_rules! kind_in {
    (($rec:expr) $($kind:literal $name:ident { $($field:ident),* } $body:ident;)*) => {
        match $rec {
            $(Rec::$name { .. } => $kind,)*
        }
    };
}

macro_rules! write_to {
    (($out:expr, $rec:expr) $($kind:literal $name:ident { $($field:ident),* } $body:ident;)*) => {
        match $rec {
            $(Rec::$name { $($field),* } => $body::write($out, $($field),*),)*
        }
    };
}

/// The number of bytes of a row, at most 10,356. Takes no memory.
#[tactic(auto, unfolding(fine_model::specs::RowBytes::body))]
pub fn row_len(row: &Row) -> u32
    requires { FitsRec row.now.rec }
    ensures is { result ≡ row_len row.now }
    ensures most { result ≤ 10356 }
{
    kinds!(length_of(&row.rec))
}

/// What stands before the body.
#[tactic(auto, unfolding(crate::specs::Writing::front))]
fn write_front(out: &mut Vec<u8>, kind: u8, row: &Row, len: u32)
    requires { vec_len out.old + row_front ≤ vec_capacity out.old }
    ensures { Appends out.old out.new (front kind row.now len) }
{
    put(out, &[kind]);
    put(out, &row.node.bucket.to_be_bytes());
    put(out, &row.node.number.to_be_bytes());
    put(out, &row.version.to_be_bytes());
    put(out, &len.to_be_bytes());
}

/// The number of a row's kind.
#[inline(always)]
fn kind_of(rec: &Rec) -> u8
    ensures { result ≡ kind rec.now }
{
    kinds!(kind_in(rec))
}

/// Appends the body of a row.
#[tactic(auto, unfolding(fine_model::specs::RowBytes::body))]
fn write_body(out: &mut Vec<u8>, rec: &Rec)
    requires fits { FitsRec rec.now }
    requires room { vec_len out.old + length (body rec.now) ≤ vec_capacity out.old }
    ensures { Appends out.old out.new (body rec.now) }
{
    kinds!(write_to(out, rec))
}

/// Appends the one spelling of a row. After `NoMemory` the bytes are those that stood there.
pub fn write_row(out: &mut Vec<u8>, row: &Row) -> Result<(), NoMemory>
    requires { FitsRec row.now.rec }
    ensures ok { OnOk result (out.new.items ≡ out.old.items ++ row_bytes row.now) }
    ensures err { OnErr result (out.new.items ≡ out.old.items) }
{
    let len = row_len(row);
    out.reserve(len as usize)?;
    write_front(out, kind_of(&row.rec), row, len - ROW_FRONT as u32);
    write_body(out, &row.rec);
    Ok(())
}

/// The greatest kind in a partition of a format.
#[inline(always)]
fn last_kind(mark: Mark) -> u8
    ensures { result ≡ last_kind mark }
{
    match mark {
        Mark::One => 8,
        Mark::Two | Mark::Three => 9,
    }
}

/// Whether a row of this kind may name a node of this number.
#[inline(always)]
fn fits_kind(kind: u8, number: u32) -> bool
    ensures { result ≡ fits_kind kind number }
{
    if kind == 1 { number == 0 } else { number != 0 }
}

/// Whether what stands before the body of a row is within the bounds of a format.
#[inline(always)]
fn is_front(front: Front, mark: Mark) -> bool
    ensures { result ≡ is_front mark front }
{
    front.kind <= last_kind(mark)
        && front.node.bucket < BUCKETS
        && front.node.number < NODE_NUMBERS
        && fits_kind(front.kind, front.node.number)
        && 1 <= front.version
        && front.version <= GREATEST
}

/// The front of a row in bytes that are long enough for one. One test of the length stands for those of its fields.
#[inline(always)]
fn front_in(bytes: &[u8], start: usize, mark: Mark) -> Option<Front>
    requires { start + row_front ≤ length bytes.now }
    ensures { front_at mark (drop start bytes.now) ≡ option_map (λ front. (front, drop (start + row_front) bytes.now)) result }
{
    let node = NodeId {
        bucket: u16::from_be_bytes(part::<2>(bytes, start + 1)),
        number: u32::from_be_bytes(part::<4>(bytes, start + 3)),
    };
    let front = Front {
        node,
        version: u64::from_be_bytes(part::<8>(bytes, start + 7)),
        len: u32::from_be_bytes(part::<4>(bytes, start + 15)),
        kind: bytes[start],
    };
    is_front(front, mark).then_some(front)
}

/// What stands before the body of a row.
#[inline(always)]
pub fn read_front(bytes: &[u8], start: usize, mark: Mark) -> Result<(Front, usize), RowFault>
    requires { start ≤ length bytes.now }
    ensures { Finds (λ front. front) bytes.now start result (front_at mark (drop start bytes.now)) }
{
    if bytes.len() - start < ROW_FRONT {
        return Err(RowFault::Bad { at: start });
    }
    match front_in(bytes, start, mark) {
        Some(front) => Ok((front, start + ROW_FRONT)),
        None => Err(RowFault::Bad { at: start }),
    }
}

/// The kind of a row that puts a pair.
const PUT: u8 = 4;

/// The place behind the body of a kind that stands at `at`, in a row that starts at `start`. Nearly all rows put a pair, so these are told
/// apart first, and pass through no call.
#[inline(always)]
#[tactic(auto, unfolding(crate::specs::Reading::body_at))]
pub fn body_end(kind: u8, bytes: &[u8], start: usize, at: usize) -> Result<usize, RowFault>
    requires { at ≤ length bytes.now }
    ensures { Passes bytes.now start result (behind (body_at kind (drop at bytes.now))) }
{
    if kind == PUT {
        return pair::end(bytes, start, at);
    }
    match any_end(kind, bytes, at) {
        Some(end) => Ok(end),
        None => Err(RowFault::Bad { at: start }),
    }
}

/// The same, for all kinds alike, and with an answer that is small enough to come in registers.
#[inline(never)]
fn any_end(kind: u8, bytes: &[u8], at: usize) -> Option<usize>
    requires { at ≤ length bytes.now }
    ensures { MatchOption result (behind (body_at kind (drop at bytes.now)) ≡ None) (λ end. (end ≤ length bytes.now) × (behind (body_at kind (drop at bytes.now)) ≡ Some (drop end bytes.now))) }
{
    match end_of_kind(kind, bytes, at) {
        Ok(end) => Some(end),
        Err(_) => None,
    }
}

/// The place behind the body of a kind.
#[inline(always)]
#[tactic(auto, unfolding(crate::specs::Reading::body_at))]
fn end_of_kind(kind: u8, bytes: &[u8], at: usize) -> Result<usize, RowFault>
    requires { at ≤ length bytes.now }
    ensures { Passes bytes.now at result (behind (body_at kind (drop at bytes.now))) }
{
    kinds!(end_of(kind, bytes, at, at))
}

/// Whether a body has the length that its front says.
#[inline(always)]
pub fn is_whole(front: Front, body: usize, end: usize) -> bool
    ensures { result ≡ (end == body + front.len) }
{
    body <= end && end - body == front.len as usize
}

/// A row whose body has the length that its front says.
fn whole(
    front: Front,
    rec: Rec,
    start: usize,
    body: usize,
    end: usize,
) -> Result<(Row, usize), RowFault>
    ensures { result ≡ (if end == body + front.len then Ok (record { node = front.node; version = front.version; rec = rec }, end) else Err (fault.Bad start)) }
{
    sure(is_whole(front, body, end), start)?;
    Ok((
        Row {
            node: front.node,
            version: front.version,
            rec,
        },
        end,
    ))
}

/// Reads the body of a kind that stands at `at`, in a row that starts at `start`.
#[inline(always)]
#[tactic(auto, unfolding(crate::specs::Reading::body_at, crate::specs::Reading::keyed_at))]
fn read_body(
    alloc: Global,
    bytes: &[u8],
    start: usize,
    at: usize,
    kind: u8,
) -> Result<(Rec, usize), RowFault>
    requires { at ≤ length bytes.now }
    ensures { Gives (λ rec. rec) bytes.now start result (body_at kind (drop at bytes.now)) }
{
    kinds!(read_by(alloc, bytes, start, at, kind))
}

/// Reads the row that starts at a place, by the grammar of a format, and answers it with the place behind it.
///
/// `Bad` comes exactly where nothing that starts there is a row of the format, whatever the bytes are. A row that was written is read
/// again, whatever follows it.
pub fn read_row(
    alloc: Global,
    bytes: &[u8],
    at: usize,
    mark: Mark,
) -> Result<(Row, usize), RowFault>
    requires { at ≤ length bytes.now }
    ensures found { IfOk result (λ found. IsRowAt mark bytes.now at found.0 found.1) }
    ensures bad { IfErr result (IsFault mark bytes.now at) }
    ensures again { IsReadAgain mark bytes.now at result }
{
    let (front, body) = read_front(bytes, at, mark)?;
    let (rec, end) = read_body(alloc, bytes, at, body, front.kind)?;
    whole(front, rec, at, body, end)
}
