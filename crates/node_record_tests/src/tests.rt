ghost use Rattle.std.specs.Prelude.{◌≡◌, ◌≤◌, length, IfOk};
ghost use Rattle.fine_model.specs.RowBytes.{FitsRec};
ghost use Rattle.node_record.specs.Bounds.{FitsNode};

use fine_model::{Bytes, Items, Keys, Kids, Mark, NoMemory, Node, NodeId, Pairs, Rec, Row};
use node_record::{
    Frame, RowAt, RowFault, apply, frame_at, front_at, image_of, read_row, row_len, write_row,
};
use std::alloc::Global;
use std::process::Abort;
use std::test::*;

/// `put a 1`.
const PUT: [u8; 24] =
    *b"\x04\x00\x61\x00\x00\x00\x01\x00\x00\x00\x00\x00\x00\x00\x01\x00\x00\x00\x05\x01a\x00\x011";

/// Adds 2 to the number of the key `c`.
const PLUS: [u8; 29] =
    *b"\x09\x00\x63\x00\x00\x00\x01\x00\x00\x00\x00\x00\x00\x00\x02\x00\x00\x00\x0a\x01c\x00\x00\x00\x00\x00\x00\x00\x02";

/// The image of a leaf of the pairs `a 2` and `b 3`.
const LEAF: [u8; 30] =
    *b"\x02\x00\x61\x00\x00\x00\x01\x00\x00\x00\x00\x00\x00\x00\x02\x00\x00\x00\x0b\x02\x01a\x00\x012\x01b\x00\x013";

fn bytes(alloc: Global, text: &[u8]) -> Result<Bytes, NoMemory>
    ensures { IfOk result (λ b. b ≡ text.now) }
{
    Bytes::from_slice(alloc, text)
}

fn row(bucket: u16, number: u32, version: u64, rec: Rec) -> Row
    ensures { result.rec ≡ rec }
{
    Row {
        node: NodeId { bucket, number },
        version,
        rec,
    }
}

/// Adds a pair to those of a leaf.
fn add(alloc: Global, pairs: &mut Pairs, key: &[u8], value: &[u8]) -> Result<(), NoMemory> {
    pairs.push((bytes(alloc, key)?, bytes(alloc, value)?))?;
    Ok(())
}

fn one_key(alloc: Global, text: &[u8]) -> Result<Keys, NoMemory> {
    let mut keys = Items::new(alloc);
    keys.push(bytes(alloc, text)?)?;
    Ok(keys)
}

fn kids(alloc: Global, numbers: &[u32]) -> Result<Kids, NoMemory> {
    Ok(Items::from_vec(Vec::from_slice(alloc, numbers)?))
}

/// What `PUT` sets.
fn put_of(alloc: Global) -> Result<Rec, NoMemory> {
    let key = bytes(alloc, b"a")?;
    let value = bytes(alloc, b"1")?;
    Ok(Rec::Put { key, value })
}

/// The image of a leaf of two pairs.
fn leaf_image(alloc: Global) -> Result<Rec, NoMemory> {
    let mut pairs = Items::new(alloc);
    add(alloc, &mut pairs, b"a", b"2")?;
    add(alloc, &mut pairs, b"b", b"3")?;
    Ok(Rec::LeafImage { pairs })
}

/// The image of an inner node over nodes 1 and 2.
fn inner_image(alloc: Global) -> Result<Rec, NoMemory> {
    let seps = one_key(alloc, b"BBAaAaAaAa")?;
    let kids = kids(alloc, &[1, 2])?;
    Ok(Rec::InnerImage { seps, kids })
}

/// The row that ends where its text does.
fn row_of(alloc: Global, text: &[u8]) -> Result<Row, RowFault>
    ensures { IfOk result (λ row. FitsRec row.rec) }
{
    let (row, end) = read_row(alloc, text, 0, Mark::Two)?;
    if end != text.len() {
        return Err(RowFault::Bad { at: end });
    }
    Ok(row)
}

/// The frame of a row that ends at a place.
fn frame_of(row: &Row, end: usize) -> Frame {
    let is_image = matches!(
        row.rec,
        Rec::HeadImage { .. } | Rec::LeafImage { .. } | Rec::InnerImage { .. }
    );
    Frame {
        node: row.node,
        version: row.version,
        is_image,
        end,
    }
}

/// Writes again the row that a text spells, and tells the length that it should have.
fn written(alloc: Global, text: &[u8], out: &mut Vec<u8>) -> Result<u32, RowFault> {
    let row = row_of(alloc, text)?;
    match write_row(out, &row) {
        Ok(()) => Ok(row_len(&row)),
        Err(_) => Err(RowFault::NoMemory),
    }
}

/// Reads a row and writes it again.
fn both_ways(rt: &impl Abort, alloc: Global, text: &[u8]) -> Result<(), Fail> {
    let mut out = Vec::new(alloc);
    let len = written(alloc, text, &mut out)?;
    assert_eq!(rt; (len as usize, out.as_slice()), (text.len(), text));
    Ok(())
}

/// The key of the row with which a text begins.
fn key_of(alloc: Global, text: &[u8]) -> Result<RowAt, Fail> {
    match read_row(alloc, text, 0, Mark::Two) {
        Ok(_found) => Ok(front_at(text, 0)),
        Err(_) => Err(Fail::from("no row")),
    }
}

#[test]
fn keys_are_read_off_the_fronts_of_rows(rt: HostRuntime) -> Result<(), Fail> {
    for (text, bucket, version, len) in [(&PUT[..], 97, 1, 24), (&PLUS[..], 99, 2, 29)] {
        let node = NodeId { bucket, number: 1 };
        let key = RowAt {
            node,
            version,
            at: 0,
            len,
        };
        assert_eq!(&rt; key_of(rt.alloc(), text)?, key);
    }
    Ok(())
}

/// The row that one of the texts below spells.
fn spelled(alloc: Global, which: u8) -> Result<Row, NoMemory> {
    Ok(match which {
        1 => row(
            64,
            0,
            1,
            Rec::HeadImage {
                root: 3,
                next: 4,
                depth: 2,
            },
        ),
        2 => row(97, 1, 2, leaf_image(alloc)?),
        3 => row(64, 3, 1, inner_image(alloc)?),
        4 => row(97, 1, 1, put_of(alloc)?),
        6 => {
            let key = bytes(alloc, b"BBAaAaAaAa")?;
            row(64, 1, 33, Rec::CutLeaf { key })
        }
        _ => {
            let key = bytes(alloc, b"c")?;
            row(99, 1, 2, Rec::Plus { key, by: 2 })
        }
    })
}

/// Finds the frame of a row that ends where its text does.
fn framed(rt: &impl Abort, text: &[u8], row: &Row) -> Result<(), RowFault> {
    let frame = frame_at(text, 0, Mark::Two)?;
    assert_eq!(rt; frame, frame_of(row, text.len()));
    Ok(())
}

/// Reads a row.
fn reads(rt: &impl Abort, alloc: Global, text: &[u8], row: &Row) -> Result<(), RowFault> {
    let read = row_of(alloc, text)?;
    assert_eq!(rt; read, *row);
    Ok(())
}

/// Reads the row that one of the texts below spells, and its frame.
fn reads_spelled(rt: &impl Abort, alloc: Global, text: &[u8]) -> Result<(), Fail> {
    let row = spelled(alloc, text.first().copied().unwrap_or(0))?;
    framed(rt, text, &row)?;
    reads(rt, alloc, text, &row)?;
    Ok(())
}

#[test]
fn rows_are_read_and_written_byte_by_byte(rt: HostRuntime) -> Result<(), Fail> {
    let texts: [&[u8]; 6] = [
        b"\x01\x00\x40\x00\x00\x00\x00\x00\x00\x00\x00\x00\x00\x00\x01\x00\x00\x00\x09\x00\x00\x00\x03\x00\x00\x00\x04\x02",
        &LEAF,
        b"\x03\x00\x40\x00\x00\x00\x03\x00\x00\x00\x00\x00\x00\x00\x01\x00\x00\x00\x14\x01\x00\x00\x00\x01\x00\x00\x00\x02\x0aBBAaAaAaAa",
        &PUT,
        b"\x06\x00\x40\x00\x00\x00\x01\x00\x00\x00\x00\x00\x00\x00\x21\x00\x00\x00\x0b\x0aBBAaAaAaAa",
        &PLUS,
    ];
    for text in texts {
        reads_spelled(&rt, rt.alloc(), text)?;
        both_ways(&rt, rt.alloc(), text)?;
    }
    Ok(())
}

/// A text with one byte changed.
fn changed<const N: usize>(mut text: [u8; N], at: usize, byte: u8) -> [u8; N] {
    if let Some(place) = text.get_mut(at) {
        *place = byte;
    }
    text
}

/// Which place is told to be bad.
fn bad_at(alloc: Global, text: &[u8], at: usize, mark: Mark) -> Option<usize>
    requires { at ≤ length text.now }
{
    match read_row(alloc, text, at, mark) {
        Err(RowFault::Bad { at }) => Some(at),
        _ => None,
    }
}

#[test]
fn bad_rows_are_told_at_their_start(rt: HostRuntime) {
    let alloc = rt.alloc();
    assert_eq!(rt; bad_at(alloc, &PUT[..23], 0, Mark::Two), Some(0));
    assert_eq!(rt; bad_at(alloc, &PLUS, 0, Mark::One), Some(0));
    // one byte of the row changed: kind, bucket, number, version, length of the body, of the key and of the value
    for (at, byte) in [
        (0, 0),
        (0, 1),
        (0, 10),
        (1, 1),
        (4, 16),
        (6, 0),
        (7, 64),
        (14, 0),
        (18, 4),
        (18, 6),
        (19, 0),
        (19, 65),
        (21, 2),
        (22, 0),
    ] {
        let bad = bad_at(alloc, &changed(PUT, at, byte), 0, Mark::Two);
        assert_eq!(rt; (at, byte, bad), (at, byte, Some(0)));
    }
    for at in 0..24 {
        assert_eq!(rt; bad_at(alloc, &PUT[..at], at, Mark::Two), Some(at));
    }
}

/// Where the row ends with which a text begins, as it is read and as it is framed.
fn ends_of(alloc: Global, text: &[u8]) -> (Option<usize>, Option<usize>) {
    let read = match read_row(alloc, text, 0, Mark::Two) {
        Ok((_row, end)) => Some(end),
        Err(_) => None,
    };
    let framed = match frame_at(text, 0, Mark::Two) {
        Ok(frame) => Some(frame.end),
        Err(_) => None,
    };
    (read, framed)
}

#[test]
fn frames_are_refused_where_rows_are(rt: HostRuntime) {
    let alloc = rt.alloc();
    // the numbers of pairs, then the lengths and keys of the first pair and of the second
    for (at, byte) in [
        (19, 1),
        (19, 3),
        (19, 33),
        (20, 0),
        (20, 65),
        (21, 98),
        (22, 1),
        (23, 0),
        (25, 2),
        (26, 97),
        (28, 2),
    ] {
        let ends = ends_of(alloc, &changed(LEAF, at, byte));
        assert_eq!(rt; (at, byte, ends), (at, byte, (None, None)));
    }
    for at in 0..30 {
        for byte in [0, 2, 97, 255] {
            let (read, framed) = ends_of(alloc, &changed(LEAF, at, byte));
            assert_eq!(rt; (at, byte, framed), (at, byte, read));
        }
    }
    for len in 0..30 {
        assert_eq!(rt; (len, ends_of(alloc, &LEAF[..len])), (len, (None, None)));
    }
}

/// Does to a node what the row says that a text spells.
fn change(alloc: Global, node: &mut Node, version: &mut u64, text: &[u8]) -> Result<(), Fail>
    requires { FitsNode node.old }
    ensures { FitsNode node.new }
{
    let row = row_of(alloc, text)?;
    apply(alloc, node, version, &row)?;
    Ok(())
}

/// What rows make of an empty leaf, and its version behind them.
fn after(alloc: Global, texts: &[&[u8]]) -> Result<(Node, u64), Fail> {
    let mut node = Node::Leaf {
        pairs: Items::new(alloc),
    };
    let mut version = 0;
    for text in texts {
        change(alloc, &mut node, &mut version, text)?;
    }
    Ok((node, version))
}

/// A leaf of one pair.
fn leaf_of(alloc: Global, key: &[u8], value: &[u8]) -> Result<Node, NoMemory> {
    let mut pairs = Items::new(alloc);
    add(alloc, &mut pairs, key, value)?;
    Ok(Node::Leaf { pairs })
}

/// Sees what rows make of an empty leaf.
fn changes(
    rt: &impl Abort,
    alloc: Global,
    texts: &[&[u8]],
    node: &Node,
    version: u64,
) -> Result<(), Fail> {
    let (changed, last) = after(alloc, texts)?;
    assert_eq!(rt; changed, *node);
    assert_eq!(rt; last, version);
    Ok(())
}

#[test]
fn rows_change_a_node(rt: HostRuntime) -> Result<(), Fail> {
    let alloc = rt.alloc();
    let plus =
        b"\x09\x00\x61\x00\x00\x00\x01\x00\x00\x00\x00\x00\x00\x00\x02\x00\x00\x00\x0a\x01a\xff\xff\xff\xff\xff\xff\xff\xd5";
    let late = b"\x05\x00\x61\x00\x00\x00\x01\x00\x00\x00\x00\x00\x00\x00\x04\x00\x00\x00\x02\x01a";
    let leaf = leaf_of(alloc, b"a", b"-42")?;
    changes(&rt, alloc, &[&PUT, plus], &leaf, 2)?;
    changes(&rt, alloc, &[&PUT, plus, late], &Node::Broken, 4)?;
    Ok(())
}

/// The image of an empty leaf.
fn image_of_none(alloc: Global, node: NodeId, version: u64) -> Result<Row, NoMemory> {
    let empty = Node::Leaf {
        pairs: Items::new(alloc),
    };
    image_of(alloc, node, version, &empty)
}

#[test]
fn an_image_stands_for_a_node(rt: HostRuntime) -> Result<(), Fail> {
    let alloc = rt.alloc();
    let node = NodeId {
        bucket: 97,
        number: 1,
    };
    let image = image_of_none(alloc, node, 5)?;
    let pairs = Items::new(alloc);
    assert_eq!(rt; image, row(97, 1, 5, Rec::LeafImage { pairs }));
    Ok(())
}
