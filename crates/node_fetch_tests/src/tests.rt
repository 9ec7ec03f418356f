//! What no clause says: fetching from bytes that were laid out by hand, through an eye of which a read may fail.

ghost use Rattle.std.specs.Prelude.{◌≡◌, ◌<◌, IfOk};
ghost use Rattle.fine_model.specs.RowBytes.{FitsRec};
ghost use Rattle.fine_model.specs.declared.Rec.TheVariants as rec;
ghost use Rattle.node_fetch_tests.specs.Eyes.{AreSeen, ten_regions};

use fine_model::{Bytes, FetchFault, Header, Items, Mark, Node, NodeId, Pairs, Part, Rec, Row};
use log_disk::{Failed, LogEye};
use node_fetch::fetch;
use node_record::write_row;
use partition_index::{IndexEntry, entry_bytes};
use partition_index_tests::ONE_ROW;
use std::alloc::Global;
use std::ops::Range;
use std::test::*;

const LEN: u64 = 16_384;

/// An eye on ten regions, of which the read of one number fails.
#[derive(Drop)]
struct Eye {
    regions: Vec<Vec<u8>>,
    reads: u64,
    fails: u64,
    faults: u64,
    taken: u64,
}

impl LogEye for Eye {
    ghost state = { λ eye. ten_regions eye.faults eye.taken };

    fn number(&self) -> u64 {
        0
    }

    fn read(&mut self, region: u32, at: u64, out: &mut [u8]) -> Result<(), Failed> {
        self.taken = self.taken.saturating_add(out.len() as u64);
        self.reads = self.reads.saturating_add(1);
        if self.reads == self.fails {
            self.faults = self.faults.saturating_add(1);
            return Err(Failed);
        }
        if let Some(bytes) = self.regions.get(region as usize) {
            for i in 0..out.len() {
                out[i] = bytes.get(at as usize + i).copied().unwrap_or(0);
            }
        }
        Ok(())
    }
}

// A put has 24 bytes, and an image of one pair 25.
const TWO_ROWS: Header = Header {
    rows: 2,
    area: 48,
    ..ONE_ROW
};

const FIRST: Part = Part {
    region: 0,
    header: Header {
        mark: Mark::One,
        ..ONE_ROW
    },
};

const WITH_ANOTHER: Part = Part {
    region: 1,
    header: Header {
        nodes: 2,
        ..TWO_ROWS
    },
};

const OF_ANOTHER: Part = Part {
    region: 2,
    header: ONE_ROW,
};

const SEVERAL: Part = Part {
    region: 3,
    header: Header {
        mark: Mark::Three,
        rows: 700,
        area: 16_800,
        regions: 2,
        more: [4, 0, 0, 0, 0, 0, 0],
        ..ONE_ROW
    },
};

const PLAIN: Part = Part {
    region: 5,
    header: TWO_ROWS,
};

/// As that part, but with an image in the place of the first put.
const FOLDED: Part = Part {
    header: Header {
        area: 49,
        ..TWO_ROWS
    },
    ..PLAIN
};

const LAST: Part = Part {
    region: 6,
    ..OF_ANOTHER
};

const THOUSAND: Part = Part {
    region: 7,
    header: Header {
        mark: Mark::Three,
        regions: 3,
        more: [8, 9, 0, 0, 0, 0, 0],
        rows: 1000,
        nodes: 1000,
        area: 24_000,
        ..ONE_ROW
    },
};

fn node(number: u32) -> NodeId {
    NodeId { bucket: 97, number }
}

fn text(alloc: Global, text: &[u8; 1]) -> Result<Bytes, Fail>
    ensures { IfOk result (λ bytes. bytes ≡ text.now) }
{
    Ok(Bytes::from_vec(Vec::from_slice(alloc, text)?))
}

fn put(alloc: Global, number: u32, version: u64) -> Result<Row, Fail>
    ensures { IfOk result (λ row. FitsRec row.rec) }
{
    let key = text(alloc, b"a")?;
    let value = text(alloc, b"1")?;
    Ok(Row {
        node: node(number),
        version,
        rec: Rec::Put { key, value },
    })
}

/// The pairs of the leaf in which all puts leave the node.
fn one_pair(alloc: Global) -> Result<Pairs, Fail>
    ensures { IfOk result (λ pairs. FitsRec (rec.LeafImage pairs)) }
{
    let pair = (text(alloc, b"a")?, text(alloc, b"1")?);
    let mut pairs = Items::new(alloc);
    pairs.push(pair)?;
    Ok(pairs)
}

fn image(alloc: Global, number: u32, version: u64) -> Result<Row, Fail>
    ensures { IfOk result (λ row. FitsRec row.rec) }
{
    Ok(Row {
        node: node(number),
        version,
        rec: Rec::LeafImage {
            pairs: one_pair(alloc)?,
        },
    })
}

/// The bytes of puts of a node, one of each version.
fn puts(alloc: Global, out: &mut Vec<u8>, number: u32, versions: Range<u32>) -> Result<(), Fail> {
    for version in versions {
        let row = put(alloc, number, u64::from(version))?;
        write_row(out, &row)?;
    }
    Ok(())
}

fn entry(out: &mut Vec<u8>, number: u32, offset: u32, rows: u32) -> Result<(), Fail> {
    let bytes = entry_bytes(&IndexEntry {
        node: node(number),
        offset,
        rows,
    });
    out.extend_from_slice(&bytes)?;
    Ok(())
}

/// Lays a body out over regions, from a place of the first one on.
fn lay(alloc: Global, regions: &mut Vec<Vec<u8>>, start: usize, body: &[u8]) -> Result<(), Fail> {
    let mut region = Vec::new(alloc);
    for _ in 0..start {
        region.push(0)?;
    }
    for byte in body {
        if region.len() == 16_384 {
            regions.push(region)?;
            region = vec![in alloc; 0; 1]?;
        }
        region.push(*byte)?;
    }
    regions.push(region)?;
    Ok(())
}

/// Puts of one node in the next region.
fn lay_puts(
    alloc: Global,
    regions: &mut Vec<Vec<u8>>,
    start: usize,
    versions: Range<u32>,
) -> Result<(), Fail> {
    let mut body = Vec::new(alloc);
    let count = versions.end.saturating_sub(versions.start);
    puts(alloc, &mut body, 1, versions)?;
    entry(&mut body, 1, 0, count)?;
    lay(alloc, regions, start, &body)
}

/// The node's rows, and then one of node 2, with entries as they are given.
fn lay_two(
    alloc: Global,
    regions: &mut Vec<Vec<u8>>,
    entries: [(u32, u32, u32); 2],
) -> Result<(), Fail> {
    let mut body = Vec::new(alloc);
    puts(alloc, &mut body, 1, 2..3)?;
    puts(alloc, &mut body, 2, 1..2)?;
    for (number, offset, rows) in entries {
        entry(&mut body, number, offset, rows)?;
    }
    lay(alloc, regions, 41, &body)
}

/// A part of node 2 alone.
fn lay_other(alloc: Global, regions: &mut Vec<Vec<u8>>) -> Result<(), Fail> {
    let mut body = Vec::new(alloc);
    puts(alloc, &mut body, 2, 2..3)?;
    entry(&mut body, 2, 0, 1)?;
    lay(alloc, regions, 41, &body)
}

/// An image of the node, and a put.
fn lay_folded(alloc: Global, regions: &mut Vec<Vec<u8>>) -> Result<(), Fail> {
    let mut body = Vec::new(alloc);
    let image = image(alloc, 1, 703)?;
    write_row(&mut body, &image)?;
    puts(alloc, &mut body, 1, 704..705)?;
    entry(&mut body, 1, 0, 2)?;
    lay(alloc, regions, 41, &body)
}

/// A thousand nodes of one put each, over three regions.
fn lay_thousand(alloc: Global, regions: &mut Vec<Vec<u8>>) -> Result<(), Fail> {
    let mut body = Vec::new(alloc);
    for i in 0..1000 {
        puts(alloc, &mut body, i + 1, 1..2)?;
    }
    for i in 0..1000 {
        entry(&mut body, i + 1, 24 * i, 1)?;
    }
    lay(alloc, regions, 70, &body)
}

/// The regions of the first four parts.
fn lay_first(alloc: Global) -> Result<Vec<Vec<u8>>, Fail> {
    let mut regions = Vec::new(alloc);
    lay_puts(alloc, &mut regions, 41, 1..2)?;
    lay_two(alloc, &mut regions, [(1, 0, 1), (2, 24, 1)])?;
    lay_other(alloc, &mut regions)?;
    lay_puts(alloc, &mut regions, 70, 3..703)?;
    Ok(regions)
}

/// An eye on all parts, with the image or with puts alone, of which a read fails.
fn look(alloc: Global, folded: bool, fails: u64) -> Result<Eye, Fail> {
    let mut regions = lay_first(alloc)?;
    if folded {
        lay_folded(alloc, &mut regions)?;
    } else {
        lay_puts(alloc, &mut regions, 41, 703..705)?;
    }
    lay_puts(alloc, &mut regions, 41, 705..706)?;
    Ok(eye_on(regions, fails))
}

fn eye_on(regions: Vec<Vec<u8>>, fails: u64) -> Eye {
    Eye {
        regions,
        reads: 0,
        fails,
        faults: 0,
        taken: 0,
    }
}

/// The node with a number, from these parts.
fn fetch_from(
    alloc: Global,
    eye: &mut Eye,
    parts: &[Part],
    number: u32,
) -> Result<(Node, u64), FetchFault>
    requires { AreSeen parts.now }
{
    let Ok(parts) = Vec::from_slice(alloc, parts) else {
        return Err(FetchFault::NoMemory);
    };
    fetch(alloc, eye, &Items::from_vec(parts), node(number), LEN)
}

/// Two entries, and the fault of a fetch of node 1 (false for a bad entry) with its place.
#[test]
fn damage_is_told_at_its_place(rt: HostRuntime) -> Result<(), Fail> {
    let alloc = rt.alloc();
    let table: [([(u32, u32, u32); 2], (bool, u32)); 5] = [
        ([(1, 0, 2), (2, 24, 1)], (true, 65)),
        ([(1, 0, 1), (2, 30, 1)], (true, 65)),
        ([(0, 0, 1), (1, 24, 1)], (true, 65)),
        ([(1, 24, 1), (2, 24, 1)], (false, 89)),
        ([(1, 0, 1), (2, 48, 1)], (false, 103)),
    ];
    let part = Part {
        region: 0,
        ..WITH_ANOTHER
    };
    for (entries, (row, place)) in table {
        let mut regions = Vec::new(alloc);
        lay_two(alloc, &mut regions, entries)?;
        let mut eye = eye_on(regions, 0);
        let told = match fetch_from(alloc, &mut eye, &[part], 1) {
            Err(FetchFault::BadRow { region, at }) => (true, region, at),
            Err(FetchFault::BadIndex { region, at }) => (false, region, at),
            _ => (true, 0, 0),
        };
        assert_eq!(&rt; told, (row, 0, place));
    }
    Ok(())
}

/// A part of two puts of node 1, over whose rows other bytes are laid from a place on.
fn fetch_over(alloc: Global, at: usize, bytes: &[u8]) -> Result<(bool, u32), Fail>
    requires { at < 48 }
{
    let mut region = vec![in alloc; 0; 41]?;
    puts(alloc, &mut region, 1, 703..705)?;
    for (i, byte) in bytes.iter().enumerate() {
        if let Some(there) = region.get_mut(41 + at + i) {
            *there ^= byte;
        }
    }
    entry(&mut region, 1, 0, 2)?;
    told_of_one(alloc, region)
}

/// Whether a fetch of node 1 from the bytes of region 5 met a bad row, and where.
fn told_of_one(alloc: Global, region: Vec<u8>) -> Result<(bool, u32), Fail> {
    let mut regions = Vec::new(alloc);
    for _ in 0..5 {
        regions.push(Vec::new(alloc))?;
    }
    regions.push(region)?;
    let mut eye = eye_on(regions, 0);
    Ok(match fetch_from(alloc, &mut eye, &[PLAIN], 1) {
        Err(FetchFault::BadRow { region: 5, at }) => (true, at),
        Ok(_) => (false, 0),
        Err(_) => (true, 0),
    })
}

/// A bit is flipped in each byte of two puts: in versions, keys and values it makes another row, and elsewhere a bad one.
#[test]
fn a_flipped_bit_of_a_span_is_told_at_its_row(rt: HostRuntime) -> Result<(), Fail> {
    let alloc = rt.alloc();
    for at in 0..48u32 {
        let told = fetch_over(alloc, at as usize, &[1])?;
        let good = matches!(at % 24, 7..=14 | 20 | 23);
        let wanted = if good {
            (false, 0)
        } else {
            (true, 41 + at / 24 * 24)
        };
        assert_eq!(&rt; told, wanted, "at {at}");
    }
    Ok(())
}

/// Random bytes in a span are no row, from the first row on or from the second one on.
#[test]
fn random_bytes_in_a_span_are_told(rt: HostRuntime) -> Result<(), Fail> {
    let alloc = rt.alloc();
    let mut state = 7u64;
    for turn in 0..100u32 {
        let mut bytes = [0; 24];
        for i in 0..24 {
            state = state
                .wrapping_mul(6364136223846793005)
                .wrapping_add(1442695040888963407);
            bytes[i] = (state >> 56) as u8;
        }
        let row = turn % 2;
        let told = fetch_over(alloc, 24 * row as usize, &bytes)?;
        assert_eq!(&rt; told, (true, 41 + 24 * row), "turn {turn}");
    }
    Ok(())
}

/// All parts, of which one begins with an image, or all with puts alone.
fn six_parts(folded: bool) -> [Part; 6]
    ensures { AreSeen result }
{
    if folded {
        [FIRST, WITH_ANOTHER, OF_ANOTHER, SEVERAL, FOLDED, LAST]
    } else {
        [FIRST, WITH_ANOTHER, OF_ANOTHER, SEVERAL, PLAIN, LAST]
    }
}

/// Rows in five parts of all three marks, and a part that has none of the node: with an image, those before it are not read.
#[test]
fn rows_of_five_parts_are_replayed(rt: HostRuntime) -> Result<(), Fail> {
    let alloc = rt.alloc();
    // whether there is an image, and how many bytes are taken
    let newest = 14 + 24;
    let table = [
        (true, newest + 14 + 49),
        (
            false,
            newest + 14 + 48 + 14 + 16_800 + 14 + 3 * 14 + 24 + 14 + 24,
        ),
    ];
    for (with_image, taken) in table {
        let mut eye = look(alloc, with_image, 0)?;
        let found = fetch_from(alloc, &mut eye, &six_parts(with_image), 1);
        let pairs = one_pair(alloc)?;
        assert_eq!(&rt; found.ok(), Some((Node::Leaf { pairs }, 705)));
        assert_eq!(&rt; eye.taken, taken);
    }
    Ok(())
}

/// A node that no part has is as it began, a leaf or a head, and no row is read for it.
#[test]
fn an_absent_node_is_as_it_began(rt: HostRuntime) -> Result<(), Fail> {
    let alloc = rt.alloc();
    let mut eye = look(alloc, true, 0)?;
    let parts = six_parts(true);
    let leaf = Node::Leaf {
        pairs: Items::new(alloc),
    };
    assert_eq!(&rt;
        fetch_from(alloc, &mut eye, &parts, 3).ok(),
        Some((leaf, 0))
    );
    let head = Node::Head {
        root: 1,
        next: 2,
        depth: 1,
    };
    assert_eq!(&rt;
        fetch_from(alloc, &mut eye, &parts, 0).ok(),
        Some((head, 0))
    );
    assert_eq!(&rt; eye.taken, 14 * (6 + 7));
    Ok(())
}

/// How many reads the fetch takes where none fails.
fn reads_of_six(alloc: Global) -> Result<u64, Fail> {
    let mut eye = look(alloc, false, 0)?;
    let found = fetch_from(alloc, &mut eye, &six_parts(false), 1);
    if found.is_err() {
        return Err("no node")?;
    }
    Ok(eye.reads)
}

/// Each of the reads fails in turn, and behind the last one none does.
#[test]
fn a_failed_read_is_told(rt: HostRuntime) -> Result<(), Fail> {
    let alloc = rt.alloc();
    let reads = reads_of_six(alloc)?;
    for fails in 1..reads.saturating_add(2) {
        let mut eye = look(alloc, false, fails)?;
        let found = fetch_from(alloc, &mut eye, &six_parts(false), 1);
        let failed = matches!(found, Err(FetchFault::Failed));
        assert_eq!(&rt; failed, fails <= reads);
        assert_eq!(&rt; eye.faults, u64::from(failed));
    }
    Ok(())
}

/// Among a thousand nodes a fetch takes at most eleven entries and the node's row.
#[test]
fn few_bytes_are_taken_among_a_thousand_nodes(rt: HostRuntime) -> Result<(), Fail> {
    let alloc = rt.alloc();
    let mut regions = Vec::new(alloc);
    for _ in 0..7 {
        regions.push(Vec::new(alloc))?;
    }
    lay_thousand(alloc, &mut regions)?;
    let mut eye = eye_on(regions, 0);
    for number in 1..1002u32 {
        let before = eye.taken;
        let found = fetch_from(alloc, &mut eye, &[THOUSAND], number);
        let version = found.map(|found| found.1).unwrap_or(9);
        assert_eq!(&rt; version, u64::from(number <= 1000));
        assert!(&rt; eye.taken.saturating_sub(before) <= 154 + 24);
    }
    Ok(())
}
