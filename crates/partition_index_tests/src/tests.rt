//! What no clause says: the index of a part as it is read from a disk in memory.

ghost use Rattle.std.specs.Prelude.{◌≡◌, ◌<◌, ◌≤◌, ◌+◌, [], ◌∷◌, length, map, IsTrue, IfOk};
ghost use Rattle.fine_model.specs.declared.Rec.TheVariants as rec;
ghost use Rattle.partition_index.specs.Index.{is_rising};
ghost use Rattle.fine_model.specs.RowBytes.{row_len, rows_len};
ghost use Rattle.partition_index.specs.Parts.{IsSeen};

use crate::ONE_ROW;
use fine_model::{Bytes, Header, Items, Mark, NoMemory, NodeId, Part, Rec, Row, Rows};
use log_disk::{DiskRefusal, FaultPlan, LogDisk, MemDisk, MemEye};
use partition_index::{
    IndexEntry, Indexer, SeekFault, Span, build, entry_at, entry_bytes, entry_of, place_of,
    read_body, seek,
};
use std::alloc::{AllocError, Global};
use std::test::Fail;

const LEN: u64 = 16_384;

// A thousand nodes of two bytes of rows each, the odd numbers of bucket 3. Their entries stand at 2041 of the region.
const THOUSAND: Part = Part {
    region: 0,
    header: Header {
        rows: 1000,
        nodes: 1000,
        area: 2000,
        ..ONE_ROW
    },
};

// One row of 24 bytes, of node 1 of bucket 0x61: its entry stands behind it, at 65 of the region.
const ALONE: Part = Part {
    region: 0,
    header: ONE_ROW,
};

// The span of the number of a node among the thousand.
fn span_of(number: u32) -> Option<Span>
    requires { number < 2000 }
{
    if number % 2 == 0 {
        return None;
    }
    let at = number - 1;
    Some(Span {
        at,
        end: at + 2,
        rows: 1,
    })
}

// The entries of the thousand.
fn thousand(alloc: Global) -> Result<Vec<u8>, AllocError>
    ensures { IfOk result (λ bytes. length bytes.items ≡ 14000) }
{
    let mut bytes = Vec::new(alloc);
    for i in 0..1000u32 {
        let node = NodeId {
            bucket: 3,
            number: 2 * i + 1,
        };
        bytes.extend_from_slice(&entry_bytes(&IndexEntry {
            node,
            offset: 2 * i,
            rows: 1,
        }))?;
    }
    Ok(bytes)
}

// The index of one row of 21 bytes.
fn index_of_one(alloc: Global) -> Result<Vec<u8>, AllocError> {
    let mut indexer = Indexer::new(Vec::with_capacity(alloc, 14)?);
    let node = NodeId {
        bucket: 97,
        number: 1,
    };
    indexer.feed(node, 21);
    Ok(indexer.finish())
}

#[test]
fn an_index_is_written_row_by_row(rt: HostRuntime) -> Result<(), Fail> {
    let index = index_of_one(rt.alloc()).ok().ok_or("memory")?;
    let entry = [0, 0x61, 0, 0, 0, 1, 0, 0, 0, 0, 0, 0, 0, 1];
    assert_eq!(rt; index.as_slice(), entry.as_slice());
    Ok(())
}

// An eye on region 0 of a new disk, which holds bytes at a place.
fn look(alloc: Global, at: u64, bytes: &[u8]) -> Result<MemEye, DiskRefusal>
    requires { at + length bytes.now ≤ 16384 }
    ensures seen { IfOk result (λ eye. IsSeen eye.eye THOUSAND) }
    ensures seen_alone { IfOk result (λ eye. IsSeen eye.eye ALONE) }
    ensures len { IfOk result (λ eye. eye.eye.region_len ≡ 16384) }
{
    let mut disk = MemDisk::new(alloc, 1, LEN, FaultPlan::none(alloc))?;
    disk.write(0, at, bytes)?;
    disk.sync()?;
    let _regions = disk.regions();
    let eye = disk.eye(&[0])?;
    Ok(eye)
}

#[test]
fn spells_an_entry_both_ways(rt: HostRuntime) {
    let entry = IndexEntry {
        node: NodeId {
            bucket: 0x61,
            number: 1,
        },
        offset: 0,
        rows: 1,
    };
    let bytes = [0, 0x61, 0, 0, 0, 1, 0, 0, 0, 0, 0, 0, 0, 1];
    assert_eq!(rt; entry_bytes(&entry), bytes);
    assert_eq!(rt; entry_of(bytes), entry);
}

#[test]
fn seeks_among_a_thousand_nodes(rt: HostRuntime) -> Result<(), Fail> {
    let alloc = rt.alloc();
    let bytes = thousand(alloc)?;
    let mut eye = look(alloc, 2041, &bytes)?;
    for number in 0..2000u32 {
        let before = eye.taken();
        let node = NodeId { bucket: 3, number };
        assert_eq!(rt; seek(&mut eye, &THOUSAND, node, LEN), Ok(span_of(number)));
        assert!(rt; eye.taken().saturating_sub(before) <= 154);
    }
    Ok(())
}

// Three entries over the seam of two regions: the lead ends 26 bytes behind the rows.
const SEVERAL: Part = Part {
    region: 1,
    header: Header {
        mark: Mark::Three,
        rows: 3,
        nodes: 3,
        area: 4000,
        regions: 2,
        ..ONE_ROW
    },
};

// An eye on both regions of a new disk, of which region 1 leads and region 0 goes on. The first entry and 12 bytes of the second
// one stand at the lead's end.
fn look_at_both(alloc: Global, bytes: &[u8; 42]) -> Result<MemEye, DiskRefusal>
    ensures seen { IfOk result (λ eye. IsSeen eye.eye SEVERAL) }
    ensures len { IfOk result (λ eye. eye.eye.region_len ≡ 4096) }
{
    let mut disk = MemDisk::new(alloc, 2, 4096, FaultPlan::none(alloc))?;
    disk.write(1, 4070, &bytes[..26])?;
    disk.write(0, 1, &bytes[26..])?;
    disk.sync()?;
    let _regions = disk.regions();
    let eye = disk.eye(&[1, 0])?;
    Ok(eye)
}

// The bytes of three entries.
fn three(entries: [(u32, u32, u32); 3]) -> [u8; 42] {
    let mut bytes = [0; 42];
    for i in 0..3 {
        let (number, offset, rows) = entries[i];
        let node = NodeId { bucket: 7, number };
        let one = entry_bytes(&IndexEntry { node, offset, rows });
        for j in 0..14 {
            bytes[14 * i + j] = one[j];
        }
    }
    bytes
}

#[test]
fn reads_over_the_seam_of_regions(rt: HostRuntime) -> Result<(), Fail> {
    let bytes = three([(4, 0, 1), (6, 1000, 1), (9, 2500, 1)]);
    let mut eye = look_at_both(rt.alloc(), &bytes)?;
    let mut index = [0; 42];
    read_body(&mut eye, &SEVERAL, 4096, 4000, &mut index)?;
    assert_eq!(rt; index, bytes);
    assert_eq!(rt; place_of(&SEVERAL, 4096, 4000), (1, 4070));
    assert_eq!(rt; place_of(&SEVERAL, 4096, 4026), (0, 1));
    let node = NodeId {
        bucket: 7,
        number: 6,
    };
    let span = Span {
        at: 1000,
        end: 2500,
        rows: 1,
    };
    assert_eq!(rt; seek(&mut eye, &SEVERAL, node, 4096), Ok(Some(span)));
    let entry = IndexEntry {
        node,
        offset: 1000,
        rows: 1,
    };
    assert_eq!(rt; entry_at(&mut eye, &SEVERAL, 1, 4096), Ok((entry, span)));
    Ok(())
}

#[test]
fn refuses_bad_entries(rt: HostRuntime) -> Result<(), Fail> {
    // Three entries, and what comes of a search for number 6.
    let table: [([(u32, u32, u32); 3], SeekFault); 5] = [
        (
            [(4, 0, 1), (6, 4000, 1), (9, 2500, 1)],
            SeekFault::BadIndex { at: 4014 },
        ),
        (
            [(4, 0, 1), (6, 1000, 0), (9, 2500, 1)],
            SeekFault::BadIndex { at: 4014 },
        ),
        (
            [(4, 0, 1), (6, 1000, 4), (9, 2500, 1)],
            SeekFault::BadIndex { at: 4014 },
        ),
        (
            [(4, 0, 1), (6, 1000, 1), (1_048_576, 2500, 1)],
            SeekFault::BadIndex { at: 4028 },
        ),
        (
            [(4, 0, 1), (6, 2500, 1), (9, 2500, 1)],
            SeekFault::BadIndex { at: 4014 },
        ),
    ];
    for (entries, fault) in table {
        let mut eye = look_at_both(rt.alloc(), &three(entries))?;
        let node = NodeId {
            bucket: 7,
            number: 6,
        };
        assert_eq!(rt; seek(&mut eye, &SEVERAL, node, 4096), Err(fault));
    }
    Ok(())
}

#[test]
fn a_damaged_entry_is_told_at_its_place(rt: HostRuntime) -> Result<(), Fail> {
    let node = NodeId {
        bucket: 0x61,
        number: 1,
    };
    // zeros, and an offset at the end of the rows
    let table = [[0; 14], [0, 0x61, 0, 0, 0, 1, 0, 0, 0, 24, 0, 0, 0, 1]];
    for entry in table {
        let mut eye = look(rt.alloc(), 65, &entry)?;
        assert_eq!(rt;
            seek(&mut eye, &ALONE, node, LEN),
            Err(SeekFault::BadIndex { at: 24 })
        );
    }
    Ok(())
}

// A row that removes the key `a`; it has 21 bytes.
fn row(alloc: Global, number: u32, version: u64) -> Result<Row, AllocError>
    ensures { IfOk result (λ r. r ≡ record { node = record { bucket = 7; number = number }; version = version; rec = rec.Del (97 ∷ []) }) }
{
    let Ok(key) = Bytes::from_slice(alloc, b"a") else {
        return Err(AllocError);
    };
    let node = NodeId { bucket: 7, number };
    Ok(Row {
        node,
        version,
        rec: Rec::Del { key },
    })
}

// Three rows of two nodes, which no exit of the test drops.
#[tactic(auto, unfolding(fine_model::specs::RowBytes::body))]
fn rows(alloc: Global) -> Result<Rows, NoMemory>
    ensures order { IfOk result (λ rows. IsTrue (is_rising rows)) }
    ensures lens { IfOk result (λ rows. map row_len rows ≡ 21 ∷ 21 ∷ 21 ∷ []) }
    ensures small { IfOk result (λ rows. rows_len rows ≡ 63) }
{
    let mut rows: Rows = Items::new(alloc);
    rows.push(row(alloc, 4, 1)?)?;
    rows.push(row(alloc, 4, 2)?)?;
    rows.push(row(alloc, 6, 1)?)?;
    Ok(rows)
}

fn index_of_rows(alloc: Global) -> Result<Vec<IndexEntry>, NoMemory> {
    let rows = rows(alloc)?;
    build(alloc, &rows, &[21, 21, 21])
}

#[test]
fn builds_the_index_of_rows(rt: HostRuntime) -> Result<(), Fail> {
    let index = index_of_rows(rt.alloc())?;
    let wanted = [(4, 0, 2), (6, 42, 1)];
    assert_eq!(rt; index.len(), wanted.len());
    for (entry, (number, offset, rows)) in index.iter().zip(wanted) {
        let node = NodeId { bucket: 7, number };
        assert_eq!(rt; *entry, IndexEntry { node, offset, rows });
    }
    Ok(())
}
