//! What no clause says: that neighbours are gathered where nothing stands against it, and byte for byte what comes out.

use fine_model::{NodeId, Part};
use log_disk::{DiskRefusal, FaultPlan, LogDisk, MemDisk};
use node_record::RowAt;
use partition_index_tests::ONE_ROW;
use row_gathering::{Gathered, gather};
use std::alloc::Global;
use std::test::Fail;

/// `put a 1` in node 1 of bucket 97 as its first version, and the index of this row.
const BODY: [u8; 38] =
    *b"\x04\x00\x61\x00\x00\x00\x01\x00\x00\x00\x00\x00\x00\x00\x01\x00\x00\x00\x05\x01a\x00\x011\x00\x61\x00\x00\x00\x01\x00\x00\x00\x00\x00\x00\x00\x01";

const PARTS: [Part; 2] = [
    Part {
        region: 0,
        header: ONE_ROW,
    },
    Part {
        region: 1,
        header: ONE_ROW,
    },
];

/// The body with another number of the node and another version.
fn body_of(row: (u8, u8)) -> [u8; 38] {
    let (number, version) = row;
    let mut body = BODY;
    body[6] = number;
    body[14] = version;
    body[29] = number;
    body
}

/// The key of such a row that lies at a place.
fn key_of(row: (u8, u8), at: u32) -> RowAt {
    RowAt {
        node: NodeId {
            bucket: 97,
            number: u32::from(row.0),
        },
        version: u64::from(row.1),
        at,
        len: 24,
    }
}

/// The rows of two such bodies.
fn rows_of(first: (u8, u8), second: (u8, u8)) -> [u8; 48] {
    let mut rows = [0; 48];
    rows[..24].copy_from_slice(&body_of(first)[..24]);
    rows[24..].copy_from_slice(&body_of(second)[..24]);
    rows
}

/// What two parts of one row each are gathered to.
fn gather_two(
    alloc: Global,
    first: (u8, u8),
    second: (u8, u8),
    plan: FaultPlan,
) -> Result<Option<Gathered>, DiskRefusal> {
    let mut disk = MemDisk::new(alloc, 2, 16_384, plan)?;
    disk.write(0, 41, &body_of(first))?;
    disk.write(1, 41, &body_of(second))?;
    gather(alloc, &mut disk, &PARTS)
}

#[test]
fn gathers_two_parts(rt: HostRuntime) -> Result<(), Fail> {
    let cases = [
        // The higher node stands in the older part.
        (
            (2, 1),
            (1, 1),
            Some([key_of((1, 1), 24), key_of((2, 1), 0)]),
        ),
        // One node in both.
        (
            (1, 1),
            (1, 2),
            Some([key_of((1, 1), 0), key_of((1, 2), 24)]),
        ),
        // Its versions go back, or stand still.
        ((1, 2), (1, 1), None),
        ((1, 1), (1, 1), None),
        // No put may stand in node 0.
        ((1, 1), (0, 1), None),
    ];
    for (first, second, keys) in cases {
        let found = gather_two(rt.alloc(), first, second, FaultPlan::none(rt.alloc()))
            .ok()
            .ok_or("refused")?;
        match (&found, &keys) {
            (Some(found), Some(keys)) => {
                assert_eq!(rt; found.keys.as_slice(), keys.as_slice());
                assert_eq!(rt; found.bytes.as_slice(), rows_of(first, second).as_slice());
            }
            (found, keys) => assert!(rt; found.is_none() && keys.is_none()),
        }
    }
    Ok(())
}

#[test]
fn tells_a_failed_read(rt: HostRuntime) -> Result<(), Fail> {
    let mut plan = FaultPlan::none(rt.alloc());
    plan.reads.push(2).ok().ok_or("memory")?;
    let refused = gather_two(rt.alloc(), (1, 1), (1, 2), plan).err();
    assert_eq!(rt; refused, Some(DiskRefusal::Failed));
    Ok(())
}
