use fine_model::{Bytes, Header, Items, Mark, NoMemory, NodeId, Range, Rec, Row, Rows};
use log_partition::{
    DecodeFault, HeaderFault, Partition, decode_body, encode, encoded_len, header_bytes,
    read_header,
};
use node_record::RowAt;
use partition_index_tests::ONE_ROW;
use std::alloc::Global;
use std::process::Abort;
use std::test::*;

/// The partition of `put a 1` in epoch 1, behind its gate, in a region of 4 MiB.
const PUT: [u8; 79] =
    *b"\xa7FLP2\x00\x00\x00\x00\x00\x40\x00\x00\x00\x00\x00\x00\x00\x00\x00\x01\x00\x00\x00\x00\x00\x00\x00\x01\x00\x00\x00\x01\x00\x00\x00\x01\x00\x00\x00\x18\x04\x00\x61\x00\x00\x00\x01\x00\x00\x00\x00\x00\x00\x00\x01\x00\x00\x00\x05\x01a\x00\x011\x00\x61\x00\x00\x00\x01\x00\x00\x00\x00\x00\x00\x00\x01";

/// The body of a partition that adds 2 to the number of the key `c`.
const PLUS: [u8; 43] =
    *b"\x09\x00\x63\x00\x00\x00\x01\x00\x00\x00\x00\x00\x00\x00\x02\x00\x00\x00\x0a\x01c\x00\x00\x00\x00\x00\x00\x00\x02\x00\x63\x00\x00\x00\x01\x00\x00\x00\x00\x00\x00\x00\x01";

/// Decodes a body whose header counts as many bytes.
fn decoded(alloc: Global, header: &Header, body: &[u8]) -> Result<Result<Rows, u32>, Fail> {
    let len = u64::from(header.area) + 14 * u64::from(header.nodes);
    if body.len() as u64 != len || len >= 4_294_967_296 || header.nodes == 0 {
        return Err("another length".into());
    }
    match decode_body(alloc, header, body) {
        Ok(rows) => Ok(Ok(rows)),
        Err(DecodeFault::Bad { at }) => Ok(Err(at)),
        Err(DecodeFault::NoMemory) => Err("memory".into()),
    }
}

/// The lead of 16 rows in two regions of 4 KiB.
const LEAD: [u8; 70] =
    *b"\xa7FLP3\x00\x00\x00\x00\x00\x00\x10\x00\x00\x00\x00\x00\x00\x00\x00\x01\x00\x00\x00\x00\x00\x00\x00\x02\x00\x00\x00\x10\x00\x00\x00\x10\x00\x00\x11\x70\x02\x00\x00\x00\x04\x00\x00\x00\x00\x00\x00\x00\x00\x00\x00\x00\x00\x00\x00\x00\x00\x00\x00\x00\x00\x00\x00\x00\x00";

/// The header of a region, if its gate is open, or the first place that is bad.
fn header_of(bytes: &[u8], region_len: u64) -> Result<Option<Header>, u32> {
    if bytes.len() < 70 || region_len == 0 || region_len > 67_108_864 {
        return Err(0);
    }
    match read_header(bytes, 3, 8, region_len) {
        Ok(header) => Ok(header),
        Err(HeaderFault::Bad { at }) => Err(at),
    }
}

#[test]
fn a_header_is_read_and_written(rt: HostRuntime) {
    assert_eq!(rt; header_of(&PUT, 4_194_304), Ok(Some(ONE_ROW)));
    let bytes = header_bytes(&ONE_ROW, 4_194_304);
    assert_eq!(rt; bytes.as_slice().get(..40), PUT.as_slice().get(1..41));
    let mut closed = PUT;
    closed[0] = 0;
    assert_eq!(rt; header_of(&closed, 4_194_304), Ok(None));
    let mut old = PUT;
    old[4] = b'1';
    let one = Header {
        mark: Mark::One,
        ..ONE_ROW
    };
    assert_eq!(rt; header_of(&old, 4_194_304), Ok(Some(one)));
}

/// Bytes of which one is another.
fn changed(alloc: Global, bytes: &[u8], at: usize, byte: u8) -> Result<Vec<u8>, Fail> {
    let mut copy = Vec::from_slice(alloc, bytes)?;
    if let Some(field) = copy.get_mut(at) {
        *field = byte;
    }
    Ok(copy)
}

/// The first of some bytes of a header that is not told at a place where it is another.
fn told_elsewhere(
    alloc: Global,
    header: &[u8],
    region_len: u64,
    place: u32,
    bytes: &[(usize, u8)],
) -> Result<Option<(usize, u8)>, Fail> {
    for (at, byte) in bytes {
        let damaged = changed(alloc, header, *at, *byte)?;
        if header_of(&damaged, region_len) != Err(place) {
            return Ok(Some((*at, *byte)));
        }
    }
    Ok(None)
}

#[test]
fn damaged_headers_are_told_at_their_first_bad_field(rt: HostRuntime) -> Result<(), Fail> {
    let alloc = rt.alloc();
    assert_eq!(rt; header_of(&PUT, 4096), Err(5));
    // each place that is told, with the bytes that are another there
    let of_one: [(u32, &[(usize, u8)]); 6] = [
        (1, &[(4, b'X')]),
        (5, &[(10, 0)]),
        (13, &[(20, 0)]),
        (21, &[(28, 0)]),
        (33, &[(32, 0), (36, 0), (36, 2)]),
        (37, &[(40, 0), (37, 1)]),
    ];
    let of_two: [(u32, &[(usize, u8)]); 4] = [
        (37, &[(41, 3), (39, 0), (39, 0x40)]),
        (41, &[(41, 1), (41, 9)]),
        (42, &[(45, 3), (45, 8)]),
        (46, &[(49, 1)]),
    ];
    for (place, bytes) in of_one {
        assert_eq!(rt; told_elsewhere(alloc, &PUT, 4_194_304, place, bytes)?, None);
    }
    for (place, bytes) in of_two {
        assert_eq!(rt; told_elsewhere(alloc, &LEAD, 4096, place, bytes)?, None);
    }
    Ok(())
}

#[test]
fn a_header_over_two_regions_is_read_and_written(rt: HostRuntime) {
    let header = Header {
        mark: Mark::Three,
        range: Range { first: 1, last: 2 },
        rows: 16,
        nodes: 16,
        area: 4464,
        regions: 2,
        more: [4, 0, 0, 0, 0, 0, 0],
    };
    assert_eq!(rt; header_of(&LEAD, 4096), Ok(Some(header)));
    assert_eq!(rt; &header_bytes(&header, 4096)[..], &LEAD[1..]);
}

#[test]
fn a_body_is_read(rt: HostRuntime) -> Result<(), Fail> {
    let alloc = rt.alloc();
    let rows = decoded(alloc, &ONE_ROW, &PUT[41..])?;
    let key = Bytes::from_vec(Vec::from_slice(alloc, b"a").ok().ok_or("memory")?);
    let value = Bytes::from_vec(Vec::from_slice(alloc, b"1").ok().ok_or("memory")?);
    let node = NodeId {
        bucket: 97,
        number: 1,
    };
    let rec = Rec::Put { key, value };
    let mut wanted = Items::new(alloc);
    let row = Row {
        node,
        version: 1,
        rec,
    };
    wanted.push(row).ok().ok_or("memory")?;
    assert_eq!(rt; rows, Ok(wanted));
    Ok(())
}

#[test]
fn damaged_bodies_are_told_at_their_first_bad_item(rt: HostRuntime) -> Result<(), Fail> {
    let alloc = rt.alloc();
    // the version, the length of the value, and of the index entry the node, the offset and the number of rows
    for (at, byte, place) in [
        (14, 0, 0),
        (22, 0, 0),
        (29, 2, 24),
        (33, 24, 24),
        (37, 0, 24),
        (37, 2, 24),
    ] {
        let body = changed(alloc, &PUT[41..], at, byte)?;
        assert_eq!(rt;
            decoded(alloc, &ONE_ROW, &body)?,
            Err(place),
            "{byte} at {at}"
        );
    }
    let zeros = [0; 38];
    assert_eq!(rt; decoded(alloc, &ONE_ROW, &zeros)?, Err(0));
    let plus = Header {
        area: 29,
        ..ONE_ROW
    };
    assert!(rt; decoded(alloc, &plus, &PLUS)?.is_ok());
    let old = Header {
        mark: Mark::One,
        ..plus
    };
    assert_eq!(rt; decoded(alloc, &old, &PLUS)?, Err(0));
    Ok(())
}

/// The length that the rows of a body take as a partition of one region.
#[tactic(auto, using(log_partition::proofs::RowsRead::lengths))]
fn encoded_length(alloc: Global, header: &Header, body: &[u8]) -> Result<u64, Fail> {
    let len = u64::from(header.area) + 14 * u64::from(header.nodes);
    if body.len() as u64 != len || len >= 4_294_967_296 || header.nodes == 0 {
        return Err("another length".into());
    }
    let rows = decode_body(alloc, header, body).ok().ok_or("no body")?;
    Ok(encoded_len(&rows))
}

/// Where `put a 1` lies behind `put b 1`.
const FIRST: RowAt = RowAt {
    node: NodeId {
        bucket: 97,
        number: 1,
    },
    version: 1,
    at: 24,
    len: 24,
};

const SECOND: RowAt = RowAt {
    node: NodeId {
        bucket: 98,
        number: 1,
    },
    version: 1,
    at: 0,
    len: 24,
};

/// The partition of `put b 1` and `put a 1` in epoch 1, of which the row of `b` lies first.
fn encoded(alloc: Global) -> Result<Partition, NoMemory> {
    let bytes =
        *b"\x04\x00\x62\x00\x00\x00\x01\x00\x00\x00\x00\x00\x00\x00\x01\x00\x00\x00\x05\x01b\x00\x011\x04\x00\x61\x00\x00\x00\x01\x00\x00\x00\x00\x00\x00\x00\x01\x00\x00\x00\x05\x01a\x00\x011";
    let range = Range { first: 1, last: 1 };
    encode(alloc, range, &bytes, &[FIRST, SECOND], 4_194_304)
}

#[test]
fn a_partition_is_encoded_byte_by_byte(rt: HostRuntime) -> Result<(), Fail> {
    let Partition { header, bytes } = encoded(rt.alloc())?;
    let wanted = Header {
        rows: 2,
        nodes: 2,
        area: 48,
        ..ONE_ROW
    };
    assert_eq!(rt; header, wanted);
    assert_eq!(rt;
        bytes.as_slice(),
        b"FLP2\x00\x00\x00\x00\x00\x40\x00\x00\x00\x00\x00\x00\x00\x00\x00\x01\x00\x00\x00\x00\x00\x00\x00\x01\x00\x00\x00\x02\x00\x00\x00\x02\x00\x00\x00\x30\x04\x00\x61\x00\x00\x00\x01\x00\x00\x00\x00\x00\x00\x00\x01\x00\x00\x00\x05\x01a\x00\x011\x04\x00\x62\x00\x00\x00\x01\x00\x00\x00\x00\x00\x00\x00\x01\x00\x00\x00\x05\x01b\x00\x011\x00\x61\x00\x00\x00\x01\x00\x00\x00\x00\x00\x00\x00\x01\x00\x62\x00\x00\x00\x01\x00\x00\x00\x18\x00\x00\x00\x01".as_slice()
    );
    Ok(())
}

/// The rows of the first leaf that is split: a head, two changes of the left leaf, the right one of 16 pairs, and the new root.
#[test]
fn a_split_takes_471_bytes(rt: HostRuntime) -> Result<(), Fail> {
    let alloc = rt.alloc();
    let mut body = Vec::new(alloc);
    let rows: [&[u8]; 4] = [
        b"\x01\x00\x40\x00\x00\x00\x00\x00\x00\x00\x00\x00\x00\x00\x01\x00\x00\x00\x09\x00\x00\x00\x03\x00\x00\x00\x04\x02",
        b"\x06\x00\x40\x00\x00\x00\x01\x00\x00\x00\x00\x00\x00\x00\x21\x00\x00\x00\x0b\x0aBBAaAaAaAa",
        b"\x04\x00\x40\x00\x00\x00\x01\x00\x00\x00\x00\x00\x00\x00\x22\x00\x00\x00\x0e\x0aAaAaAaAaC#\x00\x011",
        b"\x02\x00\x40\x00\x00\x00\x02\x00\x00\x00\x00\x00\x00\x00\x01\x00\x00\x00\xe1\x10",
    ];
    for row in rows {
        body.extend_from_slice(row).ok().ok_or("memory")?;
    }
    let pieces = [b"Aa", b"BB"];
    for second in pieces {
        for third in pieces {
            for fourth in pieces {
                for fifth in pieces {
                    body.extend_from_slice(b"\x0aBB").ok().ok_or("memory")?;
                    for piece in [second, third, fourth, fifth] {
                        body.extend_from_slice(piece).ok().ok_or("memory")?;
                    }
                    body.extend_from_slice(b"\x00\x011").ok().ok_or("memory")?;
                }
            }
        }
    }
    let rest =
        b"\x03\x00\x40\x00\x00\x00\x03\x00\x00\x00\x00\x00\x00\x00\x01\x00\x00\x00\x14\x01\x00\x00\x00\x01\x00\x00\x00\x02\x0aBBAaAaAaAa\x00\x40\x00\x00\x00\x00\x00\x00\x00\x00\x00\x00\x00\x01\x00\x40\x00\x00\x00\x01\x00\x00\x00\x1c\x00\x00\x00\x02\x00\x40\x00\x00\x00\x02\x00\x00\x00\x5b\x00\x00\x00\x01\x00\x40\x00\x00\x00\x03\x00\x00\x01\x4f\x00\x00\x00\x01";
    body.extend_from_slice(rest).ok().ok_or("memory")?;
    let header = Header {
        range: Range { first: 2, last: 2 },
        rows: 5,
        nodes: 4,
        area: 374,
        ..ONE_ROW
    };
    assert_eq!(rt; encoded_length(alloc, &header, &body)?, 471);
    assert_eq!(rt; encoded_length(alloc, &ONE_ROW, &PUT[41..])?, 79);
    Ok(())
}
