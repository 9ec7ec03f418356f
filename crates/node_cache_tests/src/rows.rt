ghost use Rattle.std.specs.Prelude.{◌≡◌, IfOk};
ghost use Rattle.fine_model.specs.declared.Rec.TheVariants as rec;
ghost use Rattle.fine_model.specs.RowBytes.{FitsRec};

use fine_model::{Bytes, NoMemory, NodeId, Rec, Row};
use private_log::PrivateLog;
use std::alloc::Global;
use std::test::*;

/// `put a 1` and then `put a 2`, of one node.
const PUTS: [u8; 48] =
    *b"\x04\x00\x61\x00\x00\x00\x01\x00\x00\x00\x00\x00\x00\x00\x01\x00\x00\x00\x05\x01a\x00\x011\x04\x00\x61\x00\x00\x00\x01\x00\x00\x00\x00\x00\x00\x00\x02\x00\x00\x00\x05\x01a\x00\x012";

fn text(alloc: Global, text: &[u8]) -> Result<Bytes, NoMemory>
    ensures { IfOk result (λ b. b ≡ text.now) }
{
    Bytes::from_slice(alloc, text)
}

fn put(alloc: Global, version: u64, value: &[u8; 1]) -> Result<Row, NoMemory>
    ensures { IfOk result (λ row. FitsRec row.rec) }
{
    let key = text(alloc, b"a")?;
    let value = text(alloc, value)?;
    Ok(Row {
        node: NodeId {
            bucket: 97,
            number: 1,
        },
        version,
        rec: Rec::Put { key, value },
    })
}

fn head() -> Row
    ensures { FitsRec result.rec }
{
    Row {
        node: NodeId {
            bucket: 97,
            number: 0,
        },
        version: 1,
        rec: Rec::HeadImage {
            root: 3,
            next: 4,
            depth: 2,
        },
    }
}

fn push_put(
    log: &mut PrivateLog,
    alloc: Global,
    version: u64,
    value: &[u8; 1],
) -> Result<(), NoMemory> {
    let row = put(alloc, version, value)?;
    log.push(&row)
}

fn push_head(log: &mut PrivateLog) -> Result<(), NoMemory> {
    log.push(&head())
}

/// What a log costs at first and behind each of two puts, and whether it then has their bytes.
fn push_puts(log: &mut PrivateLog, alloc: Global) -> Result<([u64; 3], bool), NoMemory> {
    let none = log.cost();
    push_put(log, alloc, 1, b"1")?;
    let one = log.cost();
    push_put(log, alloc, 2, b"2")?;
    Ok(([none, one, log.cost()], log.bytes() == PUTS.as_slice()))
}

/// What a log costs behind a head, once it is cleared, and behind the head again, and whether it had no bytes in between.
fn push_heads(log: &mut PrivateLog) -> Result<([u64; 3], bool), NoMemory> {
    push_head(log)?;
    let behind = log.cost();
    log.clear();
    let cleared = log.cost();
    let is_empty = log.bytes().is_empty();
    push_head(log)?;
    Ok(([behind, cleared, log.cost()], is_empty))
}

fn push_all(log: &mut PrivateLog, alloc: Global) -> Result<[([u64; 3], bool); 2], NoMemory> {
    Ok([push_puts(log, alloc)?, push_heads(log)?])
}

fn costs(alloc: Global) -> Result<[([u64; 3], bool); 2], NoMemory> {
    let mut log = PrivateLog::new(alloc);
    push_all(&mut log, alloc)
}

#[test]
fn counts_each_node_once(rt: HostRuntime) -> Result<(), Fail> {
    let wanted = [([0, 38, 62], true), ([104, 0, 42], true)];
    assert_eq!(rt; costs(rt.alloc())?, wanted);
    Ok(())
}
