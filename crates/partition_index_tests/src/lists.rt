use crate::ONE_ROW;
use fine_model::{
    Bytes, Call, Copied, Header, Items, Kids, NoMemory, NodeId, Part, Range, Rec, Row,
};
use std::alloc::Global;
use std::test::Fail;

fn changed(alloc: Global) -> Result<(Kids, Kids, u32, u32), NoMemory> {
    let mut kids: Kids = Items::new(alloc);
    kids.push(7)?;
    kids.push(9)?;
    kids.insert(1, 8)?;
    let copy = kids.copy()?;
    let stood = kids.replace(0, 6);
    let gone = kids.remove(2);
    kids.truncate(1);
    Ok((kids, copy, stood, gone))
}

fn copied<T: Copied + Drop>(item: T, alloc: Global) -> Result<(), NoMemory> {
    let mut list: Items<T> = Items::new(alloc);
    list.push(item)?;
    list.copy()?;
    Ok(())
}

fn text(alloc: Global) -> Result<Bytes, NoMemory> {
    Bytes::from_slice(alloc, b"a")
}

fn part() -> Part {
    Part {
        region: 2,
        header: Header {
            range: Range { first: 1, last: 2 },
            area: 25,
            ..ONE_ROW
        },
    }
}

fn bytes_copied(alloc: Global) -> Result<(), NoMemory> {
    copied(97u8, alloc)?;
    copied(7u32, alloc)
}

fn call_copied(alloc: Global) -> Result<(), NoMemory> {
    copied(Call::Get { key: text(alloc)? }, alloc)
}

fn row_copied(alloc: Global) -> Result<(), NoMemory> {
    let row = Row {
        node: NodeId {
            bucket: 97,
            number: 1,
        },
        version: 1,
        rec: Rec::Del { key: text(alloc)? },
    };
    copied(row, alloc)
}

#[test]
fn a_list_changes_where_it_is_told(rt: HostRuntime) -> Result<(), Fail> {
    let lists = changed(rt.alloc());
    assert!(rt; lists.is_ok());
    if let Ok((kids, copy, stood, gone)) = lists {
        assert_eq!(rt; kids.as_slice(), &[6][..]);
        assert_eq!(rt; copy.as_slice(), &[7, 8, 9][..]);
        assert_eq!(rt; (stood, gone, copy.len()), (7, 9, 3));
    }
    Ok(())
}

#[test]
fn lists_are_copied(rt: HostRuntime) -> Result<(), Fail> {
    assert!(rt; bytes_copied(rt.alloc()).is_ok());
    assert!(rt; call_copied(rt.alloc()).is_ok());
    assert!(rt; row_copied(rt.alloc()).is_ok());
    assert!(rt; copied(part(), rt.alloc()).is_ok());
    Ok(())
}
