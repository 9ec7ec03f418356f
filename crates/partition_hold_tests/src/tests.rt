//! What no clause says: that a board is made with ample memory, its answers in a run of posts and returns, and a view at an eye of its own.
//! A caller of sources is given a view.

ghost use Rattle.std.specs.Prelude.{◌≡◌, ◌<◌, [], List, IfOk, IfSome, None};
ghost use Rattle.log_disk.specs.Disk.{Eye};
ghost use Rattle.fine_model.specs.declared.Row.{Row};
ghost use Rattle.fine_model.specs.Trees.{nodes_of};
ghost use Rattle.node_cache.specs.Cache.{cached};
ghost use Rattle.partition_hold.specs.Sources.{tells_rows};

use fine_model::{FetchFault, Items, Node, NodeId};
use log_disk::{DiskRefusal, Failed, FaultPlan, LogDisk, LogEye, MemDisk, MemEye};
use node_cache::{Bucket, NodeSource};
use partition_hold::{Board, RegionSet, View};
use std::alloc::Global;
use std::test::*;

/// An eye on two regions, whose reads fail.
#[derive(Drop)]
struct Eye {
    number: u64,
    regions: [u32; 2],
    faults: u64,
    taken: u64,
}

impl LogEye for Eye {
    ghost state = { λ eye. record { number = eye.number; regions = eye.regions; region_len = 4096; told = None; faults = eye.faults; taken = eye.taken } };

    fn number(&self) -> u64 {
        self.number
    }

    fn read(&mut self, _region: u32, _at: u64, out: &mut [u8]) -> Result<(), Failed> {
        self.taken = self.taken.saturating_add(out.len() as u64);
        self.faults = self.faults.saturating_add(1);
        Err(Failed)
    }
}

fn eye_on(number: u64, regions: [u32; 2]) -> Eye
    ensures number { result.number ≡ number }
    ensures regions { result.regions ≡ regions }
{
    Eye {
        number,
        regions,
        faults: 0,
        taken: 0,
    }
}

/// The buffers of each seat are filled in turn, and the first place that names a region is told.
#[test]
fn the_board_names_each_buffer(rt: HostRuntime) -> Result<(), Fail> {
    let mut board = Board::new(rt.alloc(), 2)?;
    assert_eq!(&rt; board.names(5), None);
    assert_eq!(&rt; board.post(2, &eye_on(7, [3, 63]), &[3, 63]), 0);
    assert_eq!(&rt; board.post(2, &eye_on(8, [4, 63]), &[4, 63]), 1);
    assert_eq!(&rt; board.post(2, &eye_on(9, [5, 63]), &[5, 63]), 2);
    assert_eq!(&rt; board.post(1, &eye_on(10, [0, 63]), &[0, 63]), 0);
    assert_eq!(&rt; board.post(1, &eye_on(11, [2, 5]), &[2, 5]), 1);
    board.returned(1, 0);
    board.returned(2, 0);
    let table = [
        (0, None),
        (2, Some((1, 1))),
        (3, None),
        (4, Some((2, 1))),
        (5, Some((1, 1))),
        (63, Some((2, 1))),
    ];
    for (region, place) in table {
        assert_eq!(&rt; board.names(region), place);
    }
    Ok(())
}

/// A buffer that was returned is the lowest empty one again.
#[test]
fn a_returned_buffer_is_filled_again(rt: HostRuntime) -> Result<(), Fail> {
    let mut board = Board::new(rt.alloc(), 1)?;
    assert_eq!(&rt; board.post(1, &eye_on(7, [1, 3]), &[1, 3]), 0);
    board.returned(1, 0);
    assert_eq!(&rt; board.post(1, &eye_on(8, [2, 3]), &[2, 3]), 0);
    assert_eq!(&rt; board.names(2), Some((1, 0)));
    assert_eq!(&rt; board.names(1), None);
    Ok(())
}

/// The regions of a set are taken lowest first; those that were put in twice are there once.
#[test]
fn regions_are_taken_lowest_first(rt: HostRuntime) {
    let mut set = RegionSet::of(&[63, 5, 0, 5]);
    assert_eq!(&rt; (set.len(), set.holds(5), set.holds(4)), (3, true, false));
    set.insert_all(&[4, 63]);
    set.remove(5);
    for region in [Some(0), Some(4), Some(63), None] {
        assert_eq!(&rt; set.take_lowest(), region);
    }
    let mut all = RegionSet::below(64);
    let mut lowest = [9; 3];
    if all.len() == 64 {
        all.take_into(&mut lowest);
    }
    assert_eq!(&rt; (lowest, all.len(), all.lowest()), ([0, 1, 2], 61, Some(3)));
}

/// A view without parts has each node as it begins, and gives back the eye that it was made with.
#[test]
fn a_view_without_parts_reads_nothing(rt: HostRuntime) -> Result<(), Fail> {
    let mut view = View::new(
        rt.alloc(),
        eye_on(7, [1, 3]),
        Items::new(rt.alloc()),
        5,
        2,
        1,
        4096,
    );
    let node = NodeId {
        bucket: 97,
        number: 0,
    };
    let (content, version) = view.fetch(node).ok().ok_or("no node")?;
    let head = Node::Head {
        root: 1,
        next: 2,
        depth: 1,
    };
    assert!(&rt; content == head, "a head as it begins");
    assert_eq!(&rt; version, 0);
    assert_eq!(&rt; (view.upto(), view.seat()), (5, 2));
    assert_eq!(&rt; (view.buffer(), view.region_len()), (1, 4096));
    assert_eq!(&rt; view.parts().len(), 0);
    let eye = view.into_eye();
    assert_eq!(&rt; (eye.number, eye.taken), (7, 0));
    Ok(())
}

/// The version of a node as a source gives it. Where the source tells rows and the node was not cached, it is what the rows leave there.
fn version_by<S: NodeSource>(
    source: &mut S,
    bucket: &mut Bucket,
    number: u32,
) -> Result<Option<u64>, FetchFault>
    requires bucket { bucket.old.bucket < 256 }
    requires number { number < 1048576 }
    ensures exact { (rows : List Row) → S.tells source.old rows → cached bucket.old number ≡ None
        → IfOk result (λ found. IfSome found (λ version. version ≡ (nodes_of rows bucket.old.bucket number).1)) }
{
    source.load(bucket, number)?;
    match bucket.peek(number) {
        Some(kept) => Ok(Some(kept.version)),
        None => Ok(None),
    }
}

/// A view of no parts at an eye on a disk of zeros.
fn empty_view(alloc: Global) -> Result<View<MemEye>, DiskRefusal>
    ensures { IfOk result (λ view. tells_rows view []) }
{
    let mut disk = MemDisk::new(alloc, 2, 4096, FaultPlan::none(alloc))?;
    let eye = disk.eye(&[0, 1])?;
    Ok(View::new(alloc, eye, Items::new(alloc), 5, 2, 1, 4096))
}

/// The version that a view of no parts gives of a node.
fn first_version(
    alloc: Global,
    view: &mut View<MemEye>,
    number: u32,
) -> Result<Option<u64>, FetchFault>
    requires tells { tells_rows view.old [] }
    requires number { number < 1048576 }
    ensures { IfOk result (λ found. IfSome found (λ version. version ≡ 0)) }
{
    let mut bucket = Bucket::new(alloc, 97);
    version_by(view, &mut bucket, number)
}

/// What asks a source for nodes is given a view, and has each node as it begins.
#[test]
fn a_view_is_a_source_of_nodes(rt: HostRuntime) -> Result<(), Fail> {
    for number in [0, 1, 1_048_575] {
        let Ok(mut view) = empty_view(rt.alloc()) else {
            return Err(Fail::from("memory"));
        };
        let version = first_version(rt.alloc(), &mut view, number);
        assert!(&rt; version.ok() == Some(Some(0)), "a version");
    }
    Ok(())
}
