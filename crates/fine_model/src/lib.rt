//! The types and the definitions on which the store's contracts stand.
#![tactic(auto)]

ghost use Rattle.std.specs.Prelude.{◌≡◌, ℕ, ◌<◌, ◌≤◌, List, length};
ghost use Rattle.fine_model.specs.Trees.{bucket_of};

mod becoming;
mod bound_laws;
mod bytes;
mod chain_laws;
mod copied;
pub mod format;
mod law;
mod laws;
mod layout;
mod list;
mod numbers;
mod version_laws;

pub use becoming::{becomes_law, buckets_law, job_law, no_room_law, set_law};
pub use bound_laws::bounds_law;
pub use bytes::Bytes;
pub use chain_laws::{
    behind_law, chain_law, closed_law, erased_law, free_law, freed_law, own_law, replace_law,
    rows_law, seal_law, tells_law,
};
pub use law::{BucketLaw, Moment, OpenedEye, Origin, RoomLaw, RoomState, Span, ViewLaw, ViewState};
pub use laws::{
    agreement_law, agrees_law, calls_law, cut_law, epochs_law, fit_law, fitting_law, keys_law,
    leaf_law, legal_law, map_law, mark_law, merge_law, merged_law, merged_run_law, pushed_law,
    range_law, replay_law, row_law, scan_law, sealed_law, shown_law, shown_small_law, small_law,
    unfit_law, upto_law, waiting_law, whole_law, whole_map_law,
};
pub use layout::{body_start, fits_in};
pub use list::{Copied, Items, NoMemory};
pub use numbers::{natural_of, natural_of_64, number_of, number_text};
pub use version_laws::{arranged_law, ordered_law, permuted_law, sort_law, versions_law};

pub type Keys = Items<Bytes>;

pub type Kids = Items<u32>;

pub type Pairs = Items<(Bytes, Bytes)>;

pub type Rows = Items<Row>;

pub type Calls = Items<Call>;

pub type Replies = Items<Reply>;

pub type Writes = Items<Write>;

pub type Parts = Items<Part>;

pub type Script = Items<ScriptTxn>;

pub type Outcomes = Items<Outcome>;

/// A node of a bucket's tree. Number 0 is the tree's head.
#[derive(Clone, Copy, Debug, PartialEq, Eq, PartialOrd, Ord)]
pub struct NodeId {
    pub bucket: u16,
    pub number: u32,
}

/// What a row does to its node.
#[derive(Debug, Drop, PartialEq, Eq)]
pub enum Rec {
    HeadImage { root: u32, next: u32, depth: u8 },
    LeafImage { pairs: Pairs },
    InnerImage { seps: Keys, kids: Kids },
    Put { key: Bytes, value: Bytes },
    Del { key: Bytes },
    CutLeaf { key: Bytes },
    CutInner { key: Bytes },
    Link { key: Bytes, child: u32 },
    Plus { key: Bytes, by: i64 },
}

/// A row of the log.
#[derive(Debug, Drop, PartialEq, Eq)]
pub struct Row {
    pub node: NodeId,
    pub version: u64,
    pub rec: Rec,
}

/// What a node holds.
#[derive(Debug, Drop, PartialEq, Eq)]
pub enum Node {
    Head { root: u32, next: u32, depth: u8 },
    Leaf { pairs: Pairs },
    Inner { seps: Keys, kids: Kids },
    Broken,
}

/// A call of the store.
#[derive(Debug, Drop, PartialEq, Eq)]
pub enum Call {
    Get { key: Bytes },
    Put { key: Bytes, value: Bytes },
    Del { key: Bytes },
    Add { key: Bytes, by: i64 },
    Scan { low: Bytes, high: Bytes, limit: u32 },
}

/// What the store answers.
#[derive(Debug, Drop, PartialEq, Eq)]
pub enum Reply {
    Value { value: Bytes },
    Absent,
    Stored,
    Removed,
    Sum { sum: i64 },
    NotNumber,
    OutOfRange,
    Found { pairs: Pairs },
}

/// A change of the store.
#[derive(Debug, Drop, PartialEq, Eq)]
pub enum Write {
    Set { key: Bytes, value: Bytes },
    Unset { key: Bytes },
}

/// A committed transaction.
#[derive(Debug, Drop, PartialEq, Eq)]
pub struct Entry {
    pub lane: u8,
    pub turn: u32,
    pub calls: Calls,
    pub replies: Replies,
    pub writes: Writes,
    pub rows: Rows,
}

/// How a transaction of a script ends.
#[derive(Clone, Copy, Debug, PartialEq, Eq)]
pub enum Ending {
    Commit,
    Abort,
}

/// A transaction of a script.
#[derive(Debug, Drop, PartialEq, Eq)]
pub struct ScriptTxn {
    pub lane: u8,
    pub calls: Calls,
    pub ending: Ending,
}

/// Why a transaction was refused.
#[derive(Clone, Copy, Debug, PartialEq, Eq)]
pub enum Why {
    Large,
    Bucket,
    Full,
    Number,
}

/// What became of a transaction.
#[derive(Debug, Drop, PartialEq, Eq)]
pub enum Outcome {
    Committed {
        place: u64,
        epoch: u64,
        entry: Entry,
    },
    Aborted,
    Refused {
        why: Why,
    },
    NotRun,
}

/// The epochs of a partition.
#[derive(Clone, Copy, Debug, PartialEq, Eq)]
pub struct Range {
    pub first: u64,
    pub last: u64,
}

/// The format of a partition.
#[derive(Clone, Copy, Debug, PartialEq, Eq)]
pub enum Mark {
    One,
    Two,
    Three,
}

/// The header of a partition.
#[derive(Clone, Copy, Debug, PartialEq, Eq)]
pub struct Header {
    pub mark: Mark,
    pub range: Range,
    pub rows: u32,
    pub nodes: u32,
    pub area: u32,
    /// The number of its regions, and those behind the lead, in order, and then zeros.
    pub regions: u8,
    pub more: [u32; 7],
}

/// A sealed partition, and the region that holds it.
#[derive(Clone, Copy, Debug, PartialEq, Eq)]
pub struct Part {
    pub region: u32,
    pub header: Header,
}

/// A merge of two neighbours that is out: its header, once it has taken its regions, the lead of these, and how many bytes of the
/// body are written. What its target holds is read off the disk.
#[derive(Clone, Copy, Debug, PartialEq, Eq)]
pub struct Job {
    pub older: Part,
    pub newer: Part,
    pub header: Option<Header>,
    pub target: u32,
    pub written: u32,
}

/// Why a node was not fetched.
#[derive(Debug, Drop)]
pub enum FetchFault {
    Failed,
    BadRow { region: u32, at: u32 },
    BadIndex { region: u32, at: u32 },
    NoMemory,
}

/// The limits of a run.
#[derive(Clone, Copy, Debug, PartialEq, Eq)]
pub struct Options {
    pub group: u32,
    pub tries: u32,
    pub keep: u32,
}

/// What is damaged in a log.
#[derive(Clone, Copy, Debug, PartialEq, Eq)]
pub enum Damage {
    Region { region: u32, at: u32 },
    Gap { after: u64, region: u32 },
    Overlap { region: u32, other: u32 },
    Node { node: NodeId },
}

/// What ended a run early.
#[derive(Clone, Copy, Debug, PartialEq, Eq)]
pub enum RunFault {
    Memory,
    Disk,
    Damaged { what: Damage },
}

/// Why a call of the program ended before anything was run. Its line is then all that is printed.
#[derive(Clone, Copy, Debug, PartialEq, Eq)]
pub enum Reason {
    Words,
    Script { line: u32 },
    Source,
    Fault { fault: RunFault },
}

/// What a run gave: an outcome for each transaction, the last durable epoch, and the fault that ended lanes, if any.
#[derive(Debug, Drop, PartialEq, Eq)]
pub struct Ran {
    pub outcomes: Outcomes,
    pub durable: u64,
    pub fault: Option<RunFault>,
    /// Whether memory was wanting for the last seal, so that what was committed in the last epoch is not durable.
    pub unsealed: bool,
}

/// A point at which a run calls its gate.
#[derive(Clone, Copy, Debug, PartialEq, Eq)]
pub enum Point {
    TxnStart { turn: u32 },
    TxnEnd { turn: u32 },
    Sealed { epoch: u64 },
    MergeStart { older: u32, newer: u32 },
    MergeBlock { written: u32 },
    MergeEnd,
}

/// Is called at named points of a run, and changes nothing.
pub trait Gate: Sync {
    fn at(&self, who: u32, point: Point);
}

/// The gate of a plain run.
#[derive(Clone, Copy, Debug)]
pub struct NoGate;

impl Gate for NoGate {
    fn at(&self, _who: u32, _point: Point) {}
}

/// The bucket of a key.
#[tactic(auto, unfolding(crate::specs::Trees::bucket_of))]
pub fn bucket_of(key: &[u8]) -> u16
    requires { (1 ≤ length key.now) × (length key.now ≤ 64) }
    ensures value { result ≡ bucket_of key.now }
    ensures range { result < 256 }
{
    let mut h: u32 = 0;
    for byte in key {
        h = ((31 * u64::from(h) + u64::from(*byte)) % 4_294_967_296) as u32;
    }
    (h % 256) as u16
}
