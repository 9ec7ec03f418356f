//! The numbers of the storage format.

/// The greatest version, epoch and place: 2 to the 62nd.
pub const GREATEST: u64 = 4_611_686_018_427_387_904;

/// Byte 0 of a sealed region.
pub const SEALED_GATE: u8 = 0xa7;

/// Where the body of a partition starts that lies in one region: behind the gate and 40 bytes of header.
pub const BODY_START: u64 = 41;

/// The bytes of the header of a partition in one region, without the gate.
pub const HEADER: usize = 40;

/// Where the body of a partition starts in the lead of several regions: behind the gate and 69 bytes of header.
pub const LONG_BODY_START: u64 = 70;

/// The bytes of the longest header and its gate, which are all that opening reads of a region.
pub const LONGEST_HEADER: usize = 70;

/// The bytes of an index entry.
pub const INDEX_ENTRY: usize = 14;

/// The bytes of a row before its body.
pub const ROW_FRONT: usize = 19;

/// The most entries of a leaf, and the most separators of an inner node.
pub const MOST_IN_NODE: usize = 32;

/// The most bytes of a key, and of a value.
pub const MOST_IN_KEY: usize = 64;

pub const MOST_IN_VALUE: usize = 256;

/// The number of buckets, and the first number that no node of a bucket has.
pub const BUCKETS: u16 = 256;

pub const NODE_NUMBERS: u32 = 1_048_576;

/// The greatest depth of a tree.
pub const GREATEST_DEPTH: u8 = 8;

/// The most bytes of a region, and the most regions of a partition.
pub const LONGEST_REGION: u64 = 67_108_864;

pub const MOST_REGIONS: u8 = 8;

/// The least and the most regions of a log.
pub const LEAST_IN_LOG: u32 = 4;

pub const MOST_IN_LOG: u32 = 64;
