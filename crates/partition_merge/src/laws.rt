//! Laws of what is handed out, as the contract of a function that does nothing.

ghost use Rattle.partition_merge.specs.Blocks.{HandedLen, MergedSmall};
ghost use Rattle.partition_merge.specs.Joined.{BodyIsMeasured, JoinsOnce};

/// What blocks handed out, where an eye tells both parts in the grammar, is no longer than the merged rows with an index entry for each of
/// their nodes. The merged rows of two parts that an eye sees and tells in the grammar have fewer than 2^32 bytes.
pub fn blocks_law()
    ensures handed { HandedLen }
    ensures small { MergedSmall }
{}

/// Over told bytes, in the grammar or not, a merger hands out one list of lists of rows. So a body that is as long as a measure says is that of
/// the rows which were measured, and where these are in order it is one of the grammar: each node has the rows into which those are merged
/// that are found in both parts.
pub fn joins_law()
    ensures once { JoinsOnce }
    ensures measured { BodyIsMeasured }
{}
