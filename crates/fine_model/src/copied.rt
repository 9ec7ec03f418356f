//! How each plain type is copied, where memory allows it.

use crate::list::{Copied, NoMemory};
use crate::{
    Call, Ending, Entry, Header, Mark, Node, NodeId, Outcome, Part, Range, Rec, Reply, Row,
    ScriptTxn, Why, Write,
};

impl Copied for NodeId {
    fn copy(&self) -> Result<NodeId, NoMemory> {
        Ok(*self)
    }
}

impl Copied for Ending {
    fn copy(&self) -> Result<Ending, NoMemory> {
        Ok(*self)
    }
}

impl Copied for Why {
    fn copy(&self) -> Result<Why, NoMemory> {
        Ok(*self)
    }
}

impl Copied for Range {
    fn copy(&self) -> Result<Range, NoMemory> {
        Ok(*self)
    }
}

impl Copied for Mark {
    fn copy(&self) -> Result<Mark, NoMemory> {
        Ok(*self)
    }
}

impl Copied for Header {
    fn copy(&self) -> Result<Header, NoMemory> {
        Ok(*self)
    }
}

impl Copied for Part {
    fn copy(&self) -> Result<Part, NoMemory> {
        Ok(*self)
    }
}

impl Copied for Rec {
    fn copy(&self) -> Result<Rec, NoMemory> {
        Ok(match self {
            Rec::HeadImage { root, next, depth } => Rec::HeadImage {
                root: *root,
                next: *next,
                depth: *depth,
            },
            Rec::LeafImage { pairs } => Rec::LeafImage {
                pairs: pairs.copy()?,
            },
            Rec::InnerImage { seps, kids } => Rec::InnerImage {
                seps: seps.copy()?,
                kids: kids.copy()?,
            },
            Rec::Put { key, value } => Rec::Put {
                key: key.copy()?,
                value: value.copy()?,
            },
            Rec::Del { key } => Rec::Del { key: key.copy()? },
            Rec::CutLeaf { key } => Rec::CutLeaf { key: key.copy()? },
            Rec::CutInner { key } => Rec::CutInner { key: key.copy()? },
            Rec::Link { key, child } => Rec::Link {
                key: key.copy()?,
                child: *child,
            },
            Rec::Plus { key, by } => Rec::Plus {
                key: key.copy()?,
                by: *by,
            },
        })
    }
}

impl Copied for Row {
    fn copy(&self) -> Result<Row, NoMemory> {
        Ok(Row {
            node: self.node,
            version: self.version,
            rec: self.rec.copy()?,
        })
    }
}

impl Copied for Node {
    fn copy(&self) -> Result<Node, NoMemory> {
        Ok(match self {
            Node::Head { root, next, depth } => Node::Head {
                root: *root,
                next: *next,
                depth: *depth,
            },
            Node::Leaf { pairs } => Node::Leaf {
                pairs: pairs.copy()?,
            },
            Node::Inner { seps, kids } => Node::Inner {
                seps: seps.copy()?,
                kids: kids.copy()?,
            },
            Node::Broken => Node::Broken,
        })
    }
}

impl Copied for Call {
    fn copy(&self) -> Result<Call, NoMemory> {
        Ok(match self {
            Call::Get { key } => Call::Get { key: key.copy()? },
            Call::Put { key, value } => Call::Put {
                key: key.copy()?,
                value: value.copy()?,
            },
            Call::Del { key } => Call::Del { key: key.copy()? },
            Call::Add { key, by } => Call::Add {
                key: key.copy()?,
                by: *by,
            },
            Call::Scan { low, high, limit } => Call::Scan {
                low: low.copy()?,
                high: high.copy()?,
                limit: *limit,
            },
        })
    }
}

impl Copied for Reply {
    fn copy(&self) -> Result<Reply, NoMemory> {
        Ok(match self {
            Reply::Value { value } => Reply::Value {
                value: value.copy()?,
            },
            Reply::Absent => Reply::Absent,
            Reply::Stored => Reply::Stored,
            Reply::Removed => Reply::Removed,
            Reply::Sum { sum } => Reply::Sum { sum: *sum },
            Reply::NotNumber => Reply::NotNumber,
            Reply::OutOfRange => Reply::OutOfRange,
            Reply::Found { pairs } => Reply::Found {
                pairs: pairs.copy()?,
            },
        })
    }
}

impl Copied for Write {
    fn copy(&self) -> Result<Write, NoMemory> {
        Ok(match self {
            Write::Set { key, value } => Write::Set {
                key: key.copy()?,
                value: value.copy()?,
            },
            Write::Unset { key } => Write::Unset { key: key.copy()? },
        })
    }
}

impl Copied for Entry {
    fn copy(&self) -> Result<Entry, NoMemory> {
        Ok(Entry {
            lane: self.lane,
            turn: self.turn,
            calls: self.calls.copy()?,
            replies: self.replies.copy()?,
            writes: self.writes.copy()?,
            rows: self.rows.copy()?,
        })
    }
}

impl Copied for ScriptTxn {
    fn copy(&self) -> Result<ScriptTxn, NoMemory> {
        Ok(ScriptTxn {
            lane: self.lane,
            calls: self.calls.copy()?,
            ending: self.ending,
        })
    }
}

impl Copied for Outcome {
    fn copy(&self) -> Result<Outcome, NoMemory> {
        Ok(match self {
            Outcome::Committed {
                place,
                epoch,
                entry,
            } => Outcome::Committed {
                place: *place,
                epoch: *epoch,
                entry: entry.copy()?,
            },
            Outcome::Aborted => Outcome::Aborted,
            Outcome::Refused { why } => Outcome::Refused { why: *why },
            Outcome::NotRun => Outcome::NotRun,
        })
    }
}
