//! Rows of one node that stay where they were read, in the windows of two parts, and what is told of them.

ghost use Rattle.std.specs.Prelude.{◌≡◌, true};
ghost use Rattle.partition_merge.specs.Pieces.{begins_with_put, both_ascend, both_len, may_fold, may_fold_from, piece_len, piece_rows, span_of, tally_of};

use fine_model::NodeId;
use partition_index::Span;

/// Rows of one node in the window on the rows of a part: where they stand, whether the first of them puts a pair or is an image, whether they are in
/// order, and the versions of the first and of the last. It is moved for each node, so it is small, with the flags in the gap behind the span.
#[derive(Clone, Copy)]
pub(crate) struct Piece {
    pub(crate) span: Span,
    pub(crate) is_put: bool,
    pub(crate) is_image: bool,
    pub(crate) ascend: bool,
    pub(crate) first: u64,
    pub(crate) last: u64,
}

/// The rows of a node in the windows of an older and of a newer part, where there are some.
#[derive(Clone, Copy)]
pub(crate) struct NodePieces {
    pub(crate) node: NodeId,
    pub(crate) older: Option<Piece>,
    pub(crate) newer: Option<Piece>,
}

/// A node, the number of its rows and of their bytes, and whether the rows are in order. A number that is above the greatest of 32 bits is told
/// as this one.
#[derive(Clone, Copy)]
pub(crate) struct Tally {
    pub(crate) node: NodeId,
    pub(crate) rows: u32,
    pub(crate) area: u32,
    pub(crate) ordered: bool,
}

/// What the rows of a node in two parts are merged into: an image, as it is spelled if that was asked for, or the older rows and then the newer ones, in the
/// windows. It is moved for each node, and the image is behind a pointer.
#[derive(Drop)]
pub(crate) enum Merged {
    Image(Vec<u8>),
    Both {
        older: Option<Span>,
        newer: Option<Span>,
    },
}

/// The merged rows of a node, and what is told of them.
#[derive(Drop)]
pub(crate) struct Found {
    pub(crate) tally: Tally,
    pub(crate) merged: Merged,
}

/// The kind of a row that puts a pair, which is the first byte of the row.
pub(crate) const PUT: u8 = 4;

/// Whether bytes begin with the kind of a row that puts a pair.
#[inline(always)]
pub(crate) fn is_put(bytes: &[u8]) -> bool
    ensures { result ≡ begins_with_put bytes.now }
{
    match bytes.first() {
        Some(kind) => *kind == PUT,
        None => false,
    }
}

/// The span of a piece, if there is one.
#[inline(always)]
pub(crate) fn span_of(piece: &Option<Piece>) -> Option<Span>
    ensures { result ≡ span_of piece.now }
{
    match piece {
        Some(piece) => Some(piece.span),
        None => None,
    }
}

/// The number of rows of a piece, if there is one.
#[inline(always)]
fn rows_in(piece: &Option<Piece>) -> u32
    ensures { result ≡ piece_rows piece.now }
{
    match piece {
        Some(piece) => piece.span.rows,
        None => 0,
    }
}

/// The number of bytes of a piece, if there is one.
#[inline(always)]
fn len_of(piece: &Option<Piece>) -> u32
    ensures { result ≡ piece_len piece.now }
{
    match piece {
        Some(piece) => piece.span.end.saturating_sub(piece.span.at),
        None => 0,
    }
}

/// The number of bytes of an older piece and of a newer one, or the greatest of 32 bits where it is above that.
#[inline(always)]
pub(crate) fn both_len(older: &Option<Piece>, newer: &Option<Piece>) -> u32
    ensures { result ≡ both_len older.now newer.now }
{
    len_of(older).saturating_add(len_of(newer))
}

/// Whether the rows of an older piece and those of a newer one behind them are in order.
#[inline(always)]
fn both_ascend(older: &Option<Piece>, newer: &Option<Piece>) -> bool
    ensures { result ≡ both_ascend older.now newer.now }
{
    match (older, newer) {
        (Some(older), Some(newer)) => {
            let apart = older.last < newer.first;
            older.ascend && newer.ascend && apart
        }
        (Some(piece), None) | (None, Some(piece)) => piece.ascend,
        (None, None) => true,
    }
}

/// Whether an image may stand for so many rows that begin with a piece. They begin with an image or with version 1, and are no single row
/// for which no other one stands: an image stands for itself, and that of one pair is longer than the row that puts it.
#[inline(always)]
fn may_fold_from(count: u32, piece: &Piece) -> bool
    ensures { result ≡ may_fold_from count piece.now }
{
    let afresh = piece.is_image || piece.first == 1;
    let stays = piece.is_image || piece.is_put;
    afresh && !(count == 1 && stays)
}

/// Whether an image may stand for the rows of an older piece and of a newer one. Where it may not, the rows stay as they are.
#[inline(always)]
pub(crate) fn may_fold(older: &Option<Piece>, newer: &Option<Piece>) -> bool
    ensures { result ≡ may_fold older.now newer.now }
{
    match (older, newer) {
        (Some(first), more) => {
            may_fold_from(first.span.rows.saturating_add(rows_in(more)), first)
        }
        (None, Some(first)) => may_fold_from(first.span.rows, first),
        (None, None) => false,
    }
}

impl Tally {
    /// That of the rows of an older piece and of a newer one behind them.
    #[inline(always)]
    pub(crate) fn of_both(node: NodeId, older: &Option<Piece>, newer: &Option<Piece>) -> Tally
        ensures { result ≡ tally_of node older.now newer.now }
    {
        Tally {
            node,
            rows: rows_in(older).saturating_add(rows_in(newer)),
            area: both_len(older, newer),
            ordered: both_ascend(older, newer),
        }
    }

    /// That of an image of so many bytes.
    pub(crate) fn of_image(node: NodeId, len: u32) -> Tally
        ensures { result ≡ record { node = node; rows = 1; area = len; ordered = true } }
    {
        Tally {
            node,
            rows: 1,
            area: len,
            ordered: true,
        }
    }
}

impl Found {
    /// What is told of the rows, which are let go.
    #[inline(always)]
    pub(crate) fn into_tally(self) -> Tally
        ensures { result ≡ self.tally }
    {
        self.tally
    }
}
