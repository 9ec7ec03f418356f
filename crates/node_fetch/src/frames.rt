//! What the frames of the rows of one node tell of all of them.

ghost use Rattle.std.specs.Prelude.{◌≡◌};
ghost use Rattle.node_fetch.specs.Spans.{with_frame};

use node_record::Frame;

/// Of rows of one node, one at least: the versions of the first and of the last, whether the first is an image, and whether the versions
/// ascend strictly, so that the rows are in order. It is handed on for each node of a merge, so it holds no more of the frames than that.
#[derive(Clone, Copy, Debug, PartialEq, Eq)]
pub struct Frames {
    pub first: u64,
    pub last: u64,
    pub is_image: bool,
    pub ascend: bool,
}

/// With the frame of a row behind them.
#[inline(always)]
pub(crate) fn with_frame(frames: Option<Frames>, frame: Frame) -> Frames
    ensures { result ≡ with_frame frames frame }
{
    match frames {
        Some(frames) => Frames {
            first: frames.first,
            last: frame.version,
            is_image: frames.is_image,
            ascend: frames.ascend && frames.last < frame.version,
        },
        None => Frames {
            first: frame.version,
            last: frame.version,
            is_image: frame.is_image,
            ascend: true,
        },
    }
}
