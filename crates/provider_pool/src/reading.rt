//! Reading the next frame of a link.

ghost use Rattle.link_frames.specs.Paused.{IsBetween};
ghost use Rattle.provider_pool.specs.Turns.{ReadsNext};

use crate::session::ServeFault;
use dubbo_header::Header;
use dubbo_io::Source;
use link_frames::{BodySink, FrameReader, NextWith};

/// What is read next.
#[derive(Clone, Copy, Debug, PartialEq, Eq)]
pub(crate) enum Reading {
    /// A whole frame, whose body was fed.
    Frame { header: Header },
    /// No frame any more, for this fault if any.
    Over(Option<ServeFault>),
}

/// Reads the next frame and feeds its body.
pub(crate) fn read_frame<S: Source, B: BodySink>(
    reader: &mut FrameReader<S>,
    body: &mut B,
) -> Reading
    requires { IsBetween reader.old.paused }
    ensures { ReadsNext (S.state reader.old.source) (S.state reader.new.source) reader.old.paused reader.new.paused
        (B.started body.new) (B.fed body.new) result }
{
    match reader.next_with(body) {
        NextWith::Frame { header } => Reading::Frame { header },
        NextWith::End => Reading::Over(None),
        NextWith::Lost { faults } => Reading::Over(Some(ServeFault::Lost { faults })),
        NextWith::Broken { at, .. } => Reading::Over(Some(ServeFault::Broken { at })),
        NextWith::CutShort { at } => Reading::Over(Some(ServeFault::CutShort { at })),
    }
}
