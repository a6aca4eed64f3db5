//! One turn of serving a link.

ghost use Rattle.std.specs.Prelude.{◌≡◌, ◌+◌, ◌≤◌};
ghost use Rattle.dubbo_io.specs.Count.{last_count};
ghost use Rattle.link_frames.specs.Paused.{IsBetween};
ghost use Rattle.provider_pool.specs.Turns.{Turns, count_of, turn_of};
ghost use Rattle.provider_pool.specs.Writes.{answers_of};

use crate::answering::answer;
use crate::reading::{Reading, read_frame};
use crate::sending::Outcome;
use crate::session::{ServeFault, Served};
use dubbo_bodies::RequestReader;
use dubbo_header::Header;
use dubbo_io::{Sink, Source};
use link_frames::FrameReader;
use service_table::Services;
use std::alloc::Global;

/// What a turn came to.
#[derive(Clone, Copy, Debug, PartialEq, Eq)]
pub(crate) enum Turn {
    /// A frame was read and answered.
    Goes,
    /// Serving ends, for this fault if any.
    Ends(Option<ServeFault>),
}

/// Reads the next frame and answers it.
pub(crate) fn take_turn<S: Source, K: Sink>(
    alloc: Global,
    reader: &mut FrameReader<S>,
    sink: &mut K,
    services: &Services,
    served: &mut Served,
) -> Turn
    requires between { IsBetween reader.old.paused }
    requires open { (K.state sink.old).open_to_all }
    requires requests { served.old.requests ≤ last_count }
    requires answers { served.old.answers ≤ last_count }
    ensures { Turns (S.state reader.old.source) (S.state reader.new.source) reader.old.paused reader.new.paused
        (K.state sink.old) (K.state sink.new) services.now served.old served.new result }
{
    let mut body = RequestReader::new(alloc);
    match read_frame(reader, &mut body) {
        Reading::Frame { header } => {
            let outcome = answer(alloc, &header, body, sink, services);
            counted(&header, outcome, served)
        }
        Reading::Over(fault) => Turn::Ends(fault),
    }
}

/// Counts a frame that was read, and its answers.
fn counted(header: &Header, outcome: Outcome, served: &mut Served) -> Turn
    requires requests { served.old.requests ≤ last_count }
    requires answers { served.old.answers ≤ last_count }
    requires few { answers_of outcome ≤ 1 }
    ensures requests { served.new.requests ≡ served.old.requests + count_of header.now }
    ensures answers { served.new.answers ≡ served.old.answers + answers_of outcome }
    ensures turn { result ≡ turn_of outcome }
{
    if header.request && !header.event {
        served.requests += 1;
    }
    match outcome {
        Outcome::Answered { answers } => {
            served.answers += answers;
            Turn::Goes
        }
        Outcome::Lost { faults, answers } => {
            served.answers += answers;
            Turn::Ends(Some(ServeFault::Lost { faults }))
        }
        Outcome::OutOfMemory => Turn::Ends(Some(ServeFault::OutOfMemory)),
    }
}
