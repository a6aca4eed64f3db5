//! Serving a link until its source ends.

ghost use Rattle.provider_pool.specs.Serving.{IsNew, Serves};

use crate::session::{Served, Session};
use crate::turn::{Turn, take_turn};
use dubbo_io::{Sink, Source};
use link_frames::FrameReader;
use service_table::Services;
use std::alloc::Global;

/// Reads the frames of a link, one after another, and writes their answers in order and nothing else.
///
/// A two-way event is answered by an event, a two-way request by a reply: that of the direct call, or status 40 with the
/// fault of a body that can't be read, or status 80 where memory is wanting. One-way requests are called and get no
/// answer; where memory is wanting for one, serving ends. Nothing is kept of a body but what its reader keeps.
pub fn serve_link<S: Source, K: Sink>(
    alloc: Global,
    reader: &mut FrameReader<S>,
    sink: &mut K,
    services: &Services,
) -> Session
    requires new { IsNew reader.old.paused }
    requires open { (K.state sink.old).open_to_all }
    ensures { Serves (S.state reader.old.source) (S.state reader.new.source) (K.state sink.old) (K.state sink.new)
        services.now result }
{
    let mut served = Served {
        requests: 0,
        answers: 0,
    };
    'frames: loop {
        if let Turn::Ends(fault) = take_turn(alloc, reader, sink, services, &mut served) {
            return Session { served, fault };
        }
    }
}
