//! Steps that feed a body as it comes.

ghost use Rattle.std.specs.Prelude.{◌≡◌, ◌+◌, ◌++◌, ◌^◌, ◌<◌, List, ℕ, Some, length};
ghost use Rattle.dubbo_header.specs.declared.header.TheConstants.{BODY_LIMIT};
ghost use Rattle.link_frames.specs.declared.next.Ending.{Ending};

use super::{Part, Paused};
use crate::begun::Begun;
use crate::body_sink::BodySink;
use crate::head::Head;
use crate::next::Ending;
use crate::next_with::NextWith;
use dubbo_header::read_header;
use dubbo_io::{Got, Source};
use std::mem;

impl Paused {
    ghost use Rattle.dubbo_header.specs.Header.{header_bytes};
    ghost use Rattle.link_frames.specs.Begun.{header_of, left_of, KeepsNone};
    ghost use Rattle.link_frames.specs.NextWith.{AdvancesFed, HoldsFed, StandsFed, StepsFed, with_of};
    ghost use Rattle.link_frames.specs.Steps.{GoesWith, IsReady};
    ghost use Rattle.link_frames.specs.Paused.{HasEnded, held_count};

    /// Reads at most once from a source that is lent for this call, and feeds a body what comes of it.
    ///
    /// `None` comes only where that read gave bytes, and no whole frame came behind it.
    pub fn step_with_on<S: Source, B: BodySink>(
        &mut self,
        source: &mut S,
        body: &mut B,
    ) -> Option<NextWith>
        requires fits { GoesWith self.old (S.state source.old) }
        requires stands { StandsFed self.old (B.started body.old) (B.fed body.old) }
        ensures fits { GoesWith self.new (S.state source.new) }
        ensures stands { StandsFed self.new (B.started body.new) (B.fed body.new) }
        ensures steps { (held : List ℕ) → HoldsFed self.old (B.fed body.old) held
            → StepsFed (S.state source.old) (S.state source.new) self.old.place held self.new
            (B.started body.new) (B.fed body.new) result }
        ensures ended { (ending : Ending) → HasEnded self.old ending
            → (result ≡ Some (with_of ending)) × (self.new ≡ self.old) }
        ensures quiet { IsReady self.old → source.new ≡ source.old }
    {
        if let Some(next) = self.advance_with(body) {
            return Some(next);
        }
        match self.window.fill(source) {
            Got::Bytes(_) => self.advance_with(body),
            Got::End => {
                let ending = self.at_end();
                Some(self.close(ending))
            }
            Got::Failed => Some(self.close(Ending::Lost { faults: 1 })),
        }
    }

    /// Stays with this answer.
    fn close(&mut self, ending: Ending) -> NextWith
        ensures answer { result ≡ with_of ending }
        ensures ended { self.new ≡ record self.old { part = Part.Ended ending } }
    {
        self.set(Part::Ended(ending));
        ending.next_with()
    }

    /// What the bytes that are held answer, with no read; those of a body are fed.
    pub fn advance_with<B: BodySink>(&mut self, body: &mut B) -> Option<NextWith>
        requires room { self.old.place + BODY_LIMIT < 2 ^ 63 }
        requires stands { StandsFed self.old (B.started body.old) (B.fed body.old) }
        ensures advances { (held : List ℕ) → HoldsFed self.old (B.fed body.old) held
            → AdvancesFed self.old.place held self.new (B.started body.new) (B.fed body.new) result }
        ensures ended { (ending : Ending) → HasEnded self.old ending
            → (result ≡ Some (with_of ending)) × (self.new ≡ self.old) }
    {
        match mem::replace(&mut self.part, Part::Head(Head::new())) {
            Part::Head(head) => self.begin_with(head, body),
            Part::Begun(begun) => self.go_on_with(begun.forget(), body),
            Part::Ended(ending) => {
                self.set(Part::Ended(ending));
                Some(ending.next_with())
            }
        }
    }

    /// Goes on with a header, over the bytes that are held.
    fn begin_with<B: BodySink>(&mut self, mut head: Head, body: &mut B) -> Option<NextWith>
        requires room { self.old.place + BODY_LIMIT < 2 ^ 63 }
        ensures { AdvancesFed self.old.place (head ++ self.old.window) self.new (B.started body.new)
            (B.fed body.new) result }
    {
        let n = head.take_from(self.window.as_slice());
        self.window.consume(n);
        if head.len() < 16 {
            self.set(Part::Head(head));
            return None;
        }
        let bytes = *head.whole();
        match read_header(&bytes) {
            Ok(header) => {
                body.start(&header);
                self.go_on_with(Begun::lent(header), body)
            }
            Err(_) => {
                let ending = Ending::Broken {
                    at: self.place,
                    head: bytes,
                };
                self.set(Part::Ended(ending));
                Some(ending.next_with())
            }
        }
    }

    /// Feeds the body of a frame that has begun what is held of it.
    fn go_on_with<B: BodySink>(&mut self, mut begun: Begun, body: &mut B) -> Option<NextWith>
        requires room { self.old.place + BODY_LIMIT < 2 ^ 63 }
        requires kept { KeepsNone begun }
        requires started { B.started body.old ≡ Some (header_of begun) }
        requires fed { length (B.fed body.old) + left_of begun ≡ (header_of begun).length }
        ensures { AdvancesFed self.old.place
            (header_bytes (header_of begun) ++ (B.fed body.old ++ self.old.window)) self.new
            (B.started body.new) (B.fed body.new) result }
    {
        let n = begun.pass(self.window.as_slice().len());
        body.feed(&self.window.as_slice()[..n]);
        self.window.consume(n);
        if begun.left() > 0 {
            self.set(Part::Begun(begun));
            return None;
        }
        let header = *begun.header();
        self.place += 16 + u64::from(header.length);
        self.set(Part::Head(Head::new()));
        Some(NextWith::Frame { header })
    }
}
