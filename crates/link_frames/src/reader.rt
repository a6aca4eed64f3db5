//! A reader of the frames of a source.

ghost use Rattle.std.specs.Prelude.{◌≡◌, List, ℕ, [], Some, IfOk, IfErr, IsTrue, ◌↔◌};
ghost use Rattle.link_frames.specs.declared.next.Ending.{Ending};
ghost use Rattle.link_frames.specs.Steps.{GoesWith};

use crate::body_sink::BodySink;
use crate::next::Next;
use crate::next_with::NextWith;
use crate::paused::Paused;
use dubbo_io::Source;
use std::alloc::Global;

/// A source for which there was no memory.
#[derive(Drop)]
pub struct Unmade<S> {
    /// The source, as it was handed in.
    pub source: S,
}

/// Reads a source's frames, one after another, however the source cuts its bytes.
///
/// It takes all its memory when it is made, but for that of each body.
#[derive(Drop)]
pub struct FrameReader<S: Source> {
    source: S,
    paused: Paused,
    ghost fits: { GoesWith paused (S.state source) },
}

impl<S: Source> FrameReader<S> {
    ghost use Rattle.link_frames.specs.Next.{next_of};
    ghost use Rattle.link_frames.specs.NextWith.{HoldsFed, StandsFed, StepsFed, TakesAny, with_of};
    ghost use Rattle.link_frames.specs.Paused.{Holds, HasEnded};
    ghost use Rattle.link_frames.specs.Steps.{IsReady, Steps};

    /// A reader of what the source will give.
    pub fn new(alloc: Global, source: S) -> Result<FrameReader<S>, Unmade<S>>
        ensures source { IfOk result (λ reader. reader.source ≡ source) }
        ensures begins { IfOk result (λ reader. Holds reader.paused []) }
        ensures place { IfOk result (λ reader. reader.paused.place ≡ 0) }
        ensures any { IfOk result (λ reader. TakesAny reader.paused) }
        ensures unmade { IfErr result (λ unmade. unmade.source ≡ source) }
    {
        match Paused::new(alloc) {
            Ok(paused) => Ok(FrameReader { source, paused }),
            Err(_) => Err(Unmade { source }),
        }
    }

    /// Reads at most once.
    ///
    /// `None` comes only where that read gave bytes, and no whole frame is held behind it.
    pub fn step(&mut self) -> Option<Next>
        ensures steps { (held : List ℕ) → Holds self.old.paused held
            → Steps (S.state self.old.source) (S.state self.new.source) self.old.paused.place held
            self.new.paused result }
        ensures ended { (ending : Ending) → HasEnded self.old.paused ending
            → (result ≡ Some (next_of ending)) × (self.new.paused ≡ self.old.paused) }
        ensures quiet { IsReady self.old.paused → self.new.source ≡ self.old.source }
    {
        self.paused.step_on(&mut self.source)
    }

    /// Whether the next step makes no read.
    pub fn ready(&self) -> bool
        ensures { IsTrue result ↔ IsReady self.now.paused }
    {
        self.paused.ready()
    }

    /// Steps until there is an answer.
    pub fn next(&mut self) -> Next
        ensures steps { (held : List ℕ) → Holds self.old.paused held
            → Steps (S.state self.old.source) (S.state self.new.source) self.old.paused.place held
            self.new.paused (Some result) }
        ensures ended { (ending : Ending) → HasEnded self.old.paused ending
            → (result ≡ next_of ending) × (self.new.paused ≡ self.old.paused)
            × (self.new.source ≡ self.old.source) }
    {
        loop {
            if let Some(next) = self.step() {
                return next;
            }
        }
    }

    /// Reads at most once, and feeds a body what came of it.
    ///
    /// `None` comes only where that read gave bytes, and no whole frame came behind it. A step inside a
    /// body wants `body` as the step before left it.
    pub fn step_with<B: BodySink>(&mut self, body: &mut B) -> Option<NextWith>
        requires { StandsFed self.old.paused (B.started body.old) (B.fed body.old) }
        ensures stands { StandsFed self.new.paused (B.started body.new) (B.fed body.new) }
        ensures steps { (held : List ℕ) → HoldsFed self.old.paused (B.fed body.old) held
            → StepsFed (S.state self.old.source) (S.state self.new.source) self.old.paused.place held
            self.new.paused (B.started body.new) (B.fed body.new) result }
        ensures ended { (ending : Ending) → HasEnded self.old.paused ending
            → (result ≡ Some (with_of ending)) × (self.new.paused ≡ self.old.paused) }
        ensures quiet { IsReady self.old.paused → self.new.source ≡ self.old.source }
    {
        self.paused.step_with_on(&mut self.source, body)
    }

    /// Steps until there is an answer, and feeds a body what comes of it.
    pub fn next_with<B: BodySink>(&mut self, body: &mut B) -> NextWith
        requires { StandsFed self.old.paused (B.started body.old) (B.fed body.old) }
        ensures stands { StandsFed self.new.paused (B.started body.new) (B.fed body.new) }
        ensures steps { (held : List ℕ) → HoldsFed self.old.paused (B.fed body.old) held
            → StepsFed (S.state self.old.source) (S.state self.new.source) self.old.paused.place held
            self.new.paused (B.started body.new) (B.fed body.new) (Some result) }
        ensures ended { (ending : Ending) → HasEnded self.old.paused ending
            → (result ≡ with_of ending) × (self.new.paused ≡ self.old.paused)
            × (self.new.source ≡ self.old.source) }
    {
        loop {
            if let Some(next) = self.step_with(body) {
                return next;
            }
        }
    }

    /// The reader without its source.
    pub fn pause(self) -> (S, Paused)
        ensures source { result.0 ≡ self.source }
        ensures paused { result.1 ≡ self.paused }
        ensures fits { GoesWith result.1 (S.state result.0) }
    {
        let FrameReader { source, paused } = self;
        (source, paused)
    }

    /// The reader that was paused, over its source.
    pub fn resume(source: S, paused: Paused) -> FrameReader<S>
        requires { GoesWith paused (S.state source) }
        ensures source { result.source ≡ source }
        ensures paused { result.paused ≡ paused }
    {
        FrameReader { source, paused }
    }

    /// The source, which gives what the reader hasn't read.
    pub fn into_source(self) -> S
        ensures { result ≡ self.source }
    {
        let FrameReader { source, paused: _ } = self;
        source
    }
}
