//! A reader of frames without its source.

ghost use Rattle.std.specs.Prelude.{◌≡◌, ◌≤◌, ◌+◌, ◌++◌, ◌^◌, ◌<◌, ◌-◌, List, ℕ, [], length, Some, IfOk, IsTrue, ◌↔◌};
ghost use Rattle.dubbo_header.specs.declared.header.TheConstants.{BODY_LIMIT};
ghost use Rattle.link_frames.specs.declared.next.Ending.{Ending};

mod fed;

use crate::begun::Begun;
use crate::head::Head;
use crate::next::{Ending, Next};
use crate::window::Window;
use dubbo_header::read_header;
use dubbo_io::{Got, OutOfMemory, Source};
use std::alloc::Global;
use std::mem;

/// How far the frame that is read came.
#[derive(Drop)]
pub enum Part {
    /// Its header, as far as it came.
    Head(Head),
    /// Its header came, and some of its body.
    Begun(Begun),
    /// There is none: the reader stays with this answer.
    Ended(Ending),
}

/// A reader of frames without its source, so that the source may be used otherwise meanwhile.
#[derive(Drop)]
pub struct Paused {
    alloc: Global,
    window: Window,
    part: Part,
    place: u64,
}

impl Paused {
    ghost use Rattle.dubbo_header.specs.Header.{header_bytes};
    ghost use Rattle.link_frames.specs.Begun.{header_of, left_of, Took};
    ghost use Rattle.link_frames.specs.Paused.{Advances, Holds, HasEnded, IsBetween, held_count};
    ghost use Rattle.link_frames.specs.Next.{next_of};
    ghost use Rattle.link_frames.specs.Steps.{EndsAt, GoesWith, IsReady, Steps};

    /// Nothing yet, at the first byte of a stream.
    pub fn new(alloc: Global) -> Result<Paused, OutOfMemory>
        ensures begins { IfOk result (λ paused. Holds paused []) }
        ensures place { IfOk result (λ paused. paused.place ≡ 0) }
        ensures between { IfOk result (λ paused. IsBetween paused) }
    {
        Ok(Paused {
            alloc,
            window: Window::new(alloc)?,
            part: Part::Head(Head::new()),
            place: 0,
        })
    }

    /// Reads at most once from a source that is lent for this call.
    ///
    /// `None` comes only where that read gave bytes, and no whole frame is held behind it.
    pub fn step_on<S: Source>(&mut self, source: &mut S) -> Option<Next>
        requires { GoesWith self.old (S.state source.old) }
        ensures fits { GoesWith self.new (S.state source.new) }
        ensures steps { (held : List ℕ) → Holds self.old held
            → Steps (S.state source.old) (S.state source.new) self.old.place held self.new result }
        ensures ended { (ending : Ending) → HasEnded self.old ending
            → (result ≡ Some (next_of ending)) × (self.new ≡ self.old) }
        ensures quiet { IsReady self.old → source.new ≡ source.old }
    {
        if let Some(next) = self.advance() {
            return Some(next);
        }
        match self.window.fill(source) {
            Got::Bytes(_) => self.advance(),
            Got::End => {
                let ending = self.at_end();
                Some(self.end_with(ending))
            }
            Got::Failed => Some(self.end_with(Ending::Lost { faults: 1 })),
        }
    }

    /// Whether the next step makes no read.
    pub fn ready(&self) -> bool
        ensures { IsTrue result ↔ IsReady self.now }
    {
        let left = self.window.as_slice();
        match &self.part {
            Part::Head(head) => {
                let mut front = head.copied();
                let n = front.take_from(left);
                if front.len() < 16 {
                    return false;
                }
                match read_header(front.whole()) {
                    Ok(header) => {
                        if left.len() - n < header.length as usize {
                            return false;
                        }
                        true
                    }
                    Err(_) => true,
                }
            }
            Part::Begun(begun) => {
                if left.len() < begun.left() {
                    return false;
                }
                true
            }
            Part::Ended(_) => true,
        }
    }

    /// The answer at the end of the source, where nothing is left that isn't taken up.
    fn at_end(&self) -> Ending
        requires { self.now.window ≡ [] }
        ensures { (held : List ℕ) → Holds self.now held → EndsAt self.now.place held result }
    {
        match &self.part {
            Part::Head(head) => {
                if head.len() == 0 {
                    Ending::End
                } else {
                    Ending::CutShort { at: self.place }
                }
            }
            Part::Begun(_) => Ending::CutShort { at: self.place },
            Part::Ended(ending) => *ending,
        }
    }

    /// What the bytes that are held answer, with no read.
    fn advance(&mut self) -> Option<Next>
        requires room { self.old.place + held_count self.old + BODY_LIMIT < 2 ^ 63 }
        ensures advances { (held : List ℕ) → Holds self.old held → Advances self.old.place held self.new result }
        ensures ended { (ending : Ending) → HasEnded self.old ending
            → (result ≡ Some (next_of ending)) × (self.new ≡ self.old) }
    {
        match mem::replace(&mut self.part, Part::Head(Head::new())) {
            Part::Head(head) => self.begin(head),
            Part::Begun(begun) => self.go_on(begun),
            Part::Ended(ending) => Some(self.end_with(ending)),
        }
    }

    /// Goes on with a header, over the bytes that are held.
    fn begin(&mut self, mut head: Head) -> Option<Next>
        requires room { self.old.place + BODY_LIMIT < 2 ^ 63 }
        ensures { Advances self.old.place (head ++ self.old.window) self.new result }
    {
        let n = head.take_from(self.window.as_slice());
        self.window.consume(n);
        if head.len() < 16 {
            self.set(Part::Head(head));
            return None;
        }
        let bytes = *head.whole();
        match read_header(&bytes) {
            Ok(header) => {
                let begun = Begun::new(self.alloc, header);
                self.go_on(begun)
            }
            Err(_) => Some(self.end_with(Ending::Broken {
                at: self.place,
                head: bytes,
            })),
        }
    }

    /// Stays with this answer.
    fn end_with(&mut self, ending: Ending) -> Next
        ensures answer { result ≡ next_of ending }
        ensures ended { self.new ≡ record self.old { part = Part.Ended ending } }
    {
        self.set(Part::Ended(ending));
        ending.next()
    }

    /// Goes on with a frame that has begun, over the bytes that are held.
    fn go_on(&mut self, mut begun: Begun) -> Option<Next>
        requires room { self.old.place + BODY_LIMIT < 2 ^ 63 }
        ensures { (body : List ℕ) → Took begun body
            → Advances self.old.place (header_bytes (header_of begun) ++ (body ++ self.old.window)) self.new result }
    {
        let n = begun.take_from(self.window.as_slice());
        self.window.consume(n);
        if begun.left() > 0 {
            self.set(Part::Begun(begun));
            return None;
        }
        self.place += 16 + u64::from(begun.header().length);
        self.set(Part::Head(Head::new()));
        Some(begun.finish())
    }

    /// Stands there from now on.
    fn set(&mut self, part: Part)
        ensures { self.new ≡ record self.old { part = part } }
    {
        self.part = part;
    }
}
