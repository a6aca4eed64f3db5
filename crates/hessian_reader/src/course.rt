//! The course of a reading, piece by piece.

ghost use Rattle.std.specs.Prelude.{◌≡◌, ◌≢◌, ℕ, ◌+◌, ◌<◌, ◌≤◌, ◌++◌, List, [], length, take, Some, None, Err, false, IfOk, IfErr, IfSome};
ghost use Rattle.hessian_reader.specs.declared.stop.Objection.{Objection as Objections};
ghost use Rattle.hessian_reader.specs.Faults.{cause_of};
ghost use Rattle.hessian_reader.specs.Refusing.{fault_of};

use crate::element::{Element, Want};
use crate::fault::HessianFault;
use crate::finish::graph_of;
use crate::lexer::{Inside, Lexed, Lexer};
use crate::place::Place;
use crate::reader::Fed;
use crate::stop::{Objection, Stop};
use crate::work::Work;
use hessian_graph::{Graph, Value};
use std::alloc::Global;

/// The course of a reading: what came, and what was refused.
#[derive(Drop)]
pub struct Course {
    work: Work,
    lexer: Lexer,
    /// Where the element began that isn't whole.
    from: usize,
    /// How many bytes were fed.
    fed: usize,
    refused: Option<HessianFault>,
}

/// The refusal of an element that began at a place.
fn refused_at(stop: Stop, at: usize) -> HessianFault
    ensures memory { stop ≡ Stop.NoMemory → result ≡ HessianFault.OutOfMemory }
    ensures tells { (o : Objections) → stop ≡ Stop.Objects o → result ≡ fault_of (cause_of o at) }
{
    match stop {
        Stop::NoMemory => HessianFault::OutOfMemory,
        Stop::Objects(Objection::NoEnd) => HessianFault::BadCode { at, code: b'Z' },
        Stop::Objects(Objection::NoNode(number)) => HessianFault::BadRef { at, number },
        Stop::Objects(Objection::NoType(number)) => HessianFault::BadType { at, number },
        Stop::Objects(Objection::NoClass(number)) => HessianFault::BadClass { at, number },
        Stop::Objects(Objection::NoLength(number)) => HessianFault::BadLength { at, number },
        Stop::Objects(Objection::TooMany) => HessianFault::TooManyNodes { at },
        Stop::Objects(Objection::Misplaced) => HessianFault::Short { at },
    }
}

impl Course {
    ghost use Rattle.hessian_graph.specs.Shape.{Shape, shape_of};
    ghost use Rattle.hessian_text.specs.Spelling.{AreBytes};
    ghost use Rattle.hessian_reader.specs.declared.fault.HessianFault.{HessianFault as Faults};
    ghost use Rattle.hessian_reader.specs.Leaves.{IsDenoted};
    ghost use Rattle.hessian_reader.specs.Lexing.{Holds};
    ghost use Rattle.hessian_reader.specs.Course.{EndsAt, Follows, HasRead, Known, NeverEnds, Nexts, Passes, StopsIn, Tells, Took};
    ghost use Rattle.hessian_reader.specs.Refusing.{IsRefusedBy, IsStoppedBy};
    ghost use Rattle.hessian_reader.specs.States.{is_done, want_at};
    ghost use Rattle.hessian_reader.specs.Steps.{Leads, take_element};
    ghost use Rattle.hessian_reader.specs.Views.{state_of};

    /// A course of so many roots, to which nothing was fed.
    pub fn new(alloc: Global, roots: u32) -> Course
        ensures begins { HasRead result roots [] }
        ensures none { result.fed ≡ 0 }
        ensures serves { result.refused ≡ None }
    {
        let work = Work::new(alloc, roots);
        let lexer = Lexer::new(work.want());
        Course {
            work,
            lexer,
            from: 0,
            fed: 0,
            refused: None,
        }
    }

    /// Takes the next bytes, up to the end of the last root.
    ///
    /// After a refusal each later call gives the same one.
    pub fn feed(&mut self, piece: &[u8]) -> Result<Fed, HessianFault>
        requires room { self.old.fed + length piece.now ≤ usize.MAX }

        // It tells where the last root ends in all that was fed.
        ensures tells { (roots : ℕ) (fed : List ℕ) → HasRead self.old roots fed
            → IfOk result (λ told. Tells roots fed piece.now told × HasRead self.new roots (fed ++ piece.now)) }
        ensures counts { IfOk result (λ told. self.new.fed ≡ self.old.fed + length piece.now) }
        ensures serves { IfOk result (λ told. self.new.refused ≡ None) }

        // Only where the last root never ends, however the bytes go on, is anything refused; or for want of memory.
        ensures refused { (roots : ℕ) (fed : List ℕ) → HasRead self.old roots fed
            → IfErr result (λ fault. fault ≢ HessianFault.OutOfMemory → NeverEnds roots (fed ++ piece.now)) }

        // It is the refusal of all that was fed: the place where no such graph goes on, and why.
        ensures why { (roots : ℕ) (fed : List ℕ) → HasRead self.old roots fed
            → IfErr result (λ fault. fault ≢ HessianFault.OutOfMemory → IsStoppedBy roots (fed ++ piece.now) fault) }
        ensures keeps { IfErr result (λ fault. self.new.refused ≡ Some fault) }

        // After a refusal nothing changes.
        ensures stays { (fault : Faults) → self.old.refused ≡ Some fault → (result ≡ Err fault) × (self.new ≡ self.old) }
    {
        if let Some(fault) = self.refused {
            return Err(fault);
        }
        let told = self.advance(piece);
        match told {
            Ok(told) => {
                self.fed += piece.len();
                Ok(told)
            }
            Err(fault) => {
                self.refused = Some(fault);
                Err(fault)
            }
        }
    }

    /// The same, where nothing was refused.
    fn advance(&mut self, piece: &[u8]) -> Result<Fed, HessianFault>
        requires room { self.old.fed + length piece.now ≤ usize.MAX }
        ensures same { (self.new.fed ≡ self.old.fed) × (self.new.refused ≡ self.old.refused) }
        ensures tells { (roots : ℕ) (fed : List ℕ) → self.old.fed ≡ length fed → AreBytes fed → Follows self.old roots fed
            → IfOk result (λ told. Tells roots fed piece.now told × Follows self.new roots (fed ++ piece.now)) }
        ensures refused { (roots : ℕ) (fed : List ℕ) → self.old.fed ≡ length fed → AreBytes fed → Follows self.old roots fed
            → IfErr result (λ fault. fault ≢ HessianFault.OutOfMemory → NeverEnds roots (fed ++ piece.now)) }
        ensures why { (roots : ℕ) (fed : List ℕ) → self.old.fed ≡ length fed → AreBytes fed → Follows self.old roots fed
            → IfErr result (λ fault. fault ≢ HessianFault.OutOfMemory → IsStoppedBy roots (fed ++ piece.now) fault) }
    {
        let mut taken = 0;
        while taken < piece.len() {
            if self.work.is_done() {
                return Ok(Fed::Done { used: taken });
            }
            match self.next_elements(self.fed + taken, &piece[taken..]) {
                // An element has at least one byte.
                Ok(Some(used)) => taken += used.max(1),
                Ok(None) => return Ok(Fed::More),
                Err(fault) => return Err(fault),
            }
        }
        if self.work.is_done() {
            Ok(Fed::Done { used: taken })
        } else {
            Ok(Fed::More)
        }
    }

    /// Takes the rest of the element that has begun and the elements that lie whole behind it, and answers behind how many
    /// bytes they end, where the first does.
    fn next_elements(&mut self, at: usize, piece: &[u8]) -> Result<Option<usize>, HessianFault>
        requires open { is_done (state_of self.old.work) ≡ false }
        requires some { 0 < length piece.now }
        requires room { at + length piece.now ≤ usize.MAX }
        ensures same { (self.new.fed ≡ self.old.fed) × (self.new.refused ≡ self.old.refused) }
        ensures within { IfOk result (λ end. IfSome end (λ used. used ≤ length piece.now)) }
        ensures passes { (came : List ℕ) → AreBytes came → self.old.lexer.want ≡ want_at self.old.work.place → Holds self.old.lexer.want self.old.lexer.inside came
            → Passes self.old at came piece.now self.new result }
        ensures why { IfErr result (λ fault. fault ≢ HessianFault.OutOfMemory → StopsIn self.old at piece.now fault) }
    {
        match self.next_element(at, piece) {
            Ok(Some(used)) => match self.take_run(at + used, &piece[used..]) {
                Ok(more) => Ok(Some(used + more)),
                Err(fault) => Err(fault),
            },
            Ok(None) => Ok(None),
            Err(fault) => Err(fault),
        }
    }

    /// Takes the elements that lie whole at the front of a piece, where a value may stand, and answers how many bytes they are.
    fn take_run(&mut self, at: usize, piece: &[u8]) -> Result<usize, HessianFault>
        requires room { at + length piece.now ≤ usize.MAX }
        ensures same { (self.new.fed ≡ self.old.fed) × (self.new.refused ≡ self.old.refused) }
        ensures lexer { self.new.lexer ≡ self.old.lexer }
        ensures within { IfOk result (λ used. used ≤ length piece.now) }
        ensures wants { IfOk result (λ used. want_at self.new.work.place ≡ want_at self.old.work.place) }
        ensures leads { IfOk result (λ used. Leads (state_of self.old.work) (take used piece.now) (state_of self.new.work)) }
        ensures from { self.old.from ≡ at → IfOk result (λ used. self.new.from ≡ at + used) }
        ensures memory { IfErr result (λ fault. fault ≡ HessianFault.OutOfMemory) }
    {
        if !self.work.is_at_value() {
            return Ok(0);
        }
        match self.work.take_run(piece) {
            Ok(used) => {
                self.from = at + used;
                Ok(used)
            }
            Err(_) => Err(HessianFault::OutOfMemory),
        }
    }

    /// Takes the rest of the element that has begun, and answers behind how many bytes it ends, where it does.
    fn next_element(&mut self, at: usize, piece: &[u8]) -> Result<Option<usize>, HessianFault>
        requires open { is_done (state_of self.old.work) ≡ false }
        requires some { 0 < length piece.now }
        requires room { at + length piece.now ≤ usize.MAX }
        ensures same { (self.new.fed ≡ self.old.fed) × (self.new.refused ≡ self.old.refused) }
        ensures within { IfOk result (λ end. IfSome end (λ used. used ≤ length piece.now)) }
        ensures nexts { (came : List ℕ) → AreBytes came → self.old.lexer.want ≡ want_at self.old.work.place → Holds self.old.lexer.want self.old.lexer.inside came
            → Nexts self.old at came piece.now self.new result }
        ensures why { IfErr result (λ fault. fault ≢ HessianFault.OutOfMemory → StopsIn self.old at piece.now fault) }
    {
        match self.lexer.at_once(piece) {
            Some((element, used)) => {
                self.take_here(element)?;
                self.from = at + used;
                Ok(Some(used))
            }
            None => self.next_by_bytes(at, piece),
        }
    }

    /// The same, by way of the bytes that came of the element.
    fn next_by_bytes(&mut self, at: usize, piece: &[u8]) -> Result<Option<usize>, HessianFault>
        requires open { is_done (state_of self.old.work) ≡ false }
        requires some { 0 < length piece.now }
        requires room { at + length piece.now ≤ usize.MAX }
        ensures same { (self.new.fed ≡ self.old.fed) × (self.new.refused ≡ self.old.refused) }
        ensures within { IfOk result (λ end. IfSome end (λ used. used ≤ length piece.now)) }
        ensures nexts { (came : List ℕ) → AreBytes came → self.old.lexer.want ≡ want_at self.old.work.place → Holds self.old.lexer.want self.old.lexer.inside came
            → Nexts self.old at came piece.now self.new result }
        ensures why { IfErr result (λ fault. fault ≢ HessianFault.OutOfMemory → StopsIn self.old at piece.now fault) }
    {
        let alloc = self.work.store.alloc;
        match self.lexer.feed(alloc, piece)? {
            Lexed::More => Ok(None),
            Lexed::Whole(element, used) => {
                self.take(element)?;
                self.from = at + used;
                Ok(Some(used))
            }
            Lexed::Double(code) => Err(HessianFault::Double {
                at: self.from,
                code,
            }),
            Lexed::NoCode(place, code) => Err(HessianFault::BadCode {
                at: at + place,
                code,
            }),
            Lexed::NoText(place, begun) => Err(HessianFault::BadText {
                at: (at + place).saturating_sub(begun),
            }),
        }
    }

    /// Takes a whole element of which nothing came before, and waits for the next.
    fn take_here(&mut self, element: Element) -> Result<(), HessianFault>
        requires nothing { self.old.lexer.inside ≡ Inside.Nothing }
        requires any { self.old.lexer.want ≡ Want.AnyValue }
        ensures same { (self.new.fed ≡ self.old.fed) × (self.new.refused ≡ self.old.refused) }
        ensures took { Took (state_of self.old.work) element self.new result }
        ensures why { IfErr result (λ fault. fault ≢ HessianFault.OutOfMemory
            → (o : Objections) × (take_element (state_of self.old.work) element ≡ Err o) × (fault ≡ fault_of (cause_of o self.old.from))) }
    {
        match element {
            Element::Plain(value) if self.work.is_at_value() => self.give_here(value),
            _ => self.take(element),
        }
    }

    /// Takes a leaf where a value is all that may stand, and waits for the next.
    fn give_here(&mut self, value: Value) -> Result<(), HessianFault>
        requires nothing { self.old.lexer.inside ≡ Inside.Nothing }
        requires any { self.old.lexer.want ≡ Want.AnyValue }
        requires here { self.old.work.place ≡ Place.AtValue }
        ensures same { (self.new.fed ≡ self.old.fed) × (self.new.refused ≡ self.old.refused) }
        ensures took { Took (state_of self.old.work) (Element.Plain value) self.new result }
        ensures why { IfErr result (λ fault. fault ≡ HessianFault.OutOfMemory) }
    {
        match self.work.plain_here(value) {
            Ok(()) => Ok(()),
            Err(_) => Err(HessianFault::OutOfMemory),
        }
    }

    /// Takes a whole element, and waits for the next.
    fn take(&mut self, element: Element) -> Result<(), HessianFault>
        ensures same { (self.new.fed ≡ self.old.fed) × (self.new.refused ≡ self.old.refused) }
        ensures took { Took (state_of self.old.work) element self.new result }
        ensures why { IfErr result (λ fault. fault ≢ HessianFault.OutOfMemory
            → (o : Objections) × (take_element (state_of self.old.work) element ≡ Err o) × (fault ≡ fault_of (cause_of o self.old.from))) }
    {
        match self.work.take(element) {
            Ok(()) => {
                self.lexer = Lexer::new(self.work.want());
                Ok(())
            }
            Err(stop) => Err(refused_at(stop, self.from)),
        }
    }

    /// Ends the reading: the graph, or what was refused.
    pub fn finish(self) -> Result<Graph, HessianFault>
        requires known { ∥ Known self ∥₁ }

        // The graph is the one that the bytes denote up to the end of the last root.
        ensures ok { (roots : ℕ) (fed : List ℕ) → HasRead self roots fed
            → IfOk result (λ g. (n : ℕ) × (n ≤ length fed) × IsDenoted (take n fed) (shape_of g) × (length g.roots ≡ roots)) }
        ensures refused { (fault : Faults) → self.refused ≡ Some fault → result ≡ Err fault }
        ensures short { (roots : ℕ) (fed : List ℕ) → self.refused ≡ None → HasRead self roots fed
            → IfErr result (λ fault. fault ≢ HessianFault.OutOfMemory
            → (fault ≡ HessianFault.Short (length fed)) × ((n : ℕ) → EndsAt roots fed n → ⊥)) }

        // It is the refusal of what was fed, kind and place.
        ensures why { (roots : ℕ) (fed : List ℕ) → HasRead self roots fed
            → IfErr result (λ fault. fault ≢ HessianFault.OutOfMemory → IsRefusedBy roots fed fault) }
    {
        if let Some(fault) = self.refused {
            return Err(fault);
        }
        if self.work.is_done() {
            graph_of(self.work)
        } else {
            Err(HessianFault::Short { at: self.fed })
        }
    }
}
