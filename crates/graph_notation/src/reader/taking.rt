//! The elements that a reading takes.

ghost use Rattle.std.specs.Prelude.{◌≡◌, ◌<◌, ◌≤◌, length, OnOk, Some, None, reverse, map};
ghost use Rattle.graph_notation.specs.declared.frame.Head.TheVariants.{List, Map};
ghost use Rattle.graph_notation.specs.Machine.{is_whole, gives, opens, goes_to, end_step, name_step, bracket_step, typed_list, typed_map, typed_object, mark_step, reference_step, step, room, shown, is_list, is_map, is_object};
ghost use Rattle.graph_notation.specs.View.{state_of, Fine, Steps, Goes};

use crate::element::{Element, Mark};
use crate::frame::{Cause, Head, Place};
use crate::reader::Reader;
use crate::stop::Stop;
use hessian_graph::{Chars, Value};
use std::alloc::Global;
use std::mem;

impl Reader {
    /// Takes an element, where it can stand here.
    pub fn take(&mut self, alloc: Global, element: Element) -> Result<(), Stop>
        requires { Fine self.old }
        ensures state { Steps result (state_of self.new) (step self.old.limit (state_of self.old) element) }
        ensures fine { OnOk result (Fine self.new) }
        ensures limit { self.new.limit ≡ self.old.limit }
    {
        match element {
            Element::Plain(value) => self.take_value(value),
            Element::Words(text) => self.take_words(text),
            Element::Reference(number) => self.take_reference(number),
            Element::Sign(mark) => self.take_mark(alloc, mark),
        }
    }

    /// Whether the text may end here.
    pub fn is_whole(&self) -> bool
        ensures { result ≡ is_whole (state_of self.now) }
    {
        self.may_end() && self.under.is_empty()
    }

    /// Takes a value that is no node.
    #[inline(always)]
    pub fn take_value(&mut self, value: Value) -> Result<(), Stop>
        requires { Fine self.old }
        ensures state { Steps result (state_of self.new) (step self.old.limit (state_of self.old) (Element.Plain value)) }
        ensures fine { OnOk result (Fine self.new) }
        ensures limit { self.new.limit ≡ self.old.limit }
    {
        if !self.wants_value() {
            return Err(Stop::Refused(Cause::Bad));
        }
        self.give(value)?;
        Ok(())
    }

    /// Takes a text: a value or a name.
    fn take_words(&mut self, text: Chars) -> Result<(), Stop>
        requires { Fine self.old }
        ensures state { Steps result (state_of self.new) (step self.old.limit (state_of self.old) (Element.Words text)) }
        ensures fine { OnOk result (Fine self.new) }
        ensures limit { self.new.limit ≡ self.old.limit }
    {
        if self.wants_value() {
            self.give(Value::Text(text))?;
            Ok(())
        } else {
            self.name(text)
        }
    }

    /// Takes the number of a node that has begun.
    fn take_reference(&mut self, number: u32) -> Result<(), Stop>
        requires { Fine self.old }
        ensures state { Steps result (state_of self.new) (step self.old.limit (state_of self.old) (Element.Reference number)) }
        ensures fine { OnOk result (Fine self.new) }
        ensures limit { self.new.limit ≡ self.old.limit }
    {
        if !self.wants_value() {
            return Err(Stop::Refused(Cause::Bad));
        }
        if number as usize >= self.nodes.len() {
            return Err(Stop::Refused(Cause::Unknown(number)));
        }
        self.give(Value::Node(number))?;
        Ok(())
    }

    /// Takes a mark, where it can stand here.
    #[inline(always)]
    pub fn take_mark(&mut self, alloc: Global, mark: Mark) -> Result<(), Stop>
        requires { Fine self.old }
        ensures state { Steps result (state_of self.new) (mark_step self.old.limit mark (state_of self.old)) }
        ensures fine { OnOk result (Fine self.new) }
        ensures limit { self.new.limit ≡ self.old.limit }
    {
        match mark {
            Mark::BeginList => self.begin_list(alloc),
            Mark::EndList => self.end_node(self.is_list()),
            Mark::BeginMap => self.begin_map(alloc),
            Mark::EndMap => self.end_node(self.is_map()),
            Mark::BeginFields => self.begin_object(alloc),
            Mark::EndFields => self.end_node(self.is_object()),
            Mark::Comma => self.take_comma(),
            Mark::Colon => self.take_colon(),
            Mark::Named => self.take_named(),
        }
    }

    /// Takes `[`.
    fn begin_list(&mut self, alloc: Global) -> Result<(), Stop>
        requires { Fine self.old }
        ensures state { Steps result (state_of self.new) (mark_step self.old.limit Mark.BeginList (state_of self.old)) }
        ensures fine { OnOk result (Fine self.new) }
        ensures limit { self.new.limit ≡ self.old.limit }
    {
        if self.wants_value() {
            self.begin_node(alloc, Head::List(None))
        } else {
            match mem::replace(&mut self.place, Place::Start) {
                Place::Bracket(text) => {
                    self.open(alloc, Head::List(Some(text)))?;
                    Ok(())
                }
                _ => Err(Stop::Refused(Cause::Bad)),
            }
        }
    }

    /// Takes `{`.
    fn begin_map(&mut self, alloc: Global) -> Result<(), Stop>
        requires { Fine self.old }
        ensures state { Steps result (state_of self.new) (mark_step self.old.limit Mark.BeginMap (state_of self.old)) }
        ensures fine { OnOk result (Fine self.new) }
        ensures limit { self.new.limit ≡ self.old.limit }
    {
        if self.wants_value() {
            self.begin_node(alloc, Head::Map(None))
        } else {
            match mem::replace(&mut self.place, Place::Start) {
                Place::Bracket(text) => {
                    self.open(alloc, Head::Map(Some(text)))?;
                    Ok(())
                }
                _ => Err(Stop::Refused(Cause::Bad)),
            }
        }
    }

    /// Takes `(`.
    fn begin_object(&mut self, alloc: Global) -> Result<(), Stop>
        requires { Fine self.old }
        ensures state { Steps result (state_of self.new) (mark_step self.old.limit Mark.BeginFields (state_of self.old)) }
        ensures fine { OnOk result (Fine self.new) }
        ensures limit { self.new.limit ≡ self.old.limit }
    {
        match mem::replace(&mut self.place, Place::Start) {
            Place::Bracket(name) => {
                self.open(alloc, Head::Object(name))?;
                Ok(())
            }
            _ => Err(Stop::Refused(Cause::Bad)),
        }
    }

    /// Begins a node without a type, where there is room for it.
    fn begin_node(&mut self, alloc: Global, head: Head) -> Result<(), Stop>
        requires { Fine self.old }
        ensures state { Steps result (state_of self.new) (room self.old.limit (state_of self.old) (opens head (state_of self.old))) }
        ensures fine { OnOk result (Fine self.new) }
        ensures limit { self.new.limit ≡ self.old.limit }
    {
        if self.nodes.len() >= self.limit {
            return Err(Stop::Refused(Cause::TooMany));
        }
        self.open(alloc, head)?;
        Ok(())
    }

    /// Ends the node, where this mark fits it.
    fn end_node(&mut self, fits: bool) -> Result<(), Stop>
        requires { Fine self.old }
        ensures state { Steps result (state_of self.new) (end_step fits (state_of self.old)) }
        ensures fine { OnOk result (Fine self.new) }
        ensures limit { self.new.limit ≡ self.old.limit }
    {
        match self.end(fits) {
            Ok(()) => Ok(()),
            Err(cause) => Err(Stop::Refused(cause)),
        }
    }

    /// Takes `,`.
    fn take_comma(&mut self) -> Result<(), Stop>
        requires { Fine self.old }
        ensures state { Steps result (state_of self.new) (mark_step self.old.limit Mark.Comma (state_of self.old)) }
        ensures fine { OnOk result (Fine self.new) }
        ensures limit { self.new.limit ≡ self.old.limit }
    {
        if !self.may_go_on() {
            return Err(Stop::Refused(Cause::Bad));
        }
        self.place = Place::Next;
        Ok(())
    }

    /// Takes `:`.
    fn take_colon(&mut self) -> Result<(), Stop>
        requires { Fine self.old }
        ensures state { Steps result (state_of self.new) (mark_step self.old.limit Mark.Colon (state_of self.old)) }
        ensures fine { OnOk result (Fine self.new) }
        ensures limit { self.new.limit ≡ self.old.limit }
    {
        if !self.wants_colon() {
            return Err(Stop::Refused(Cause::Bad));
        }
        self.place = Place::Value;
        Ok(())
    }

    /// Takes `!`.
    fn take_named(&mut self) -> Result<(), Stop>
        requires { Fine self.old }
        ensures state { Steps result (state_of self.new) (mark_step self.old.limit Mark.Named (state_of self.old)) }
        ensures fine { OnOk result (Fine self.new) }
        ensures limit { self.new.limit ≡ self.old.limit }
    {
        if !self.wants_value() {
            return Err(Stop::Refused(Cause::Bad));
        }
        if self.nodes.len() >= self.limit {
            return Err(Stop::Refused(Cause::TooMany));
        }
        self.place = Place::Type;
        Ok(())
    }
}
