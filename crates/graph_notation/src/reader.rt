//! A reading, element by element, with a stack of its own.

ghost use Rattle.std.specs.Prelude.{◌≡◌, ◌+◌, ◌<◌, ◌≤◌, ◌^◌, ◌∷◌, ◌++◌, [], length, set, reverse, map, OnOk, IfOk, None, Some};
ghost use Rattle.hessian_graph.specs.declared.value.Value.TheVariants.{Node};
ghost use Rattle.graph_notation.specs.declared.frame.Head.TheVariants.{List};
ghost use Rattle.graph_notation.specs.Machine.{start, new_frame, flips, wants_value, may_end, may_go_on, wants_colon, is_list, is_map, is_object, is_whole, fed, gives, opens, closed, end_step, name_step};
ghost use Rattle.graph_notation.specs.View.{state_of, Fine, Steps, Goes};

mod taking;

use crate::frame::{Cause, Frame, Head, Place};
use crate::lists::{Names, Values};
use crate::stop::Stop;
use hessian_graph::{Chars, Value};
use std::alloc::{AllocError, Global};
use std::mem;

/// What has been read: nodes, and the one that is being read, with those around it.
#[derive(Drop)]
pub struct Reader {
    /// The nodes that have begun. One that isn't whole is an empty list.
    pub nodes: Vec<Frame>,
    /// The innermost node that isn't whole, or the roots.
    pub frame: Frame,
    /// What is around it, the innermost last.
    pub under: Vec<Frame>,
    /// What may come next.
    pub place: Place,
    /// The most nodes that may begin.
    pub limit: usize,
}

/// A node of which nothing is read.
fn begin(alloc: Global, number: u32, head: Head) -> Frame
    ensures { result ≡ new_frame number head }
{
    Frame {
        number,
        head,
        names: Names::new(alloc),
        values: Values::new(alloc),
        keyed: false,
    }
}

/// Whether a key waits behind one value more.
fn flip(head: &Head, keyed: bool) -> bool
    ensures { result ≡ flips head.now keyed }
{
    match head {
        Head::List(_) => false,
        Head::Map(_) => !keyed,
        Head::Object(_) => false,
    }
}

impl Reader {
    /// A reading of which nothing has come.
    pub fn new(alloc: Global, limit: usize) -> Reader
        requires { limit < 2 ^ 32 }
        ensures state { state_of result ≡ start }
        ensures fine { Fine result }
        ensures limit { result.limit ≡ limit }
    {
        Reader {
            nodes: Vec::new(alloc),
            frame: begin(alloc, 0, Head::List(None)),
            under: Vec::new(alloc),
            place: Place::Start,
            limit,
        }
    }

    /// Whether a value may come.
    fn wants_value(&self) -> bool
        ensures { result ≡ wants_value self.now.place self.now.frame.head }
    {
        match self.place {
            Place::Start | Place::Next => !self.is_object(),
            Place::Value => true,
            _ => false,
        }
    }

    /// Whether the node that is being read is an object.
    fn is_object(&self) -> bool
        ensures { result ≡ is_object self.now.frame.head }
    {
        match self.frame.head {
            Head::Object(_) => true,
            _ => false,
        }
    }

    /// Whether the node that is being read is a map.
    fn is_map(&self) -> bool
        ensures { result ≡ is_map self.now.frame.head }
    {
        match self.frame.head {
            Head::Map(_) => true,
            _ => false,
        }
    }

    /// Whether the node that is being read is a list, as the roots are.
    fn is_list(&self) -> bool
        ensures { result ≡ is_list self.now.frame.head }
    {
        match self.frame.head {
            Head::List(_) => true,
            _ => false,
        }
    }

    /// Whether the node may end.
    fn may_end(&self) -> bool
        ensures { result ≡ may_end self.now.place self.now.frame.keyed }
    {
        match self.place {
            Place::Start | Place::After => !self.frame.keyed,
            _ => false,
        }
    }

    /// Whether a comma may come.
    fn may_go_on(&self) -> bool
        ensures { result ≡ may_go_on self.now.place self.now.frame.keyed }
    {
        match self.place {
            Place::After => !self.frame.keyed,
            _ => false,
        }
    }

    /// Whether a colon may come.
    fn wants_colon(&self) -> bool
        ensures { result ≡ wants_colon self.now.place self.now.frame.keyed }
    {
        match self.place {
            Place::AfterField => true,
            Place::After => self.frame.keyed,
            _ => false,
        }
    }

    /// Gives a value to the node that is being read.
    #[inline(always)]
    fn give(&mut self, value: Value) -> Result<(), AllocError>
        ensures frame { OnOk result (self.new.frame ≡ fed value self.old.frame) }
        ensures nodes { self.new.nodes ≡ self.old.nodes }
        ensures under { self.new.under ≡ self.old.under }
        ensures place { OnOk result (self.new.place ≡ Place.After) }
        ensures limit { self.new.limit ≡ self.old.limit }
    {
        self.frame.values.add(value)?;
        self.frame.keyed = flip(&self.frame.head, self.frame.keyed);
        self.place = Place::After;
        Ok(())
    }

    /// Begins a node.
    fn open(&mut self, alloc: Global, head: Head) -> Result<(), AllocError>
        requires room { length self.old.nodes.items < self.old.limit }
        requires small { self.old.limit < 2 ^ 32 }
        ensures state { OnOk result (state_of self.new ≡ opens head (state_of self.old)) }
        ensures fine { OnOk result (Fine self.new) }
        ensures limit { self.new.limit ≡ self.old.limit }
    {
        let number = self.nodes.len() as u32;
        self.give(Value::Node(number))?;
        self.nodes.push(begin(alloc, 0, Head::List(None)))?;
        let outer = mem::replace(&mut self.frame, begin(alloc, number, head));
        self.under.push(outer)?;
        self.place = Place::Start;
        Ok(())
    }

    /// Ends the node that is being read.
    fn close(&mut self) -> Result<(), Cause>
        requires { Fine self.old }
        ensures state { Goes result (state_of self.new) (closed (reverse self.old.under.items) (state_of self.old)) }
        ensures fine { OnOk result (Fine self.new) }
        ensures limit { self.new.limit ≡ self.old.limit }
    {
        match self.under.pop() {
            Some(outer) => {
                self.place = Place::After;
                let whole = mem::replace(&mut self.frame, outer);
                self.keep(whole);
                Ok(())
            }
            None => Err(Cause::Bad),
        }
    }

    /// Puts a whole node at its number.
    fn keep(&mut self, whole: Frame)
        ensures nodes { self.new.nodes.items ≡ set self.old.nodes.items whole.number whole }
        ensures frame { self.new.frame ≡ self.old.frame }
        ensures under { self.new.under ≡ self.old.under }
        ensures place { self.new.place ≡ self.old.place }
        ensures limit { self.new.limit ≡ self.old.limit }
    {
        let number = whole.number as usize;
        if number < self.nodes.len() {
            self.nodes[number] = whole;
        }
    }

    /// Ends the node, where its end may come and this mark fits it.
    fn end(&mut self, fits: bool) -> Result<(), Cause>
        requires { Fine self.old }
        ensures state { Goes result (state_of self.new) (end_step fits (state_of self.old)) }
        ensures fine { OnOk result (Fine self.new) }
        ensures limit { self.new.limit ≡ self.old.limit }
    {
        if self.may_end() && fits {
            self.close()
        } else {
            Err(Cause::Bad)
        }
    }

    /// Takes a text that is no value.
    fn name(&mut self, text: Chars) -> Result<(), Stop>
        requires { Fine self.old }
        ensures state { Steps result (state_of self.new) (name_step self.old.place text (state_of self.old)) }
        ensures fine { OnOk result (Fine self.new) }
        ensures limit { self.new.limit ≡ self.old.limit }
    {
        match self.place {
            Place::Start | Place::Next => {
                self.frame.names.add(text)?;
                self.place = Place::AfterField;
                Ok(())
            }
            Place::Type => {
                self.place = Place::Bracket(text);
                Ok(())
            }
            _ => Err(Stop::Refused(Cause::Bad)),
        }
    }
}
