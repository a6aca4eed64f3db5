//! The state of a reading between two elements.

ghost use Rattle.std.specs.Prelude.{◌≡◌, ◌++◌, ◌∷◌, ◌<◌, [], length, true, Ok, Some, OnOk};
ghost use Rattle.hessian_reader.specs.Leaves.{node_limit};
ghost use Rattle.hessian_reader.specs.States.{start, begins_node, takes_value, moves_to, learns_type, awaits_fields, want_at, is_done};
ghost use Rattle.hessian_reader.specs.Steps.{at_value, may_end, end_step, behind_type, class_step, reference_step, type_step, length_step, count_step, number_step, words_step, node_step, header_step, head_step, take_element};
ghost use Rattle.hessian_reader.specs.Views.{state_of, Does, Builds, HasRoom};
ghost use Rattle.hessian_reader.specs.declared.stop.Stop.TheVariants.{Objects};
ghost use Rattle.hessian_reader.specs.declared.stop.Objection.TheVariants.{TooMany};

use crate::element::{Element, Form, Head, Want, natural};
use crate::names::NameTables;
use crate::place::{ClassSoFar, Place};
use crate::stop::{Objection, Stop};
use crate::store::{Lacks, OpenNode, Store};
use crate::table::Sort;
use hessian_graph::{Chars, Value};
use std::alloc::{AllocError, Global};
use std::mem;

/// How many nodes one reading may begin.
pub const NODE_LIMIT: usize = 1_000_000;

/// What the elements made, and what comes next.
#[derive(Drop)]
pub struct Work {
    /// The roots and nodes.
    pub store: Store,
    /// The types and classes.
    pub names: NameTables,
    /// What the next element stands for.
    pub place: Place,
}

impl Work {
    /// Nothing yet, of so many roots.
    pub fn new(alloc: Global, roots: u32) -> Work
        ensures { state_of result ≡ start roots }
    {
        Work {
            store: Store::new(alloc, roots),
            names: NameTables::new(alloc),
            place: Place::AtValue,
        }
    }

    /// Refuses one node too many.
    fn room(&self) -> Result<(), Stop>
        ensures { HasRoom result (length self.now.store.nodes) }
    {
        if self.store.nodes.len() >= NODE_LIMIT {
            return Err(Stop::Objects(Objection::TooMany));
        }
        Ok(())
    }

    /// Takes a value.
    fn give(&mut self, value: Value) -> Result<(), AllocError>
        ensures { OnOk result (state_of self.new ≡ takes_value value (state_of self.old)) }
    {
        self.store.give(value)?;
        self.place = Place::AtValue;
        Ok(())
    }

    /// Begins a node.
    fn begin(&mut self, lacks: Lacks, sort: Sort) -> Result<(), Stop>
        ensures { Does result (state_of self.new) (Ok (begins_node lacks sort (state_of self.old))) }
    {
        self.store.begin(lacks, sort)?;
        self.place = Place::AtValue;
        Ok(())
    }

    /// Ends the innermost node.
    fn pop(&mut self) -> Result<(), Stop>
        ensures { Does result (state_of self.new) (end_step (state_of self.old).built.open_nodes (state_of self.old)) }
    {
        match self.store.open_nodes.pop() {
            Some(
                OpenNode {
                    node: _,
                    lacks: Lacks::ToEnd,
                },
            ) => Ok(()),
            Some(
                OpenNode {
                    node: _,
                    lacks: Lacks::Key,
                },
            ) => Ok(()),
            _ => Err(Stop::Objects(Objection::NoEnd)),
        }
    }

    /// Takes a `Z`.
    fn end(&mut self) -> Result<(), Stop>
        ensures { Does result (state_of self.new) (may_end self.old.place (end_step (state_of self.old).built.open_nodes (state_of self.old))) }
    {
        match self.place {
            Place::AtValue => self.pop(),
            Place::AtDefined => Err(Stop::Objects(Objection::NoEnd)),
            _ => Err(Stop::Objects(Objection::Misplaced)),
        }
    }

    /// Begins an object of a class.
    fn object(&mut self, number: i32) -> Result<(), Stop>
        ensures { Does result (state_of self.new) (class_step number (state_of self.old)) }
    {
        if let Some(class) = natural(number) {
            if let Some(count) = self.names.fields_of(class) {
                return self.begin(Lacks::Count(count), Sort::Object(class));
            }
        }
        Err(Stop::Objects(Objection::NoClass(number)))
    }

    /// Goes on to another place.
    fn move_to(&mut self, place: Place)
        ensures { state_of self.new ≡ moves_to place (state_of self.old) }
    {
        self.place = place;
    }

    /// Takes the code of a node whose header goes on.
    fn header(&mut self, place: Place) -> Result<(), Stop>
        ensures { Does result (state_of self.new) (header_step place (state_of self.old)) }
    {
        self.room()?;
        self.move_to(place);
        Ok(())
    }

    /// Takes the code of a node that begins with it.
    fn node(&mut self, lacks: Lacks, sort: Sort) -> Result<(), Stop>
        ensures { Does result (state_of self.new) (node_step lacks sort (state_of self.old)) }
    {
        self.room()?;
        self.begin(lacks, sort)
    }

    /// Takes the code of an object whose class number it has.
    fn short_object(&mut self, number: u8) -> Result<(), Stop>
        ensures { Does result (state_of self.new) (head_step (Head.ShortObject number) (state_of self.old)) }
    {
        self.room()?;
        self.object(i32::from(number))
    }

    /// Takes a code that begins no leaf.
    fn head(&mut self, head: Head) -> Result<(), Stop>
        ensures { Does result (state_of self.new) (head_step head (state_of self.old)) }
    {
        match head {
            Head::Refer => {
                self.move_to(Place::AtReference);
                Ok(())
            }
            Head::ShortList(count) => self.node(Lacks::Count(count), Sort::List(None)),
            Head::OpenList => self.node(Lacks::ToEnd, Sort::List(None)),
            Head::LongList => self.header(Place::AtLength(None)),
            Head::Typed(form) => self.header(Place::AtType(form)),
            Head::OpenMap => self.node(Lacks::Key, Sort::Map(None)),
            Head::Define => {
                self.move_to(Place::AtName);
                Ok(())
            }
            Head::ShortObject(number) => self.short_object(number),
            Head::LongObject => self.header(Place::AtClass),
            Head::End => self.end(),
        }
    }

    /// Takes the number of a reference.
    fn reference(&mut self, number: i32) -> Result<(), Stop>
        ensures { Does result (state_of self.new) (reference_step number (state_of self.old)) }
    {
        if let Some(node) = natural(number) {
            if (node as usize) < self.store.nodes.len() {
                self.give(Value::Node(node))?;
                return Ok(());
            }
        }
        Err(Stop::Objects(Objection::NoNode(number)))
    }

    /// Goes on behind a type.
    fn behind_type(&mut self, form: Form, number: u32) -> Result<(), Stop>
        ensures { Does result (state_of self.new) (Ok (behind_type form (Some number) (state_of self.old))) }
    {
        match form {
            Form::Open => self.begin(Lacks::ToEnd, Sort::List(Some(number))),
            Form::Long => {
                self.move_to(Place::AtLength(Some(number)));
                Ok(())
            }
            Form::Short(count) => self.begin(Lacks::Count(count), Sort::List(Some(number))),
            Form::Pairs => self.begin(Lacks::Key, Sort::Map(Some(number))),
        }
    }

    /// Takes the number of a type.
    fn type_number(&mut self, form: Form, number: i32) -> Result<(), Stop>
        ensures { Does result (state_of self.new) (type_step form number (state_of self.old)) }
    {
        if let Some(place) = natural(number) {
            if (place as usize) < self.names.types() {
                return self.behind_type(form, place);
            }
        }
        Err(Stop::Objects(Objection::NoType(number)))
    }

    /// Takes the length of a list.
    fn list_length(&mut self, type_number: Option<u32>, number: i32) -> Result<(), Stop>
        ensures { Does result (state_of self.new) (length_step type_number number (state_of self.old)) }
    {
        match natural(number) {
            Some(count) => self.begin(Lacks::Count(count as usize), Sort::List(type_number)),
            None => Err(Stop::Objects(Objection::NoLength(number))),
        }
    }

    /// Waits for so many fields of a class.
    fn await_fields(&mut self, class: ClassSoFar, left: usize) -> Result<(), AllocError>
        ensures { OnOk result (state_of self.new ≡ awaits_fields class left (state_of self.old)) }
    {
        if left == 0 {
            self.names.add_class(class)?;
            self.place = Place::AtDefined;
        } else {
            self.place = Place::AtField(class, left);
        }
        Ok(())
    }

    /// Takes the number of a class's fields.
    fn count(&mut self, name: Chars, number: i32) -> Result<(), Stop>
        ensures { Does result (state_of self.new) (count_step name number (state_of self.old)) }
    {
        let alloc = self.store.alloc;
        if let Some(count) = natural(number) {
            self.await_fields(ClassSoFar::new(alloc, name), count as usize)?;
            return Ok(());
        }
        Err(Stop::Objects(Objection::NoLength(number)))
    }

    /// Takes an int.
    fn number(&mut self, number: i32) -> Result<(), Stop>
        ensures { Does result (state_of self.new) (number_step self.old.place number (state_of self.old)) }
    {
        match mem::replace(&mut self.place, Place::AtValue) {
            Place::AtReference => self.reference(number),
            Place::AtType(form) => self.type_number(form, number),
            Place::AtLength(type_number) => self.list_length(type_number, number),
            Place::AtClass => self.object(number),
            Place::AtCount(name) => self.count(name, number),
            _ => Err(Stop::Objects(Objection::Misplaced)),
        }
    }

    /// Takes a type that is a text.
    fn type_text(&mut self, form: Form, text: Chars) -> Result<(), Stop>
        ensures { Does result (state_of self.new) (words_step (Place.AtType form) text (state_of self.old)) }
    {
        // There are never more types than nodes and one.
        let Ok(number) = u32::try_from(self.names.types()) else {
            return Err(Stop::NoMemory);
        };
        self.names.add_type(text)?;
        self.behind_type(form, number)
    }

    /// Takes the name of a field.
    fn field(&mut self, class: ClassSoFar, left: usize, text: Chars) -> Result<(), Stop>
        ensures { Does result (state_of self.new) (words_step (Place.AtField class left) text (state_of self.old)) }
    {
        let mut class = class;
        class.push(text)?;
        self.await_fields(class, left.saturating_sub(1))?;
        Ok(())
    }

    /// Takes a text that is no value.
    fn words(&mut self, text: Chars) -> Result<(), Stop>
        ensures { Does result (state_of self.new) (words_step self.old.place text (state_of self.old)) }
    {
        match mem::replace(&mut self.place, Place::AtValue) {
            Place::AtType(form) => self.type_text(form, text),
            Place::AtName => {
                self.place = Place::AtCount(text);
                Ok(())
            }
            Place::AtField(class, left) => self.field(class, left, text),
            _ => Err(Stop::Objects(Objection::Misplaced)),
        }
    }

    /// Takes a leaf in a value's place.
    fn plain(&mut self, value: Value) -> Result<(), Stop>
        ensures { Does result (state_of self.new) (at_value self.old.place (Ok (takes_value value (state_of self.old)))) }
    {
        match self.place {
            Place::AtValue => {}
            Place::AtDefined => {}
            _ => return Err(Stop::Objects(Objection::Misplaced)),
        }
        self.give(value)?;
        Ok(())
    }

    /// Takes a leaf in a value's place, where a value is all that may stand there.
    pub fn plain_here(&mut self, value: Value) -> Result<(), AllocError>
        requires { self.old.place ≡ Place.AtValue }
        ensures taken { OnOk result (take_element (state_of self.old) (Element.Plain value) ≡ Ok (state_of self.new)) }
        ensures place { self.new.place ≡ Place.AtValue }
    {
        self.store.give(value)?;
        Ok(())
    }

    /// Whether a value may stand next, and no class comes before it.
    pub fn is_at_value(&self) -> bool
        ensures { result ≡ true → self.now.place ≡ Place.AtValue }
    {
        matches!(self.place, Place::AtValue)
    }

    /// Takes a code in a value's place.
    fn code(&mut self, head: Head) -> Result<(), Stop>
        ensures { Does result (state_of self.new) (at_value self.old.place (head_step head (state_of self.old))) }
    {
        match self.place {
            Place::AtValue => {}
            Place::AtDefined => {}
            _ => return Err(Stop::Objects(Objection::Misplaced)),
        }
        self.head(head)
    }

    /// Takes a whole element.
    pub fn take(&mut self, element: Element) -> Result<(), Stop>
        ensures { Does result (state_of self.new) (take_element (state_of self.old) element) }
    {
        match element {
            Element::Plain(value) => self.plain(value),
            Element::Code(head) => self.code(head),
            Element::Number(number) => self.number(number),
            Element::Words(text) => self.words(text),
        }
    }

    /// Whether the last root has ended.
    pub fn is_done(&self) -> bool
        ensures { result ≡ is_done (state_of self.now) }
    {
        match self.place {
            Place::AtValue => self.store.lacks_none(),
            _ => false,
        }
    }

    /// Which elements the place takes.
    pub fn want(&self) -> Want
        ensures { result ≡ want_at self.now.place }
    {
        match self.place {
            Place::AtValue => Want::AnyValue,
            Place::AtDefined => Want::AnyValue,
            Place::AtReference => Want::AnInt,
            Place::AtType(_) => Want::AType,
            Place::AtLength(_) => Want::AnInt,
            Place::AtClass => Want::AnInt,
            Place::AtName => Want::AText,
            Place::AtCount(_) => Want::AnInt,
            Place::AtField(_, _) => Want::AText,
        }
    }
}
