//! Tables of names in the order of first use, each name once.

ghost use Rattle.std.specs.Prelude.{◌≡◌, ◌<◌, ◌+◌, ◌∷◌, [], IfOk, OnOk, IsTrue, ◌↔◌, None, length, get_or};
ghost use Rattle.std.specs.BTreeMap.{get_by_text};
ghost use Rattle.hessian_graph.specs.Shape.{no_class};
ghost use Rattle.hessian_graph.specs.Tables.{IsNumber, Spell, Extends, words_of};
ghost use Rattle.graph_notation.specs.Naming.{TextsFit, ClassesFit, IsShown, find_key};

use hessian_graph::{Chars, Class};
use std::alloc::{AllocError, Global};
use std::collections::BTreeMap;

/// Texts with their numbers.
#[derive(Drop)]
pub struct TextTable {
    /// The number of each text.
    pub places: BTreeMap<String, usize>,
    /// The texts in the order of their numbers.
    pub texts: Vec<Chars>,
}

impl TextTable {
    /// A table without texts.
    pub fn new(alloc: Global) -> TextTable
        ensures fits { TextsFit result }
        ensures empty { result.texts.items ≡ [] }
    {
        TextTable {
            places: BTreeMap::new(alloc),
            texts: Vec::new(alloc),
        }
    }

    /// The number of a text, which is added where the table doesn't have it.
    pub fn number(&mut self, alloc: Global, text: &Chars) -> Result<usize, AllocError>
        requires fits { TextsFit self.old }
        ensures fits { OnOk result (TextsFit self.new) }
        ensures number { IfOk result (IsNumber [] self.old.texts.items self.new.texts.items text.now) }
    {
        match self.places.get(text.as_str()).copied() {
            Some(number) => Ok(number),
            None => self.add(alloc, text),
        }
    }

    /// Adds a text that the table doesn't have.
    fn add(&mut self, alloc: Global, text: &Chars) -> Result<usize, AllocError>
        requires fits { TextsFit self.old }
        requires absent { get_by_text self.old.places text.now ≡ None }
        ensures fits { OnOk result (TextsFit self.new) }
        ensures number { IfOk result (IsNumber [] self.old.texts.items self.new.texts.items text.now) }
    {
        let number = self.texts.len();
        let key = String::from_str(alloc, text.as_str())?;
        self.places.insert(key, number)?;
        self.texts.push(copy_text(alloc, text)?)?;
        Ok(number)
    }

    /// The numbers of a class's name and fields.
    fn key(&mut self, alloc: Global, class: &Class) -> Result<Vec<usize>, AllocError>
        requires fits { TextsFit self.old }
        ensures fits { OnOk result (TextsFit self.new) }
        ensures key { IfOk result (λ ns. Spell self.new.texts.items ns.items (words_of class.now)) }
        ensures grown { OnOk result (Extends self.old.texts.items self.new.texts.items) }
    {
        let mut key = Vec::new(alloc);
        let number = self.number(alloc, &class.name)?;
        key.push(number)?;
        for field in class.fields.as_slice() {
            let number = self.number(alloc, field)?;
            key.push(number)?;
        }
        Ok(key)
    }
}

/// A copy of a text.
fn copy_text(alloc: Global, text: &Chars) -> Result<Chars, AllocError>
    ensures { IfOk result (λ t. t ≡ text.now) }
{
    Ok(Chars::from(String::from_str(alloc, text.as_str())?))
}

/// Classes with their numbers.
#[derive(Drop)]
pub struct ClassTable {
    /// The names of classes and of fields.
    pub words: TextTable,
    /// The number of each class, by the numbers of its words.
    pub places: BTreeMap<Vec<usize>, usize>,
    /// The classes in the order of their numbers.
    pub rows: Vec<Class>,
    /// The number that was asked for last: the next object is often of the same class.
    pub last: usize,
}

impl ClassTable {
    /// A table without classes.
    pub fn new(alloc: Global) -> ClassTable
        ensures fits { ClassesFit result }
        ensures empty { result.rows.items ≡ [] }
    {
        let words = TextTable::new(alloc);
        let places = BTreeMap::new(alloc);
        let rows = Vec::new(alloc);
        ClassTable {
            words,
            places,
            rows,
            last: 0,
        }
    }

    /// The number of a class, which is added where the table doesn't have it.
    pub fn number(&mut self, alloc: Global, class: Class) -> Result<usize, AllocError>
        requires fits { ClassesFit self.old }
        ensures fits { OnOk result (ClassesFit self.new) }
        ensures number { IfOk result (IsNumber no_class self.old.rows.items self.new.rows.items class) }
    {
        if self.is_last(&class) {
            return Ok(self.last);
        }
        let number = self.find(alloc, class)?;
        self.last = number;
        Ok(number)
    }

    /// Whether a class is the one that was asked for last.
    fn is_last(&self, class: &Class) -> bool
        ensures { IsTrue result → IsShown self.now.rows.items self.now.last class.now }
    {
        match self.rows.get(self.last) {
            Some(row) => same_class(row, class),
            None => false,
        }
    }

    /// The number of a class by the map, to which it is added where it isn't there.
    fn find(&mut self, alloc: Global, class: Class) -> Result<usize, AllocError>
        requires fits { ClassesFit self.old }
        ensures fits { OnOk result (ClassesFit self.new) }
        ensures number { IfOk result (IsNumber no_class self.old.rows.items self.new.rows.items class) }
    {
        let key = self.words.key(alloc, &class)?;
        match self.places.get(key.as_slice()).copied() {
            Some(number) => Ok(number),
            None => self.add(class, key),
        }
    }

    /// Adds a class that the table doesn't have, under the numbers of its words.
    fn add(&mut self, class: Class, key: Vec<usize>) -> Result<usize, AllocError>
        requires fits { ClassesFit self.old }
        requires key { Spell self.old.words.texts.items key.items (words_of class) }
        requires absent { find_key self.old key.items ≡ None }
        ensures fits { OnOk result (ClassesFit self.new) }
        ensures number { IfOk result (IsNumber no_class self.old.rows.items self.new.rows.items class) }
    {
        let number = self.rows.len();
        self.places.insert(key, number)?;
        self.rows.push(class)?;
        Ok(number)
    }
}

/// Whether two texts are equal.
fn same_text(left: &Chars, right: &Chars) -> bool
    ensures { IsTrue result ↔ (left.now ≡ right.now) }
{
    left.as_str() == right.as_str()
}

/// Whether two lists of texts are equal.
fn same_texts(left: &[Chars], right: &[Chars]) -> bool
    ensures { IsTrue result ↔ (left.now ≡ right.now) }
{
    if left.len() != right.len() {
        return false;
    }
    for place in 0..left.len() {
        if !same_text(&left[place], &right[place]) {
            return false;
        }
    }
    true
}

/// Whether two classes have one name and the same fields.
fn same_class(left: &Class, right: &Class) -> bool
    ensures { IsTrue result ↔ (left.now ≡ right.now) }
{
    same_text(&left.name, &right.name)
        && same_texts(left.fields.as_slice(), right.fields.as_slice())
}
