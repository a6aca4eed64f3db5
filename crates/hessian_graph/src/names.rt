//! Tables of names in the order of first use, each name once.

ghost use Rattle.std.specs.Prelude.{◌≡◌, ℕ, ◌<◌, ◌≤◌, ◌+◌, ◌^◌, ◌∷◌, List, [], IfOk, OnOk, IsSome, Some, None, length, get_or, All, unwrap_or};
ghost use Rattle.std.specs.BTreeMap.{get_by_text};
ghost use Rattle.hessian_graph.specs.Shape.{no_class};
ghost use Rattle.hessian_graph.specs.Tables.{WordsFit, TypesFit, RowsFit, ClassesFit, IsNumber, Remembers, Spell, Extends, words_of, find_key, NumberBelow, known_number, renamed_numbers};
ghost use Rattle.hessian_graph.specs.Canon.{Rises};

use crate::copy::{copy_class, copy_text};
use crate::node::Class;
use crate::text::Chars;
use std::alloc::{AllocError, Global};
use std::collections::BTreeMap;

/// Texts with their numbers.
#[derive(Drop)]
pub struct WordTable {
    /// The number of each text.
    pub places: BTreeMap<String, usize>,
    /// The texts in the order of their numbers.
    pub texts: Vec<Chars>,
}

impl WordTable {
    /// A table without texts.
    fn new(alloc: Global) -> WordTable
        ensures fits { WordsFit result }
        ensures empty { result.texts.items ≡ [] }
    {
        WordTable {
            places: BTreeMap::new(alloc),
            texts: Vec::new(alloc),
        }
    }

    /// The number of a text, which is added where the table doesn't have it.
    fn number(&mut self, alloc: Global, text: &Chars) -> Result<usize, AllocError>
        requires fits { WordsFit self.old }
        ensures fits { OnOk result (WordsFit self.new) }
        ensures number { IfOk result (IsNumber [] self.old.texts.items self.new.texts.items text.now) }
    {
        match self.places.get(text.as_str()).copied() {
            Some(number) => Ok(number),
            None => self.add(alloc, text),
        }
    }

    /// The numbers of a class's name and fields.
    fn key(&mut self, alloc: Global, class: &Class) -> Result<Vec<usize>, AllocError>
        requires fits { WordsFit self.old }
        ensures fits { OnOk result (WordsFit self.new) }
        ensures key { IfOk result (λ ns. Spell self.new.texts.items ns.items (words_of class.now)) }
        ensures grown { OnOk result (Extends self.old.texts.items self.new.texts.items) }
    {
        let mut key = Vec::new(alloc);
        let number = self.number(alloc, &class.name)?;
        key.push(number)?;
        for field in class.fields.as_slice() {
            let number = self.number(alloc, field)?;
            key.push(number)?;
        }
        Ok(key)
    }

    /// Adds a text that the table doesn't have.
    fn add(&mut self, alloc: Global, text: &Chars) -> Result<usize, AllocError>
        requires fits { WordsFit self.old }
        requires absent { get_by_text self.old.places text.now ≡ None }
        ensures fits { OnOk result (WordsFit self.new) }
        ensures number { IfOk result (IsNumber [] self.old.texts.items self.new.texts.items text.now) }
    {
        let number = self.texts.len();
        let key = String::from_str(alloc, text.as_str())?;
        self.places.insert(key, number)?;
        self.texts.push(copy_text(alloc, text)?)?;
        Ok(number)
    }
}

/// The types of a new table, and the new number of each old one that is known.
#[derive(Drop)]
pub struct TypeTable {
    /// The types with their new numbers.
    pub words: WordTable,
    /// For each old number the new one.
    pub known: Vec<Option<u32>>,
}

impl TypeTable {
    /// A table that knows none of these types.
    pub fn new(alloc: Global, old: &[Chars]) -> Result<TypeTable, AllocError>
        ensures fits { IfOk result (TypesFit old.now) }
        ensures empty { IfOk result (λ t. t.words.texts.items ≡ []) }
    {
        let mut known = Vec::new(alloc);
        for _text in old {
            known.push(None)?;
        }
        let words = WordTable::new(alloc);
        Ok(TypeTable { words, known })
    }

    /// The new number of an old type, where a node has one and it's known.
    pub fn renamed(&self, number: Option<u32>) -> Option<u32>
        requires { NumberBelow (length self.now.known.items) number }
        ensures { result ≡ known_number self.now.known.items number }
    {
        match number {
            Some(number) => self.known[number as usize],
            None => None,
        }
    }

    /// Makes the new number of an old type known.
    pub fn learn(&mut self, alloc: Global, old: &[Chars], number: u32) -> Result<(), AllocError>
        requires fits { TypesFit old.now self.old }
        requires within { number < length old.now }
        requires room { length self.old.words.texts.items < 2 ^ 32 }
        ensures fits { OnOk result (TypesFit old.now self.new) }
        ensures known { OnOk result (IsSome (get_or self.new.known.items number None)) }
        ensures remembers { OnOk result (Remembers self.old.known.items self.new.known.items) }
        ensures room { OnOk result (length self.new.words.texts.items ≤ length self.old.words.texts.items + 1) }
        ensures next { OnOk result (Rises (length self.old.words.texts.items) (renamed_numbers self.new.known.items (number ∷ []))
            (length self.new.words.texts.items)) }
    {
        if self.known[number as usize].is_none() {
            let place = self.words.number(alloc, &old[number as usize])?;
            self.known[number as usize] = Some(place as u32);
        }
        Ok(())
    }
}

/// The classes of a new table, and the new number of each old one that is known.
#[derive(Drop)]
pub struct ClassTable {
    /// The names of classes and of fields.
    pub words: WordTable,
    /// The number of each class, by the numbers of its words.
    pub places: BTreeMap<Vec<usize>, usize>,
    /// The classes in the order of their numbers.
    pub rows: Vec<Class>,
    /// For each old number the new one.
    pub known: Vec<Option<u32>>,
}

impl ClassTable {
    /// A table that knows none of these classes.
    pub fn new(alloc: Global, old: &[Class]) -> Result<ClassTable, AllocError>
        ensures fits { IfOk result (ClassesFit old.now) }
        ensures empty { IfOk result (λ t. t.rows.items ≡ []) }
    {
        let mut known = Vec::new(alloc);
        for _class in old {
            known.push(None)?;
        }
        let words = WordTable::new(alloc);
        let places = BTreeMap::new(alloc);
        let rows = Vec::new(alloc);
        Ok(ClassTable {
            words,
            places,
            rows,
            known,
        })
    }

    /// The number of a class, which is added where the table doesn't have it.
    fn number(&mut self, alloc: Global, class: &Class) -> Result<usize, AllocError>
        requires fits { RowsFit self.old }
        ensures fits { OnOk result (RowsFit self.new) }
        ensures number { IfOk result (IsNumber no_class self.old.rows.items self.new.rows.items class.now) }
        ensures known { self.new.known ≡ self.old.known }
    {
        let key = self.words.key(alloc, class)?;
        match self.places.get(key.as_slice()).copied() {
            Some(number) => Ok(number),
            None => self.add(alloc, class, key),
        }
    }

    /// Adds a class that the table doesn't have, under the numbers of its words.
    fn add(&mut self, alloc: Global, class: &Class, key: Vec<usize>) -> Result<usize, AllocError>
        requires fits { RowsFit self.old }
        requires key { Spell self.old.words.texts.items key.items (words_of class.now) }
        requires absent { find_key self.old key.items ≡ None }
        ensures fits { OnOk result (RowsFit self.new) }
        ensures number { IfOk result (IsNumber no_class self.old.rows.items self.new.rows.items class.now) }
        ensures known { self.new.known ≡ self.old.known }
    {
        let number = self.rows.len();
        self.places.insert(key, number)?;
        self.rows.push(copy_class(alloc, class)?)?;
        Ok(number)
    }

    /// The new number of an old class, where it's known.
    pub fn renamed(&self, number: u32) -> u32
        requires { number < length self.now.known.items }
        ensures { result ≡ unwrap_or (get_or self.now.known.items number None) 0 }
    {
        self.known[number as usize].unwrap_or(0)
    }

    /// Makes the new number of an old class known.
    pub fn learn(&mut self, alloc: Global, old: &[Class], number: u32) -> Result<(), AllocError>
        requires fits { ClassesFit old.now self.old }
        requires within { number < length old.now }
        requires room { length self.old.rows.items < 2 ^ 32 }
        ensures fits { OnOk result (ClassesFit old.now self.new) }
        ensures known { OnOk result (IsSome (get_or self.new.known.items number None)) }
        ensures remembers { OnOk result (Remembers self.old.known.items self.new.known.items) }
        ensures room { OnOk result (length self.new.rows.items ≤ length self.old.rows.items + 1) }
        ensures next { OnOk result (Rises (length self.old.rows.items) (renamed_numbers self.new.known.items (number ∷ []))
            (length self.new.rows.items)) }
    {
        if self.known[number as usize].is_none() {
            let place = self.number(alloc, &old[number as usize])?;
            self.known[number as usize] = Some(place as u32);
        }
        Ok(())
    }
}

/// The tables of new names.
#[derive(Drop)]
pub struct Names {
    /// The types.
    pub types: TypeTable,
    /// The classes.
    pub classes: ClassTable,
}
