ghost use Rattle.std.specs.Prelude.{◌≡◌, ◌↔◌, ◌<◌, [], ℕ, IfOk, IfSome, IfNone, IsTrue, MatchOption, Some, length, slice_get};
ghost use Rattle.std.specs.List.{HoldsAt};
ghost use Rattle.symmetric_trees.specs.Generators as spec;

use sqlite_items::Items;
use std::alloc::{AllocError, Global};
use std::marker::Model;
use thiserror::Error;

/// The name of a generator: any text, which contracts see as its bytes.
#[derive(Debug, Drop)]
pub struct Name {
    text: String,
}

impl Model for Name {
    ghost use Rattle.std.specs.Prelude.{List, ℕ, string_bytes};

    ghost Value = { List ℕ };

    ghost view = { λ name. string_bytes name.text };
}

impl Name {
    /// The name that this text is. `AllocError` comes for want of memory alone.
    pub fn new(alloc: Global, text: &str) -> Result<Name, AllocError>
        ensures bytes { IfOk result (λ name. name ≡ text.now) }
    {
        Ok(Name {
            text: String::from_str(alloc, text)?,
        })
    }

    /// The name as text.
    pub fn as_str(&self) -> &str
        ensures bytes { result.now ≡ self.now }
    {
        self.text.as_str()
    }

    /// An equal name. `AllocError` comes for want of memory alone.
    pub fn copy(&self, alloc: Global) -> Result<Name, AllocError>
        ensures same { IfOk result (λ name. name ≡ self.now) }
    {
        Name::new(alloc, self.text.as_str())
    }
}

/// What becomes of a tree when two inputs of a part change places.
#[derive(Clone, Copy, Debug, PartialEq, Eq)]
pub enum PartKind {
    /// Symmetric: the tree stays the same.
    Sym,
    /// Skew: the tree changes its sign.
    Alt,
    /// The inputs can't change places.
    Free,
}

/// A part: `size` consecutive inputs of a generator, all of one kind.
#[derive(Clone, Copy, Debug, PartialEq, Eq)]
pub struct Part {
    pub kind: PartKind,
    pub size: u8,
}

/// A generator: its name, how many inputs it has, and the parts into which they fall, from left to right.
/// The fields are free here; in a `GenTable` the arity is from 2 to 6, each size is one or more,
/// and the sizes add up to the arity.
#[derive(Debug, Drop)]
pub struct Generator {
    pub name: Name,
    pub arity: u8,
    pub parts: Items<Part>,
}

impl Generator {
    /// An equal generator. `AllocError` comes for want of memory alone.
    pub fn copy(&self, alloc: Global) -> Result<Generator, AllocError>
        ensures same { IfOk result (λ generator. generator ≡ self.now) }
    {
        Ok(Generator {
            name: self.name.copy(alloc)?,
            arity: self.arity,
            parts: Items::from_slice(alloc, self.parts.as_slice())?,
        })
    }

    fn is_named(&self, name: &str) -> bool
        ensures { IsTrue result ↔ spec.IsNamed name.now self.now }
    {
        self.name.as_str() == name
    }

    // Whether each size is one or more, and the sizes add up to the arity.
    fn sizes_fit(&self) -> bool
        ensures { IsTrue result ↔ spec.SizesFit self.now }
    {
        let mut left = self.arity;
        for part in self.parts.as_slice() {
            if part.size == 0 || part.size > left {
                return false;
            }
            left -= part.size;
        }
        left == 0
    }
}

/// Why a generator isn't added to a table. Where several hold, `GenTable::add` says which one is answered.
#[derive(Clone, Copy, Debug, PartialEq, Eq, Error)]
pub enum GenFail {
    /// A generator of the table has this name.
    #[error("the table holds the name")]
    NameTaken,
    /// The arity is below 2 or above 6.
    #[error("the arity isn't from 2 to 6")]
    ArityOut,
    /// The table holds twelve generators, as many as it may.
    #[error("the table holds twelve generators")]
    TooManyGens,
    /// A part has the size 0, or the sizes don't add up to the arity.
    #[error("the sizes of the parts don't fit the arity")]
    PartsOut,
    /// Nothing stands against the generator, but memory has run out.
    #[error("out of memory")]
    NoMemory,
}

/// At most twelve generators with different names, each with an arity from 2 to 6 and parts that fit it.
/// A generator's index is how many were added before it. Contracts see the list of the generators.
#[derive(Debug, Drop)]
pub struct GenTable {
    generators: Items<Generator>,
}

impl Model for GenTable {
    ghost use Rattle.std.specs.Prelude.{List};
    ghost use Rattle.symmetric_trees.specs.declared.generators.Generator.{Generator};
    ghost use Rattle.symmetric_trees.specs.Generators.{IsTable};

    ghost Value = { List Generator };

    ghost view = { λ table. table.generators };

    ghost invariant = { λ table. IsTable table.generators };
}

/// How many generators a table may hold.
pub const MOST_GENERATORS: u16 = 12;

impl GenTable {
    /// A table without generators. It takes no memory yet.
    pub fn new(alloc: Global) -> GenTable
        ensures empty { result ≡ [] }
    {
        GenTable {
            generators: Items::new(alloc),
        }
    }

    /// How many generators the table holds, at most 12.
    pub fn len(&self) -> u16
        ensures length { result ≡ length self.now }
        ensures table { spec.IsTable self.now }
    {
        self.generators.len() as u16
    }

    /// The generator with this index, from 0 to below `len()`.
    pub fn get(&self, index: u16) -> &Generator
        requires held { index < length self.now }
        ensures found { slice_get self.now index ≡ Some result.now }
        ensures table { spec.IsTable self.now }
    {
        &self.generators.as_slice()[index as usize]
    }

    /// The index of the generator with this name, below `len()`; `None` exactly where no generator has it.
    pub fn find(&self, name: &str) -> Option<u16>
        ensures found { IfSome result (λ index. (index < length self.now) × HoldsAt (spec.IsNamed name.now) self.now index) }
        ensures absent { IfNone result (spec.IsTaken name.now self.now → ⊥) }
    {
        for index in 0..self.len() {
            if self.get(index).is_named(name) {
                return Some(index);
            }
        }
        None
    }

    /// Puts a generator behind the others. The first of these that holds is answered: `TooManyGens` where 12 generators
    /// are held, `NameTaken` where the name is held, `ArityOut` where the arity isn't from 2 to 6, `PartsOut` where
    /// a size is 0 or the sizes don't add up to the arity. Where none holds, the generator is added, or `NoMemory`
    /// comes for want of memory. After an error the table is as before.
    pub fn add(&mut self, _alloc: Global, generator: Generator) -> Result<(), GenFail>
        ensures answer { spec.GeneratorIsAdded self.old generator result self.new }
    {
        if let Some(fail) = self.refusal(&generator) {
            return Err(fail);
        }
        match self.generators.push(generator) {
            Ok(()) => Ok(()),
            Err(_) => Err(GenFail::NoMemory),
        }
    }

    // The first thing that stands against a generator.
    fn refusal(&self, generator: &Generator) -> Option<GenFail>
        ensures { MatchOption result (spec.MayBeAdded self.now generator.now) (spec.Refuses self.now generator.now) }
    {
        if self.generators.len() == usize::from(MOST_GENERATORS) {
            return Some(GenFail::TooManyGens);
        }
        if self.is_taken(generator.name.as_str()) {
            return Some(GenFail::NameTaken);
        }
        if generator.arity < 2 || generator.arity > 6 {
            return Some(GenFail::ArityOut);
        }
        if !generator.sizes_fit() {
            return Some(GenFail::PartsOut);
        }
        None
    }

    fn is_taken(&self, name: &str) -> bool
        ensures { IsTrue result ↔ spec.IsTaken name.now self.now }
    {
        match self.find(name) {
            Some(_) => true,
            None => false,
        }
    }

    /// An equal table, in the same order. `AllocError` comes for want of memory alone.
    pub fn copy(&self, alloc: Global) -> Result<GenTable, AllocError>
        ensures same { IfOk result (λ table. table ≡ self.now) }
    {
        let mut generators = Items::new(alloc);
        for generator in self.generators.as_slice() {
            generators.push(generator.copy(alloc)?)?;
        }
        Ok(GenTable { generators })
    }
}
