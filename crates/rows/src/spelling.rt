use crate::fail::RowFail;
use labelled_trees::Tree;
use shuffle_trees::STree;
use sqlite_items::Items;
use std::alloc::Global;
use std::mem;

// A vertex whose inputs are being read, and the trees before it.
#[derive(Drop)]
struct Open {
    label: u16,
    before: Items<Tree>,
}

// What was read of a tree: the vertices around the place, the trees there, and the number that ends there.
#[derive(Drop)]
struct Reader {
    open: Vec<Open>,
    trees: Items<Tree>,
    number: Option<u16>,
}

// The number with a digit behind it.
fn longer(number: Option<u16>, digit: u8) -> u16 {
    number
        .unwrap_or(0)
        .saturating_mul(10)
        .saturating_add(u16::from(digit))
}

impl Reader {
    // A number that isn't the label of a vertex is a leaf.
    fn end_number(&mut self) -> Result<(), RowFail> {
        let Some(number) = self.number else {
            return Ok(());
        };
        self.number = None;
        match u8::try_from(number) {
            Ok(leaf) => Ok(self.trees.push(Tree::Leaf(leaf))?),
            Err(_) => Err(RowFail::Refused),
        }
    }

    fn begin_vertex(&mut self, alloc: Global) -> Result<(), RowFail> {
        let Some(label) = self.number else {
            return Err(RowFail::Refused);
        };
        self.number = None;
        let before = mem::replace(&mut self.trees, Items::new(alloc));
        self.open.push(Open { label, before })?;
        Ok(())
    }

    fn end_vertex(&mut self) -> Result<(), RowFail> {
        self.end_number()?;
        let Some(Open { label, before }) = self.open.pop() else {
            return Err(RowFail::Refused);
        };
        let inputs = mem::replace(&mut self.trees, before);
        self.trees.push(Tree::Node(label, inputs))?;
        Ok(())
    }

    fn take(&mut self, alloc: Global, byte: u8) -> Result<(), RowFail> {
        match byte {
            b'0'..=b'9' => {
                self.number = Some(longer(self.number, byte - b'0'));
                Ok(())
            }
            b'(' => self.begin_vertex(alloc),
            b',' => self.end_number(),
            b')' => self.end_vertex(),
            _ => Err(RowFail::Refused),
        }
    }
}

/// The tree that a word spells, as `0(1,0(2,3))`: of any labels and leaf numbers, with any numbers of inputs.
pub fn tree_of(alloc: Global, word: &String) -> Result<Tree, RowFail> {
    let mut reader = Reader {
        open: Vec::new(alloc),
        trees: Items::new(alloc),
        number: None,
    };
    for byte in word.bytes() {
        reader.take(alloc, byte)?;
    }
    reader.end_number()?;
    if !reader.open.is_empty() {
        return Err(RowFail::Refused);
    }
    match reader.trees.pop() {
        Some(tree) => Ok(tree),
        None => Err(RowFail::Refused),
    }
}

/// The trees that words spell.
pub fn trees_of(alloc: Global, words: &[String]) -> Result<Items<Tree>, RowFail> {
    let mut trees = Items::new(alloc);
    for word in words {
        trees.push(tree_of(alloc, word)?)?;
    }
    Ok(trees)
}

/// The shuffle tree that a word spells.
pub fn shuffle_of(alloc: Global, word: &String) -> Result<STree, RowFail> {
    match STree::of(tree_of(alloc, word)?) {
        Some(tree) => Ok(tree),
        None => Err(RowFail::Refused),
    }
}

/// The shuffle trees that words spell.
pub fn shuffles_of(alloc: Global, words: &[String]) -> Result<Items<STree>, RowFail> {
    let mut trees = Items::new(alloc);
    for word in words {
        trees.push(shuffle_of(alloc, word)?)?;
    }
    Ok(trees)
}

/// The number that a word says.
pub fn number_of(word: &String) -> Result<u32, RowFail> {
    match word.as_str().parse::<u32>() {
        Ok(number) => Ok(number),
        Err(_) => Err(RowFail::Refused),
    }
}

/// The number below 256 that a word says.
pub fn small_number_of(word: &String) -> Result<u8, RowFail> {
    match word.as_str().parse::<u8>() {
        Ok(number) => Ok(number),
        Err(_) => Err(RowFail::Refused),
    }
}
