ghost use Rattle.std.specs.Prelude.{◌≡◌, ◌≤◌, ◌++◌, ◌∷◌, [], ℕ, List, length, is_ok, true, false, if◌then◌else◌};
ghost use Rattle.std.specs.Ordering.{nat_cmp};
ghost use Rattle.std.specs.Cmp.Lexicographic.{slice_cmp};
ghost use Rattle.labelled_trees.specs.Trees.{leaves};
ghost use Rattle.shuffle_insertions.specs.ShuffleTrees.{IsShuffle};
ghost use Rattle.shuffle_insertions.specs.Keys as spec;
ghost use Rattle.shuffle_insertions.specs.KeyBlocks.{marked, AreComparableKeys};
ghost use Rattle.shuffle_insertions.specs.Orders.{IsTreeOrder};
ghost use Rattle.shuffle_trees.specs.FlatKeys.{flat_row, flat_words};
ghost use Rattle.path_orders.specs.Comparing.{AreComparable, key_words, words_by};
ghost use Rattle.path_orders.specs.SeenKeys.{flat_key_seen, key_seen, weights_of};
ghost use Rattle.path_orders.specs.Laws.{FlatKeysAreSeen, KeysAreAlike, KeysAreSeen};
ghost use Rattle.std.specs.declared.cmp.Ordering as standard;

use crate::Blocks;
use crate::block::Block;
use crate::rows::compare_rows;
use crate::weights::{weigh_few_labels, weigh_labels, weigh_tree};
use crate::words::{compare_lists, compare_paths};
use shuffle_trees::{FlatKey, Key, Labels, STree};
use sqlite_items::Items;
use std::alloc::AllocError;
use std::cmp::Ordering;

/// An order of the shuffle trees over labels whose leaves are 1 to `n`, for each `n`. The laws say that `compare` answers
/// `Equal` only for equal trees, turns round with its arguments, is transitive, and is kept by insertion into a frame, and that
/// blocks compare, number by number, as the trees do.
pub trait TreeOrder {
    ghost weights: { Self → ℕ → ℕ };

    ghost by_keys: { spec.Key → spec.Key → standard.Ordering };

    ghost block: { Self → spec.Key → List ℕ };

    /// Compares two trees. They have the leaves 1 to `n` for one `n`. It takes no memory.
    fn compare(&self, labels: &Labels, a: &STree, b: &STree) -> Ordering
        requires comparable { AreComparable a.now b.now }
        ensures compared { result ≡ by_keys (spec.key (weights self.now) a.now) (spec.key (weights self.now) b.now) };

    /// Compares two keys: for keys of two trees it is `compare` on the trees. It reads no tree and takes no memory.
    fn compare_keys(&self, labels: &Labels, a: &Key, b: &Key) -> Ordering
        ensures compared { result ≡ by_keys (key_seen (weights self.now) a.now) (key_seen (weights self.now) b.now) };

    /// Writes the block of a key behind the others. `AllocError` comes for want of memory alone, and then nothing was written.
    fn write_block(&self, key: &FlatKey, out: &mut Blocks) -> Result<(), AllocError>
        ensures written { out.new ≡ (if is_ok result then out.old ++ block self.now (flat_key_seen (weights self.now) key.now) ∷ [] else out.old) };

    ghost is_order: { (order : Self) (arity : ℕ → ℕ) → IsTreeOrder arity (λ x y. by_keys (spec.key (weights order) x) (spec.key (weights order) y)) };

    ghost blocks_compare: { (order : Self) (a b : spec.Key) → AreComparableKeys a b → slice_cmp nat_cmp (block order a) (block order b) ≡ by_keys a b };
}

/// Law: the key of a shuffle tree whose leaves are 1 to `n`, as `Key::of` makes it, is seen as the key of the definitions.
pub fn keys_are_seen()
    ensures law { KeysAreSeen }
{}

/// Law: a flat key with the words, the leaf row and the labels of a shuffle tree is seen as the key of the definitions.
pub fn flat_keys_are_seen()
    ensures law { FlatKeysAreSeen }
{}

/// Law: trees with the leaves 1 to `n`, each vertex of which has two or more inputs, have alike keys.
pub fn keys_are_alike()
    ensures law { KeysAreAlike }
{}

// The number of the leaves of a tree that has the leaves 1 to that number.
fn leaves_of(tree: &STree) -> u8
    requires { (n : ℕ) × IsShuffle n tree.now }
    ensures { IsShuffle result tree.now }
{
    match tree.arity() {
        Some(leaves) => leaves,
        None => 0,
    }
}

// Compares two trees by the words of their leaves.
fn by_words(a: &STree, b: &STree, short: bool) -> Ordering
    requires comparable { AreComparable a.now b.now }
    ensures { result ≡ slice_cmp (words_by short) (key_words a.now) (key_words b.now) }
{
    compare_paths(a.shape(), b.shape(), leaves_of(a), short)
}

// Compares two trees by their leaf rows.
fn by_rows(a: &STree, b: &STree) -> Ordering
    ensures { result ≡ slice_cmp nat_cmp (leaves a.now) (leaves b.now) }
{
    compare_rows(a.shape(), b.shape())
}

// Puts the words and then the leaf row behind what the block has.
fn push_path(block: &mut Block, key: &FlatKey, short: bool)
    requires { length block.old ≤ 4 }
    ensures { block.new ≡ block.old ++ marked short (flat_words key.now) ++ flat_row key.now }
{
    block.push_words(key.words(), short);
    block.push_all(key.row());
}

/// By path: the words of leaf 1 are compared, then those of leaf 2 and so on, a longer word being greater, and words of
/// one length letter by letter; then the leaf rows.
#[derive(Clone, Copy, Debug)]
pub struct Path {}

impl TreeOrder for Path {
    ghost use Rattle.shuffle_insertions.specs.Keys as spec;
    ghost use Rattle.shuffle_insertions.specs.KeyBlocks.{path_block};
    ghost use Rattle.shuffle_insertions.proofs.Laws.{orders};
    ghost use Rattle.shuffle_insertions.proofs.BlockComparisons as laws;
    ghost use Rattle.path_orders.specs.SeenKeys.{weightless};

    ghost weights = { λ order. weightless };

    ghost by_keys = { spec.path };

    ghost block = { λ order. path_block };

    fn compare(&self, _labels: &Labels, a: &STree, b: &STree) -> Ordering {
        by_words(a, b, false).then(by_rows(a, b))
    }

    fn compare_keys(&self, _labels: &Labels, a: &Key, b: &Key) -> Ordering {
        compare_lists(a.words(), b.words(), false).then(a.row().cmp(b.row()))
    }

    fn write_block(&self, key: &FlatKey, out: &mut Blocks) -> Result<(), AllocError> {
        let mut block = Block::new();
        push_path(&mut block, key, false);
        out.push(block.numbers())
    }

    ghost is_order = { λ order arity. (orders arity weightless).0 };

    ghost blocks_compare = { λ order a b h. (laws.blocks_compare a b h).0 };
}

/// By short paths: as by path, but a shorter word is greater.
#[derive(Clone, Copy, Debug)]
pub struct PathShort {}

impl TreeOrder for PathShort {
    ghost use Rattle.shuffle_insertions.specs.Keys as spec;
    ghost use Rattle.shuffle_insertions.specs.KeyBlocks.{short_block};
    ghost use Rattle.shuffle_insertions.proofs.Laws.{orders};
    ghost use Rattle.shuffle_insertions.proofs.BlockComparisons as laws;
    ghost use Rattle.path_orders.specs.SeenKeys.{weightless};

    ghost weights = { λ order. weightless };

    ghost by_keys = { spec.pathshort };

    ghost block = { λ order. short_block };

    fn compare(&self, _labels: &Labels, a: &STree, b: &STree) -> Ordering {
        by_words(a, b, true).then(by_rows(a, b))
    }

    fn compare_keys(&self, _labels: &Labels, a: &Key, b: &Key) -> Ordering {
        compare_lists(a.words(), b.words(), true).then(a.row().cmp(b.row()))
    }

    fn write_block(&self, key: &FlatKey, out: &mut Blocks) -> Result<(), AllocError> {
        let mut block = Block::new();
        push_path(&mut block, key, true);
        out.push(block.numbers())
    }

    ghost is_order = { λ order arity. (orders arity weightless).1 };

    ghost blocks_compare = { λ order a b h. (laws.blocks_compare a b h).1 };
}

/// By leaves, then path: the leaf rows are compared first, then the words as by path.
#[derive(Clone, Copy, Debug)]
pub struct LeafPath {}

impl TreeOrder for LeafPath {
    ghost use Rattle.shuffle_insertions.specs.Keys as spec;
    ghost use Rattle.shuffle_insertions.specs.KeyBlocks.{leaf_block};
    ghost use Rattle.shuffle_insertions.proofs.Laws.{orders};
    ghost use Rattle.shuffle_insertions.proofs.BlockComparisons as laws;
    ghost use Rattle.path_orders.specs.SeenKeys.{weightless};

    ghost weights = { λ order. weightless };

    ghost by_keys = { spec.leafpath };

    ghost block = { λ order. leaf_block };

    fn compare(&self, _labels: &Labels, a: &STree, b: &STree) -> Ordering {
        by_rows(a, b).then(by_words(a, b, false))
    }

    fn compare_keys(&self, _labels: &Labels, a: &Key, b: &Key) -> Ordering {
        a.row()
            .cmp(b.row())
            .then(compare_lists(a.words(), b.words(), false))
    }

    fn write_block(&self, key: &FlatKey, out: &mut Blocks) -> Result<(), AllocError> {
        let mut block = Block::new();
        block.push_all(key.row());
        block.push_words(key.words(), false);
        out.push(block.numbers())
    }

    ghost is_order = { λ order arity. (orders arity weightless).2 };

    ghost blocks_compare = { λ order a b h. (laws.blocks_compare a b h).2 };
}

/// By weight, then path: the tree whose labels weigh more together is greater, and trees of one weight go by path.
/// A label past the end of the list weighs 0.
#[derive(Drop)]
pub struct WeightPath {
    weights: Items<u32>,
}

impl WeightPath {
    /// The order with these weights of the labels, from label 0 on.
    pub fn new(weights: Items<u32>) -> WeightPath
        ensures weights { weights_of result ≡ weights }
    {
        WeightPath { weights }
    }

    /// The weights of the labels, from label 0 on.
    pub fn weights(&self) -> &[u32]
        ensures weights { result.now ≡ weights_of self.now }
    {
        self.weights.as_slice()
    }
}

impl TreeOrder for WeightPath {
    ghost use Rattle.shuffle_insertions.specs.Keys as spec;
    ghost use Rattle.shuffle_insertions.specs.KeyBlocks.{weight_block};
    ghost use Rattle.shuffle_insertions.proofs.Laws.{orders};
    ghost use Rattle.shuffle_insertions.proofs.BlockComparisons as laws;
    ghost use Rattle.path_orders.specs.SeenKeys.{weight_in, weights_of};

    ghost weights = { λ order. weight_in (weights_of order) };

    ghost by_keys = { spec.weightpath };

    ghost block = { λ order. weight_block };

    fn compare(&self, _labels: &Labels, a: &STree, b: &STree) -> Ordering {
        let weights = self.weights.as_slice();
        let heavier = weigh_tree(a.shape(), weights).cmp(&weigh_tree(b.shape(), weights));
        heavier.then(by_words(a, b, false).then(by_rows(a, b)))
    }

    fn compare_keys(&self, _labels: &Labels, a: &Key, b: &Key) -> Ordering {
        let weights = self.weights.as_slice();
        let heavier = weigh_labels(a.vertices(), weights).cmp(&weigh_labels(b.vertices(), weights));
        heavier.then(compare_lists(a.words(), b.words(), false).then(a.row().cmp(b.row())))
    }

    fn write_block(&self, key: &FlatKey, out: &mut Blocks) -> Result<(), AllocError> {
        let mut block = Block::new();
        block.push_weight(weigh_few_labels(key.vertices(), self.weights.as_slice()));
        push_path(&mut block, key, false);
        out.push(block.numbers())
    }

    ghost is_order = { λ order arity. (orders arity (weight_in (weights_of order))).3 };

    ghost blocks_compare = { λ order a b h. (laws.blocks_compare a b h).3 };
}
