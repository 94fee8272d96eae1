ghost use Rattle.std.specs.Prelude.{◌≡◌, ◌↔◌, ◌<◌, ◌∷◌, [], ℕ, true, false, List, length, IsTrue, IfSome, IfNone};
ghost use Rattle.std.proofs.Common.{suc};
ghost use Rattle.std.specs.Ordering.{nat_cmp};
ghost use Rattle.std.specs.Cmp.Lexicographic.{slice_cmp};
ghost use Rattle.labelled_trees.specs.Meaning.{tree_of};
ghost use Rattle.labelled_trees.specs.Leaves.{occurs};
ghost use Rattle.shuffle_insertions.specs.ShuffleTrees.{IsShuffle};
ghost use Rattle.shuffle_insertions.specs.Keys.{words_at, words_below};
ghost use Rattle.path_orders.specs.Comparing.{words_by};
ghost use Rattle.path_orders.specs.WordSteps.{WordsCompared, SameWord, NoWord};

use shuffle_trees::Shape;
use sqlite_items::Items;
use std::cmp::Ordering;

// The comparison of two words from those of their lengths and of their letters.
fn joined(lengths: Ordering, letters: Ordering, short: bool) -> Ordering
    ensures { (v : List ℕ) (w : List ℕ) → lengths ≡ nat_cmp (length v) (length w) → letters ≡ slice_cmp nat_cmp v w
        → result ≡ words_by short v w }
{
    if short {
        lengths.reverse().then(letters)
    } else {
        lengths.then(letters)
    }
}

// Compares two words: by length, a shorter word being greater where `short` asks for it, then letter by letter.
fn compare_words(one: &[u16], other: &[u16], short: bool) -> Ordering
    ensures { result ≡ words_by short one.now other.now }
{
    joined(one.len().cmp(&other.len()), one.cmp(other), short)
}

/// Compares two lists of words, word by word; where all words of one are those at the front of the other, the shorter list is less.
pub fn compare_lists(ones: &[Items<u16>], others: &[Items<u16>], short: bool) -> Ordering
    ensures compared { result ≡ slice_cmp (words_by short) ones.now others.now }
{
    for (at, one) in ones.iter().enumerate() {
        let Some(other) = others.get(at) else {
            return Ordering::Greater;
        };
        match compare_words(one.as_slice(), other.as_slice(), short) {
            Ordering::Equal => {}
            unequal => return unequal,
        }
    }
    if ones.len() < others.len() {
        Ordering::Less
    } else {
        Ordering::Equal
    }
}

// Whether the number stands at a leaf.
fn holds(tree: &Shape, number: u8) -> bool
    ensures { IsTrue result ↔ (0 < occurs number (tree_of tree.now)) }
{
    match tree {
        Shape::Leaf(leaf) => *leaf == number,
        Shape::Node(_, inputs) => {
            for input in inputs.as_slice() {
                if holds(input, number) {
                    return true;
                }
            }
            false
        }
    }
}

// The first input with the number at a leaf.
fn holder(inputs: &[Shape], number: u8) -> Option<&Shape>
    ensures found { IfSome result (λ input. SameWord number inputs.now input.now) }
    ensures none { IfNone result (NoWord number inputs.now) }
{
    for input in inputs {
        if holds(input, number) {
            return Some(input);
        }
    }
    None
}

// Compares the words of the leaf with this number in two trees: by length, and letter by letter.
// It says something where the number stands once in each.
fn compare_at(one: &Shape, other: &Shape, number: u8) -> (Ordering, Ordering)
    ensures { WordsCompared (words_at number (tree_of one.now)) (words_at number (tree_of other.now)) result.0 result.1 }
{
    match one {
        Shape::Leaf(_) => match other {
            Shape::Leaf(_) => (Ordering::Equal, Ordering::Equal),
            Shape::Node(_, _) => (Ordering::Less, Ordering::Less),
        },
        Shape::Node(label, inputs) => match other {
            Shape::Leaf(_) => (Ordering::Greater, Ordering::Greater),
            Shape::Node(against, others) => {
                let Some(opposite) = holder(others.as_slice(), number) else {
                    return (Ordering::Equal, Ordering::Equal);
                };
                for input in inputs.as_slice() {
                    if holds(input, number) {
                        let (lengths, letters) = compare_at(input, opposite, number);
                        return (lengths, label.cmp(against).then(letters));
                    }
                }
                (Ordering::Equal, Ordering::Equal)
            }
        },
    }
}

/// Compares the words of the leaves 1, 2 and so on of two trees with the leaves 1 to `leaves`.
pub fn compare_paths(one: &Shape, other: &Shape, leaves: u8, short: bool) -> Ordering
    requires one { IsShuffle leaves (tree_of one.now) }
    requires other { IsShuffle leaves (tree_of other.now) }
    ensures compared { result ≡ slice_cmp (words_by short) (words_below (suc leaves) (tree_of one.now)) (words_below (suc leaves) (tree_of other.now)) }
{
    for below in 0..leaves {
        let (lengths, letters) = compare_at(one, other, below + 1);
        match joined(lengths, letters, short) {
            Ordering::Equal => {}
            unequal => return unequal,
        }
    }
    Ordering::Equal
}
