ghost use Rattle.std.specs.Prelude.{◌≡◌, ◌<◌, ◌≤◌, ℕ, true, false, IfSome, IfNone, slice_index};
ghost use Rattle.labelled_trees.specs.Meaning.{tree_of};
ghost use Rattle.labelled_trees.specs.Trees.{leaf};
ghost use Rattle.labelled_trees.specs.Insertions.{put};
ghost use Rattle.shuffle_trees.specs.Checks.{AddsLeaves, IsTwice, IsOrdered, IsUnordered};

use crate::Shape;

// Counts the leaves of a tree, by their numbers. False where a number then stands twice; the counts say nothing then.
pub fn count_once(times: &mut [u8; 256], tree: &Shape) -> bool
    requires { (k : ℕ) → slice_index times.old k ≤ 1 }
    ensures added { result ≡ true → AddsLeaves times.old times.new (tree_of tree.now) }
    ensures twice { result ≡ false → IsTwice times.old (tree_of tree.now) }
{
    match tree {
        Shape::Leaf(number) => {
            if times[*number as usize] != 0 {
                return false;
            }
            times[*number as usize] = 1;
            true
        }
        Shape::Node(_, inputs) => {
            for input in inputs.as_slice() {
                if !count_once(times, input) {
                    return false;
                }
            }
            true
        }
    }
}

// The least leaf of a tree in which each vertex has two or more inputs, in ascending order of their least leaves,
// where leaf 0 counts with the number `hole`. `None` exactly where that fails at a vertex.
pub fn least_leaf(tree: &Shape, hole: u8) -> Option<u8>
    ensures ordered { IfSome result (λ least. IsOrdered (tree_of tree.now) (put (tree_of tree.now) (leaf hole)) least) }
    ensures none { IfNone result (IsUnordered (tree_of tree.now) (put (tree_of tree.now) (leaf hole))) }
{
    match tree {
        Shape::Leaf(number) => Some(number_or(*number, hole)),
        Shape::Node(_, inputs) => {
            if inputs.len() < 2 {
                return None;
            }
            let mut first = 0;
            let mut floor = 0;
            for (at, input) in inputs.as_slice().iter().enumerate() {
                let Some(least) = least_leaf(input, hole) else {
                    return None;
                };
                if u16::from(least) < floor {
                    return None;
                }
                floor = u16::from(least) + 1;
                first = first_or(first, at, least);
            }
            Some(first)
        }
    }
}

// The number of a leaf, which for 0 is that of the hole.
fn number_or(number: u8, hole: u8) -> u8
    ensures { put (leaf number) (leaf hole) ≡ leaf result }
{
    if number == 0 { hole } else { number }
}

// The least leaf of the input at 0, once it is known.
fn first_or(first: u8, at: usize, least: u8) -> u8
    ensures start { at ≡ 0 → result ≡ least }
    ensures later { 0 < at → result ≡ first }
{
    if at == 0 { least } else { first }
}
