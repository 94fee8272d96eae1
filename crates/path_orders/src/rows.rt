ghost use Rattle.std.specs.Prelude.{◌≡◌, ◌≤◌, ◌+◌, ◌++◌, length, take};
ghost use Rattle.std.specs.Ordering.{nat_cmp};
ghost use Rattle.std.specs.Cmp.Lexicographic.{slice_cmp};
ghost use Rattle.labelled_trees.specs.Meaning.{tree_of};
ghost use Rattle.labelled_trees.specs.Trees.{leaves};

use shuffle_trees::Shape;
use std::cmp::Ordering;

// Writes the leaf numbers from left to right into the row, from `at` on, and answers where they end.
fn write_leaves(tree: &Shape, row: &mut [u8; 255], at: usize) -> usize
    requires { at + length (leaves (tree_of tree.now)) ≤ 255 }
    ensures end { result ≡ at + length (leaves (tree_of tree.now)) }
    ensures row { take result row.new ≡ take at row.old ++ leaves (tree_of tree.now) }
{
    match tree {
        Shape::Leaf(number) => {
            row[at] = *number;
            at + 1
        }
        Shape::Node(_, inputs) => {
            let mut end = at;
            for input in inputs.as_slice() {
                end = write_leaves(input, row, end);
            }
            end
        }
    }
}

/// Compares the leaf numbers of two trees from left to right.
pub fn compare_rows(one: &Shape, other: &Shape) -> Ordering
    requires one { length (leaves (tree_of one.now)) ≤ 255 }
    requires other { length (leaves (tree_of other.now)) ≤ 255 }
    ensures compared { result ≡ slice_cmp nat_cmp (leaves (tree_of one.now)) (leaves (tree_of other.now)) }
{
    let mut row = [0; 255];
    let mut other_row = [0; 255];
    let end = write_leaves(one, &mut row, 0);
    let other_end = write_leaves(other, &mut other_row, 0);
    row[..end].cmp(&other_row[..other_end])
}
