ghost use Rattle.std.specs.Prelude.{◌≡◌, ◌<◌, ◌≤◌, ◌^◌, length};
ghost use Rattle.std.specs.List.{sum_by};
ghost use Rattle.labelled_trees.specs.Meaning.{tree_of};
ghost use Rattle.labelled_trees.specs.Trees.{vertices};
ghost use Rattle.shuffle_insertions.specs.Keys.{weight};
ghost use Rattle.path_orders.specs.SeenKeys.{weight_in};

use shuffle_trees::Shape;

// The weight of a label; 0 where the list has none.
fn weight_of(weights: &[u32], label: u16) -> u32
    ensures { result ≡ weight_in weights.now label }
{
    match weights.get(label as usize) {
        Some(weight) => *weight,
        None => 0,
    }
}

/// The sum of the weights of the vertices of a tree.
pub fn weigh_tree(tree: &Shape, weights: &[u32]) -> u128
    requires { vertices (tree_of tree.now) < 2 ^ 32 }
    ensures sum { result ≡ weight (weight_in weights.now) (tree_of tree.now) }
{
    match tree {
        Shape::Leaf(_) => 0,
        Shape::Node(label, inputs) => {
            let mut sum = u128::from(weight_of(weights, *label));
            for input in inputs.as_slice() {
                sum += weigh_tree(input, weights);
            }
            sum
        }
    }
}

/// The sum of the weights of some labels.
pub fn weigh_labels(labels: &[u16], weights: &[u32]) -> u128
    requires { length labels.now < 2 ^ 64 }
    ensures sum { result ≡ sum_by (weight_in weights.now) labels.now }
{
    let mut sum: u128 = 0;
    for label in labels {
        sum += u128::from(weight_of(weights, *label));
    }
    sum
}

/// The sum of the weights of at most 15 labels.
pub fn weigh_few_labels(labels: &[u16], weights: &[u32]) -> u64
    requires { length labels.now ≤ 15 }
    ensures sum { result ≡ sum_by (weight_in weights.now) labels.now }
{
    weigh_labels(labels, weights) as u64
}
