ghost use Rattle.std.proofs.Common.{suc};
ghost use Rattle.std.specs.Prelude.{◌≡◌, ◌<◌, ◌++◌, length};
ghost use Rattle.labelled_trees.specs.Trees.{leaves};
ghost use Rattle.shuffle_insertions.specs.Keys.{words_below};
ghost use Rattle.shuffle_insertions.specs.KeyBlocks.{IsSmall};
ghost use Rattle.shuffle_trees.specs.FlatKeys.{flat_labels, flat_row, flat_words, letters, words_by_number};
ghost use Rattle.shuffle_trees.specs.Walks.{vertex_labels};
ghost use Rattle.tree_store.specs.Stores.{IsStore, tree_at};
ghost use Rattle.shuffle_sums.specs.Spread.{FitsFlatKey, spread};

use shuffle_trees::{FlatKey, FlatWord};
use tree_store::{NodeView, Store, TreeId};

// Puts the leaves and vertices of the tree with this id, which stands below the word, behind those of the key.
fn fill(key: &mut FlatKey, store: &Store, id: TreeId, word: FlatWord)
    requires held { id < length store.now }
    requires room { FitsFlatKey (length (letters word)) (length (flat_row key.old)) (length (flat_labels key.old)) (tree_at store.now id) }
    ensures words { words_by_number key.new ≡ spread (tree_at store.now id) (letters word) (words_by_number key.old) }
    ensures row { flat_row key.new ≡ flat_row key.old ++ leaves (tree_at store.now id) }
    ensures labels { flat_labels key.new ≡ flat_labels key.old ++ vertex_labels (tree_at store.now id) }
    ensures store { IsStore store.now }
{
    match store.node(id) {
        NodeView::Leaf(number) => key.put_leaf(number, word),
        NodeView::Node(label, inputs) => {
            key.put_vertex(label);
            let below = word.with(label);
            for input in inputs {
                fill(key, store, *input, below);
            }
        }
    }
}

/// The flat key of the tree with this id: its words, leaf row and labels. The id is one that the store gave, and the tree has the
/// leaves 1 to a number that is at most 16. It takes no memory.
pub fn flat_key(store: &Store, id: TreeId) -> FlatKey
    requires held { id < length store.now }
    requires small { IsSmall (tree_at store.now id) }
    ensures words { flat_words result ≡ words_below (suc (length (leaves (tree_at store.now id)))) (tree_at store.now id) }
    ensures row { flat_row result ≡ leaves (tree_at store.now id) }
    ensures labels { flat_labels result ≡ vertex_labels (tree_at store.now id) }
    ensures store { IsStore store.now }
{
    let mut key = FlatKey::new();
    fill(&mut key, store, id, FlatWord::empty());
    key
}
