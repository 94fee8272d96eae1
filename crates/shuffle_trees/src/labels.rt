ghost use Rattle.std.specs.Prelude.{◌≡◌, ◌<◌, ◌≤◌, ◌++◌, length, replicate, IfOk, OnOk};
ghost use Rattle.shuffle_trees.specs.LabelLists.{labels_of_kinds, arity_in, AreFew};

use sqlite_items::Items;
use std::alloc::{AllocError, Global};
use std::marker::Model;

/// The labels of shuffle trees, numbered from 0: at most 8,640, each with two to six inputs.
/// Contracts see the list of their arities.
#[derive(Drop)]
pub struct Labels {
    arities: Items<u8>,
}

impl Model for Labels {
    ghost use Rattle.std.specs.Prelude.{List, ℕ};
    ghost use Rattle.shuffle_trees.specs.LabelLists.{AreFew};

    ghost Value = { List ℕ };

    ghost view = { λ labels. labels.arities };

    ghost invariant = { λ labels. AreFew labels.arities };
}

// Puts so many labels of one arity behind the others.
fn push_copies(arities: &mut Items<u8>, arity: u8, count: u16) -> Result<(), AllocError>
    ensures copies { OnOk result (arities.new ≡ arities.old ++ replicate count arity) }
{
    for _ in 0..count {
        arities.push(arity)?;
    }
    Ok(())
}

impl Labels {
    /// For each pair of an arity and a number, in order, as many labels of that arity. The arities are from 2 to 6,
    /// and there are at most 8,640 labels in all. `AllocError` comes for want of memory alone.
    pub fn of(alloc: Global, kinds: &[(u8, u16)]) -> Result<Labels, AllocError>
        requires few { AreFew (labels_of_kinds kinds.now) }
        ensures labels { IfOk result (λ labels. labels ≡ labels_of_kinds kinds.now) }
    {
        let mut arities = Items::new(alloc);
        for kind in kinds {
            let (arity, count) = *kind;
            push_copies(&mut arities, arity, count)?;
        }
        Ok(Labels { arities })
    }

    /// How many labels there are, at most 8,640.
    pub fn len(&self) -> u16
        ensures length { result ≡ length self.now }
        ensures few { AreFew self.now }
    {
        self.arities.len() as u16
    }

    /// The number of inputs of a label, from 2 to 6. The label is below `len()`.
    pub fn arity(&self, label: u16) -> u8
        requires held { label < length self.now }
        ensures arity { result ≡ arity_in self.now label }
        ensures wide { (2 ≤ result) × (result ≤ 6) }
    {
        self.arities.as_slice()[label as usize]
    }
}
