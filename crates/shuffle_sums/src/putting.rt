ghost use Rattle.std.specs.Prelude.{◌≡◌, Err, IfOk};
ghost use Rattle.tree_store.specs.declared.store.StoreFail.TheVariants.{StoreFull};
ghost use Rattle.shuffle_sums.specs.Putting.{ArePut, Keeps, LacksOne};

use shuffle_trees::STree;
use std::alloc::Global;
use tree_store::{Store, StoreFail, TreeId};

/// Puts the trees into the store, and answers their ids in order. `StoreFull` comes only where there are 2^31 trees and a
/// subtree of one of these isn't among them, `NoMemory` for want of memory alone. After an error some of the trees may have
/// been put. The trees that were held keep their ids, also after an error.
pub fn put_all(alloc: Global, store: &mut Store, trees: &[STree]) -> Result<Vec<TreeId>, StoreFail>
    ensures put { IfOk result (λ ids. ArePut store.new trees.now ids.items) }
    ensures keeps { Keeps store.old store.new }
    ensures full { result ≡ Err StoreFull → LacksOne store.new trees.now }
{
    let mut ids = Vec::new(alloc);
    for tree in trees {
        let id = match store.put(alloc, tree) {
            Ok(id) => id,
            Err(fail) => return Err(fail),
        };
        match ids.push(id) {
            Ok(()) => {}
            Err(_) => return Err(StoreFail::NoMemory),
        }
    }
    Ok(ids)
}
