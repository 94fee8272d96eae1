ghost use Rattle.std.specs.Prelude.{◌≡◌, ◌<◌, ◌≤◌, ℕ, length, OnOk};
ghost use Rattle.division.specs.Dividers.{AreDividers, AreGroups, AreReducers, FoundGrows, HaveRoom};

use crate::dividing::first_divider;
use crate::reducer::Reducer;
use sqlite_items::Items;
use std::alloc::AllocError;
use tree_store::{Store, TreeId};

/// Finds the first dividers of all trees up to this one, as far as they aren't in `found` yet. `groups` has the numbers of the
/// elements by the labels of their roots, in ascending order, and `parts` is room for the parts of a tree; its contents don't
/// matter. `AllocError` comes for want of memory alone; what was found is right also then.
pub fn extend_dividers(
    store: &Store,
    reducers: &[Reducer],
    groups: &[Items<u32>],
    found: &mut Items<Option<u32>>,
    id: TreeId,
    parts: &mut [TreeId],
) -> Result<(), AllocError>
    requires reducers { AreReducers store.now reducers.now }
    requires groups { AreGroups store.now reducers.now groups.now }
    requires found { AreDividers store.now reducers.now found.old }
    requires few { length found.old ≤ length store.now }
    requires id { id < length store.now }
    requires room { HaveRoom reducers.now (length parts.old) }
    ensures found { AreDividers store.now reducers.now found.new }
    ensures few { length found.new ≤ length store.now }
    ensures there { OnOk result (id < length found.new) }
    ensures grows { FoundGrows found.old found.new }
{
    while found.len() <= id.index() {
        let next = TreeId::numbered(found.len());
        let divider = first_divider(store, reducers, groups, found.as_slice(), next, parts);
        found.push(divider)?;
    }
    Ok(())
}
