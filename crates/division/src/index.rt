ghost use Rattle.std.specs.Prelude.{◌≡◌, ◌<◌, ◌+◌, ◌*◌, ◌++◌, ◌∷◌, ℕ, [], Some, length, set, slice_index_or, OnOk, OnErr};
ghost use Rattle.division.specs.Roots as spec;
ghost use Rattle.division.specs.Roots.{ArePositions, EntersAt, EntersLabel, IsSmallRoot, SameGroups, group_place};

use crate::root::Root;
use sqlite_items::Items;
use std::alloc::{AllocError, Global};
use std::marker::Model;

// Arities are below this.
pub const ARITIES: u8 = 10;

/// The roots of leading trees, with the positions at which each stands. Contracts see the list of the roots.
#[derive(Drop)]
pub struct Index {
    roots: Items<Root>,
    groups: Vec<Items<u32>>,
}

impl Model for Index {
    ghost use Rattle.std.specs.Prelude.{List};
    ghost use Rattle.division.specs.declared.root.Root.{Root};
    ghost use Rattle.division.specs.Roots.{AreGrouped};

    ghost Value = { List Root };

    ghost view = { λ index. index.roots };

    ghost invariant = { λ index. AreGrouped index.roots index.groups.items };
}

// Makes room for a group at this place.
fn widen_groups(alloc: Global, groups: &mut Vec<Items<u32>>, place: usize) -> Result<(), AllocError>
    ensures long { OnOk result (place < length groups.new.items) }
    ensures same { SameGroups groups.old.items groups.new.items }
{
    'widen: while groups.len() <= place {
        groups.push(Items::new(alloc))?;
    }
    Ok(())
}

// Puts a position behind the others of a group.
fn push_position(groups: &mut [Items<u32>], place: usize, position: u32) -> Result<(), AllocError>
    requires place { place < length groups.old }
    ensures pushed { OnOk result (groups.new ≡ set groups.old place (slice_index_or groups.old place [] ++ position ∷ [])) }
    ensures unchanged { OnErr result (groups.new ≡ groups.old) }
{
    let group = &mut groups[place];
    group.push(position)?;
    Ok(())
}

// The place of the group with this label and this arity.
fn place_of(label: u16, arity: u8) -> usize
    ensures place { result ≡ group_place label arity }
{
    label as usize * ARITIES as usize + arity as usize
}

// The group at this place; no positions where there is none.
fn group_at(groups: &[Items<u32>], place: usize) -> &[u32]
    ensures group { result.now ≡ spec.group_at groups.now place }
{
    match groups.get(place) {
        Some(group) => group.as_slice(),
        None => &[],
    }
}

impl Index {
    /// An index without roots.
    pub fn new(alloc: Global) -> Index
        ensures empty { result ≡ [] }
    {
        Index {
            roots: Items::new(alloc),
            groups: Vec::new(alloc),
        }
    }

    /// The roots. It takes no memory.
    pub fn roots(&self) -> &[Root]
        ensures roots { result.now ≡ self.now }
    {
        self.roots.as_slice()
    }

    /// Puts a root behind the others. `AllocError` comes for want of memory alone; the index is as before then.
    pub fn push(&mut self, alloc: Global, root: Root) -> Result<(), AllocError>
        requires small { IsSmallRoot root }
        requires few { length self.old < 4294967295 }
        ensures pushed { OnOk result (self.new ≡ self.old ++ root ∷ []) }
        ensures unchanged { OnErr result (self.new ≡ self.old) }
    {
        let position = self.roots.len() as u32;
        self.roots.push(root)?;
        match enter_group(alloc, &mut self.groups, root, position) {
            Ok(()) => Ok(()),
            Err(error) => {
                self.roots.pop();
                Err(error)
            }
        }
    }

    /// The positions of the roots with this label and this arity. It takes no memory.
    pub fn positions(&self, label: u16, arity: u8) -> &[u32]
        ensures positions { ArePositions self.now label arity result.now }
    {
        let groups = self.groups.as_slice();
        if arity >= ARITIES {
            return &[];
        }
        group_at(groups, place_of(label, arity))
    }
}

/// Puts a position behind those of the group at this place. The groups are as before after an error.
pub(crate) fn enter_at(
    alloc: Global,
    groups: &mut Vec<Items<u32>>,
    place: usize,
    position: u32,
) -> Result<(), AllocError>
    ensures entered { OnOk result (EntersAt groups.old.items groups.new.items place position) }
    ensures same { OnErr result (SameGroups groups.old.items groups.new.items) }
{
    widen_groups(alloc, groups, place)?;
    push_position(groups, place, position)
}

// Puts a position into the group of its root, if this has a label.
fn enter_group(
    alloc: Global,
    groups: &mut Vec<Items<u32>>,
    root: Root,
    position: u32,
) -> Result<(), AllocError>
    requires small { IsSmallRoot root }
    ensures entered { OnOk result (EntersLabel groups.old.items groups.new.items root.label root.arity position) }
    ensures same { OnErr result (SameGroups groups.old.items groups.new.items) }
{
    match root.label {
        None => Ok(()),
        Some(label) => enter_at(alloc, groups, place_of(label, root.arity), position),
    }
}
