ghost use Rattle.std.specs.Prelude.{◌≡◌, ◌<◌, ◌^◌, ◌++◌, [], ℕ, List, length, OnOk};
ghost use Rattle.std.specs.List.{All};
ghost use Rattle.modular_sums.specs.Lists.{Mem};
ghost use Rattle.shuffle_insertions.specs.Listing.{joined_below};
ghost use Rattle.normal_listing.specs.Choices.{choices, entry};
ghost use Rattle.normal_listing.specs.Vertices.{generator_of, word_of, IsShuffleLead, IsVertex};
ghost use Rattle.normal_listing.specs.Walks.{words_with, AreTables};

use crate::choosing::{Chosen, Root, Tables, choose};
use crate::found::Found;
use crate::labels::{Label, Lead};
use sqlite_items::Items;
use std::alloc::{AllocError, Global};
use tree_store::{Store, TreeId};

/// Puts behind what was found the words of the vertices over a set, label by label, with inputs from the tables and no lead
/// that divides them at the root. `leads` has the leads by the labels of their roots. `parts` is room for the parts of a tree.
pub fn find_vertices(
    alloc: Global,
    store: &Store,
    labels: &[Label],
    leads: &[Items<Lead>],
    tables: &Tables,
    set: u16,
    parts: &mut [TreeId],
    found: &mut Found,
) -> Result<(), AllocError>
    requires tables { AreTables store.now labels.now tables.now }
    requires set { set < length tables.now.parted.now }
    requires labels { length labels.now < 2 ^ 16 }
    requires leads { length leads.now ≡ length labels.now }
    requires generators { (l : ℕ) → l < length labels.now → (1 < length (word_of labels.now l)) × (generator_of labels.now l < 22) }
    requires held { (l : ℕ) → All (IsShuffleLead store.now) (entry leads.now l) }
    requires vertices { (l : ℕ) (ids : List ℕ) → l < length labels.now → Mem ids (choices tables.now.ids.now tables.now.parted.now (length (word_of labels.now l)) set) → IsVertex store.now labels.now l ids }
    requires room { 255 < length parts.old }
    ensures words { OnOk result (found.new.words ≡ found.old.words ++ joined_below (length labels.now) (words_with store.now labels.now leads.now tables.now set)) }
{
    let mut chosen = Chosen {
        ids: Items::new(alloc),
        words: Items::new(alloc),
    };
    for label in 0..labels.len() {
        let order = labels[label].order.as_slice();
        let root = Root {
            store,
            labels,
            leads: leads[label].as_slice(),
            label: label as u16,
        };
        choose(tables, &root, order.len(), set, &mut chosen, parts, found)?;
    }
    Ok(())
}
