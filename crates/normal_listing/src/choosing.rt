ghost use Rattle.std.specs.Prelude.{◌≡◌, ◌+◌, ◌*◌, ◌<◌, ◌≤◌, ◌++◌, ◌∷◌, [], ℕ, List, length, map, OnOk};
ghost use Rattle.std.specs.List.{All};
ghost use Rattle.modular_sums.specs.Lists.{Mem};
ghost use Rattle.normal_listing.specs.Choices.{choices, each_before, entry};
ghost use Rattle.normal_listing.specs.Vertices.{passes, spelling, vertex, IsVertex};
ghost use Rattle.normal_listing.specs.Found.{AddsChosen};
ghost use Rattle.normal_listing.specs.Walks.{AreTables, AreWordsOf, IsRoot, Offers};

use crate::SpellingWord;
use crate::found::{Found, push_all};
use crate::labels::{Label, Lead};
use crate::parts::Part;
use crate::testing::is_undivided;
use crate::vertex_words::vertex_word;
use sqlite_items::Items;
use std::alloc::AllocError;
use tree_store::{Store, TreeId};

/// For each set of leaves, by its number: the free trees on it, their words, and the ways to part it.
#[derive(Drop)]
pub struct Tables<'a> {
    pub ids: &'a [Items<TreeId>],
    pub words: &'a [Items<SpellingWord>],
    pub parted: &'a [Items<Part>],
}

/// The root of the vertices that are looked for: its label, and the leads with this label at the root.
#[derive(Drop)]
pub struct Root<'a> {
    pub store: &'a Store,
    pub labels: &'a [Label],
    pub leads: &'a [Lead],
    pub label: u16,
}

/// The inputs that are chosen so far, with their words.
#[derive(Drop)]
pub struct Chosen {
    pub ids: Items<TreeId>,
    pub words: Items<SpellingWord>,
}

// One more input.
fn add_last(chosen: &mut Chosen, id: TreeId, word: SpellingWord) -> Result<(), AllocError>
    ensures ids { OnOk result (chosen.new.ids ≡ chosen.old.ids ++ (id ∷ [])) }
    ensures words { OnOk result (chosen.new.words ≡ chosen.old.words ++ (word ∷ [])) }
{
    chosen.ids.push(id)?;
    chosen.words.push(word)?;
    Ok(())
}

// The inputs without the last one.
fn drop_last(chosen: &mut Chosen)
    ensures ids { (l : List ℕ) (id : ℕ) → chosen.old.ids ≡ l ++ (id ∷ []) → chosen.new.ids ≡ l }
    ensures words { (l : List (List ℕ)) (word : List ℕ) → chosen.old.words ≡ l ++ (word ∷ []) → chosen.new.words ≡ l }
{
    chosen.ids.pop();
    chosen.words.pop();
}

// Puts the vertex with the chosen inputs behind what was found, where no lead divides it at its root.
fn offer(
    root: &Root,
    chosen: &Chosen,
    parts: &mut [TreeId],
    found: &mut Found,
) -> Result<(), AllocError>
    requires root { IsRoot root.now }
    requires vertex { IsVertex root.now.store.now root.now.labels.now root.now.label chosen.now.ids }
    requires words { AreWordsOf root.now.store.now root.now.labels.now chosen.now.ids chosen.now.words }
    requires room { 255 < length parts.old }
    ensures added { OnOk result (Offers root.now (chosen.now.ids ∷ []) found.old found.new) }
    ensures room { length parts.new ≡ length parts.old }
{
    if is_undivided(
        root.store,
        root.leads,
        root.label,
        chosen.ids.as_slice(),
        parts,
    ) {
        push_all(&mut found.inputs, chosen.ids.as_slice())?;
        let label = &root.labels[root.label as usize];
        found.words.push(vertex_word(
            label.generator,
            label.order.as_slice(),
            chosen.words.as_slice(),
        ))?;
    }
    Ok(())
}

// Puts behind what was found the vertices with the chosen inputs, so many more from the sets of this number, and no lead at
// the root.
#[cycle(choosing)]
pub fn choose(
    tables: &Tables,
    root: &Root,
    count: usize,
    set: u16,
    chosen: &mut Chosen,
    parts: &mut [TreeId],
    found: &mut Found,
) -> Result<(), AllocError>
    requires tables { AreTables root.now.store.now root.now.labels.now tables.now }
    requires root { IsRoot root.now }
    requires set { set < length tables.now.parted.now }
    requires last { count ≡ 1 → set < length tables.now.ids.now }
    requires words { AreWordsOf root.now.store.now root.now.labels.now chosen.old.ids chosen.old.words }
    requires vertices { (l : List ℕ) → Mem l (choices tables.now.ids.now tables.now.parted.now count set) → IsVertex root.now.store.now root.now.labels.now root.now.label (chosen.old.ids ++ l) }
    requires room { 255 < length parts.old }
    ensures added { OnOk result (Offers root.now (map (λ l. chosen.old.ids ++ l) (choices tables.now.ids.now tables.now.parted.now count set)) found.old found.new) }
    ensures same { OnOk result (chosen.new ≡ chosen.old) }
    ensures room { length parts.new ≡ length parts.old }
{
    if count == 0 {
        return offer(root, chosen, parts, found);
    }
    if count == 1 {
        let whole = Part {
            own: set,
            others: 0,
        };
        return choose_own(tables, root, 0, whole, chosen, parts, found);
    }
    for part in tables.parted[set as usize].as_slice() {
        choose_own(tables, root, count - 1, *part, chosen, parts, found)?;
    }
    Ok(())
}

// The same with one more input, from the part itself, and so many from the rest of the set.
#[cycle(choosing)]
fn choose_own(
    tables: &Tables,
    root: &Root,
    count: usize,
    part: Part,
    chosen: &mut Chosen,
    parts: &mut [TreeId],
    found: &mut Found,
) -> Result<(), AllocError>
    requires tables { AreTables root.now.store.now root.now.labels.now tables.now }
    requires root { IsRoot root.now }
    requires own { part.own < length tables.now.ids.now }
    requires others { part.others < length tables.now.ids.now }
    requires words { AreWordsOf root.now.store.now root.now.labels.now chosen.old.ids chosen.old.words }
    requires vertices { (l : List ℕ) → Mem l (each_before (entry tables.now.ids.now part.own) (choices tables.now.ids.now tables.now.parted.now count part.others)) → IsVertex root.now.store.now root.now.labels.now root.now.label (chosen.old.ids ++ l) }
    requires room { 255 < length parts.old }
    ensures added { OnOk result (Offers root.now (map (λ l. chosen.old.ids ++ l) (each_before (entry tables.now.ids.now part.own) (choices tables.now.ids.now tables.now.parted.now count part.others))) found.old found.new) }
    ensures same { OnOk result (chosen.new ≡ chosen.old) }
    ensures room { length parts.new ≡ length parts.old }
{
    let ids = tables.ids[part.own as usize].as_slice();
    let words = tables.words[part.own as usize].as_slice();
    for at in 0..ids.len() {
        add_last(chosen, ids[at], words[at])?;
        choose(tables, root, count, part.others, chosen, parts, found)?;
        drop_last(chosen);
    }
    Ok(())
}
