ghost use Rattle.std.specs.Prelude.{◌≡◌, ◌<◌, ◌∷◌, ◌++◌, [], ℕ, List, IfOk, IfSome, OnOk, length};
ghost use Rattle.std.specs.List.{All};
ghost use Rattle.labelled_trees.specs.Trees.{Tree, leaf};
ghost use Rattle.shuffle_insertions.specs.ShuffleTrees.{IsShuffle};
ghost use Rattle.tree_store.specs.Stores.{IsStore, tree_at};
ghost use Rattle.normal_listing.specs.Vertices.{IsShuffleLead};
ghost use Rattle.log_rows.specs.TwoLeaves.{AreTwoLeaves, HasCorolla, IsCorolla, both_labels, both_parts, each_of};

use normal_listing::{Found, Label, Lead, Part, SpellingWord, Tables, find_vertices};
use presentation_text::write_number;
use rows::{RowFail, end_line, shuffle_of, small_number_of};
use shuffle_trees::STree;
use sqlite_items::Items;
use std::alloc::{AllocError, Global};
use tree_store::{NodeView, Store, TreeId};

// The free trees on the sets of at most one of two leaves, their words, and how the sets are parted.
#[derive(Drop)]
struct TwoLeaves {
    ids: Vec<Items<TreeId>>,
    words: Vec<Items<SpellingWord>>,
    parted: Vec<Items<Part>>,
}

// A vertex of a store with two leaves: its label, and the ids and numbers of the leaves.
#[derive(Clone, Copy)]
struct Corolla {
    label: u16,
    first: TreeId,
    second: TreeId,
    first_leaf: u8,
    second_leaf: u8,
}

// The number of a leaf, from 1 to 9.
fn leaf_of(store: &Store, id: TreeId) -> Result<u8, RowFail>
    requires held { id < length store.now }
    ensures some { IfOk result (λ i. 0 < i) }
    ensures small { IfOk result (λ i. i < 10) }
    ensures leaf { IfOk result (λ i. tree_at store.now id ≡ leaf i) }
{
    match store.node(id) {
        NodeView::Leaf(number) if number > 0 && number < 10 => Ok(number),
        _ => Err(RowFail::Refused),
    }
}

// The vertex with this id; `Refused` where it has other inputs than two leaves.
fn corolla_of(store: &Store, id: TreeId) -> Result<Corolla, RowFail>
    requires held { id < length store.now }
    ensures corolla { IfOk result (IsCorolla store.now id) }
    ensures store { IsStore store.now }
{
    match store.node(id) {
        NodeView::Node(label, [first, second]) => Ok(Corolla {
            label,
            first: *first,
            second: *second,
            first_leaf: leaf_of(store, *first)?,
            second_leaf: leaf_of(store, *second)?,
        }),
        _ => Err(RowFail::Refused),
    }
}

// Puts the list of one thing behind the lists.
fn push_lone<T: Copy>(alloc: Global, lists: &mut Vec<Items<T>>, item: T) -> Result<(), AllocError>
    ensures pushed { OnOk result (lists.new.items ≡ lists.old.items ++ (item ∷ []) ∷ []) }
{
    let mut lone = Items::new(alloc);
    lone.push(item)?;
    lists.push(lone)?;
    Ok(())
}

// Nothing, and then each of two things alone.
fn each_of<T: Copy>(alloc: Global, first: T, second: T) -> Result<Vec<Items<T>>, AllocError>
    ensures each { IfOk result (λ lists. lists.items ≡ each_of first second) }
{
    let mut lists = Vec::new(alloc);
    lists.push(Items::new(alloc))?;
    push_lone(alloc, &mut lists, first)?;
    push_lone(alloc, &mut lists, second)?;
    Ok(lists)
}

// The set of both leaves is parted into the first and the second.
fn parted(alloc: Global) -> Result<Vec<Items<Part>>, AllocError>
    ensures parts { IfOk result (λ lists. lists.items ≡ both_parts) }
{
    let mut lists = Vec::new(alloc);
    lists.push(Items::new(alloc))?;
    lists.push(Items::new(alloc))?;
    lists.push(Items::new(alloc))?;
    push_lone(alloc, &mut lists, Part { own: 1, others: 2 })?;
    Ok(lists)
}

// What there is on the sets of the leaves of the vertex.
fn two_leaves(alloc: Global, corolla: Corolla) -> Result<TwoLeaves, AllocError>
    requires some { (0 < corolla.first_leaf) × (0 < corolla.second_leaf) }
    requires small { (corolla.first_leaf < 10) × (corolla.second_leaf < 10) }
    ensures leaves { IfOk result (AreTwoLeaves corolla) }
{
    let first = SpellingWord::symbol(corolla.first_leaf);
    let second = SpellingWord::symbol(corolla.second_leaf);
    Ok(TwoLeaves {
        ids: each_of(alloc, corolla.first, corolla.second)?,
        words: each_of(alloc, first, second)?,
        parted: parted(alloc)?,
    })
}

// A label of a generator, by the order of its inputs.
fn label_of(alloc: Global, generator: u8, order: &[u8]) -> Result<Label, AllocError>
    ensures label { IfOk result (λ label. (label.generator ≡ generator) × (label.order ≡ order.now)) }
{
    Ok(Label {
        generator,
        order: Items::from_slice(alloc, order)?,
    })
}

// The labels of a generator with two inputs of no symmetry.
fn labels_of(alloc: Global, generator: u8) -> Result<Vec<Label>, AllocError>
    ensures labels { IfOk result (λ labels. labels.items ≡ both_labels generator) }
{
    let mut labels = Vec::new(alloc);
    labels.push(label_of(alloc, generator, &[1, 2])?)?;
    labels.push(label_of(alloc, generator, &[2, 1])?)?;
    Ok(labels)
}

// The tree with this id as a lead, if it is to be one and has leaves from 1 on.
fn lead_of(tree: &STree, id: TreeId, is_lead: bool) -> Option<Lead>
    ensures id { IfSome result (λ lead. lead.id ≡ id) }
    ensures valid { IfSome result (λ lead. IsShuffle lead.arity tree.now) }
{
    match tree.arity() {
        Some(arity) if is_lead => Some(Lead { id, arity }),
        _ => None,
    }
}

// The leads with one of the labels: the lead, if there is one and the label is its own.
fn own_leads(alloc: Global, lead: Option<Lead>, is_own: bool) -> Result<Items<Lead>, AllocError>
    ensures leads { IfOk result (λ leads. (trees : List (Tree ℕ)) → IfSome lead (IsShuffleLead trees) → All (IsShuffleLead trees) leads) }
{
    match lead {
        Some(lead) if is_own => Items::from_slice(alloc, &[lead]),
        _ => Ok(Items::new(alloc)),
    }
}

// The leads with each of two labels.
fn leads_of(alloc: Global, lead: Option<Lead>, label: u16) -> Result<Vec<Items<Lead>>, AllocError>
    ensures both { IfOk result (λ leads. length leads.items ≡ 2) }
    ensures leads { IfOk result (λ leads. (trees : List (Tree ℕ)) → IfSome lead (IsShuffleLead trees) → All (All (IsShuffleLead trees)) leads.items) }
{
    let mut leads = Vec::new(alloc);
    leads.push(own_leads(alloc, lead, label == 0)?)?;
    leads.push(own_leads(alloc, lead, label == 1)?)?;
    Ok(leads)
}

// What is found over both leaves.
fn found(
    alloc: Global,
    store: &Store,
    labels: &[Label],
    leads: &[Items<Lead>],
    leaves: &TwoLeaves,
) -> Result<Found, AllocError>
    requires leaves { HasCorolla store.now leaves.now }
    requires labels { (generator : ℕ) × (generator < 22) × (labels.now ≡ both_labels generator) }
    requires both { length leads.now ≡ 2 }
    requires leads { All (All (IsShuffleLead store.now)) leads.now }
{
    let tables = Tables {
        ids: leaves.ids.as_slice(),
        words: leaves.words.as_slice(),
        parted: leaves.parted.as_slice(),
    };
    let mut parts = vec![in alloc; TreeId::numbered(0); 256]?;
    let mut found = Found {
        inputs: Items::new(alloc),
        words: Items::new(alloc),
    };
    let room = parts.as_mut_slice();
    find_vertices(alloc, store, labels, leads, &tables, 3, room, &mut found)?;
    Ok(found)
}

// The symbols of a word.
fn write_symbols(word: SpellingWord, out: &mut Vec<u8>) -> Result<(), AllocError> {
    let mut left = word;
    for at in 0..word.len() {
        if at > 0 {
            out.push(b' ')?;
        }
        write_number(u64::from(left.first()), out)?;
        left = left.rest();
    }
    end_line("", out)
}

// Writes words, each in a line.
fn write_words(words: &[SpellingWord], out: &mut Vec<u8>) -> Result<(), RowFail> {
    for word in words {
        write_symbols(*word, out)?;
    }
    Ok(())
}

// Writes the words that are found over these leaves and leads.
fn write_found(
    alloc: Global,
    store: &Store,
    labels: &[Label],
    leads: &[Items<Lead>],
    leaves: &TwoLeaves,
    out: &mut Vec<u8>,
) -> Result<(), RowFail>
    requires leaves { HasCorolla store.now leaves.now }
    requires labels { (generator : ℕ) × (generator < 22) × (labels.now ≡ both_labels generator) }
    requires both { length leads.now ≡ 2 }
    requires leads { All (All (IsShuffleLead store.now)) leads.now }
{
    let found = found(alloc, store, labels, leads, leaves)?;
    write_words(found.words.as_slice(), out)
}

// The same, where the lead has the label of this number.
fn write_led(
    alloc: Global,
    store: &Store,
    leaves: &TwoLeaves,
    labels: &[Label],
    lead: Option<Lead>,
    label: u16,
    out: &mut Vec<u8>,
) -> Result<(), RowFail>
    requires leaves { HasCorolla store.now leaves.now }
    requires labels { (generator : ℕ) × (generator < 22) × (labels.now ≡ both_labels generator) }
    requires lead { IfSome lead (IsShuffleLead store.now) }
{
    let leads = leads_of(alloc, lead, label)?;
    write_found(alloc, store, labels, &leads, leaves, out)
}

// The same over the labels of a generator.
fn write_labelled(
    alloc: Global,
    store: &Store,
    leaves: &TwoLeaves,
    generator: u8,
    lead: Option<Lead>,
    label: u16,
    out: &mut Vec<u8>,
) -> Result<(), RowFail>
    requires leaves { HasCorolla store.now leaves.now }
    requires generator { generator < 22 }
    requires lead { IfSome lead (IsShuffleLead store.now) }
{
    let labels = labels_of(alloc, generator)?;
    write_led(alloc, store, leaves, &labels, lead, label, out)
}

// Writes the words that are found over the leaves of the tree with this id, and with this lead.
fn write_vertex(
    alloc: Global,
    store: &Store,
    id: TreeId,
    lead: Option<Lead>,
    generator: u8,
    out: &mut Vec<u8>,
) -> Result<(), RowFail>
    requires held { id < length store.now }
    requires generator { generator < 22 }
    requires id { IfSome lead (λ lead. lead.id ≡ id) }
    requires valid { IfSome lead (λ lead. IsShuffle lead.arity (tree_at store.now id)) }
{
    let corolla = corolla_of(store, id)?;
    let label = corolla.label;
    let leaves = two_leaves(alloc, corolla)?;
    write_labelled(alloc, store, &leaves, generator, lead, label, out)
}

// The same for a tree, which is put into the store.
fn write_tree(
    alloc: Global,
    store: &mut Store,
    tree: &STree,
    is_lead: bool,
    generator: u8,
    out: &mut Vec<u8>,
) -> Result<(), RowFail>
    requires generator { generator < 22 }
{
    let id = store.put(alloc, tree)?;
    write_vertex(alloc, store, id, lead_of(tree, id, is_lead), generator, out)
}

// The same for a tree that a word spells.
fn write_spelled(
    alloc: Global,
    word: &String,
    is_lead: bool,
    generator: u8,
    out: &mut Vec<u8>,
) -> Result<(), RowFail>
    requires generator { generator < 22 }
{
    let tree = shuffle_of(alloc, word)?;
    write_tree(
        alloc,
        &mut Store::new(alloc),
        &tree,
        is_lead,
        generator,
        out,
    )
}

/// The words of the vertices over two leaves whose labels are those of a generator with two inputs of no symmetry: by the
/// number of the generator, a tree with these leaves, and maybe `lead`, where that tree is a lead.
pub fn find(alloc: Global, given: &[String], out: &mut Vec<u8>) -> Result<(), RowFail> {
    let [generator, tree, leads @ ..] = given else {
        return Err(RowFail::Refused);
    };
    let generator = small_number_of(generator)?;
    if generator > 21 {
        return Err(RowFail::Refused);
    }
    write_spelled(alloc, tree, !leads.is_empty(), generator, out)
}
