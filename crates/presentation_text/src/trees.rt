ghost use Rattle.std.specs.Prelude.{◌≡◌, ◌≤◌, ◌<◌, ◌+◌, IfOk, IfSome, List, Some, Err, drop, length};
ghost use Rattle.labelled_trees.specs.Leaves.{leaf_count};
ghost use Rattle.labelled_trees.specs.Meaning.{tree_of};
ghost use Rattle.symmetric_trees.specs.Trees.{Fits};
ghost use Rattle.symmetric_trees.specs.declared.generators.Generator.{Generator};
ghost use Rattle.presentation_text.specs.Accepted.{RefusedTreesBegin, TreesAreAccepted, TreesAreRefusedRightly};
ghost use Rattle.presentation_text.specs.Laws.{TreesAreReadOnce};
ghost use Rattle.presentation_text.specs.Readings.{first_row, GivesBehind};
ghost use Rattle.presentation_text.specs.TreeReadings as spec;

use crate::kinds::{DocKind, PartFail};
use crate::lexing::{Token, Word};
use crate::parts::{fail, has_mark, mark_at, misfit, token_at};
use labelled_trees::Tree;
use sqlite_items::Items;
use std::alloc::Global;
use symmetric_trees::{GenTable, numbered};

// What is asked of a tree beside its form.
#[derive(Clone, Copy, Debug, PartialEq, Eq)]
pub struct Demands {
    /// Whether its leaf numbers are free up to 99; else the leaves carry 1 to some number, each once.
    pub loose: bool,
    /// How many leaves it has at least.
    pub least: u8,
    /// How many leaves it has, if that is known.
    pub arity: Option<u8>,
}

// A tree that was read.
#[derive(Drop)]
pub struct TreeRead {
    pub tree: Tree,
    pub leaves: u8,
    /// The place behind it.
    pub end: usize,
}

// The inputs of a vertex that were read so far. A tree is put here as soon as it is read, so that it moves once.
#[derive(Drop)]
pub struct Inputs {
    pub trees: Items<Tree>,
    /// How many leaves of the whole tree stand before what comes next.
    pub seen: u8,
}

// How many generators may stand one inside the other.
const MOST_NESTED: u8 = 8;

/// The greatest arity of a tree: how many leaves it may have.
pub const GREATEST_ARITY: u8 = 9;

const GREATEST_LEAF: u64 = 99;

// The index of the generator with this name.
fn generator_named(table: &GenTable, name: &Word<'_>) -> Option<u16>
    ensures index { result ≡ spec.index_of name.now table.now }
    ensures held { IfSome result (λ index. index < length table.now) }
{
    let generator = table.find(name.as_str())?;
    prove!(generator < table.len());
    Some(generator)
}

// The place behind '(' before the first input, or behind ',' before a further one.
fn before_input(tokens: &[Token<'_>], at: usize, first: bool) -> Result<usize, PartFail>
    requires within { at ≤ length tokens.now }
    ensures { GivesBehind tokens.now (spec.before_in first (drop at tokens.now)) result }
{
    if first {
        return mark_at(tokens, at, b'(');
    }
    if has_mark(tokens, at, b')') {
        return fail(at, DocKind::InputCount);
    }
    mark_at(tokens, at, b',')
}

// The place behind the ')' of a vertex.
fn behind_inputs(tokens: &[Token<'_>], at: usize) -> Result<usize, PartFail>
    requires within { at ≤ length tokens.now }
    ensures { GivesBehind tokens.now (spec.close_in (drop at tokens.now)) result }
{
    if has_mark(tokens, at, b',') {
        return fail(at, DocKind::InputCount);
    }
    mark_at(tokens, at, b')')
}

// A leaf at a place where a number stands: before '*' it would be a coefficient.
fn leaf(
    tokens: &[Token<'_>],
    at: usize,
    number: u64,
    inputs: &mut Inputs,
) -> Result<usize, PartFail>
    requires within { at < length tokens.now }
    ensures read { (generators : List Generator) → spec.GivesInput generators tokens.now (spec.leaf_in inputs.old.seen number (drop (at + 1) tokens.now)) inputs.old inputs.new result }
    ensures narrow { IfOk result (λ _. inputs.new.seen ≤ GREATEST_ARITY) }
    ensures further { IfOk result (λ end. at < end) }
{
    if has_mark(tokens, at + 1, b'*') {
        return fail(at, DocKind::Syntax);
    }
    if inputs.seen >= GREATEST_ARITY {
        return fail(at, DocKind::TooWide);
    }
    if number > GREATEST_LEAF {
        return fail(at, DocKind::Labels);
    }
    inputs.trees.push(Tree::Leaf(number as u8))?;
    inputs.seen += 1;
    Ok(at + 1)
}

// A tree at a place, of which `depth` generators may still stand one inside the other, and the place behind it. It joins
// the inputs of the vertex above it.
#[cycle(read)]
fn tree_within(
    alloc: Global,
    table: &GenTable,
    tokens: &[Token<'_>],
    at: usize,
    depth: u8,
    inputs: &mut Inputs,
) -> Result<usize, PartFail>
    requires within { at ≤ length tokens.now }
    requires narrow { inputs.old.seen ≤ GREATEST_ARITY }
    ensures read { spec.GivesInput table.now tokens.now (spec.tree_in table.now depth inputs.old.seen (drop at tokens.now)) inputs.old inputs.new result }
    ensures narrow { IfOk result (λ _. inputs.new.seen ≤ GREATEST_ARITY) }
    ensures further { IfOk result (λ end. at < end) }
{
    let Some(token) = token_at(tokens, at) else {
        return Err(misfit(tokens, at));
    };
    match token {
        Token::Number(number) => leaf(tokens, at, *number, inputs),
        Token::Word(name) => match generator_named(table, name) {
            Some(generator) => {
                if depth == 0 {
                    return fail(at, DocKind::TooDeep);
                }
                vertex_within(alloc, table, tokens, at + 1, generator, depth - 1, inputs)
            }
            None => fail(at, DocKind::NameUnknown),
        },
        _ => Err(misfit(tokens, at)),
    }
}

// An input, where no ')' may stand, and the place behind it.
#[cycle(read)]
fn input_within(
    alloc: Global,
    table: &GenTable,
    tokens: &[Token<'_>],
    at: usize,
    depth: u8,
    inputs: &mut Inputs,
) -> Result<usize, PartFail>
    requires within { at ≤ length tokens.now }
    requires narrow { inputs.old.seen ≤ GREATEST_ARITY }
    ensures read { spec.GivesInput table.now tokens.now (spec.input_in (spec.tree_in table.now depth) inputs.old.seen (drop at tokens.now)) inputs.old inputs.new result }
    ensures narrow { IfOk result (λ _. inputs.new.seen ≤ GREATEST_ARITY) }
    ensures further { IfOk result (λ end. at < end) }
{
    if has_mark(tokens, at, b')') {
        return fail(at, DocKind::InputCount);
    }
    tree_within(alloc, table, tokens, at, depth, inputs)
}

// The vertex of a generator whose name stands before the place, and the place behind it. It joins the inputs above it.
#[cycle(read)]
fn vertex_within(
    alloc: Global,
    table: &GenTable,
    tokens: &[Token<'_>],
    at: usize,
    generator: u16,
    depth: u8,
    above: &mut Inputs,
) -> Result<usize, PartFail>
    requires within { at ≤ length tokens.now }
    requires narrow { above.old.seen ≤ GREATEST_ARITY }
    requires held { generator < length table.now }
    ensures read { spec.GivesInput table.now tokens.now (spec.node_in table.now (Some (spec.tree_in table.now depth)) above.old.seen (Some generator) (drop at tokens.now)) above.old above.new result }
    ensures narrow { IfOk result (λ _. above.new.seen ≤ GREATEST_ARITY) }
    ensures further { IfOk result (λ end. at < end) }
{
    let arity = table.get(generator).arity;
    let mut inputs = Inputs {
        trees: Items::from_vec(Vec::with_capacity(alloc, usize::from(arity))?),
        seen: above.seen,
    };
    let mut next = at;
    for index in 0..arity {
        next = before_input(tokens, next, index == 0)?;
        next = input_within(alloc, table, tokens, next, depth, &mut inputs)?;
    }
    let end = behind_inputs(tokens, next)?;
    above.seen = inputs.seen;
    above.trees.push(Tree::Node(generator, inputs.trees))?;
    Ok(end)
}

// The tree at a place, of which no more is asked than that it is one within the limits.
fn any_tree_at(
    alloc: Global,
    table: &GenTable,
    tokens: &[Token<'_>],
    at: usize,
) -> Result<TreeRead, PartFail>
    requires within { at ≤ length tokens.now }
    ensures read { spec.GivesTree tokens.now (spec.tree_in table.now 8 0 (drop at tokens.now)) result }
    ensures narrow { IfOk result (λ found. found.leaves ≤ GREATEST_ARITY) }
    ensures fits { IfOk result (λ found. Fits table.now (tree_of found.tree)) }
    ensures further { IfOk result (λ found. at < found.end) }
{
    let mut found = Inputs {
        trees: Items::from_vec(Vec::with_capacity(alloc, 1)?),
        seen: 0,
    };
    let end = tree_within(alloc, table, tokens, at, MOST_NESTED, &mut found)?;
    let Some(tree) = found.trees.pop() else {
        unreachable!();
    };
    Ok(TreeRead {
        tree,
        leaves: found.seen,
        end,
    })
}

// Whether the leaves carry 1 to their number, each once.
fn is_numbered(tree: &Tree) -> bool
    ensures { result ≡ spec.has_each (leaf_count (tree_of tree.now)) (tree_of tree.now) }
{
    numbered(tree).is_some()
}

// What stands against a whole tree at its last token.
fn against(demands: Demands, found: &TreeRead) -> Option<DocKind>
    requires leaves { found.now.leaves ≡ leaf_count (tree_of found.now.tree) }
    ensures { result ≡ first_row (spec.against demands (tree_of found.now.tree)) }
{
    if !demands.loose && !is_numbered(&found.tree) {
        return Some(DocKind::Labels);
    }
    if found.leaves < demands.least {
        return Some(DocKind::ArityOut);
    }
    match demands.arity {
        Some(arity) if arity != found.leaves => Some(DocKind::MixedArity),
        _ => None,
    }
}

// The tree at a place, of which so much is asked.
pub(crate) fn demanded_tree_at(
    alloc: Global,
    table: &GenTable,
    demands: Demands,
    tokens: &[Token<'_>],
    at: usize,
) -> Result<TreeRead, PartFail>
    requires within { at ≤ length tokens.now }
    ensures read { spec.GivesTree tokens.now (spec.whole_tree_in table.now demands (drop at tokens.now)) result }
    ensures narrow { IfOk result (λ found. found.leaves ≤ GREATEST_ARITY) }
    ensures fits { IfOk result (λ found. Fits table.now (tree_of found.tree)) }
    ensures further { IfOk result (λ found. at < found.end) }
{
    let found = any_tree_at(alloc, table, tokens, at)?;
    if let Some(kind) = against(demands, &found) {
        return fail(found.end - 1, kind);
    }
    Ok(found)
}

/// The tree that stands at a place among the tokens of a line, and the place behind it. It is a number (a leaf) that isn't
/// followed by '*', since it's a coefficient there; or a generator's name, '(', as many trees as its arity with ','
/// between them, and ')'. Where `loose` is true, its leaf numbers are free up to 99; else its leaves carry 1 to some
/// number, each once.
///
/// `At` names the first token that is refused; the end of the line counts as the token behind the last. Its kind is the first
/// of these that holds there: `NumberLong` for a number of more than 18 digits; `NameUnknown` for a word where a tree
/// begins that no generator has; `TooDeep` for a generator's name with 8 generators above it; `TooWide` for the tenth leaf;
/// `InputCount` for a ',' after as many inputs as the arity, or a ')' after fewer; `Labels` for a leaf number above 99, or,
/// unless leaf numbers are free, at the last token of a tree whose leaves aren't 1 to n, each once; `Syntax` for any other
/// token that can't stand there, as a number before '*'. `NoMemory` comes for want of memory alone.
pub fn tree_at(
    alloc: Global,
    table: &GenTable,
    tokens: &[Token<'_>],
    at: usize,
    loose: bool,
) -> Result<(Tree, usize), PartFail>
    requires within { at ≤ length tokens.now }
    ensures read { spec.GivesTreeAt tokens.now (spec.whole_tree_in table.now (spec.any_arity loose) (drop at tokens.now)) result }
    ensures fits { IfOk result (λ found. Fits table.now (tree_of found.0)) }
    ensures further { IfOk result (λ found. at < found.1) }
{
    let demands = Demands {
        loose,
        least: 1,
        arity: None,
    };
    let found = demanded_tree_at(alloc, table, demands, tokens, at)?;
    Ok((found.tree, found.end))
}

/// Law: reading accepts a tree exactly where tokens begin with those of a tree over the table that is as it is
/// demanded: within the limits, with leaves that carry 1 to some number, each once, unless they are free, and with the
/// arity that is asked; and where no '*' stands behind a tree that is a leaf.
pub fn trees_are_accepted()
    ensures law { TreesAreAccepted }
{}

/// Law: over a table, tokens begin with those of at most one tree that fits, and so go on in one way.
pub fn trees_are_read_once()
    ensures law { TreesAreReadOnce }
{}

/// Law: where reading refuses a token, no tree over the table goes on with it behind the tokens before, where a number
/// before '*' is another token than one that is a leaf; and where it refuses the end of the line, these are the tokens
/// of none. If a limit is passed, this is said of the trees within it; and if leaf numbers or the arity are refused, of
/// the trees that are as demanded.
pub fn trees_are_refused_rightly()
    ensures law { TreesAreRefusedRightly }
{}

/// Law: where reading refuses a token, or the end of the line, the tokens before begin a tree over the table.
pub fn refused_trees_begin()
    ensures law { RefusedTreesBegin }
{}
