//! Chains of reductions over elements with leading trees, and the lists over which they run. Definitions and laws, without code.
#![tactic(auto)]

ghost use Rattle.shuffle_reductions.specs.Laws.{ChainsAddUp, ChainsAreShort, ChainsEnd, ChainsEndWithZero, ChainsFall, ChainsJoin, ChainsToZero, ElementsExtendThemselves, ExtensionsGrow, ExtensionsReduce, FinishedChains, MultiplesAreGreater, OneLastSum, SElementsByChains, SElementsInAnyOrder, SElementsTurn, TreesMayBeKept, WholeInsertions};
ghost use Rattle.shuffle_reductions.specs.TableGrowth.{TablesChange, TablesGrow};
ghost use Rattle.shuffle_reductions.specs.SweepLaws.{SweptChains};

/// Law: chains between sums that are the same, and chains joined.
pub fn chains_join()
    ensures law { ChainsJoin }
{}

/// Law: the first sum of a chain is the last and the sum of the cofactors times the insertions.
pub fn chains_add_up()
    ensures law { ChainsAddUp }
{}

/// Law: the trees of a chain fall, within each bound of the first sum.
pub fn chains_fall()
    ensures law { ChainsFall }
{}

/// Law: a chain has at most as many steps as there are shuffle trees of the arity, and fewer where one more insertion stands next.
pub fn chains_are_short()
    ensures law { ChainsAreShort }
{}

/// Law: each sum on shuffle trees has a finished chain.
pub fn chains_end()
    ensures law { ChainsEnd }
{}

/// Law: the last sum of a finished chain, over a list that extends the elements, is a normal form of the first.
pub fn finished_chains()
    ensures law { FinishedChains }
{}

/// Law: where S-elements reduce, finished chains end in one sum exactly where the first sums differ by one of the span.
pub fn one_last_sum()
    ensures law { OneLastSum }
{}

/// Law: where S-elements reduce, a finished chain from a sum in the span ends with 0.
pub fn chains_end_with_zero()
    ensures law { ChainsEndWithZero }
{}

/// Law: a sum with a chain to 0 reduces below each bound of its trees.
pub fn chains_to_zero()
    ensures law { ChainsToZero }
{}

/// Law: an S-element with a chain to 0 reduces below its small common multiple.
pub fn s_elements_by_chains()
    ensures law { SElementsByChains }
{}

/// Law: an S-element with its two elements exchanged reduces below the same trees.
pub fn s_elements_turn()
    ensures law { SElementsTurn }
{}

/// Law: whether S-elements reduce doesn't depend on how the list is ordered.
pub fn s_elements_in_any_order()
    ensures law { SElementsInAnyOrder }
{}

/// Law: where no leading tree divides another, a small common multiple has a greater arity than both elements.
pub fn multiples_are_greater()
    ensures law { MultiplesAreGreater }
{}

/// Law: an insertion of an element in a tree of its own arity is the element.
pub fn whole_insertions()
    ensures law { WholeInsertions }
{}

/// Law: what reduces over a list that extends the elements reduces over the elements.
pub fn extensions_reduce()
    ensures law { ExtensionsReduce }
{}

/// Law: the elements extend themselves.
pub fn elements_extend_themselves()
    ensures law { ElementsExtendThemselves }
{}

/// Law: a divided tree less the last sum of its finished chain may be kept in the list over which chains run.
pub fn trees_may_be_kept()
    ensures law { TreesMayBeKept }
{}

/// Law: a monic element with a new leading tree may be added to the elements and to the list that extends them.
pub fn extensions_grow()
    ensures law { ExtensionsGrow }
{}

/// Law: a chain over positions is, through the sorted list of trees, one of insertions: finished, stopped and without zeros where that one is.
pub fn swept_chains()
    ensures law { SweptChains }
{}

/// Law: a table over sorted trees grows with each element that is found on the way.
pub fn tables_grow()
    ensures law { TablesGrow }
{}

/// Law: a table over sorted trees changes with its elements, as where the tail of one is reduced.
pub fn tables_change()
    ensures law { TablesChange }
{}
