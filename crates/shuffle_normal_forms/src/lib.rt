//! Free trees and normal forms over elements with leading trees. Definitions and laws, without code.
#![tactic(auto)]

ghost use Rattle.shuffle_normal_forms.specs.Laws.{FreeTreesIndependent, FreeTreesLeadNone, FreeTreesListed, FreeTreesSpan, OneNormalForm};
ghost use Rattle.shuffle_normal_forms.specs.FreeTreesSplit.{FreeTreesSplit};
ghost use Rattle.shuffle_normal_forms.specs.FreeTreeLists.{FreeTreesByInputs, FreeTreesOnNumbers, LevelsSuffice, NumbersInOrder, RenamedAreFree, RootIsTested};

/// Law: the list of the free trees has each of them once, and nothing else.
pub fn free_trees_listed()
    ensures law { FreeTreesListed }
{}

/// Law: where S-elements reduce, a sum on free trees in the span of the insertions is zero.
pub fn free_trees_independent()
    ensures law { FreeTreesIndependent }
{}

/// Law: each shuffle tree, and each sum on them, has a normal form on trees that are no greater.
pub fn free_trees_span()
    ensures law { FreeTreesSpan }
{}

/// Law: where S-elements reduce, the free trees are the shuffle trees that lead no sum in the span.
pub fn free_trees_lead_none()
    ensures law { FreeTreesLeadNone }
{}

/// Law: where S-elements reduce, there is one normal form, which tells whether a difference lies in the span.
pub fn one_normal_form()
    ensures law { OneNormalForm }
{}

/// Law: the list of the free trees is the one that is made from the lists of the inputs.
pub fn free_trees_by_inputs()
    ensures law { FreeTreesByInputs }
{}

/// Law: the free trees on other numbers are those on 1 to m, with other leaves.
pub fn free_trees_on_numbers()
    ensures law { FreeTreesOnNumbers }
{}

/// Law: more levels than there are numbers give no more free trees.
pub fn levels_suffice()
    ensures law { LevelsSuffice }
{}

/// Law: a tree passes the test at its root exactly where no place with the root has a leading tree as its divisor.
pub fn root_is_tested()
    ensures law { RootIsTested }
{}

/// Law: each rising list of numbers from 1 on is made of 1 to m by a map that keeps the order.
pub fn numbers_in_order()
    ensures law { NumbersInOrder }
{}

/// Law: a tree with other leaves in the same order is free exactly where the tree is.
pub fn renamed_are_free()
    ensures law { RenamedAreFree }
{}

/// Law: a tree is free exactly where its inputs are, and no leading tree divides it at the root.
pub fn free_trees_split()
    ensures law { FreeTreesSplit }
{}
