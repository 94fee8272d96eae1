//! From symmetric to shuffle operads and back: definitions and laws, without code.
#![tactic(auto)]

ghost use Rattle.shuffle_transfer.specs.LabelCounts.{LabelsCounted};
ghost use Rattle.shuffle_transfer.specs.Laws.{AllOrderings, Back, Forth, FramesBack, Kernel, LabelsAreWords, Spelling};
ghost use Rattle.shuffle_transfer.specs.NormalLaws.{NormalFormsByLists, NormalTreesListed};
ghost use Rattle.shuffle_transfer.specs.Transfer.{Transfer};
ghost use Rattle.shuffle_transfer.specs.OtherLeaves.{OtherLeaves};
ghost use Rattle.shuffle_transfer.specs.RelabelledIdeals.{IdealIsRelabelled};

/// Law: the list of relabellings has the permutations of 1 to m, each once, in lexicographic order.
pub fn all_relabellings()
    ensures law { AllOrderings }
{}

/// Law: labels stand one to one for the generators with their words.
pub fn labels_are_words()
    ensures law { LabelsAreWords }
{}

/// Law: a generator of k inputs has k! labels divided by the factorials of the sizes of its symmetric and skew parts.
pub fn labels_counted()
    ensures law { LabelsCounted }
{}

/// Law: shuffle forms of labelled trees are the shuffle trees over the labels; the way back gives the sorted spelling;
/// an element has the shuffle form zero exactly where it is a sum of instances of symmetry rules.
pub fn shuffle_forms()
    ensures forth { Forth }
    ensures back { Back }
    ensures spelling { Spelling }
    ensures kernel { Kernel }
{}

/// Law: an element is in the ideal exactly where its shuffle form is a sum of insertions of relabelled relations.
pub fn transfer()
    ensures law { Transfer }
{}

/// Law: the tree of an insertion into a frame is the insertion of the trees.
pub fn frames_back()
    ensures law { FramesBack }
{}

/// Law: over an independent and spanning list of the normal trees each element has one normal form, the combination that the
/// list gives, collected; and congruent elements have the same.
pub fn normal_forms_by_lists()
    ensures law { NormalFormsByLists }
{}

/// Law: for a Groebner basis through an arity, the trees that no leading tree divides are the normal trees, and each list of
/// these is independent and spanning modulo the ideal.
pub fn normal_trees_listed()
    ensures law { NormalTreesListed }
{}

/// Law: the symmetric tree of a shuffle tree with other leaves is the symmetric tree with other leaves.
pub fn other_leaves()
    ensures law { OtherLeaves }
{}

/// Law: an element of the ideal, relabelled by a permutation, is in the ideal.
pub fn ideal_is_relabelled()
    ensures law { IdealIsRelabelled }
{}
