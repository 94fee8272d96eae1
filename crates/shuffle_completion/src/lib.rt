//! The completion of a presentation, arity by arity, and reduced bases. Definitions and laws, without code.
#![tactic(auto)]

ghost use Rattle.shuffle_completion.specs.Laws.{ArityBegins, ArityEnds, CompleteIsReduced, CompletionStarts, FormsByChains, ListingIsNormal, NormalFormsDecide, NormalSumsDecide, OneReducedBasis, OrderDoesNotMatter, TaskEndsInElement, TaskEndsInZero};
ghost use Rattle.shuffle_completion.specs.Existence.{CompleteElementsExist, MinimalTreesExist, NormalFormsExist, NormalTreesAreABasis, NormalTreesExist};

/// Law: the empty list is complete through arity 1.
pub fn completion_starts()
    ensures law { CompletionStarts }
{}

/// Law: where the elements are complete through an arity, the next one is under way.
pub fn arity_begins()
    ensures law { ArityBegins }
{}

/// Law: a task whose sum has a chain to 0 is solved.
pub fn task_ends_in_zero()
    ensures law { TaskEndsInZero }
{}

/// Law: a task whose sum has a finished chain to a multiple of a monic element is solved once this element is added.
pub fn task_ends_in_element()
    ensures law { TaskEndsInElement }
{}

/// Law: where all tasks of an arity are solved, the elements with their tails of this arity reduced are complete.
pub fn arity_ends()
    ensures law { ArityEnds }
{}

/// Law: how elements and tasks are ordered doesn't matter.
pub fn order_does_not_matter()
    ensures law { OrderDoesNotMatter }
{}

/// Law: complete elements are the reduced basis.
pub fn complete_is_reduced()
    ensures law { CompleteIsReduced }
{}

/// Law: the ideal and the order determine the reduced basis.
pub fn one_reduced_basis()
    ensures law { OneReducedBasis }
{}

/// Law: for a reduced basis the listing of an arity has all normal trees, each once.
pub fn listing_is_normal()
    ensures law { ListingIsNormal }
{}

/// Law: the last sum of a finished chain, passed back, is the normal form, as a sum.
pub fn forms_by_chains()
    ensures law { FormsByChains }
{}

/// Law: two elements have one normal form exactly where their difference is in the ideal.
pub fn normal_forms_decide()
    ensures sums { NormalSumsDecide }
    ensures forms { NormalFormsDecide }
{}

/// Law: for each arity there are complete elements through it.
pub fn complete_elements_exist()
    ensures law { CompleteElementsExist }
{}

/// Law: each element has a normal form.
pub fn normal_forms_exist()
    ensures law { NormalFormsExist }
{}

/// Law: the normal trees of an arity are finitely many, and can be listed.
pub fn normal_trees_exist()
    ensures law { NormalTreesExist }
{}

/// Law: the normal trees of an arity are independent and spanning modulo the ideal.
pub fn normal_trees_are_a_basis()
    ensures law { NormalTreesAreABasis }
{}

/// Law: the minimal trees of an arity are finitely many, and can be listed.
pub fn minimal_trees_exist()
    ensures law { MinimalTreesExist }
{}
