//! Characters of the symmetric groups on the quotient by the ideal of a presentation: definitions and laws, without code.
#![tactic(auto)]

ghost use Rattle.action_characters.specs.CycleTypes.{CycleTypesCounted, CycleTypesListed, EachHasType, TypesArePermutations};
ghost use Rattle.action_characters.specs.Laws.{ConjugatesHaveOneTrace, FormsAreUnique, IdentityCounts, NormalTreesGiveTrace, RowsGiveTrace, ShuffleFormsPassBack, ShuffleRowsGiveTrace, TraceIsInvariant, TracesExist, TypesSuffice};
ghost use Rattle.action_characters.specs.ModularLaws.{BasesAgree, FormsOnIndependentLists, LinearTracesExist, TracesCommute};

/// Law: modulo the ideal each element on labelled trees is exactly one combination of an independent and spanning list.
pub fn forms_are_unique()
    ensures law { FormsAreUnique }
{}

/// Law: a permutation has one trace on each basis of an arity, and the same on all of them.
pub fn trace_is_invariant()
    ensures there { TracesExist }
    ensures one { TraceIsInvariant }
{}

/// Law: conjugate permutations have one trace, so that cycle types suffice, and that of the identity is the length of the basis.
pub fn traces_of_conjugates()
    ensures conjugates { ConjugatesHaveOneTrace }
    ensures types { TypesSuffice }
    ensures identity { IdentityCounts }
{}

/// Law: the sum of the diagonal of the rows of a permutation is its trace.
pub fn rows_give_trace()
    ensures law { RowsGiveTrace }
{}

/// Law: for a Groebner basis through an arity, each list of the normal trees is a basis, and the trace on it is that on every basis.
pub fn normal_trees_give_trace()
    ensures law { NormalTreesGiveTrace }
{}

/// Law: for such elements, rows that were computed with shuffle trees give the trace on every basis.
pub fn shuffle_rows_give_trace()
    ensures forms { ShuffleFormsPassBack }
    ensures rows { ShuffleRowsGiveTrace }
{}

/// Law: the list of cycle types has each once and nothing else, from the lexicographically greatest down;
/// their numbers are known from 1 to 9.
pub fn cycle_types_listed()
    ensures list { CycleTypesListed }
    ensures numbers { CycleTypesCounted }
{}

/// Law: the permutation of a cycle type is a permutation with these cycles, and each permutation is conjugate to one of these.
pub fn types_are_permutations()
    ensures cycles { TypesArePermutations }
    ensures each { EachHasType }
{}

/// Law: modulo a span, a sum has one form on an independent list at most, up to sameness.
pub fn forms_on_independent_lists<M, I>()
    ensures law { FormsOnIndependentLists M I }
{}

/// Law: a linear map has a trace on each independent list on which the images of its monomials have forms.
pub fn linear_traces_exist<M, I>()
    ensures law { LinearTracesExist M I }
{}

/// Law: there and back has the trace of back and there.
pub fn traces_commute<M, N, I, J>()
    ensures law { TracesCommute M N I J }
{}

/// Law: a linear map that keeps the span has one trace, on whichever basis it is taken.
pub fn bases_agree<M, I>()
    ensures law { BasesAgree M I }
{}
