//! Formal sums with coefficients modulo a prime: definitions and laws, without code.
#![tactic(auto)]

ghost use Rattle.modular_sums.specs.Laws.{AbstractDiamondLemma, Images, Ranks, Replacements, Residues, Spans, Sums};
ghost use Rattle.modular_sums.specs.FallingLaws.{FallingSums};
ghost use Rattle.modular_sums.specs.PositionLaws.{PositionChainsJoin};
ghost use Rattle.modular_sums.specs.PositionRows.{RowsAreSums};

/// Law: being alike modulo a number is an equivalence that sums and products keep, with negatives.
pub fn residue_laws()
    ensures law { Residues }
{}

/// Law: coefficients of sums and multiples, and sameness is an equivalence that both keep.
pub fn sum_laws<M>()
    ensures law { Sums M }
{}

/// Law: the span of instances holds each of them and is closed under sums, multiples and sameness.
pub fn spans_are_closed<M, I>()
    ensures law { Spans M I }
{}

/// Law: the image of a sum depends on its coefficients alone, and images of sums of instances are sums of their images.
pub fn images_of_sums<M, N, I, J>()
    ensures law { Images M N I J }
{}

/// Law: in a finite total order, how many things are less is a rank.
pub fn counted_ranks<X>()
    ensures law { Ranks X }
{}

/// Law: the diamond lemma over any monomials with a rank.
pub fn diamond_lemma<M, I>()
    ensures law { AbstractDiamondLemma M I }
{}

/// Law: two independent replacements differ by sums of the other one at lower monomials.
pub fn independent_replacements<M, X, Y>()
    ensures law { Replacements M X Y }
{}

/// Law: two falling sums with the same coefficients are one.
pub fn falling_sums<M>()
    ensures law { FallingSums M }
{}

/// Law: chains between sums that are the same, and chains joined.
pub fn position_chains_join()
    ensures law { PositionChainsJoin }
{}

/// Law: a row of numbers is a sum over its positions, with these numbers as coefficients.
pub fn rows_are_sums()
    ensures law { RowsAreSums }
{}
