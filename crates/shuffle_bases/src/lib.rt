//! Elements with leading trees, their insertions and S-elements, and the diamond lemma. Definitions and laws, without code.
#![tactic(auto)]

ghost use Rattle.shuffle_bases.specs.Laws.{DiamondLemma, SElementsStand};

/// Law: where the S-elements of monic elements reduce, each sum of insertions is zero or is led by an insertion.
pub fn diamond_lemma()
    ensures law { DiamondLemma }
{}

/// Law: an S-element at a small common multiple is the difference of two insertions in it.
pub fn s_elements_stand()
    ensures law { SElementsStand }
{}
