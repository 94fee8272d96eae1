//! Presentations of symmetric operads: definitions and laws, without code.
#![tactic(auto)]

ghost use Rattle.operad_ideals.specs.IdealLaws.{AgreementIsInIdeal, CollectedForms, IdealIsClosed, OneIdeal, OnlyZeroInArityOne};
ghost use Rattle.operad_ideals.specs.Laws.{AgreementKeepsLabels, OneSpelling};
ghost use Rattle.operad_ideals.specs.CompositeLaws.{CompositesInIdeal};

/// Law: a labelled tree has exactly one sorted spelling, with exactly one sign.
pub fn one_spelling()
    ensures law { OneSpelling }
{}

/// Law: what agrees up to symmetry with a labelled tree is labelled by the same numbers.
pub fn agreement_keeps_labels()
    ensures law { AgreementKeepsLabels }
{}

/// Law: instances whose context is a tree with one leaf 0, and instances with a built-in hole, give one ideal.
pub fn one_ideal()
    ensures law { OneIdeal }
{}

/// Law: the ideal holds the element of each instance and is closed under sums, multiples and sameness.
pub fn ideal_is_closed()
    ensures law { IdealIsClosed }
{}

/// Law: in arity one the ideal holds zero alone, since each rule with terms has two inputs or more.
pub fn only_zero_in_arity_one()
    ensures law { OnlyZeroInArityOne }
{}

/// Law: a labelled tree less its sign times its sorted spelling is a sum of instances of symmetry rules, and so is a
/// labelled tree less the sign times any tree that agrees with it.
pub fn agreement_is_in_ideal()
    ensures law { AgreementIsInIdeal }
{}

/// Law: two elements have one collected form exactly where their difference is a sum of instances of symmetry rules.
pub fn collected_forms()
    ensures law { CollectedForms }
{}

/// Law: the ideal is closed under composition from both sides.
pub fn composites_in_ideal()
    ensures law { CompositesInIdeal }
{}
