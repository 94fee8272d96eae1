ghost use Rattle.division.specs.Laws.{DividersDecideFreeness, TailsAreInsertions};

/// Law: a tree is free exactly where it has no first divider.
pub fn dividers_decide_freeness()
    ensures law { DividersDecideFreeness }
{}

/// Law: a tail has the trees of the terms of an insertion, but for the first.
pub fn tails_are_insertions()
    ensures law { TailsAreInsertions }
{}
