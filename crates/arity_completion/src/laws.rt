ghost use Rattle.arity_completion.specs.Laws.{DifferencesAreKept, EntriesAreCarried, ReducedRowsAreKept, WholeStarts};

/// Law: the entry for a row of a completion that was reduced, or for an element whose tail was, may be pushed, and its element
/// stands for the new one.
pub fn reduced_rows_are_kept()
    ensures law { ReducedRowsAreKept }
{}

/// Law: the entry for an element that is reduced to nothing keeps the rule.
pub fn differences_are_kept()
    ensures law { DifferencesAreKept }
{}

/// Law: where an element is added to a basis, or one is replaced, and its entry is pushed, the entries stand for the elements.
pub fn entries_are_carried()
    ensures law { EntriesAreCarried }
{}

/// Law: a start that relabels by 1 to n is at the element itself.
pub fn whole_starts()
    ensures law { WholeStarts }
{}
