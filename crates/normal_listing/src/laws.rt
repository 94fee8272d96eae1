ghost use Rattle.normal_listing.specs.Rows.{ChoicesAreRows, PartsWithLast};
ghost use Rattle.normal_listing.specs.Sets.{SetWithLast};
ghost use Rattle.normal_listing.specs.VertexWords.{WordsOfVertices};

/// Law: the choices of inputs from tables of sets are the rows of trees over the leaves of the set, in the same order.
pub fn choices_are_rows()
    ensures law { ChoicesAreRows }
{}

/// Law: how a list with one more number behind it is parted.
pub fn parts_with_last()
    ensures law { PartsWithLast }
{}

/// Law: the leaves of a set with one more leaf.
pub fn set_with_last()
    ensures law { SetWithLast }
{}

/// Law: the word of a vertex is joined of those of its inputs, in the order of its label's word.
pub fn words_of_vertices()
    ensures law { WordsOfVertices }
{}
