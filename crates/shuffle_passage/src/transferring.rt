ghost use Rattle.shuffle_passage.specs.Transfer.{TransferOfAnswers};

/// Law: an element is in the ideal of relations exactly where the shuffle form of what `collected` answers for it is a sum of
/// insertions of shuffle forms of what `relabellings` answers for the relations.
pub fn transfer_of_answers()
    ensures law { TransferOfAnswers }
{}
