//! What the answers to a document are, in the terms of its symmetric ideal. Definitions and laws, without code.
#![tactic(auto)]

ghost use Rattle.operad_answers.specs.Headline.{Headline};
ghost use Rattle.operad_answers.specs.Laws.{AnswersAreDetermined, AnswersDecide, BudgetsExist, CollectedFormsAreNormal, CompleteElementsAnswer, CountedRunsPay, DocumentsAreWellFormed, DoneExists, EnoughIsNotSpent, JoinedTextsHold, LimitsDecide, LimitsExclude, ListingsTellTrees, MembersHaveBlocks, NormalTextsAreBases, PartsTellBases, QueryLinesDecide, QuestionsAreElements, ProveTextsAreRead, TextsAreDetermined, TextsExist, TextsGrow, VerdictsDecide, VerdictsExist};
ghost use Rattle.operad_answers.specs.CertificateLaws.{HeldCertificatesListNormalTrees, OneFaultOverDocuments, WrittenCertificatesHoldOver};
ghost use Rattle.operad_answers.specs.TrialLaws.{OneTrialText, TrialBudgets, TrialDocumentsAreWritable, TrialDocumentsExist, TrialDocumentsWrite, TrialTextsCount, TrialTextsExist};

/// Law: the headline. What a command prints of a document that is read means what it should, in the terms of the ideal.
pub fn headline()
    ensures law { Headline }
{}

/// Law: what a document that is read writes is a presentation over a field, with an order of trees.
pub fn documents_are_well_formed()
    ensures law { DocumentsAreWellFormed }
{}

/// Law: there is one text for `normal`, one for `basis`, one for `forms` and one answer to each element.
pub fn texts_are_determined()
    ensures law { TextsAreDetermined }
{}

/// Law: what a command other than `prove` prints is a function of the text that is read and the greatest arity.
pub fn answers_are_determined()
    ensures law { AnswersAreDetermined }
{}

/// Law: each normal listing is independent and spanning modulo the ideal, in each arity.
pub fn normal_texts_are_bases()
    ensures law { NormalTextsAreBases }
{}

/// Law: two elements of one arity have equal answers exactly where their difference is in the ideal.
pub fn answers_decide()
    ensures law { AnswersDecide }
{}

/// Law: a verdict is yes exactly where left minus right is in the ideal.
pub fn verdicts_decide()
    ensures law { VerdictsDecide }
{}

/// Law: the texts for `normal` and `basis` exist, and each element has an answer.
pub fn texts_exist()
    ensures law { TextsExist }
{}

/// Law: each element of the ideal is wanted by a block that holds and may be written.
pub fn members_have_blocks()
    ensures law { MembersHaveBlocks }
{}

/// Law: each comparison has a verdict, and each document that is read has a text for `prove`.
pub fn verdicts_exist()
    ensures law { VerdictsExist }
{}

/// Law: the questions of a document that is read are elements.
pub fn questions_are_elements()
    ensures law { QuestionsAreElements }
{}

/// Law: complete elements give the normal listing, the rules of the basis and the normal forms.
pub fn complete_elements_answer()
    ensures law { CompleteElementsAnswer }
{}

/// Law: a stopped counted run is shorter than the number that is enough.
pub fn enough_is_not_spent()
    ensures law { EnoughIsNotSpent }
{}

/// Law: without relations the normal form of an element is its collected form.
pub fn collected_forms_are_normal()
    ensures law { CollectedFormsAreNormal }
{}

/// Law: two lines of answers are equal exactly where the difference of their elements is in the ideal.
pub fn query_lines_decide()
    ensures law { QueryLinesDecide }
{}

/// Law: what `prove` prints is read as the blocks of its yes verdicts, which hold.
pub fn prove_texts_are_read()
    ensures law { ProveTextsAreRead }
{}

/// Law: a document's bytes and what `prove` prints behind them are read as a document with blocks that hold, one for each yes.
pub fn joined_texts_hold()
    ensures law { JoinedTextsHold }
{}

/// Law: the text of a part tells its trees.
pub fn listings_tell_trees()
    ensures law { ListingsTellTrees }
{}

/// Law: a part that prints a basis of the quotient tells the basis.
pub fn parts_tell_bases()
    ensures law { PartsTellBases }
{}

/// Law: what calls have counted over complete elements is paid by each bound that it doesn't exceed.
pub fn counted_runs_pay()
    ensures law { CountedRunsPay }
{}

/// Law: the limits exclude each other, and each has one line.
pub fn limits_exclude()
    ensures law { LimitsExclude }
{}

/// Law: a document that is read meets no limit, or one of the two.
pub fn limits_decide()
    ensures law { LimitsDecide }
{}

/// Law: how the texts of answers and verdicts grow, question by question.
pub fn texts_grow()
    ensures law { TextsGrow }
{}

/// Law: for each document and greatest arity there is a bound that a full counted run keeps.
pub fn budgets_exist()
    ensures law { BudgetsExist }
{}

/// Law: where no limit is met, each command is done with some text within some bound.
pub fn done_exists()
    ensures law { DoneExists }
{}

/// Law: the elements of a certificate that holds over a document are a Groebner basis, and the sorted spellings that no leading tree of it
/// divides are the normal trees, independent and spanning modulo the ideal.
pub fn held_certificates_list_normal_trees()
    ensures law { HeldCertificatesListNormalTrees }
{}

/// Law: a certificate that holds over a document has no fault, and another has at most one.
pub fn one_fault_over_documents()
    ensures law { OneFaultOverDocuments }
{}

/// Law: a certificate that is written for monic elements, with a block that holds for each, holds over a document.
pub fn written_certificates_hold_over()
    ensures law { WrittenCertificatesHoldOver }
{}

/// Law: each seed has a document.
pub fn trial_documents_exist()
    ensures law { TrialDocumentsExist }
{}

/// Law: the document of a seed writes the pre-Lie presentation modulo 32003, with the order by path, and compares each of forty elements
/// with 0.
pub fn trial_documents_write()
    ensures law { TrialDocumentsWrite }
{}

/// Law: the document of a seed may be written and read back.
pub fn trial_documents_are_writable()
    ensures law { TrialDocumentsAreWritable }
{}

/// Law: for each seed 2893900624 steps are enough, and a trial is over budget only with fewer.
pub fn trial_budgets()
    ensures law { TrialBudgets }
{}

/// Law: the first four lines are `lines 40`, `yes 38`, `no 2` and `accepted 38`, and neither form is 0.
pub fn trial_texts_count()
    ensures law { TrialTextsCount }
{}

/// Law: each seed has a text.
pub fn trial_texts_exist()
    ensures law { TrialTextsExist }
{}

/// Law: the seed determines the text.
pub fn one_trial_text()
    ensures law { OneTrialText }
{}
