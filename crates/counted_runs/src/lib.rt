//! Counted runs: what a number of reductions counts, and a number that is enough. Definitions and laws, without code.
#![tactic(auto)]

ghost use Rattle.counted_runs.specs.Counters.{CallsCount, CountersJoinRuns};
ghost use Rattle.counted_runs.specs.Entries.{EntriesComeAbout};
ghost use Rattle.counted_runs.specs.RunLaws.{CallsAreApart, FullRunsGrow, LastLeadsAreOne, QuestionsDontMatter, RunsJoin, StoppedChainsStopEntries, StoppedRunsAreShort};
ghost use Rattle.counted_runs.specs.RunsSoFar.{RunsSoFarGrow};
ghost use Rattle.counted_runs.specs.LoopLaws.{ArityIsDone, LoopBegins, LoopEnds, RowEndsInElement, RowEndsInZero, RowStops, RowsBegin, TailIsReduced, TailStops, TailsBegin};

/// Law: every stopped counted run is shorter than the number of steps that is enough.
pub fn stopped_runs_are_short()
    ensures law { StoppedRunsAreShort }
{}

/// Law: where what is reduced is on labelled trees, an entry has stopped where its chain is stopped.
pub fn stopped_chains_stop_entries()
    ensures law { StoppedChainsStopEntries }
{}

/// Law: a finished run followed by one that has no item in common with it is a run, as long as both.
pub fn runs_join()
    ensures law { RunsJoin }
{}

/// Law: a full run stays full where a finished run over the basis follows it.
pub fn full_runs_grow()
    ensures law { FullRunsGrow }
{}

/// Law: runs of different calls have no item in common.
pub fn calls_are_apart()
    ensures law { CallsAreApart }
{}

/// Law: whether it is a run of the completion or the certificate doesn't depend on what is asked.
pub fn questions_dont_matter()
    ensures law { QuestionsDontMatter }
{}

/// Law: the run of the completion grows by one entry for each chain, and is full in the end.
pub fn runs_so_far_grow()
    ensures law { RunsSoFarGrow }
{}

/// Law: the runs of calls with different items on one counter join to one run.
pub fn counters_join_the_runs()
    ensures law { CountersJoinRuns }
{}

/// Law: what makes a chain over monic elements of the ideal an entry of a run, for each kind of item.
pub fn entries_come_about()
    ensures law { EntriesComeAbout }
{}

/// Law: a call over the basis counts the steps of its chains.
pub fn calls_count()
    ensures law { CallsCount }
{}

/// Law: a last row has one leading tree or none, and none where it is 0.
pub fn last_leads_are_one()
    ensures law { LastLeadsAreOne }
{}

/// Law: the completion begins through arity 1, with no elements and no steps.
pub fn loop_begins()
    ensures law { LoopBegins }
{}

/// Law: from an arity the completion comes to the rows of the next one, all of whose jobs are left.
pub fn rows_begin()
    ensures law { RowsBegin }
{}

/// Law: a row that reduces to 0 leaves the elements as they are.
pub fn row_ends_in_zero()
    ensures law { RowEndsInZero }
{}

/// Law: a row that reduces to a multiple of a monic element adds this element.
pub fn row_ends_in_element()
    ensures law { RowEndsInElement }
{}

/// Law: where the steps end in a row, the count rose by the length of a stopped run.
pub fn row_stops()
    ensures law { RowStops }
{}

/// Law: once no job is left the tails of the new elements come, in any order of their leading trees.
pub fn tails_begin()
    ensures law { TailsBegin }
{}

/// Law: the tail of the element with the next pending leading tree is replaced by what it reduces to.
pub fn tail_is_reduced()
    ensures law { TailIsReduced }
{}

/// Law: where the steps end in a tail, the count rose by the length of a stopped run.
pub fn tail_stops()
    ensures law { TailStops }
{}

/// Law: once no tail is pending the completion is through the arity.
pub fn arity_is_done()
    ensures law { ArityIsDone }
{}

/// Law: through the last arity the count rose by the length of a full run.
pub fn loop_ends()
    ensures law { LoopEnds }
{}
