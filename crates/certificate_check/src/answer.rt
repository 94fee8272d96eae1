/// What the checker answers.
#[derive(Clone, Copy, Debug, PartialEq, Eq)]
pub enum CheckAnswer {
    /// The block holds.
    Accepted,
    /// The block doesn't hold: the first step that doesn't, counted from 1, and the cause.
    Refused { step: u32, cause: CheckCause },
}

/// Why a block doesn't hold.
#[derive(Clone, Copy, Debug, PartialEq, Eq)]
pub enum CheckCause {
    /// A use cites a step that isn't before its own.
    Ahead,
    /// A use cites a symmetry rule, isn't valid in any arity, or has another arity than the first use of its step.
    UseUnfit,
    /// The element of the step isn't the sum of its uses.
    Differs,
    /// The wanted element isn't that of the last step; without steps it isn't 0. The step is the number of steps.
    NotWanted,
}
