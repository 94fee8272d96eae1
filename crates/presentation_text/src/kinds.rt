ghost use Rattle.std.specs.Prelude.{◌≡◌};
ghost use Rattle.presentation_text.specs.declared.kinds.PartFail.TheVariants as part;

use std::alloc::AllocError;

/// Why a line of a document, or of a certificate behind it, is refused.
#[derive(Clone, Copy, Debug, PartialEq, Eq)]
pub enum DocKind {
    /// The first line isn't the header.
    Header,
    /// The first word names no line, or none that may stand here.
    Directive,
    /// The field or the order is missing.
    Missing,
    /// The field's number is none of the primes that a field may have.
    FieldUnknown,
    /// No order has the name.
    OrderUnknown,
    /// The name of a generator is longer than 16 bytes.
    NameBad,
    /// A generator has the name already.
    NameTaken,
    /// An arity is below or above those that are allowed.
    ArityOut,
    /// The sizes of the parts don't add up to the arity, or one is 0.
    PartsOut,
    /// There are twelve generators already.
    TooManyGens,
    /// A token can't stand where it does, or one is missing.
    Syntax,
    /// No generator has the name.
    NameUnknown,
    /// A generator has more or fewer inputs than its arity.
    InputCount,
    /// A leaf number is too great, or the leaves don't carry 1 to some number, each once.
    Labels,
    /// The trees of an element, or of both sides of a line, have different arities.
    MixedArity,
    /// Too many generators stand one inside the other.
    TooDeep,
    /// A tree has too many leaves.
    TooWide,
    /// A number has more than 18 digits.
    NumberLong,
    /// There are as many relations as are allowed already.
    TooManyRelations,
    /// The line can't follow those before it in a certificate.
    Block,
    /// A generator has a weight already.
    WeightTaken,
    /// A weight is above those that are allowed.
    WeightOut,
    /// The line isn't of a form that is read so far.
    NotBuilt,
}

/// The first line that is refused, counted from 1, also where it is missing behind the last one; and why.
#[derive(Clone, Copy, Debug, PartialEq, Eq)]
pub struct DocFail {
    pub line: u32,
    pub kind: DocKind,
}

/// Why a document isn't read.
#[derive(Clone, Copy, Debug, PartialEq, Eq)]
pub enum ReadDocFail {
    At(DocFail),
    NoMemory,
}

/// Why a part of a line isn't read.
#[derive(Clone, Copy, Debug, PartialEq, Eq)]
pub enum PartFail {
    /// The token that is refused, counted from 0, where the end of the line counts as the token behind the last; and why.
    At { token: usize, kind: DocKind },
    NoMemory,
}

impl From<AllocError> for PartFail {
    ghost from_gives = { λ _ fail. fail ≡ part.NoMemory };

    fn from(_fail: AllocError) -> PartFail {
        PartFail::NoMemory
    }
}
