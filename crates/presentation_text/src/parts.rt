ghost use Rattle.std.specs.Prelude.{◌≡◌, ◌≤◌, ◌<◌, ◌+◌, ◌∷◌, [], ℕ, List, MatchOption, MatchResult, drop, length, Ok, Err};
ghost use Rattle.presentation_text.specs.TreeReadings.{begins_with};
ghost use Rattle.presentation_text.specs.Readings as spec;
ghost use Rattle.presentation_text.specs.declared.lexing.Token.{Token};

use crate::kinds::{DocKind, PartFail};
use crate::lexing::Token;

/// Whether this single byte stands at a place among tokens, which is at most their number.
pub fn has_mark(tokens: &[Token<'_>], at: usize, mark: u8) -> bool
    requires within { at ≤ length tokens.now }
    ensures exact { result ≡ begins_with mark (drop at tokens.now) }
{
    match token_at(tokens, at) {
        Some(Token::Byte(byte)) => *byte == mark,
        _ => false,
    }
}

// The token at a place, or none at the end of the line.
pub(crate) fn token_at<'a, 'b>(tokens: &'b [Token<'a>], at: usize) -> Option<&'b Token<'a>>
    requires within { at ≤ length tokens.now }
    ensures { MatchOption result (drop at tokens.now ≡ [])
        (λ token. (drop at tokens.now ≡ token.now ∷ drop (at + 1) tokens.now) × (at < length tokens.now)) }
{
    tokens.get(at)
}

// The token at a place is refused, for this kind.
pub(crate) fn fail<T>(token: usize, kind: DocKind) -> Result<T, PartFail>
    ensures { result ≡ Err (PartFail.At token kind) }
{
    Err(PartFail::At { token, kind })
}

// The token at a place can't stand there.
pub(crate) fn misfit(tokens: &[Token<'_>], at: usize) -> PartFail
    requires within { at ≤ length tokens.now }
    ensures { result ≡ PartFail.At at (spec.misplaced_in (drop at tokens.now)) }
{
    let kind = match token_at(tokens, at) {
        Some(Token::Long) => DocKind::NumberLong,
        _ => DocKind::Syntax,
    };
    PartFail::At { token: at, kind }
}

/// The place behind this single byte, which stands at a place among tokens; `At` where it doesn't, with the kind of a token that
/// can't stand there.
pub fn mark_at(tokens: &[Token<'_>], at: usize, mark: u8) -> Result<usize, PartFail>
    requires within { at ≤ length tokens.now }
    ensures { spec.GivesBehind tokens.now (spec.mark_in mark (drop at tokens.now)) result }
{
    let Some(token) = token_at(tokens, at) else {
        return Err(misfit(tokens, at));
    };
    match token {
        Token::Byte(byte) => {
            if *byte == mark {
                Ok(at + 1)
            } else {
                Err(misfit(tokens, at))
            }
        }
        _ => Err(misfit(tokens, at)),
    }
}

/// The end of the line stands at a place among tokens; `At` where it doesn't, with the kind of a token that can't stand there.
pub fn end_at(tokens: &[Token<'_>], at: usize) -> Result<(), PartFail>
    requires within { at ≤ length tokens.now }
    ensures { MatchResult result (λ _. spec.end_in (drop at tokens.now) ≡ Ok tt)
        (spec.StopsAs tokens.now (spec.end_in (drop at tokens.now))) }
{
    match token_at(tokens, at) {
        None => Ok(()),
        Some(_) => Err(misfit(tokens, at)),
    }
}

/// The number that stands at a place among tokens; `At` where none does, with the kind of a token that can't stand there.
pub fn number_at(tokens: &[Token<'_>], at: usize) -> Result<u64, PartFail>
    requires within { at ≤ length tokens.now }
    ensures { MatchResult result (λ number. (spec.number_in (drop at tokens.now) ≡ Ok (number, drop (at + 1) tokens.now)) × (at < length tokens.now))
        (spec.StopsAs tokens.now (spec.number_in (drop at tokens.now))) }
{
    let Some(token) = token_at(tokens, at) else {
        return Err(misfit(tokens, at));
    };
    match token {
        Token::Number(number) => Ok(*number),
        _ => Err(misfit(tokens, at)),
    }
}

/// The word that stands at a place among tokens; `At` where none does, with the kind of a token that can't stand there.
pub fn word_at<'a>(tokens: &'a [Token<'_>], at: usize) -> Result<&'a str, PartFail>
    requires within { at ≤ length tokens.now }
    ensures { MatchResult result (λ word. (spec.word_in (drop at tokens.now) ≡ Ok (word.now, drop (at + 1) tokens.now)) × (at < length tokens.now))
        (spec.StopsAs tokens.now (spec.word_in (drop at tokens.now))) }
{
    let Some(token) = token_at(tokens, at) else {
        return Err(misfit(tokens, at));
    };
    match token {
        Token::Word(word) => Ok(word.as_str()),
        _ => Err(misfit(tokens, at)),
    }
}
