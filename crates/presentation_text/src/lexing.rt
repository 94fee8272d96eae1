ghost use Rattle.std.specs.Prelude.{◌≡◌, ◌≤◌, ◌<◌, ◌∷◌, IfOk, IsTrue, MatchOption, length, take_while};
ghost use Rattle.std.specs.List.{list_all};
ghost use Rattle.presentation_text.specs.Tokens as spec;
ghost use Rattle.presentation_text.specs.Laws.{TokensAreDefined, WordsAreWords};

use crate::lines::is_blank;
use std::alloc::{AllocError, Global};
use std::marker::Model;

/// A word of a line, lent from it: contracts see its bytes.
#[derive(Debug, Drop)]
pub struct Word<'a> {
    text: &'a str,
}

impl<'a> Model for Word<'a> {
    ghost use Rattle.std.specs.Prelude.{List, ℕ};

    ghost Value = { List ℕ };

    ghost view = { λ word. word.text.now };
}

impl<'a> Word<'a> {
    /// The word as text.
    pub fn as_str(&self) -> &'a str
        ensures bytes { result.now ≡ self.now }
    {
        self.text
    }
}

/// A token, of which a word is lent from the line: a word, a number, a number of more than 18 digits, a single byte of
/// `+ - * ( ) , ; =`, or a byte that begins no token.
#[derive(Debug, Drop)]
pub enum Token<'a> {
    Word(Word<'a>),
    Number(u64),
    Long,
    Byte(u8),
    Bad,
}

const LONGEST_NUMBER: usize = 18;

// For how many tokens there is room at first.
const FIRST_ROOM: usize = 256;

fn is_letter(byte: u8) -> bool
    ensures { result ≡ spec.is_letter byte }
{
    byte.is_ascii_alphabetic()
}

fn is_digit(byte: u8) -> bool
    ensures { result ≡ spec.is_digit byte }
{
    byte.is_ascii_digit()
}

fn is_word_byte(byte: u8) -> bool
    ensures { result ≡ spec.is_word_byte byte }
{
    is_letter(byte) || is_digit(byte) || byte == b'_'
}

fn is_single(byte: u8) -> bool
    ensures { result ≡ spec.is_single byte }
{
    matches!(byte, b'+' | b'-' | b'*' | b'(' | b')' | b',' | b';' | b'=')
}

// How many bytes go on with a word.
fn word_len(bytes: &[u8]) -> usize
    ensures { result ≡ length (take_while spec.is_word_byte bytes.now) }
{
    bytes.iter().take_while(|byte| is_word_byte(**byte)).count()
}

// How many digits stand at the front.
fn digits_len(bytes: &[u8]) -> usize
    ensures { result ≡ length (take_while spec.is_digit bytes.now) }
{
    bytes.iter().take_while(|byte| is_digit(**byte)).count()
}

fn value(digits: &[u8]) -> u64
    requires digits { IsTrue (list_all spec.is_digit digits.now) }
    requires short { length digits.now ≤ 18 }
    ensures { result ≡ spec.value_behind 0 digits.now }
{
    let mut value: u64 = 0;
    for digit in digits {
        value = value * 10 + u64::from(*digit - b'0');
    }
    value
}

fn numeral<'a>(digits: &[u8]) -> Token<'a>
    requires { IsTrue (list_all spec.is_digit digits.now) }
    ensures { result ≡ spec.numeral digits.now }
{
    if digits.len() <= LONGEST_NUMBER {
        Token::Number(value(digits))
    } else {
        Token::Long
    }
}

fn lent_word(bytes: &[u8]) -> Token<'_>
    requires { IsTrue (list_all spec.is_word_byte bytes.now) }
    ensures { result ≡ Token.Word bytes.now }
{
    let text = std::str::from_utf8(bytes).unwrap();
    Token::Word(Word { text })
}

// The token at the front, if the first byte is no blank, and how many bytes it takes.
fn front(rest: &[u8]) -> (Option<Token<'_>>, usize)
    ensures within { result.1 ≤ length rest.now }
    ensures some { 0 < length rest.now → 0 < result.1 }
    ensures read { MatchOption result.0
        (spec.tokens rest.now ≡ spec.tokens_behind result.1 rest.now)
        (λ token. spec.tokens rest.now ≡ token ∷ spec.tokens_behind result.1 rest.now) }
{
    match rest {
        [] => (None, 0),
        [byte, more @ ..] => {
            if is_blank(*byte) {
                return (None, 1);
            }
            if is_letter(*byte) {
                let len = word_len(more);
                return (Some(lent_word(&rest[..len + 1])), len + 1);
            }
            if is_digit(*byte) {
                let len = digits_len(more);
                return (Some(numeral(&rest[..len + 1])), len + 1);
            }
            if is_single(*byte) {
                return (Some(Token::Byte(*byte)), 1);
            }
            (Some(Token::Bad), 1)
        }
    }
}

/// The tokens of a line. `AllocError` comes for want of memory alone.
pub fn tokens(alloc: Global, line: &[u8]) -> Result<Vec<Token<'_>>, AllocError>
    ensures defined { IfOk result (λ found. spec.AreTokens line.now found.items) }
    ensures found { IfOk result (λ found. found.items ≡ spec.tokens line.now) }
{
    let mut found = Vec::with_capacity(alloc, line.len().min(FIRST_ROOM))?;
    let mut rest = line;
    while !rest.is_empty() {
        let (token, len) = front(rest);
        if let Some(token) = token {
            found.push(token)?;
        }
        let (_, behind) = rest.split_at(len);
        rest = behind;
    }
    Ok(found)
}

/// Law: what the tokens of a line are, and the function that gives them.
pub fn tokens_are_defined()
    ensures law { TokensAreDefined }
{}

/// Law: the word of a token of a line is a word.
pub fn words_are_words()
    ensures law { WordsAreWords }
{}
