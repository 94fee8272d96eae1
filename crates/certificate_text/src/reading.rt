ghost use Rattle.std.specs.Prelude.{◌≡◌, ◌≤◌, ◌<◌, ◌+◌, ◌^◌, [], Err, IfOk, MatchResult, Ok, length, map};
ghost use Rattle.std.specs.List.{All};
ghost use Rattle.presentation_text.specs.Lines.{lines as lines_of};
ghost use Rattle.presentation_text.specs.Presentations.{IsReadAs};
ghost use Rattle.presentation_text.specs.Tokens.{tokens as tokens_of};
ghost use Rattle.certificate_text.specs.BlockReadings as spec;
ghost use Rattle.certificate_text.specs.BlockReadings.{between};
ghost use Rattle.certificate_text.specs.Laws.{BlocksAreAccepted};
ghost use Rattle.certificate_text.specs.PlaceReadings as forms;
ghost use Rattle.certificate_text.specs.Plain.{plain_block};
ghost use Rattle.certificate_text.specs.Writable.{IsWritableBlock};
ghost use Rattle.certificate_text.specs.Tails.{AreReadAs, IsReadyBlock, IsTailRefused};

use crate::block::Block;
use crate::cert_fail::{CertFail, ReadCertFail};
use crate::places::{Place, Progress, follow};
use presentation_text::{
    DocKind, Document, MOST_BYTES, PartFail, Token, counts, next_line, tokens,
};
use sqlite_items::Items;
use std::alloc::Global;

fn fail<T>(line: u32, kind: DocKind) -> Result<T, ReadCertFail>
    ensures { result ≡ Err (ReadCertFail.At (record { line = line; kind = kind })) }
{
    Err(ReadCertFail::At(CertFail { line, kind }))
}

// Where the next line stands behind a line that counts.
fn tail_line(
    alloc: Global,
    document: &Document,
    now: Progress,
    number: u32,
    line: &[u8],
) -> Result<Progress, ReadCertFail>
    ensures { MatchResult result (λ next. spec.tail_line (spec.base_of document.now) (forms.follow_of now) number (tokens_of line.now) ≡ Ok (forms.follow_of next))
        (forms.StopsAtBlockLine (spec.tail_line (spec.base_of document.now) (forms.follow_of now) number (tokens_of line.now))) }
{
    let found = match tokens(alloc, line) {
        Ok(found) => found,
        Err(_) => return Err(ReadCertFail::NoMemory),
    };
    let tokens = found.as_slice();
    let Some(Token::Word(word)) = tokens.get(0) else {
        return fail(number, DocKind::Directive);
    };
    let word = word.as_str();
    if let Some(kind) = now.place.word_fault(document.version, word) {
        return fail(number, kind);
    }
    match follow(alloc, document, now, word, tokens) {
        Ok(next) => Ok(next),
        Err(PartFail::At { kind, .. }) => fail(number, kind),
        Err(PartFail::NoMemory) => Err(ReadCertFail::NoMemory),
    }
}

// The blocks of the lines of a text, whose numbers go from `first` on.
fn blocks_of(
    alloc: Global,
    document: &Document,
    text: &[u8],
    first: u32,
) -> Result<Items<Block>, ReadCertFail>
    requires few { first + length text.now < 2 ^ 32 }
    ensures { MatchResult result (λ blocks. spec.blocks_from (spec.base_of document.now) (between, []) first (lines_of text.now) ≡ Ok (map plain_block blocks))
        (forms.StopsAtBlockLine (spec.blocks_from (spec.base_of document.now) (between, []) first (lines_of text.now))) }
{
    let mut now = Progress {
        place: Place::Between,
        blocks: Items::new(alloc),
    };
    let mut rest = text;
    let mut number = first;
    while let Some((line, behind)) = next_line(rest) {
        if counts(line) {
            now = tail_line(alloc, document, now, number, line)?;
        }
        rest = behind;
        number += 1;
    }
    let Progress { place, blocks } = now;
    match place {
        Place::Between => Ok(blocks),
        _ => fail(number, DocKind::Block),
    }
}

/// The blocks of the tail of a text, from which the document was read; none where there is no tail. A block has the lines
/// `want ELEMENT`, any number of steps, and `end`; a step has the lines `step ELEMENT` and any number of uses. A use has the
/// line `use COEF ; TREE ; rel K`, or `step K` in the third part, and then `; TREE` for each input: COEF is '-' or nothing and a
/// number, of which the residue counts, and a K above 4,294,967,295 stands for that number. In the trees of a use the leaf
/// numbers are free up to 99.
///
/// `At` names, among the lines of the whole text, the first line of the tail that is refused, or the one that is missing behind
/// the last one, and the kind. The first of these is answered: `Directive` where the first token is none of the words that
/// lines begin with; `Block` where the word can't follow the lines before it, or the text ends inside a block; else the first
/// fault in the line, as for elements and trees, and `Syntax` for a token that can't stand where it does. `NoMemory` comes for
/// want of memory alone. All sums fit the document's field and generators, the coefficients of uses are residues, and each
/// block has fewer than 2^32 - 1 steps.
pub fn read_blocks(
    alloc: Global,
    bytes: &[u8],
    document: &Document,
) -> Result<Items<Block>, ReadCertFail>
    requires short { length bytes.now ≤ MOST_BYTES }
    requires read { IsReadAs bytes.now document.now }
    ensures blocks { MatchResult result (AreReadAs bytes.now document.now) (IsTailRefused bytes.now document.now) }
    ensures ready { IfOk result (All (IsReadyBlock document.now.field document.now.gens)) }
    ensures writable { IfOk result (λ blocks. All (IsWritableBlock document.now.field document.now.gens) (map plain_block blocks)) }
{
    let Some(tail) = document.tail else {
        return Ok(Items::new(alloc));
    };
    blocks_of(alloc, document, &bytes[tail.from..], tail.line)
}

/// Law: reading accepts exactly the lines of blocks, and gives what these say.
pub fn blocks_are_accepted()
    ensures law { BlocksAreAccepted }
{}
