ghost use Rattle.std.specs.Prelude.{◌≡◌, ◌≤◌, ◌+◌, ◌++◌, ◌∷◌, IfOk, MatchOption, codes, length};
ghost use Rattle.std.specs.Fmt.{decimal};
ghost use Rattle.std.specs.List.{All};
ghost use Rattle.symmetric_sums.specs.Terms.{FitsOver};
ghost use Rattle.certificate_text.specs.Tails.{IsReadyBlock};
ghost use Rattle.operad_answers.specs.Parts.{line};
ghost use Rattle.operad_answers.specs.Verdicts.{Holds};
ghost use Rattle.operad_run.specs.CheckedTexts.{IsRefusedBy, CheckTells, cause_name as name_of};

use crate::run::fault_text;
use crate::status::Status;
use certificate_check::{CheckAnswer, CheckCause, check_block};
use certificate_text::{Block, ReadCertFail, read_blocks};
use presentation_text::{Document, MOST_BYTES, ReadDocFail, read_document, write_number};
use std::alloc::{AllocError, Global};

/// The first block that doesn't hold, counted from 1, its failing step and the cause.
#[derive(Clone, Copy, Debug, PartialEq, Eq)]
pub struct Refusal {
    pub block: u64,
    pub step: u32,
    pub cause: CheckCause,
}

// The first block that doesn't hold; none where all hold.
fn first_refusal(
    alloc: Global,
    document: &Document,
    blocks: &[Block],
) -> Result<Option<Refusal>, AllocError>
    requires rels { All (FitsOver document.now.field document.now.gens) document.now.rels }
    requires ready { All (IsReadyBlock document.now.field document.now.gens) blocks.now }
    ensures { IfOk result (λ found. MatchOption found (All (Holds document.now) blocks.now) (IsRefusedBy document.now blocks.now)) }
{
    let mut before: u64 = 0;
    for block in blocks {
        if let CheckAnswer::Refused { step, cause } = check_block(alloc, document, block)? {
            return Ok(Some(Refusal {
                block: before + 1,
                step,
                cause,
            }));
        }
        before += 1;
    }
    Ok(None)
}

fn cause_name(cause: CheckCause) -> &'static str
    ensures { result.now ≡ name_of cause }
{
    match cause {
        CheckCause::Ahead => "Ahead",
        CheckCause::UseUnfit => "UseUnfit",
        CheckCause::Differs => "Differs",
        CheckCause::NotWanted => "NotWanted",
    }
}

// The line `accepted K`.
fn accepted_text(alloc: Global, count: u64) -> Result<Vec<u8>, AllocError>
    ensures { IfOk result (λ text. text.items ≡ line (codes "accepted " ++ decimal count)) }
{
    let mut text = Vec::new(alloc);
    text.extend_from_slice(b"accepted ")?;
    write_number(count, &mut text)?;
    text.push(b'\n')?;
    Ok(text)
}

// The line `refused BLOCK STEP CAUSE`.
fn refused_text(alloc: Global, refusal: Refusal) -> Result<Vec<u8>, AllocError>
    ensures { IfOk result (λ text. text.items ≡ line (codes "refused " ++ (decimal refusal.block ++ 32 ∷ (decimal refusal.step ++ 32 ∷ name_of refusal.cause)))) }
{
    let mut text = Vec::new(alloc);
    text.extend_from_slice(b"refused ")?;
    write_number(refusal.block, &mut text)?;
    text.push(b' ')?;
    write_number(u64::from(refusal.step), &mut text)?;
    text.push(b' ')?;
    text.extend_from_slice(cause_name(refusal.cause).as_bytes())?;
    text.push(b'\n')?;
    Ok(text)
}

/// The status and the text of a text of at most 16,777,216 bytes: `Done` and how many blocks there are where it is a
/// presentation with blocks that hold, `Refused` and the first block that doesn't hold, or `Document` and the first line that
/// is refused, with its kind. `AllocError` comes for want of memory alone.
pub fn check_text(alloc: Global, bytes: &[u8]) -> Result<(Status, Vec<u8>), AllocError>
    requires short { length bytes.now ≤ MOST_BYTES }
    ensures contents { IfOk result (λ contents. CheckTells bytes.now contents.0 contents.1.items) }
{
    let document = match read_document(alloc, bytes) {
        Ok(document) => document,
        Err(ReadDocFail::At(fail)) => return Ok((
            Status::Document,
            fault_text(alloc, fail.line, fail.kind)?,
        )),
        Err(ReadDocFail::NoMemory) => return Err(AllocError),
    };
    let blocks = match read_blocks(alloc, bytes, &document) {
        Ok(blocks) => blocks,
        Err(ReadCertFail::At(fail)) => return Ok((
            Status::Document,
            fault_text(alloc, fail.line, fail.kind)?,
        )),
        Err(ReadCertFail::NoMemory) => return Err(AllocError),
    };
    match first_refusal(alloc, &document, blocks.as_slice())? {
        Some(refusal) => Ok((Status::Refused, refused_text(alloc, refusal)?)),
        None => Ok((Status::Done, accepted_text(alloc, blocks.len() as u64)?)),
    }
}
