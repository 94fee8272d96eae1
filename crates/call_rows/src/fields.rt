ghost use Rattle.std.specs.Prelude.{◌<◌, IfOk};

use prime_field::Field;
use rows::{RowFail, end_line, end_number, number_of, write_before, write_text};
use std::alloc::AllocError;

// What is calculated of two residues.
#[derive(Clone, Copy, Debug)]
enum OfTwo {
    Sum,
    Difference,
    Product,
}

// What is calculated of one number.
#[derive(Clone, Copy, Debug)]
enum OfOne {
    // Of a residue.
    Negative,
    // Of a residue other than 0.
    Inverse,
    // Of a residue.
    Signed,
    // Of any integer.
    OfSigned,
    // Of any natural number.
    OfNumber,
}

// The number below 2^64 that a word says.
fn large_number_of(word: &String) -> Result<u64, RowFail> {
    match word.as_str().parse::<u64>() {
        Ok(number) => Ok(number),
        Err(_) => Err(RowFail::Refused),
    }
}

// The integer that a word says.
fn integer_of(word: &String) -> Result<i64, RowFail> {
    match word.as_str().parse::<i64>() {
        Ok(number) => Ok(number),
        Err(_) => Err(RowFail::Refused),
    }
}

// The field of the prime that a word says.
fn field_of(word: &String) -> Result<Field, RowFail> {
    match Field::of(large_number_of(word)?) {
        Some(field) => Ok(field),
        None => Err(RowFail::Refused),
    }
}

// The residue that a word says.
fn residue_of(field: Field, word: &String) -> Result<u32, RowFail>
    ensures residue { IfOk result (λ residue. residue < field) }
{
    let residue = number_of(word)?;
    if residue >= field.prime() {
        return Err(RowFail::Refused);
    }
    Ok(residue)
}

fn of_two(field: Field, call: OfTwo, a: u32, b: u32) -> u32
    requires first { a < field }
    requires second { b < field }
{
    match call {
        OfTwo::Sum => field.add(a, b),
        OfTwo::Difference => field.sub(a, b),
        OfTwo::Product => field.mul(a, b),
    }
}

// The inverse of the residue that a word says.
fn inverse_of(field: Field, word: &String) -> Result<u32, RowFail> {
    let residue = residue_of(field, word)?;
    if residue == 0 {
        return Err(RowFail::Refused);
    }
    Ok(field.inv(residue))
}

fn of_one(field: Field, call: OfOne, word: &String) -> Result<i64, RowFail> {
    match call {
        OfOne::Negative => Ok(i64::from(field.neg(residue_of(field, word)?))),
        OfOne::Inverse => Ok(i64::from(inverse_of(field, word)?)),
        OfOne::Signed => Ok(field.signed(residue_of(field, word)?)),
        OfOne::OfSigned => Ok(i64::from(field.of_signed(integer_of(word)?))),
        OfOne::OfNumber => Ok(i64::from(field.of_number(large_number_of(word)?))),
    }
}

// Ends a line by an integer.
fn end_integer(number: i64, out: &mut Vec<u8>) -> Result<(), AllocError> {
    if number < 0 {
        write_text("-", out)?;
    }
    end_number(number.unsigned_abs(), out)
}

// Writes the prime of each number's field, or `none`.
fn primes(words: &[String], out: &mut Vec<u8>) -> Result<(), RowFail> {
    for word in words {
        let number = large_number_of(word)?;
        write_before(word.as_str(), out)?;
        match Field::of(number) {
            Some(field) => end_number(u64::from(field.prime()), out)?,
            None => end_line("none", out)?,
        }
    }
    Ok(())
}

// Behind a prime, of two residues.
fn two(call: OfTwo, words: &[String], out: &mut Vec<u8>) -> Result<(), RowFail> {
    let [prime, a, b] = words else {
        return Err(RowFail::Refused);
    };
    let field = field_of(prime)?;
    let a = residue_of(field, a)?;
    let b = residue_of(field, b)?;
    Ok(end_number(u64::from(of_two(field, call, a, b)), out)?)
}

// Behind a prime, of each number.
fn each(call: OfOne, words: &[String], out: &mut Vec<u8>) -> Result<(), RowFail> {
    let [prime, numbers @ ..] = words else {
        return Err(RowFail::Refused);
    };
    let field = field_of(prime)?;
    for word in numbers {
        let found = of_one(field, call, word)?;
        write_before(word.as_str(), out)?;
        end_integer(found, out)?;
    }
    Ok(())
}

/// Answers the calls of `prime_field`. False where it has none of this name.
pub fn answer(name: &str, words: &[String], out: &mut Vec<u8>) -> Result<bool, RowFail> {
    match name {
        "Field::of" => primes(words, out)?,
        "Field::add" => two(OfTwo::Sum, words, out)?,
        "Field::sub" => two(OfTwo::Difference, words, out)?,
        "Field::mul" => two(OfTwo::Product, words, out)?,
        "Field::neg" => each(OfOne::Negative, words, out)?,
        "Field::inv" => each(OfOne::Inverse, words, out)?,
        "Field::signed" => each(OfOne::Signed, words, out)?,
        "Field::of_signed" => each(OfOne::OfSigned, words, out)?,
        "Field::of_number" => each(OfOne::OfNumber, words, out)?,
        _ => return Ok(false),
    }
    Ok(true)
}
