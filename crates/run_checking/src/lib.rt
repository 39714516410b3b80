// The tests of a sentence at one place of its middle template.
#![tactic(auto)]

ghost use Rattle.std.specs.Prelude.{◌%◌, ◌/◌, ◌≡◌, eqb, drop};
ghost use Rattle.meaning.specs.Instructions.{from_start};
ghost use Rattle.meaning.specs.Instructions.{look as looking};
ghost use Rattle.meaning.specs.Matching.{check_all};
ghost use Rattle.meaning.specs.Matching.{check as tested};
ghost use Rattle.meaning.specs.Packing.{first_in, second_in, third_in, site_of, class_of, registers};
ghost use Rattle.meaning.specs.Packing.{test_of, look_of, compare_of, predicate_for, unpack_tests};
ghost use Rattle.run_checking.specs.Checks.{checked_meant, last_test};

use byte_classes::{Class, ClassTable};
use code_numbers::words::CodeWord;
use code_numbers::{
    COMPARE, LOOK, LOOK_FROM_START, PART_CLASS, PART_TRUTH, PREDICATE, PREDICATE_PART, REGISTERS,
    SECOND,
};
use run_class_runs::every_in_class;
use run_code_places::{CodePlace, Wrong, wide};
use run_sites::{byte_at, cell_at, cells_before};

// The byte at a site is the one that is asked for.
fn look(field: &[u8], place: usize, word: CodeWord) -> Result<bool, Wrong>
    ensures { checked_meant result ≡
        tested (look_of (site_of (first_in word.0) (second_in word.0)) (third_in word.0)) field.now place }
{
    let Some(byte) = cell_at(field, place, word.first(), word.second()) else {
        return Err(Wrong);
    };
    Ok(word.third() as u8 == byte)
}

// Look at a cell counted from p, the commonest of the tests.
fn look_ahead(field: &[u8], word: CodeWord) -> Result<bool, Wrong>
    ensures { checked_meant result ≡
        tested (looking (from_start (second_in word.0)) (third_in word.0)) field.now 0 }
{
    let Some(byte) = byte_at(field, wide(word.second())) else {
        return Err(Wrong);
    };
    Ok(word.third() as u8 == byte)
}

// The bytes at two sites are equal.
fn compare(field: &[u8], place: usize, word: CodeWord) -> Result<bool, Wrong>
    ensures { checked_meant result ≡
        tested (compare_of (site_of (first_in word.0 % registers) (second_in word.0))
        (site_of (first_in word.0 / registers) (third_in word.0))) field.now place }
{
    let sites = word.first();
    let Some(first) = cell_at(field, place, sites % REGISTERS, word.second()) else {
        return Err(Wrong);
    };
    let Some(second) = cell_at(field, place, sites / REGISTERS, word.third()) else {
        return Err(Wrong);
    };
    Ok(first == second)
}

// The byte at a site is in a class, or is not, as the condition has it.
fn predicate(
    classes: &ClassTable,
    field: &[u8],
    place: usize,
    word: CodeWord,
) -> Result<bool, Wrong>
    ensures { checked_meant result ≡
        tested (predicate_for (site_of (first_in word.0 % registers) (second_in word.0)) (class_of (third_in word.0))
        (eqb (first_in word.0 / registers) 1)) field.now place }
{
    let site = word.first();
    let class = Class::from_number(word.third()).ok_or(Wrong)?;
    let Some(byte) = cell_at(field, place, site % REGISTERS, word.second()) else {
        return Err(Wrong);
    };
    let expected = site / REGISTERS == 1;
    Ok(classes.passes(byte, class) == expected)
}

// The bytes from one site up to another are all in a class, or are not, as the condition has it. The test's number is
// asked here, after its class, since a fourth number in `check` would slow the other three.
fn predicate_part(
    classes: &ClassTable,
    field: &[u8],
    place: usize,
    word: CodeWord,
) -> Result<bool, Wrong>
    ensures { checked_meant result ≡ tested (last_test word.0) field.now place }
{
    let operand = word.first();
    let class = Class::from_number(operand / PART_CLASS).ok_or(Wrong)?;
    if word.number() != PREDICATE_PART {
        return Err(Wrong);
    }
    let whole = field.len();
    let from = cells_before(whole, place, operand % REGISTERS, word.second()).ok_or(Wrong)?;
    let to = cells_before(whole, place, operand / REGISTERS % REGISTERS, word.third()).ok_or(
        Wrong,
    )?;
    if to < from {
        return Err(Wrong);
    }
    let expected = operand / PART_TRUTH % 2 == 1;
    Ok(every_in_class(classes, &field[from..to], class) == expected)
}

// One test at a place, by its number.
fn check(classes: &ClassTable, field: &[u8], place: usize, word: CodeWord) -> Result<bool, Wrong>
    ensures { checked_meant result ≡ tested (test_of word.0) field.now place }
{
    if word.0 % SECOND == LOOK_FROM_START {
        return look_ahead(field, word);
    }
    match word.number() {
        LOOK => look(field, place, word),
        COMPARE => compare(field, place, word),
        PREDICATE => predicate(classes, field, place, word),
        _ => predicate_part(classes, field, place, word),
    }
}

// All of a sentence's tests at one place. No range says where they stand: the place after the last may pass the largest
// number, and a word that isn't there is wrong only where it is reached.
pub fn check_all(
    classes: &ClassTable,
    code: &[u32],
    tests: CodePlace,
    count: usize,
    field: &[u8],
    place: usize,
) -> Result<bool, Wrong>
    ensures { checked_meant result ≡
        check_all (unpack_tests count (drop tests.0 code.now)) field.now place }
{
    let mut at = tests.0;
    let mut left = count;
    while 0 < left {
        if code.len() <= at {
            return Err(Wrong);
        }
        if !check(classes, field, place, CodeWord(code[at]))? {
            return Ok(false);
        }
        at += 1;
        left -= 1;
    }
    Ok(true)
}
