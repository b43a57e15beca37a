//! What each of the six fields of a row says.
ghost use Rattle.std.specs.Prelude.{◌≡◌, [], ◌∷◌, bytes_eq, codes, false, IfOk};
ghost use Rattle.px_base.specs.Rows.{along_shapes, field_value, fold_shapes, form_shapes, own_shapes, reads_shapes, start_shapes};
ghost use Rattle.px_base.specs.RowTexts.{IsRowAlong, IsRowFold, IsRowStart};
ghost use Rattle.program_table.specs.FieldWords.{like_words};

use crate::field_words::FieldWords;
use crate::numbers::{row_value, small_number};
use px_base::{Along, Fold, Form, Own, Rank, Reads, RowFault, Start};

fn form_named(word: &str) -> Result<Form, RowFault>
    ensures { result ≡ field_value 1 form_shapes (word.now ∷ []) }
{
    if word == "given" {
        Ok(Form::Given)
    } else if word == "back" {
        Ok(Form::Back)
    } else if word == "simple" {
        Ok(Form::Simple)
    } else {
        Err(RowFault::Unknown { field: 1 })
    }
}

/// What field 1 says.
pub fn form_of(words: FieldWords<'_>) -> Result<Form, RowFault>
    ensures { result ≡ field_value 1 form_shapes (like_words words.entry) }
{
    match words {
        FieldWords::Empty => Err(RowFault::Missing { field: 1 }),
        FieldWords::One(word) => form_named(word),
        FieldWords::Two(_, _) | FieldWords::Three(_, _, _) | FieldWords::More => {
            Err(RowFault::Unknown { field: 1 })
        }
    }
}

fn reads_named(word: &str) -> Result<Reads, RowFault>
    ensures { result ≡ field_value 2 reads_shapes (word.now ∷ []) }
{
    if word == "all" {
        Ok(Reads::All)
    } else {
        Err(RowFault::Unknown { field: 2 })
    }
}

fn reads_by_rank(word: &str, rank: &str) -> Result<Reads, RowFault>
    ensures { result ≡ field_value 2 reads_shapes (word.now ∷ rank.now ∷ []) }
{
    if word != "earlier" {
        return Err(RowFault::Unknown { field: 2 });
    }
    if rank == "id" {
        Ok(Reads::Earlier(Rank::ById))
    } else if rank == "degree" {
        Ok(Reads::Earlier(Rank::ByDegree))
    } else {
        Err(RowFault::Unknown { field: 2 })
    }
}

/// What field 2 says.
pub fn reads_of(words: FieldWords<'_>) -> Result<Reads, RowFault>
    ensures { result ≡ field_value 2 reads_shapes (like_words words.entry) }
{
    match words {
        FieldWords::Empty => Err(RowFault::Missing { field: 2 }),
        FieldWords::One(word) => reads_named(word),
        FieldWords::Two(word, rank) => reads_by_rank(word, rank),
        FieldWords::Three(_, _, _) | FieldWords::More => Err(RowFault::Unknown { field: 2 }),
    }
}

fn start_named(word: &str) -> Result<Start, RowFault>
    ensures said { result ≡ field_value 3 start_shapes (word.now ∷ []) }
    ensures range { IfOk result (λ x. IsRowStart x) }
{
    if word == "id" {
        Ok(Start::OwnId)
    } else {
        Err(RowFault::Unknown { field: 3 })
    }
}

fn start_at_each(word: &str, value: &str) -> Result<Start, RowFault>
    ensures said { result ≡ field_value 3 start_shapes (word.now ∷ value.now ∷ []) }
    ensures range { IfOk result (λ x. IsRowStart x) }
{
    if word != "each" {
        return Err(RowFault::Unknown { field: 3 });
    }
    match row_value(value) {
        Some(value) => Ok(Start::Each(value)),
        None => Err(RowFault::Number { field: 3 }),
    }
}

fn start_at_sources(word: &str, at_source: &str, elsewhere: &str) -> Result<Start, RowFault>
    ensures said { result ≡ field_value 3 start_shapes (word.now ∷ at_source.now ∷ elsewhere.now ∷ []) }
    ensures range { IfOk result (λ x. IsRowStart x) }
{
    if word != "source" {
        return Err(RowFault::Unknown { field: 3 });
    }
    let Some(at_source) = row_value(at_source) else {
        return Err(RowFault::Number { field: 3 });
    };
    let Some(elsewhere) = row_value(elsewhere) else {
        return Err(RowFault::Number { field: 3 });
    };
    Ok(Start::Source(at_source, elsewhere))
}

/// What field 3 says.
pub fn start_of(words: FieldWords<'_>) -> Result<Start, RowFault>
    ensures said { result ≡ field_value 3 start_shapes (like_words words.entry) }
    ensures range { IfOk result (λ x. IsRowStart x) }
{
    match words {
        FieldWords::Empty => Err(RowFault::Missing { field: 3 }),
        FieldWords::One(word) => start_named(word),
        FieldWords::Two(word, value) => start_at_each(word, value),
        FieldWords::Three(word, at_source, elsewhere) => {
            start_at_sources(word, at_source, elsewhere)
        }
        FieldWords::More => Err(RowFault::Unknown { field: 3 }),
    }
}

fn along_named(word: &str) -> Result<Along, RowFault>
    ensures said { result ≡ field_value 4 along_shapes (word.now ∷ []) }
    ensures range { IfOk result (λ x. IsRowAlong x) }
{
    if word == "same" {
        Ok(Along::Same)
    } else {
        Err(RowFault::Unknown { field: 4 })
    }
}

/// What field 4 says, whose second word is `weight`.
fn along_by_weight(word: &str) -> Result<Along, RowFault>
    ensures said { result ≡ field_value 4 along_shapes (word.now ∷ codes "weight" ∷ []) }
    ensures range { IfOk result (λ x. IsRowAlong x) }
{
    if word == "plus" {
        Ok(Along::PlusWeight)
    } else if word == "floor" {
        Ok(Along::FloorWeight)
    } else if word == "cap" {
        Ok(Along::CapWeight)
    } else if word == "minus" {
        Err(RowFault::Number { field: 4 })
    } else {
        Err(RowFault::Unknown { field: 4 })
    }
}

/// What field 4 says, whose second word isn't `weight`.
fn along_by_number(word: &str, number: &str) -> Result<Along, RowFault>
    requires { bytes_eq number.now (codes "weight") ≡ false }
    ensures said { result ≡ field_value 4 along_shapes (word.now ∷ number.now ∷ []) }
    ensures range { IfOk result (λ x. IsRowAlong x) }
{
    if word == "plus" {
        match small_number(number.as_bytes()) {
            Some(number) => Ok(Along::Plus(number)),
            None => Err(RowFault::Number { field: 4 }),
        }
    } else if word == "minus" {
        match small_number(number.as_bytes()) {
            Some(number) => Ok(Along::Minus(number)),
            None => Err(RowFault::Number { field: 4 }),
        }
    } else {
        Err(RowFault::Unknown { field: 4 })
    }
}

fn along_of_two(word: &str, argument: &str) -> Result<Along, RowFault>
    ensures said { result ≡ field_value 4 along_shapes (word.now ∷ argument.now ∷ []) }
    ensures range { IfOk result (λ x. IsRowAlong x) }
{
    if argument == "weight" {
        along_by_weight(word)
    } else {
        along_by_number(word, argument)
    }
}

/// What field 4 says.
pub fn along_of(words: FieldWords<'_>) -> Result<Along, RowFault>
    ensures said { result ≡ field_value 4 along_shapes (like_words words.entry) }
    ensures range { IfOk result (λ x. IsRowAlong x) }
{
    match words {
        FieldWords::Empty => Err(RowFault::Missing { field: 4 }),
        FieldWords::One(word) => along_named(word),
        FieldWords::Two(word, argument) => along_of_two(word, argument),
        FieldWords::Three(_, _, _) | FieldWords::More => Err(RowFault::Unknown { field: 4 }),
    }
}

fn fold_named(word: &str) -> Result<Fold, RowFault>
    ensures said { result ≡ field_value 5 fold_shapes (word.now ∷ []) }
    ensures range { IfOk result (λ x. IsRowFold x) }
{
    if word == "least" {
        Ok(Fold::Least)
    } else if word == "greatest" {
        Ok(Fold::Greatest)
    } else if word == "mex" {
        Ok(Fold::Mex)
    } else {
        Err(RowFault::Unknown { field: 5 })
    }
}

fn fold_by_count(word: &str, number: &str) -> Result<Fold, RowFault>
    ensures said { result ≡ field_value 5 fold_shapes (word.now ∷ number.now ∷ []) }
    ensures range { IfOk result (λ x. IsRowFold x) }
{
    if word != "count" {
        return Err(RowFault::Unknown { field: 5 });
    }
    match small_number(number.as_bytes()) {
        Some(number) => Ok(Fold::Count(number as u32)),
        None => Err(RowFault::Number { field: 5 }),
    }
}

/// What field 5 says.
pub fn fold_of(words: FieldWords<'_>) -> Result<Fold, RowFault>
    ensures said { result ≡ field_value 5 fold_shapes (like_words words.entry) }
    ensures range { IfOk result (λ x. IsRowFold x) }
{
    match words {
        FieldWords::Empty => Err(RowFault::Missing { field: 5 }),
        FieldWords::One(word) => fold_named(word),
        FieldWords::Two(word, number) => fold_by_count(word, number),
        FieldWords::Three(_, _, _) | FieldWords::More => Err(RowFault::Unknown { field: 5 }),
    }
}

fn own_named(word: &str) -> Result<Own, RowFault>
    ensures { result ≡ field_value 6 own_shapes (word.now ∷ []) }
{
    if word == "keep" {
        Ok(Own::Keep)
    } else if word == "drop" {
        Ok(Own::Drop)
    } else {
        Err(RowFault::Unknown { field: 6 })
    }
}

/// What field 6 says.
pub fn own_of(words: FieldWords<'_>) -> Result<Own, RowFault>
    ensures { result ≡ field_value 6 own_shapes (like_words words.entry) }
{
    match words {
        FieldWords::Empty => Err(RowFault::Missing { field: 6 }),
        FieldWords::One(word) => own_named(word),
        FieldWords::Two(_, _) | FieldWords::Three(_, _, _) | FieldWords::More => {
            Err(RowFault::Unknown { field: 6 })
        }
    }
}
