//! The fields of a row, and the words of a field.
ghost use Rattle.std.specs.Prelude.{◌≡◌, ◌≤◌, ◌-◌, nat_lt, length, slice_get};
ghost use Rattle.std.specs.Option.{option_map};
ghost use Rattle.px_base.specs.Rows.{row_fields, words_at, words_of};
ghost use Rattle.program_table.specs.FieldWords.{HasWords};

/// The words of a field. No shape has more than three.
#[derive(Clone, Copy)]
pub enum FieldWords<'a> {
    /// No word: the field is blank, or isn't there.
    Empty,
    /// One word.
    One(&'a str),
    /// Two words.
    Two(&'a str, &'a str),
    /// Three words.
    Three(&'a str, &'a str, &'a str),
    /// Four words or more.
    More,
}

/// Word `n` of the field, counted from 0.
fn word(field: &str, n: usize) -> Option<&str>
    ensures { option_map (λ w. w.now) result ≡ slice_get (words_of field.now) n }
{
    field.split(' ').filter(|word| !word.is_empty()).nth(n)
}

fn words_in(field: &str) -> FieldWords<'_>
    ensures { HasWords result (words_of field.now) }
{
    let Some(first) = word(field, 0) else {
        return FieldWords::Empty;
    };
    let Some(second) = word(field, 1) else {
        return FieldWords::One(first);
    };
    let Some(third) = word(field, 2) else {
        return FieldWords::Two(first, second);
    };
    match word(field, 3) {
        None => FieldWords::Three(first, second, third),
        Some(_) => FieldWords::More,
    }
}

/// Field `n` of the row, counted from 0.
fn field_text(row: &str, n: usize) -> Option<&str>
    ensures { option_map (λ f. f.now) result ≡ slice_get (row_fields row.now) n }
{
    row.split(';').nth(n)
}

/// The words of field `n` of the row, where fields count from 1. A field that isn't there has none.
pub fn field_words(row: &str, n: usize) -> FieldWords<'_>
    requires { 1 ≤ n }
    ensures { HasWords result (words_at (row_fields row.now) n) }
{
    match field_text(row, n - 1) {
        Some(field) => words_in(field),
        None => FieldWords::Empty,
    }
}

/// Whether the row has a field `n`, where fields count from 1.
pub fn has_field(row: &str, n: usize) -> bool
    requires { 1 ≤ n }
    ensures { result ≡ nat_lt (n - 1) (length (row_fields row.now)) }
{
    field_text(row, n - 1).is_some()
}
