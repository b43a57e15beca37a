//! Reads a program from its row.
ghost use Rattle.std.specs.Prelude.{◌≡◌, IfOk};
ghost use Rattle.px_base.specs.Rows.{along_shapes, field_at, fold_shapes, form_shapes, own_shapes, reads_shapes, row_fields, row_read, start_shapes};
ghost use Rattle.px_base.specs.RowTexts.{IsRowAlong, IsRowFold, IsRowProgram, IsRowStart};

use crate::field_words::{field_words, has_field};
use crate::row_fields::{along_of, fold_of, form_of, own_of, reads_of, start_of};
use px_base::{Along, Fold, Form, Own, Program, Reads, RowFault, Start};

fn read_form(row: &str) -> Result<Form, RowFault>
    ensures { result ≡ field_at (row_fields row.now) 1 form_shapes }
{
    form_of(field_words(row, 1))
}

fn read_reads(row: &str) -> Result<Reads, RowFault>
    ensures { result ≡ field_at (row_fields row.now) 2 reads_shapes }
{
    reads_of(field_words(row, 2))
}

fn read_start(row: &str) -> Result<Start, RowFault>
    ensures said { result ≡ field_at (row_fields row.now) 3 start_shapes }
    ensures range { IfOk result (λ x. IsRowStart x) }
{
    start_of(field_words(row, 3))
}

fn read_along(row: &str) -> Result<Along, RowFault>
    ensures said { result ≡ field_at (row_fields row.now) 4 along_shapes }
    ensures range { IfOk result (λ x. IsRowAlong x) }
{
    along_of(field_words(row, 4))
}

fn read_fold(row: &str) -> Result<Fold, RowFault>
    ensures said { result ≡ field_at (row_fields row.now) 5 fold_shapes }
    ensures range { IfOk result (λ x. IsRowFold x) }
{
    fold_of(field_words(row, 5))
}

fn read_own(row: &str) -> Result<Own, RowFault>
    ensures { result ≡ field_at (row_fields row.now) 6 own_shapes }
{
    own_of(field_words(row, 6))
}

/// The program that a row says: six fields with `;` between them, which are form, reads, start, along, fold and own. Blanks
/// round a field and more than one blank between words are skipped.
///
/// # Errors
/// The first fault of the row, from left to right.
pub fn read_row(text: &str) -> Result<Program, RowFault>
    ensures said { result ≡ row_read text.now }
    ensures range { IfOk result (λ program. IsRowProgram program) }
{
    let form = read_form(text)?;
    let reads = read_reads(text)?;
    let start = read_start(text)?;
    let along = read_along(text)?;
    let fold = read_fold(text)?;
    let own = read_own(text)?;
    if has_field(text, 7) {
        return Err(RowFault::Trailing);
    }
    Ok(Program {
        form,
        reads,
        start,
        along,
        fold,
        own,
    })
}
