//! Writes the canonical row of a program.
ghost use Rattle.std.specs.Prelude.{◌≡◌, ◌++◌, OnErr, OnOk, codes, decimal};
ghost use Rattle.px_base.specs.RowTexts.{along_text, back_text, fold_text, form_text, front_text, own_text, reads_text, row_text, start_text};
ghost use Rattle.px_base.specs.Text.{value_text};

use px_base::{
    Along, Fold, Form, Memory, Own, Program, Rank, Reads, Start, Value, write_number, write_value,
};

fn form_text(form: Form) -> &'static str
    ensures { result.now ≡ form_text form }
{
    match form {
        Form::Given => "given",
        Form::Back => "back",
        Form::Simple => "simple",
    }
}

fn reads_text(reads: Reads) -> &'static str
    ensures { result.now ≡ reads_text reads }
{
    match reads {
        Reads::All => "all",
        Reads::Earlier(Rank::ById) => "earlier id",
        Reads::Earlier(Rank::ByDegree) => "earlier degree",
    }
}

fn own_text(own: Own) -> &'static str
    ensures { result.now ≡ own_text own }
{
    match own {
        Own::Keep => "keep",
        Own::Drop => "drop",
    }
}

fn append(row: &mut Vec<u8>, text: &str) -> Result<(), Memory>
    ensures { OnOk result (row.new.items ≡ row.old.items ++ text.now) }
{
    row.extend_from_slice(text.as_bytes())?;
    Ok(())
}

fn append_with_number(row: &mut Vec<u8>, text: &str, number: u64) -> Result<(), Memory>
    ensures { OnOk result (row.new.items ≡ row.old.items ++ (text.now ++ decimal number)) }
{
    append(row, text)?;
    write_number(row, number)?;
    Ok(())
}

fn append_with_value(row: &mut Vec<u8>, text: &str, value: Value) -> Result<(), Memory>
    ensures { OnOk result (row.new.items ≡ row.old.items ++ (text.now ++ value_text value)) }
{
    append(row, text)?;
    write_value(row, value)?;
    Ok(())
}

fn append_sources(row: &mut Vec<u8>, at_source: Value, elsewhere: Value) -> Result<(), Memory>
    ensures { OnOk result (row.new.items ≡ row.old.items ++ start_text (Start.Source at_source elsewhere)) }
{
    append_with_value(row, "source ", at_source)?;
    append_with_value(row, " ", elsewhere)?;
    Ok(())
}

fn append_start(row: &mut Vec<u8>, start: Start) -> Result<(), Memory>
    ensures { OnOk result (row.new.items ≡ row.old.items ++ start_text start) }
{
    match start {
        Start::Source(at_source, elsewhere) => append_sources(row, at_source, elsewhere),
        Start::Each(value) => append_with_value(row, "each ", value),
        Start::OwnId => append(row, "id"),
    }
}

fn append_along(row: &mut Vec<u8>, along: Along) -> Result<(), Memory>
    ensures { OnOk result (row.new.items ≡ row.old.items ++ along_text along) }
{
    match along {
        Along::Same => append(row, "same"),
        Along::Plus(number) => append_with_number(row, "plus ", number),
        Along::PlusWeight => append(row, "plus weight"),
        Along::FloorWeight => append(row, "floor weight"),
        Along::CapWeight => append(row, "cap weight"),
        Along::Minus(number) => append_with_number(row, "minus ", number),
    }
}

fn append_fold(row: &mut Vec<u8>, fold: Fold) -> Result<(), Memory>
    ensures { OnOk result (row.new.items ≡ row.old.items ++ fold_text fold) }
{
    match fold {
        Fold::Least => append(row, "least"),
        Fold::Greatest => append(row, "greatest"),
        Fold::Mex => append(row, "mex"),
        Fold::Count(k) => append_with_number(row, "count ", u64::from(k)),
    }
}

/// What stands between two fields.
fn append_separator(row: &mut Vec<u8>) -> Result<(), Memory>
    ensures { OnOk result (row.new.items ≡ row.old.items ++ codes "; ") }
{
    append(row, "; ")
}

/// The first three fields.
fn append_front(row: &mut Vec<u8>, program: &Program) -> Result<(), Memory>
    ensures { OnOk result (row.new.items ≡ row.old.items ++ front_text program.now) }
{
    append(row, form_text(program.form))?;
    append_separator(row)?;
    append(row, reads_text(program.reads))?;
    append_separator(row)?;
    append_start(row, program.start)?;
    Ok(())
}

/// A separator and the last three fields.
fn append_back(row: &mut Vec<u8>, program: &Program) -> Result<(), Memory>
    ensures { OnOk result (row.new.items ≡ row.old.items ++ back_text program.now) }
{
    append_separator(row)?;
    append_along(row, program.along)?;
    append_separator(row)?;
    append_fold(row, program.fold)?;
    append_separator(row)?;
    append(row, own_text(program.own))?;
    Ok(())
}

/// Appends the canonical row of the program: `; ` between fields, one blank between words, and numbers without leading
/// zeros. A program whose numbers are below 2^32, or `inf` in a start, is what `read_row` reads from it.
///
/// # Errors
/// `Memory` where there is no room for the row. Nothing is appended then.
pub fn write_row(out: &mut Vec<u8>, program: &Program) -> Result<(), Memory>
    ensures ok { OnOk result (out.new.items ≡ out.old.items ++ row_text program.now) }
    ensures err { OnErr result (out.new.items ≡ out.old.items) }
{
    let mut row = Vec::new(*out.allocator());
    append_front(&mut row, program)?;
    append_back(&mut row, program)?;
    out.extend_from_slice(row.as_slice())?;
    Ok(())
}
