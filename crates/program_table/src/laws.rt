//! The canonical row of a program reads back as that program.
ghost use Rattle.std.specs.Prelude.{◌≡◌, Ok};
ghost use Rattle.px_base.specs.declared.program.Program.{Program as ProgramData};
ghost use Rattle.px_base.specs.Rows.{row_read};
ghost use Rattle.px_base.specs.RowTexts.{IsRowProgram, row_text};

/// The canonical row of a program says that program, where its numbers are such as a row can have.
#[tactic(auto, using(crate::proofs::ReadBack::reads_back))]
pub fn rows_read_back()
    ensures { (p : ProgramData) → IsRowProgram p → row_read (row_text p) ≡ Ok p }
{}
