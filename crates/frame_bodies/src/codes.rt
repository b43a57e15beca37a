//! The codes by which parts of a program are written.
ghost use Rattle.std.specs.Prelude.{◌≡◌};
ghost use Rattle.px_base.specs.Frames.{form_code, reads_code, start_code, start_first, start_second, along_code, along_number, fold_code, fold_number, own_code, changed_code};

use px_base::{Along, Fold, Form, Own, Rank, Reads, Start};

/// The code of a form.
pub fn form_code(form: Form) -> u8
    ensures { result ≡ form_code form }
{
    match form {
        Form::Given => 0,
        Form::Back => 1,
        Form::Simple => 2,
    }
}

/// The code of which reads are kept.
pub fn reads_code(reads: Reads) -> u8
    ensures { result ≡ reads_code reads }
{
    match reads {
        Reads::All => 0,
        Reads::Earlier(Rank::ById) => 1,
        Reads::Earlier(Rank::ByDegree) => 2,
    }
}

/// The code of a start, and its two values.
pub fn start_numbers(start: Start) -> (u8, u64, u64)
    ensures code { result.0 ≡ start_code start }
    ensures first { result.1 ≡ start_first start }
    ensures second { result.2 ≡ start_second start }
{
    match start {
        Start::Source(a, b) => (0, a, b),
        Start::Each(a) => (1, a, 0),
        Start::OwnId => (2, 0, 0),
    }
}

/// The code of an edge function, and its number.
pub fn along_numbers(along: Along) -> (u8, u64)
    ensures code { result.0 ≡ along_code along }
    ensures number { result.1 ≡ along_number along }
{
    match along {
        Along::Same => (0, 0),
        Along::Plus(n) => (1, n),
        Along::PlusWeight => (2, 0),
        Along::FloorWeight => (3, 0),
        Along::CapWeight => (4, 0),
        Along::Minus(n) => (5, n),
    }
}

/// The code of a fold, and its number.
pub fn fold_numbers(fold: Fold) -> (u8, u32)
    ensures code { result.0 ≡ fold_code fold }
    ensures number { result.1 ≡ fold_number fold }
{
    match fold {
        Fold::Least => (0, 0),
        Fold::Greatest => (1, 0),
        Fold::Mex => (2, 0),
        Fold::Count(k) => (3, k),
    }
}

/// The code of what becomes of the own value.
pub fn own_code(own: Own) -> u8
    ensures { result ≡ own_code own }
{
    match own {
        Own::Keep => 0,
        Own::Drop => 1,
    }
}

/// The byte that says whether a step changed a value.
pub fn changed_code(changed: bool) -> u8
    ensures { result ≡ changed_code changed }
{
    if changed { 1 } else { 0 }
}
