//! The built-in programs and their names.
ghost use Rattle.std.specs.Prelude.{◌≡◌, IfSome};
ghost use Rattle.px_base.specs.ProgramNames.{builtin_of, core_named, core_number, plain_names, program_in};
ghost use Rattle.px_base.specs.RowTexts.{IsRowProgram};

use crate::numbers::small_number;
use px_base::{Along, Fold, Form, Own, Program, Rank, Reads, Start, TOP};

/// The most digits of the number in a k-core's name.
const MOST_DIGITS: usize = 10;

const BFS: Program = Program {
    form: Form::Given,
    reads: Reads::All,
    start: Start::Source(0, TOP),
    along: Along::Plus(1),
    fold: Fold::Least,
    own: Own::Keep,
};

const SSSP: Program = Program {
    form: Form::Given,
    reads: Reads::All,
    start: Start::Source(0, TOP),
    along: Along::PlusWeight,
    fold: Fold::Least,
    own: Own::Keep,
};

const WIDEST: Program = Program {
    form: Form::Given,
    reads: Reads::All,
    start: Start::Source(TOP, 0),
    along: Along::CapWeight,
    fold: Fold::Greatest,
    own: Own::Keep,
};

const COMPONENTS: Program = Program {
    form: Form::Simple,
    reads: Reads::All,
    start: Start::OwnId,
    along: Along::Same,
    fold: Fold::Least,
    own: Own::Keep,
};

const COLOUR: Program = Program {
    form: Form::Simple,
    reads: Reads::Earlier(Rank::ById),
    start: Start::Each(0),
    along: Along::Same,
    fold: Fold::Mex,
    own: Own::Drop,
};

const LEVELS: Program = Program {
    form: Form::Simple,
    reads: Reads::Earlier(Rank::ById),
    start: Start::Each(0),
    along: Along::Plus(1),
    fold: Fold::Greatest,
    own: Own::Drop,
};

/// The program of a name without a number.
fn plain_program(name: &str) -> Option<Program>
    ensures program { result ≡ program_in plain_names name.now }
    ensures range { IfSome result (λ program. IsRowProgram program) }
{
    if name == "bfs" {
        Some(BFS)
    } else if name == "sssp" {
        Some(SSSP)
    } else if name == "widest" {
        Some(WIDEST)
    } else if name == "components" {
        Some(COMPONENTS)
    } else if name == "colour" {
        Some(COLOUR)
    } else if name == "levels" {
        Some(LEVELS)
    } else {
        None
    }
}

/// The number of a k-core's name, where these are 1 to 10 digits of a number below 2^32.
fn core_number(digits: &[u8]) -> Option<u32>
    ensures { result ≡ core_number digits.now }
{
    if digits.len() > MOST_DIGITS {
        return None;
    }
    let number = small_number(digits)?;
    Some(number as u32)
}

/// The program of a name `kcore:K`.
fn core_program(name: &str) -> Option<Program>
    ensures program { result ≡ core_named name.now }
    ensures range { IfSome result (λ program. IsRowProgram program) }
{
    let digits = name.as_bytes().strip_prefix(b"kcore:")?;
    let k = core_number(digits)?;
    Some(Program {
        form: Form::Simple,
        reads: Reads::All,
        start: Start::Each(1),
        along: Along::Same,
        fold: Fold::Count(k),
        own: Own::Keep,
    })
}

/// The built-in program of this name: `bfs`, `sssp`, `widest`, `components`, `colour`, `levels`, or `kcore:K` where K is 1
/// to 10 digits of a number below 2^32. `None` exactly where no built-in program has the name.
pub fn builtin(name: &str) -> Option<Program>
    ensures program { result ≡ builtin_of name.now }
    ensures range { IfSome result (λ program. IsRowProgram program) }
{
    match plain_program(name) {
        Some(program) => Some(program),
        None => core_program(name),
    }
}
