//! The parts of a program that codes and numbers say.
ghost use Rattle.std.specs.Prelude.{◌≡◌, ◌≤◌, ◌⊎◌, MatchOption};
ghost use Rattle.px_base.specs.declared.program.Form.{Form as FormData};
ghost use Rattle.px_base.specs.declared.program.Reads.{Reads as ReadsData};
ghost use Rattle.px_base.specs.declared.program.Start.{Start as StartData};
ghost use Rattle.px_base.specs.declared.program.Along.{Along as AlongData};
ghost use Rattle.px_base.specs.declared.program.Fold.{Fold as FoldData};
ghost use Rattle.px_base.specs.declared.program.Own.{Own as OwnData};
ghost use Rattle.px_base.specs.Frames.{form_code, reads_code, own_code, changed_code};
ghost use Rattle.frame_bodies.specs.Codes.{HasStartNumbers, HasAlongNumbers, HasFoldNumbers};

use px_base::{Along, Fold, Form, Own, Rank, Reads, Start};

/// The form of this code.
pub fn form_of(code: u8) -> Option<Form>
    ensures { MatchOption result ((form : FormData) → form_code form ≡ code → ⊥) (λ form. form_code form ≡ code) }
{
    match code {
        0 => Some(Form::Given),
        1 => Some(Form::Back),
        2 => Some(Form::Simple),
        _ => None,
    }
}

/// Which reads this code keeps.
pub fn reads_of(code: u8) -> Option<Reads>
    ensures { MatchOption result ((reads : ReadsData) → reads_code reads ≡ code → ⊥) (λ reads. reads_code reads ≡ code) }
{
    match code {
        0 => Some(Reads::All),
        1 => Some(Reads::Earlier(Rank::ById)),
        2 => Some(Reads::Earlier(Rank::ByDegree)),
        _ => None,
    }
}

/// The start of this code and these two values.
pub fn start_of(code: u8, first: u64, second: u64) -> Option<Start>
    ensures { MatchOption result ((start : StartData) → HasStartNumbers start code first second → ⊥) (λ start. HasStartNumbers start code first second) }
{
    if code == 0 {
        Some(Start::Source(first, second))
    } else if code == 1 && second == 0 {
        Some(Start::Each(first))
    } else if code == 2 && first == 0 && second == 0 {
        Some(Start::OwnId)
    } else {
        None
    }
}

/// The edge function of this code that has no number.
fn plain_along(code: u8) -> Option<Along>
    ensures { MatchOption result ((along : AlongData) → HasAlongNumbers along code 0 → (code ≡ 1) ⊎ (code ≡ 5)) (λ along. HasAlongNumbers along code 0) }
{
    match code {
        0 => Some(Along::Same),
        2 => Some(Along::PlusWeight),
        3 => Some(Along::FloorWeight),
        4 => Some(Along::CapWeight),
        _ => None,
    }
}

/// The edge function of this code and this number.
pub fn along_of(code: u8, number: u64) -> Option<Along>
    ensures { MatchOption result ((along : AlongData) → HasAlongNumbers along code number → ⊥) (λ along. HasAlongNumbers along code number) }
{
    if code == 1 {
        Some(Along::Plus(number))
    } else if code == 5 {
        Some(Along::Minus(number))
    } else if number == 0 {
        plain_along(code)
    } else {
        None
    }
}

/// The fold of this code and this number.
pub fn fold_of(code: u8, number: u32) -> Option<Fold>
    ensures { MatchOption result ((fold : FoldData) → HasFoldNumbers fold code number → ⊥) (λ fold. HasFoldNumbers fold code number) }
{
    if code == 3 {
        Some(Fold::Count(number))
    } else if code == 0 && number == 0 {
        Some(Fold::Least)
    } else if code == 1 && number == 0 {
        Some(Fold::Greatest)
    } else if code == 2 && number == 0 {
        Some(Fold::Mex)
    } else {
        None
    }
}

/// What becomes of the own value by this code.
pub fn own_of(code: u8) -> Option<Own>
    ensures { MatchOption result ((own : OwnData) → own_code own ≡ code → ⊥) (λ own. own_code own ≡ code) }
{
    match code {
        0 => Some(Own::Keep),
        1 => Some(Own::Drop),
        _ => None,
    }
}

/// Whether a step changed a value, by this byte.
pub fn changed_of(code: u8) -> Option<bool>
    ensures { MatchOption result (2 ≤ code) (λ changed. changed_code changed ≡ code) }
{
    match code {
        0 => Some(false),
        1 => Some(true),
        _ => None,
    }
}
