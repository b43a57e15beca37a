//! The class table: which class a program has, or why it has none.
ghost use Rattle.std.specs.Prelude.{◌≡◌, if◌then◌else◌};
ghost use Rattle.px_base.specs.Classes.{class_of, counts_reads, is_core_form, is_same, is_simple, keeps, reads_all, starts_each_at_one};
ghost use Rattle.px_base.specs.Core.{core_form};
ghost use Rattle.class_checker.specs.Gathering.{gathering_class, may_improve};

use px_base::{Along, Class, Fold, Form, Own, Program, Reads, Refused, Start, Value, Weight};
use value_laws::{EdgeRule, core_form};

fn is_simple(form: Form) -> bool
    ensures { result ≡ is_simple form }
{
    match form {
        Form::Simple => true,
        Form::Given => false,
        Form::Back => false,
    }
}

fn reads_all(reads: Reads) -> bool
    ensures { result ≡ reads_all reads }
{
    match reads {
        Reads::All => true,
        Reads::Earlier(_) => false,
    }
}

fn starts_each_at_one(start: Start) -> bool
    ensures { result ≡ starts_each_at_one start }
{
    match start {
        Start::Each(x) => x == 1,
        Start::Source(_, _) => false,
        Start::OwnId => false,
    }
}

fn is_same(along: Along) -> bool
    ensures { result ≡ is_same along }
{
    match along {
        Along::Same => true,
        Along::Plus(_) => false,
        Along::PlusWeight => false,
        Along::FloorWeight => false,
        Along::CapWeight => false,
        Along::Minus(_) => false,
    }
}

fn keeps(own: Own) -> bool
    ensures { result ≡ keeps own }
{
    match own {
        Own::Keep => true,
        Own::Drop => false,
    }
}

fn counts_reads(fold: Fold) -> bool
    ensures { result ≡ counts_reads fold }
{
    match fold {
        Fold::Count(_) => true,
        Fold::Least => false,
        Fold::Greatest => false,
        Fold::Mex => false,
    }
}

/// Each vertex lives while enough of its neighbours do.
fn is_core_form(program: &Program) -> bool
    ensures { result ≡ is_core_form program.now }
{
    counts_reads(program.fold)
        && is_simple(program.form)
        && reads_all(program.reads)
        && starts_each_at_one(program.start)
        && is_same(program.along)
        && keeps(program.own)
}

/// The class of a program that counts: only the k-core has one.
fn class_of_counting(program: &Program) -> Result<Class, Refused>
    ensures { result ≡ (if is_core_form program.now then Ok Class.GloballyCorrecting else Err Refused.CountForm) }
{
    if is_core_form(program) {
        Ok(Class::GloballyCorrecting)
    } else {
        Err(Refused::CountForm)
    }
}

/// The class of a program that gathers values, where `kept` is its class if it keeps its own value. One that drops it
/// has no value that may rest on itself in a circle.
fn class_of_gathering(program: &Program, kept: Result<Class, Refused>) -> Result<Class, Refused>
    ensures { result ≡ gathering_class program.now kept }
{
    match (program.own, program.reads) {
        (Own::Keep, _) => kept,
        (Own::Drop, Reads::All) => Err(Refused::Cyclic),
        (Own::Drop, Reads::Earlier(_)) => Ok(Class::SelfStabilising),
    }
}

/// Locally correcting, where no value becomes better on a read. Otherwise `x` becomes better with the weight `w`.
fn unless_improved(program: &Program, x: Value, w: Weight) -> Result<Class, Refused>
    ensures { result ≡ (if may_improve (core_form program.now) then Err (Refused.Improves x w) else Ok Class.LocallyCorrecting) }
{
    if core_form(program).never_improves() {
        Ok(Class::LocallyCorrecting)
    } else {
        Err(Refused::Improves { x, w })
    }
}

/// The class of the program, or why it has none.
pub fn classify(program: &Program) -> Result<Class, Refused>
    ensures { result ≡ class_of program.now }
{
    match program.fold {
        Fold::Count(_) => class_of_counting(program),
        Fold::Mex => class_of_gathering(program, Err(Refused::MexKept)),
        Fold::Least => class_of_gathering(program, unless_improved(program, 1, 0)),
        Fold::Greatest => class_of_gathering(program, unless_improved(program, 0, 1)),
    }
}
