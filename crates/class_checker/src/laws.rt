//! What a class promises, and what a refusal shows.
ghost use Rattle.std.specs.Prelude.{◌≡◌, Ok, Err};
ghost use Rattle.px_base.specs.declared.program.Program.{Program as ProgramData};
ghost use Rattle.px_base.specs.declared.program.Class.{Class as ClassData};
ghost use Rattle.px_base.specs.declared.program.Refused.{Refused as RefusedData};
ghost use Rattle.px_base.specs.Classes.{class_of};
ghost use Rattle.px_base.specs.Laws.{ClassPromises, RefusalShows};

/// A program keeps what its class promises: in a locally correcting one no core value becomes better on a read, a
/// self-stabilising one reads earlier vertices alone, and a globally correcting one is a k-core.
pub fn classes_keep_promises()
    ensures { (p : ProgramData) (class : ClassData) → class_of p ≡ Ok class → ClassPromises class p }
{}

/// A refusal shows what it says: `Improves` has a value and a weight with which the program's value becomes better.
pub fn refusals_show_why()
    ensures { (p : ProgramData) (why : RefusedData) → class_of p ≡ Err why → RefusalShows why p }
{}
