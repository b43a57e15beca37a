//! What follows from the counts of ends.
ghost use Rattle.std.specs.Prelude.{◌≡◌, ◌+◌, ◌<◌, ◌≤◌, List, All, true, length, sum};
ghost use Rattle.px_io.specs.Causes.{LAST};
ghost use Rattle.px_base.specs.declared.wire.Loss.{Loss};
ghost use Rattle.link_trait.specs.Nurseries.{NurseryView};
ghost use Rattle.driver_laws.specs.declared.job.Job.{Job as JobData};
ghost use Rattle.driver_laws.specs.declared.endings.Finished.{Finished as FinishedData};
ghost use Rattle.driver_laws.specs.Endings.{AreLosses, IsBack, IsFinished, NoneFell};

/// Where links tell their peers, and no count of ends stands at its last value, the sum of all ends has risen by at least the number
/// of losses; so a run that has finished started no more links than there are workers and links that ended.
pub fn losses_are_ends()
    ensures losses { (job : JobData) (old new : NurseryView) (losses : List Loss) →
        AreLosses job old new losses → NoneFell old.ends new.ends → old.tells ≡ true → All (λ count. count < LAST) new.ends →
        sum old.ends + length losses ≤ sum new.ends }
    ensures starts { (job : JobData) (old new : NurseryView) (finished : FinishedData) →
        IsFinished job old new finished → IsBack old new → old.tells ≡ true → All (λ count. count < LAST) new.ends →
        sum new.starts + sum old.ends ≤ sum old.starts + job.workers + sum new.ends }
{}
