//! How a run has ended.
ghost use Rattle.std.specs.Prelude.{◌≡◌, true, length, IfOk};
ghost use Rattle.px_base.specs.Values.{IsValueList};
ghost use Rattle.hub_terms.specs.Hubs.{all_reported, reported_values};
ghost use Rattle.driver_laws.specs.Endings.{IsOutcome, keeps_links};
ghost use Rattle.driver_laws.specs.Turns.{IsOver};

use driver_laws::{Finished, Stop};
use px_base::{Items, Loss, Memory};
use recovery::Why;
use std::alloc::Global;
use system_core::System;

/// A copy of the losses that were noted.
///
/// # Errors
/// `Memory` where there is no room for them.
fn copied_losses(alloc: Global, system: &System) -> Result<Items<Loss>, Memory>
    ensures { IfOk result (λ losses. losses ≡ system.now.hub.members.losses) }
{
    Ok(Items::from_vec(system.losses().to_vec(alloc)?))
}

/// The answer of a run that has finished.
///
/// # Errors
/// `Memory` where there is no room for it.
fn finished(alloc: Global, system: &System) -> Result<Finished, Memory>
    requires { all_reported system.now.hub ≡ true }
    ensures values { IfOk result (λ finished. finished.values ≡ reported_values system.now.hub) }
    ensures one_each { IfOk result (λ finished. IsValueList (length system.now.job.rows) finished.values) }
    ensures losses { IfOk result (λ finished. finished.losses ≡ system.now.hub.members.losses) }
{
    let values = Items::from_vec(system.values().to_vec(alloc)?);
    let losses = copied_losses(alloc, system)?;
    Ok(Finished { values, losses })
}

/// How a run that is over has ended.
///
/// # Errors
/// The reason to stop that is kept; or `Memory`, where there is no room for the values or the losses.
pub fn outcome_of(alloc: Global, system: &System) -> Result<Finished, Stop>
    requires { IsOver system.now }
    ensures { IsOutcome system.now result }
{
    match system.halted() {
        None => match finished(alloc, system) {
            Ok(finished) => Ok(finished),
            Err(Memory) => Err(Stop::Memory),
        },
        Some(Why::TooManyLosses) => match copied_losses(alloc, system) {
            Ok(losses) => Err(Stop::TooManyLosses { losses }),
            Err(Memory) => Err(Stop::Memory),
        },
        Some(Why::Budget) => Err(Stop::Budget {
            base: system.base_round(),
        }),
        Some(Why::NoReplacement { worker }) => Err(Stop::NoReplacement { worker }),
        Some(Why::Memory) => Err(Stop::Memory),
    }
}

/// Whether the links are kept for contracts when they are taken back.
pub fn keeps_links(outcome: &Result<Finished, Stop>) -> bool
    ensures { result ≡ keeps_links outcome.now }
{
    match outcome {
        Ok(_) => true,
        Err(Stop::Budget { .. }) => true,
        Err(Stop::NoReplacement { .. }) => false,
        Err(Stop::TooManyLosses { .. }) => false,
        Err(Stop::Memory) => false,
    }
}
