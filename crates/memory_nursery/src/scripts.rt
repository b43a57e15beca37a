//! What a script says of one worker and of one link.
ghost use Rattle.std.specs.Prelude.{◌≡◌, ◌<◌, ◌≤◌, ◌^◌, ◌==◌, [], true, filter, map, IfOk};
ghost use Rattle.std.specs.List.{list_any};
ghost use Rattle.px_base.specs.Values.{is_listed};
ghost use Rattle.px_io.specs.Causes.{one_more};
ghost use Rattle.link_trait.specs.Links.{reports_with};
ghost use Rattle.memory_nursery.specs.Scripts.{comes_with, is_report, moments_in};

use link_trait::{Moment, Refusal, Scripted};
use px_base::{Memory, Order};
use std::alloc::Global;

/// The count once it has risen by one.
pub fn next_count(count: u64) -> u64
    ensures { result ≡ one_more count }
{
    count.saturating_add(1)
}

/// The losses of this worker.
pub fn losses_of(alloc: Global, losses: &[Scripted], worker: u32) -> Result<Vec<Scripted>, Memory>
    ensures { IfOk result (λ own. own.items ≡ filter (λ s. s.worker == worker) losses.now) }
{
    Ok(
        losses
            .iter()
            .copied()
            .filter(|scripted| scripted.worker == worker)
            .collect(alloc)?,
    )
}

/// The numbers of the starts of this worker that are to be refused.
pub fn refused_starts(alloc: Global, refusals: &[Refusal], worker: u32) -> Result<Vec<u32>, Memory>
    ensures { IfOk result (λ starts. starts.items ≡ map (λ r. r.start) (filter (λ r. r.worker == worker) refusals.now)) }
{
    Ok(
        refusals
            .iter()
            .filter(|refusal| refusal.worker == worker)
            .map(|refusal| refusal.start)
            .collect(alloc)?,
    )
}

/// Whether the loss is of the link with this number.
fn is_of(scripted: &Scripted, number: u64) -> bool
    ensures same { result ≡ (scripted.now.link == number) }
    ensures early { result ≡ true → number < 2 ^ 32 }
{
    u64::from(scripted.link) == number
}

/// When the link with this number is to end, of these losses of its worker.
pub fn moments_in(alloc: Global, losses: &[Scripted], number: u64) -> Result<Vec<Moment>, Memory>
    ensures moments { IfOk result (λ moments. moments.items ≡ moments_in losses.now number) }
    ensures late { IfOk result (λ moments. 2 ^ 32 ≤ number → moments.items ≡ []) }
{
    let mut moments = Vec::new(alloc);
    for scripted in losses {
        if is_of(scripted, number) {
            moments.push(scripted.moment)?;
        }
    }
    Ok(moments)
}

/// Whether the start with this number is to be refused.
pub fn is_refused(starts: &[u32], start: u64) -> bool
    ensures listed { result ≡ is_listed starts.now start }
    ensures early { result ≡ true → start < 2 ^ 32 }
{
    for refused in starts {
        if u64::from(*refused) == start {
            return true;
        }
    }
    false
}

/// Whether the order asks for a Report.
fn is_report(order: &Order) -> bool
    ensures { result ≡ is_report order.now }
{
    match order {
        Order::Step { .. } => false,
        Order::Report { .. } => true,
    }
}

/// Whether the moment comes with the call of this number, which has this order.
fn comes_with(moment: &Moment, call: u64, order: &Order) -> bool
    ensures { result ≡ comes_with call order.now moment.now }
{
    match moment {
        Moment::Call(number) => u64::from(*number) == call,
        Moment::Report => is_report(order),
    }
}

/// Whether one of the moments comes with the call of this number, which has this order.
pub fn some_comes(moments: &[Moment], call: u64, order: &Order) -> bool
    ensures { result ≡ list_any (comes_with call order.now) moments.now }
{
    moments.iter().any(|moment| comes_with(moment, call, order))
}

/// How many Reports were answered, with this order.
pub fn reports_with(reports: u64, order: &Order) -> u64
    ensures { result ≡ reports_with reports order.now }
{
    match order {
        Order::Step { .. } => reports,
        Order::Report { .. } => next_count(reports),
    }
}
