//! What is kept for contracts alone, and what stands for it at run time: headers of orders, and who has reported.
ghost use Rattle.std.specs.Prelude.{◌≡◌, ◌<◌, ◌≤◌, ◌-◌, true, false, IfOk, length, replicate, map, slice_set, slice_index, slice_index_or, if◌then◌else◌, Some, None};
ghost use Rattle.std.specs.List.{list_all};
ghost use Rattle.px_base.specs.Parts.{low_of, high_of, part_count};
ghost use Rattle.recovery.specs.Givens.{IsGiven};
ghost use Rattle.recovery.specs.Reports.{overwritten};
ghost use Rattle.recovery.specs.Keeping.{halt_after};
ghost use Rattle.hub_terms.specs.HubEvents.{why_of, order_header};

use crate::given::Given;
use crate::reports::copy_between;
use hub_terms::{Halt, Why};
use partitioner::Cuts;
use px_base::{Header, Items, Memory, Order, Value};
use shadow::Shadow;
use std::alloc::Global;

/// The reason to stop after one loss more.
pub fn halt_after(halt: Option<Why>, limit: u32, losses: usize) -> Option<Why>
    ensures { result ≡ halt_after halt limit losses }
{
    match halt {
        Some(reason) => Some(reason),
        None => {
            if losses >= limit as usize {
                Some(Why::TooManyLosses)
            } else {
                None
            }
        }
    }
}

/// The reason to stop that this halt gives.
pub fn why_of(reason: Halt, worker: u32) -> Why
    ensures { result ≡ why_of reason worker }
{
    match reason {
        Halt::NoReplacement => Why::NoReplacement { worker },
        Halt::Memory => Why::Memory,
    }
}

/// For contracts: no worker has an order.
pub fn no_orders(alloc: Global, count: &usize) -> Shadow<Items<Option<Order>>>
    ensures { result ≡ replicate count.now None }
{
    let mut orders = Shadow::of(&Items::from_vec(Vec::new(alloc)));
    orders.go_to(count);
    orders
}

/// For contracts: no worker has reported.
pub fn no_reports(alloc: Global, count: &usize) -> Shadow<Items<Option<Items<Value>>>>
    ensures { result ≡ replicate count.now None }
{
    let mut reported = Shadow::of(&Items::from_vec(Vec::new(alloc)));
    reported.go_to(count);
    reported
}

/// For contracts: the worker has no order any more.
pub fn drop_order(orders: &mut Shadow<Items<Option<Order>>>, worker: &u32)
    ensures { orders.new ≡ slice_set orders.old worker.now None }
{
    orders.go_to(worker);
}

/// For contracts: the worker has this order.
fn note_order(orders: &mut Shadow<Items<Option<Order>>>, worker: u32, order: &Order)
    ensures { orders.new ≡ slice_set orders.old worker (Some order.now) }
{
    let by = (worker, order);
    orders.go_to(&by);
}

/// For contracts: no worker has reported.
pub fn drop_reports(reported: &mut Shadow<Items<Option<Items<Value>>>>)
    ensures { reported.new ≡ replicate (length reported.old) None }
{
    reported.go_to(&());
}

/// For contracts: the worker has reported these.
fn note_report(
    reported: &mut Shadow<Items<Option<Items<Value>>>>,
    worker: u32,
    values: &Items<Value>,
)
    ensures { reported.new ≡ slice_set reported.old worker (Some values.now) }
{
    let by = (worker, values);
    reported.go_to(&by);
}

/// The flag isn't set any more.
fn unset(flag: &mut bool)
    ensures { flag.new ≡ false }
{
    *flag = false;
}

/// No flag is set any more.
#[tactic(auto, using(std::proofs::lemmas::List::Edits::map_over_more))]
fn clear_flags(flags: &mut [bool])
    ensures { flags.new ≡ map (λ _. false) flags.old }
{
    for flag in flags.iter_mut() {
        unset(flag);
    }
}

/// No worker has reported.
pub fn clear_all(flags: &mut Vec<bool>)
    ensures { flags.new.items ≡ map (λ _. false) flags.old.items }
{
    clear_flags(flags);
}

/// All flags are set.
pub fn all_set(flags: &[bool]) -> bool
    ensures { result ≡ list_all (λ flag. flag) flags.now }
{
    flags.iter().all(|flag| *flag)
}

/// The flag is set.
pub fn is_set(flags: &[bool], at: usize) -> bool
    requires { at < length flags.now }
    ensures { result ≡ slice_index_or flags.now at false }
{
    flags[at]
}

/// The worker has reported.
fn set_flag(flags: &mut Vec<bool>, at: usize)
    requires { at < length flags.old.items }
    ensures { flags.new.items ≡ slice_set flags.old.items at true }
{
    flags[at] = true;
}

/// No worker has an order.
pub fn no_headers(alloc: Global, count: usize) -> Result<Vec<Option<Header>>, Memory>
    ensures { IfOk result (λ headers. headers.items ≡ replicate count None) }
{
    Ok(vec![in alloc; None; count]?)
}

/// The worker has no order any more.
pub fn no_header(headers: &mut Vec<Option<Header>>, at: usize)
    requires { at < length headers.old.items }
    ensures { headers.new.items ≡ slice_set headers.old.items at None }
{
    headers[at] = None;
}

/// The worker has an order with this header.
fn set_header(headers: &mut Vec<Option<Header>>, at: usize, header: Header)
    requires { at < length headers.old.items }
    ensures { headers.new.items ≡ slice_set headers.old.items at (Some header) }
{
    headers[at] = Some(header);
}

/// The kind, the epoch and the round that the answer to the order must have.
fn order_header(order: &Order) -> Header
    ensures { result ≡ order_header order.now }
{
    match order {
        Order::Step { epoch, round, .. } => Header {
            kind: 9,
            epoch: *epoch,
            round: *round,
        },
        Order::Report { epoch } => Header {
            kind: 10,
            epoch: *epoch,
            round: 0,
        },
    }
}

/// The worker has this order.
pub fn hand_out(
    orders: &mut Shadow<Items<Option<Order>>>,
    headers: &mut Vec<Option<Header>>,
    worker: u32,
    order: Order,
) -> Given
    requires inside { worker < length headers.old.items }
    requires given { IsGiven order }
    ensures given { result ≡ record { worker = worker; order = order } }
    ensures orders { orders.new ≡ slice_set orders.old worker (Some order) }
    ensures headers { headers.new.items ≡ slice_set headers.old.items worker (Some (order_header order)) }
{
    note_order(orders, worker, &order);
    set_header(headers, worker as usize, order_header(&order));
    Given::new(worker, order)
}

/// The worker has reported these, where they are of this epoch.
pub fn note_current(
    reported: &mut Shadow<Items<Option<Items<Value>>>>,
    flags: &mut Vec<bool>,
    all: &mut Vec<Value>,
    cuts: &Cuts,
    worker: u32,
    values: &Items<Value>,
    current: bool,
)
    requires flags { worker < length flags.old.items }
    requires inside { worker < part_count cuts.now.ends }
    requires range { low_of cuts.now.ends worker ≤ high_of cuts.now.ends worker }
    requires room { high_of cuts.now.ends worker ≤ length all.old.items }
    requires size { length values.now ≡ high_of cuts.now.ends worker - low_of cuts.now.ends worker }
    ensures reported { reported.new ≡ (if current then slice_set reported.old worker (Some values.now) else reported.old) }
    ensures flags { flags.new.items ≡ (if current then slice_set flags.old.items worker true else flags.old.items) }
    ensures values { all.new.items ≡ (if current then overwritten all.old.items (low_of cuts.now.ends worker) (high_of cuts.now.ends worker) values.now else all.old.items) }
{
    if current {
        note_report(reported, worker, values);
        set_flag(flags, worker as usize);
        let ends = cuts.ends.as_slice();
        let low = ends[worker as usize] as usize;
        let high = ends[worker as usize + 1] as usize;
        copy_between(all, low, high, values.as_slice());
    }
}
