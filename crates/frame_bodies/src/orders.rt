//! The bodies of orders.
ghost use Rattle.std.specs.Prelude.{◌≡◌, ◌+◌, ◌*◌, ◌^◌, ◌<◌, ◌≤◌, ◌++◌, IfOk, MatchOption, length, flat_map, vec_len, vec_capacity};
ghost use Rattle.px_base.specs.declared.TheConstants.{MOST_VERTICES};
ghost use Rattle.px_base.specs.Frames.{four_bytes, eight_bytes, pair_bytes, kind_of, body_of};
ghost use Rattle.px_base.specs.FrameFits.{IsWord, FrameFits};
ghost use Rattle.frame_bodies.specs.Widths.{IsLong};
ghost use Rattle.frame_bodies.specs.Bodies.{IsCandidate};

use crate::kinds::{REPORT, STEP};
use crate::lists::{pairs_length, put_pairs, read_pairs};
use crate::numbers::{put_eight, put_four};
use crate::take::{take_eight, take_four};
use px_base::{Frame, Items, Memory, Order, Update};
use std::alloc::Global;

/// The kind of the order's frame.
pub fn order_kind(order: &Order) -> u8
    ensures { result ≡ kind_of (Frame.Order order.now) }
{
    match order {
        Order::Step { .. } => STEP,
        Order::Report { .. } => REPORT,
    }
}

/// The length of the order's body in bytes.
pub fn order_length(order: &Order) -> usize
    requires { FrameFits (Frame.Order order.now) }
    ensures is { result ≡ length (body_of (Frame.Order order.now)) }
    ensures small { result ≤ 2 ^ 26 }
{
    match order {
        Order::Step { updates, .. } => 16 + pairs_length(updates.as_slice()),
        Order::Report { .. } => 4,
    }
}

/// Appends the body of a step order, for which there is room.
#[tactic(auto, using(std::proofs::lemmas::List::append_assoc))]
fn put_step(out: &mut Vec<u8>, epoch: u32, round: u64, updates: &[Update])
    requires few { length updates.now ≤ MOST_VERTICES }
    requires room { vec_len out.old + (16 + length (flat_map pair_bytes updates.now)) ≤ vec_capacity out.old }
    ensures { out.new.items ≡ out.old.items ++ (four_bytes epoch ++ eight_bytes round ++ four_bytes (length updates.now) ++ flat_map pair_bytes updates.now) }
{
    put_four(out, epoch);
    put_eight(out, round);
    put_four(out, updates.len() as u32);
    put_pairs(out, updates);
}

/// Appends the order's body, for which there is room.
pub fn put_order(out: &mut Vec<u8>, order: &Order)
    requires fits { FrameFits (Frame.Order order.now) }
    requires room { vec_len out.old + length (body_of (Frame.Order order.now)) ≤ vec_capacity out.old }
    ensures { out.new.items ≡ out.old.items ++ body_of (Frame.Order order.now) }
{
    match order {
        Order::Step {
            epoch,
            round,
            updates,
        } => put_step(out, *epoch, *round, updates.as_slice()),
        Order::Report { epoch } => put_four(out, *epoch),
    }
}

/// The epoch, the round and the count in front of a step order, and the bytes after them.
fn take_step(bytes: &[u8]) -> Option<(u32, u64, u32, &[u8])>
    ensures { MatchOption result (length bytes.now < 16) (λ p. (bytes.now ≡ four_bytes p.0 ++ (eight_bytes p.1 ++ (four_bytes p.2 ++ p.3.now))) × IsWord p.0 × IsLong p.1 × IsWord p.2) }
{
    let (epoch, rest) = take_four(bytes)?;
    let (round, rest) = take_eight(rest)?;
    let (count, rest) = take_four(rest)?;
    Some((epoch, round, count, rest))
}

/// The step order's frame of this body, within the limits or not.
pub fn read_step(alloc: Global, body: &[u8]) -> Result<Option<Frame>, Memory>
    ensures { IfOk result (IsCandidate 7 body.now) }
{
    let Some((epoch, round, count, rest)) = take_step(body) else {
        return Ok(None);
    };
    if rest.len() != 12 * count as usize {
        return Ok(None);
    }
    let updates = Items::from_vec(read_pairs(alloc, rest)?);
    Ok(Some(Frame::Order(Order::Step {
        epoch,
        round,
        updates,
    })))
}

/// The report order's frame of this body.
pub fn read_report(body: &[u8]) -> Option<Frame>
    ensures { IsCandidate 8 body.now result }
{
    let Some((epoch, rest)) = take_four(body) else {
        return None;
    };
    if !rest.is_empty() {
        return None;
    }
    Some(Frame::Order(Order::Report { epoch }))
}
