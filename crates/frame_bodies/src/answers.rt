//! The bodies of answers.
ghost use Rattle.std.specs.Prelude.{◌≡◌, ◌+◌, ◌*◌, ◌^◌, ◌<◌, ◌≤◌, ◌∷◌, ◌++◌, IfOk, MatchOption, length, flat_map, vec_len, vec_capacity};
ghost use Rattle.px_base.specs.declared.TheConstants.{MOST_VERTICES};
ghost use Rattle.px_base.specs.Frames.{four_bytes, eight_bytes, pair_bytes, changed_code, kind_of, body_of};
ghost use Rattle.px_base.specs.FrameFits.{IsWord, FrameFits};
ghost use Rattle.frame_bodies.specs.Widths.{IsLong};
ghost use Rattle.frame_bodies.specs.Bodies.{IsCandidate};

use crate::codes::changed_code;
use crate::kinds::{REPORTED, STEPPED};
use crate::lists::{pairs_length, put_pairs, put_values, read_pairs, read_values, values_length};
use crate::numbers::{put, put_eight, put_four};
use crate::read_codes::changed_of;
use crate::take::{take_byte, take_eight, take_four};
use px_base::{Answer, Frame, Items, Memory, Update, Value};
use std::alloc::Global;

/// The kind of the answer's frame.
pub fn answer_kind(answer: &Answer) -> u8
    ensures { result ≡ kind_of (Frame.Answer answer.now) }
{
    match answer {
        Answer::Stepped { .. } => STEPPED,
        Answer::Reported { .. } => REPORTED,
    }
}

/// The length of the answer's body in bytes.
pub fn answer_length(answer: &Answer) -> usize
    requires { FrameFits (Frame.Answer answer.now) }
    ensures is { result ≡ length (body_of (Frame.Answer answer.now)) }
    ensures small { result ≤ 2 ^ 26 }
{
    match answer {
        Answer::Stepped { updates, .. } => 17 + pairs_length(updates.as_slice()),
        Answer::Reported { values, .. } => 8 + values_length(values.as_slice()),
    }
}

/// Appends the answer's body, for which there is room.
pub fn put_answer(out: &mut Vec<u8>, answer: &Answer)
    requires fits { FrameFits (Frame.Answer answer.now) }
    requires room { vec_len out.old + length (body_of (Frame.Answer answer.now)) ≤ vec_capacity out.old }
    ensures { out.new.items ≡ out.old.items ++ body_of (Frame.Answer answer.now) }
{
    match answer {
        Answer::Stepped {
            epoch,
            round,
            changed,
            updates,
        } => put_stepped(out, *epoch, *round, *changed, updates.as_slice()),
        Answer::Reported { epoch, values } => put_reported(out, *epoch, values.as_slice()),
    }
}

/// Appends the body of a stepped answer, for which there is room.
#[tactic(auto, using(std::proofs::lemmas::List::append_assoc))]
fn put_stepped(out: &mut Vec<u8>, epoch: u32, round: u64, changed: bool, updates: &[Update])
    requires few { length updates.now ≤ MOST_VERTICES }
    requires room { vec_len out.old + (17 + length (flat_map pair_bytes updates.now)) ≤ vec_capacity out.old }
    ensures { out.new.items ≡ out.old.items ++ (four_bytes epoch ++ eight_bytes round ++ changed_code changed ∷ four_bytes (length updates.now) ++ flat_map pair_bytes updates.now) }
{
    put_four(out, epoch);
    put_eight(out, round);
    put(out, &[changed_code(changed)]);
    put_four(out, updates.len() as u32);
    put_pairs(out, updates);
}

/// The epoch, the round, the byte of the change and the count in front of a stepped answer, and the bytes after them.
fn take_stepped(bytes: &[u8]) -> Option<(u32, u64, u8, u32, &[u8])>
    ensures { MatchOption result (length bytes.now < 17) (λ p. (bytes.now ≡ four_bytes p.0 ++ (eight_bytes p.1 ++ (p.2 ∷ (four_bytes p.3 ++ p.4.now)))) × IsWord p.0 × IsLong p.1 × IsWord p.3) }
{
    let (epoch, rest) = take_four(bytes)?;
    let (round, rest) = take_eight(rest)?;
    let (changed, rest) = take_byte(rest)?;
    let (count, rest) = take_four(rest)?;
    Some((epoch, round, changed, count, rest))
}

/// The stepped answer's frame of this body, within the limits or not.
pub fn read_stepped(alloc: Global, body: &[u8]) -> Result<Option<Frame>, Memory>
    ensures { IfOk result (IsCandidate 9 body.now) }
{
    let Some((epoch, round, code, count, rest)) = take_stepped(body) else {
        return Ok(None);
    };
    let Some(changed) = changed_of(code) else {
        return Ok(None);
    };
    if rest.len() != 12 * count as usize {
        return Ok(None);
    }
    let updates = Items::from_vec(read_pairs(alloc, rest)?);
    Ok(Some(Frame::Answer(Answer::Stepped {
        epoch,
        round,
        changed,
        updates,
    })))
}

/// Appends the body of a reported answer, for which there is room.
#[tactic(auto, using(std::proofs::lemmas::List::append_assoc))]
fn put_reported(out: &mut Vec<u8>, epoch: u32, values: &[Value])
    requires few { length values.now ≤ MOST_VERTICES }
    requires room { vec_len out.old + (8 + length (flat_map eight_bytes values.now)) ≤ vec_capacity out.old }
    ensures { out.new.items ≡ out.old.items ++ (four_bytes epoch ++ four_bytes (length values.now) ++ flat_map eight_bytes values.now) }
{
    put_four(out, epoch);
    put_four(out, values.len() as u32);
    put_values(out, values);
}

/// The epoch and the count in front of a reported answer, and the bytes after them.
fn take_reported(bytes: &[u8]) -> Option<(u32, u32, &[u8])>
    ensures { MatchOption result (length bytes.now < 8) (λ p. (bytes.now ≡ four_bytes p.0 ++ (four_bytes p.1 ++ p.2.now)) × IsWord p.0 × IsWord p.1) }
{
    let (epoch, rest) = take_four(bytes)?;
    let (count, rest) = take_four(rest)?;
    Some((epoch, count, rest))
}

/// The reported answer's frame of this body, within the limits or not.
pub fn read_reported(alloc: Global, body: &[u8]) -> Result<Option<Frame>, Memory>
    ensures { IfOk result (IsCandidate 10 body.now) }
{
    let Some((epoch, count, rest)) = take_reported(body) else {
        return Ok(None);
    };
    if rest.len() != 8 * count as usize {
        return Ok(None);
    }
    let values = Items::from_vec(read_values(alloc, rest)?);
    Ok(Some(Frame::Answer(Answer::Reported { epoch, values })))
}
