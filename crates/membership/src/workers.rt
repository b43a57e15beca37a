//! Questions to one worker, and to all of them as a list.
ghost use Rattle.std.specs.Prelude.{◌≡◌, ℕ, ◌+◌, ◌-◌, ◌&&◌, ◌||◌, ◌==◌, nat_le, nat_lt, fold, map, IfOk, replicate};
ghost use Rattle.std.specs.List.{list_all, list_any};
ghost use Rattle.hub_terms.specs.Members.{due_member, is_idle, is_no_task, opening_member};
ghost use Rattle.membership.specs.Spans.{rounds_of, span_with};

use hub_terms::{MemberState, Task};
use px_base::Memory;
use std::alloc::Global;

/// The rounds of the live workers lie between these two, and both are the round of one.
#[derive(Clone, Copy, Debug, PartialEq, Eq)]
pub struct Span {
    /// The least round.
    pub least: u64,
    /// The greatest round.
    pub greatest: u64,
}

/// The span with one round more.
fn widened(span: Option<Span>, round: u64) -> Option<Span>
    ensures { result ≡ span_with span round }
{
    match span {
        Some(span) => Some(Span {
            least: span.least.min(round),
            greatest: span.greatest.max(round),
        }),
        None => Some(Span {
            least: round,
            greatest: round,
        }),
    }
}

/// The least and the greatest round of the live workers, where there is one.
pub fn live_span(members: &[MemberState]) -> Option<Span>
    ensures { result ≡ fold span_with None (rounds_of members.now) }
{
    let mut span = None;
    for member in members {
        if member.live {
            span = widened(span, member.round);
        }
    }
    span
}

/// The least and the greatest round of the live workers, or this round where none is live.
#[tactic(auto, using(crate::proofs::Spanning::ahead_is, crate::proofs::Spanning::pace_is, crate::proofs::Spanning::none_is))]
pub fn span_around(members: &[MemberState], round: u64) -> Span
    ensures ahead { list_any (λ r. nat_lt round r) (rounds_of members.now) ≡ nat_lt round result.greatest }
    ensures pace { (lag : ℕ) → list_all (λ r. nat_le round (r + lag)) (rounds_of members.now) ≡ nat_le (round - result.least) lag }
{
    match live_span(members) {
        Some(span) => span,
        None => Span {
            least: round,
            greatest: round,
        },
    }
}

/// Whether the worker has work: it is due, updates wait for it, its last Step changed something, or a live worker is ahead of it.
pub fn has_work(member: &MemberState, waiting: bool, greatest: u64) -> bool
    ensures { result ≡ (member.now.due || waiting || member.now.changed || nat_lt member.now.round greatest) }
{
    member.due || waiting || member.changed || member.round < greatest
}

/// Whether the round is at most `lag` above the least one.
pub fn keeps_pace(round: u64, least: u64, lag: u32) -> bool
    ensures { result ≡ nat_le (round - least) lag }
{
    round.saturating_sub(least) <= u64::from(lag)
}

/// Whether the round is below `base + rounds`, a sum that may be too great for a number.
pub fn has_rounds(round: u64, base: u64, rounds: u64) -> bool
    ensures { result ≡ nat_lt round (base + rounds) }
{
    round < base || round - base < rounds
}

/// Whether the worker is live and has nothing to answer.
pub fn is_free(member: &MemberState) -> bool
    ensures { result ≡ (member.now.live && is_no_task member.now.task) }
{
    member.live && member.task == Task::Nothing
}

/// The workers at the opening, each of them missing and due. Errors: want of memory.
pub fn opening(alloc: Global, workers: u32) -> Result<Vec<MemberState>, Memory>
    ensures { IfOk result (λ members. members.items ≡ replicate workers opening_member) }
{
    let member = MemberState {
        live: false,
        due: true,
        task: Task::Nothing,
        round: 0,
        changed: false,
    };
    Ok(vec![in alloc; member; workers as usize]?)
}

/// The worker is due.
fn make_due(member: &mut MemberState)
    ensures { member.new ≡ due_member member.old }
{
    member.due = true;
    member.changed = false;
}

/// All workers are due.
#[tactic(auto, using(std::proofs::lemmas::List::Edits::map_over_more))]
pub fn all_due(members: &mut [MemberState])
    ensures { members.new ≡ map due_member members.old }
{
    for member in members.iter_mut() {
        make_due(member);
    }
}

/// Whether the worker has nothing to do, and no Step to answer.
fn is_idle(member: &MemberState) -> bool
    ensures { result ≡ is_idle member.now }
{
    member.live && !member.due && member.task != Task::Step && !member.changed
}

/// Whether no worker has anything to do, or a Step to answer.
pub fn all_idle(members: &[MemberState]) -> bool
    ensures { result ≡ list_all is_idle members.now }
{
    members.iter().all(|member| is_idle(member))
}

/// The round is `base + rounds`.
fn is_last(round: u64, base: u64, rounds: u64) -> bool
    ensures { result ≡ (round == base + rounds) }
{
    round >= base && round - base == rounds
}

/// The worker is live and has neither anything to answer nor a round left.
fn is_worn(member: &MemberState, base: u64, rounds: u64) -> bool
    ensures { result ≡ (member.now.live && is_no_task member.now.task && member.now.round == base + rounds) }
{
    is_free(member) && is_last(member.round, base, rounds)
}

/// No worker is missing, has anything to answer, or has a round left.
pub fn all_spent(members: &[MemberState], base: u64, rounds: u64) -> bool
    ensures { result ≡ list_all (λ w. w.live && is_no_task w.task && w.round == base + rounds) members.now }
{
    members.iter().all(|member| is_worn(member, base, rounds))
}
