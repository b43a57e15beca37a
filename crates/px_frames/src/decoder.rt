//! A decoder that takes bytes in any pieces.
ghost use Rattle.std.specs.Prelude.{◌≡◌, ℕ, ◌+◌, ◌^◌, ◌≤◌, min, true, false, ◌↔◌, [], ◌++◌, List, IsTrue, Err, IfOk, OnErr, MatchResult, drop, is_some, if◌then◌else◌, vec_len};
ghost use Rattle.px_base.specs.declared.frame.Frame.{Frame as FrameData};
ghost use Rattle.px_base.specs.FrameFits.{AreFramesOf};
ghost use Rattle.px_frames.specs.Decodings.{nothing_fed, fed_more, took_more, Scans, IsTornAt, IsOldest, IsCount};
ghost use Rattle.px_frames.specs.Feeds.{Takes, Refuses};

use crate::front::{Front, read_front};
use px_base::{Frame, Memory};
use shadow::Shadow;
use std::alloc::{AllocError, Global};
use std::collections::VecDeque;
use std::marker::Model;

/// Why a piece was refused.
#[derive(Clone, Copy, Debug, PartialEq, Eq)]
pub enum FeedFault {
    /// After `at` bytes that are whole frames there stands what begins no frame. The number stops at 2^62.
    Torn { at: u64 },
    /// Memory was wanting.
    Memory,
}

/// The last value of a count of bytes.
const MOST_BYTES: u64 = 1 << 62;

/// What was fed to a decoder, and how much of it was taken. No value of it is kept.
struct History {}

impl Model for History {
    ghost use Rattle.px_frames.specs.Decodings.{Fed, nothing_fed};

    ghost Value = { Fed };

    ghost view = { λ _. nothing_fed };
}

/// How far the frames at the front of some bytes go, and whether what follows is torn.
#[derive(Clone, Copy)]
struct Scanned {
    at: usize,
    torn: bool,
}

/// Reads the frames at the front of the bytes. After an `Err` some of them may have been added.
fn scan(alloc: Global, bytes: &[u8], waiting: &mut VecDeque<Frame>) -> Result<Scanned, Memory>
    ensures ok { IfOk result (λ s. Scans bytes.now waiting.old.items waiting.new.items s.at s.torn) }
    ensures err { OnErr result ((more : List FrameData) × (waiting.new.items ≡ waiting.old.items ++ more)) }
{
    let mut at = 0;
    loop {
        match read_front(alloc, &bytes[at..])? {
            Front::Whole { frame, length } => {
                waiting.push_back(frame)?;
                at += length;
            }
            Front::Short => return Ok(Scanned { at, torn: false }),
            Front::Torn => return Ok(Scanned { at, torn: true }),
        }
    }
}

/// Drops so many bytes in front. Where there are none, none is moved: bytes that come one by one must not be gone over
/// each time.
fn drop_front(pending: &mut Vec<u8>, at: usize)
    requires { at ≤ vec_len pending.old }
    ensures { pending.new.items ≡ drop at pending.old.items }
{
    if at == 0 {
        return;
    }
    let left = pending.len() - at;
    pending.copy_within(at.., 0);
    pending.truncate(left);
}

/// Takes the piece after the bytes that are pending. An `Err` leaves all as it was.
fn take_in(
    alloc: Global,
    pending: &mut Vec<u8>,
    waiting: &mut VecDeque<Frame>,
    piece: &[u8],
) -> Result<Scanned, Memory>
    ensures ok { IfOk result (λ s. Scans (pending.old.items ++ piece.now) waiting.old.items waiting.new.items s.at s.torn) }
    ensures rest { IfOk result (λ s. pending.new.items ≡ drop s.at (pending.old.items ++ piece.now)) }
    ensures err { OnErr result (waiting.new.items ≡ waiting.old.items) }
    ensures kept { OnErr result (pending.new.items ≡ pending.old.items) }
{
    let (bytes, frames) = (pending.len(), waiting.len());
    pending.extend_from_slice(piece)?;
    match scan(alloc, pending.as_slice(), waiting) {
        Ok(scanned) => {
            drop_front(pending, scanned.at);
            Ok(scanned)
        }
        Err(want) => {
            pending.truncate(bytes);
            waiting.truncate(frames);
            Err(want)
        }
    }
}

/// A count of bytes, and so many more.
fn counted(whole: u64, more: usize) -> u64
    requires { whole ≤ 2 ^ 62 }
    ensures { result ≡ min (whole + more) (2 ^ 62) }
{
    whole.saturating_add(more as u64).min(MOST_BYTES)
}

fn note_fed(history: &mut Shadow<History>, piece: &[u8])
    ensures { history.new ≡ fed_more history.old piece.now }
{
    history.go_to(&piece);
}

fn note_taken(history: &mut Shadow<History>)
    ensures { history.new ≡ took_more history.old }
{
    history.go_to(&());
}

/// Reads frames out of bytes that come in any pieces.
#[derive(Drop)]
pub struct Decoder {
    alloc: Global,
    history: Shadow<History>,
    /// The bytes after the whole frames. Once they are torn none are kept.
    pending: Vec<u8>,
    /// The frames that weren't taken yet.
    waiting: VecDeque<Frame>,
    /// The number of bytes in whole frames, up to 2^62.
    whole: u64,
    torn: bool,
}

impl Model for Decoder {
    ghost use Rattle.px_frames.specs.Decodings.{Fed, Holds};

    ghost Value = { Fed };

    ghost view = { λ d. d.history };

    ghost invariant = { λ d. Holds d.history d.pending.items d.waiting.items d.whole d.torn };
}

impl Decoder {
    pub fn new(alloc: Global) -> Decoder
        ensures { result ≡ nothing_fed }
    {
        Decoder {
            alloc,
            history: Shadow::of(&History {}),
            pending: Vec::new(alloc),
            waiting: VecDeque::new(alloc),
            whole: 0,
            torn: false,
        }
    }

    /// Takes the next piece of the bytes. The frames are those of all bytes so far, however they were cut. `Torn` comes
    /// where a whole header that no frame has follows the whole frames, or a header with its whole body that no frame
    /// spells. Then it comes at each later piece too, and takes no memory; the frames before it can still be taken. After
    /// `Memory` the piece isn't taken.
    pub fn feed(&mut self, piece: &[u8]) -> Result<(), FeedFault>
        ensures fed { MatchResult result (λ _. Takes self.old piece.now self.new) (λ fault. Refuses self.old piece.now self.new fault) }
        ensures again { (at : ℕ) → IsTornAt self.old.bytes at → result ≡ Err (FeedFault.Torn at) }
    {
        if self.torn {
            note_fed(&mut self.history, piece);
            return Err(FeedFault::Torn { at: self.whole });
        }
        match take_in(self.alloc, &mut self.pending, &mut self.waiting, piece) {
            Ok(scanned) => {
                note_fed(&mut self.history, piece);
                self.whole = counted(self.whole, scanned.at);
                self.torn = scanned.torn;
                if scanned.torn {
                    self.pending.clear();
                    return Err(FeedFault::Torn { at: self.whole });
                }
                Ok(())
            }
            Err(_) => Err(FeedFault::Memory),
        }
    }

    /// The oldest frame that wasn't taken yet, which is then taken.
    pub fn next(&mut self) -> Option<Frame>
        ensures oldest { IsOldest self.old result }
        ensures took { self.new ≡ (if is_some result then took_more self.old else self.old) }
    {
        let frame = self.waiting.pop_front();
        if frame.is_some() {
            note_taken(&mut self.history);
        }
        frame
    }

    /// Whether the bytes are whole frames.
    pub fn between(&self) -> bool
        ensures { IsTrue result ↔ ((frames : List FrameData) × AreFramesOf self.now.bytes frames []) }
    {
        !self.torn && self.pending.as_slice().is_empty()
    }

    /// The number of bytes in whole frames. It stops at 2^62, and is exact below it.
    pub fn taken(&self) -> u64
        ensures { IsCount self.now.bytes result }
    {
        self.whole
    }
}
