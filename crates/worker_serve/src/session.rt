//! A session: bytes come in any pieces, and the frames of the answers go out.
ghost use Rattle.std.specs.Prelude.{◌≡◌, ◌≤◌, ◌+◌, ◌^◌, min, length, drop, vec_len, Some};
ghost use Rattle.px_base.specs.Frames.{spelling};
ghost use Rattle.px_base.specs.FrameFits.{FrameFits};
ghost use Rattle.worker_serve.specs.Stages.{end_of_fault};
ghost use Rattle.worker_serve.specs.Talks.{fed_more, took_one, ended_by};

use crate::end::ServeEnd;
use crate::stage::{Stage, TakeFault, next_stage};
use frame_bodies::body_length;
use px_base::Frame;
use px_frames::{Decoder, FeedFault};
use shadow::Shadow;
use std::alloc::Global;
use std::marker::Model;
use std::mem;
use std::thread::Threads;

/// The place of a byte stops here, and so many bytes end a session.
pub const MOST_BYTES: u64 = 1 << 62;

/// The length of a frame's header in bytes.
const HEADER: usize = 8;

/// What was said in a session. No value of it is kept.
#[derive(Drop)]
struct Said {}

impl Model for Said {
    ghost use Rattle.worker_serve.specs.Talks.{Talk, nothing_said};

    ghost Value = { Talk };

    ghost view = { λ _. nothing_said };
}

fn note_fed(said: &mut Shadow<Said>, piece: &[u8])
    ensures { said.new ≡ fed_more said.old piece.now }
{
    said.go_to(&piece);
}

fn note_taken(said: &mut Shadow<Said>, told: &[u8])
    ensures { said.new ≡ took_one said.old told.now }
{
    said.go_to(&told);
}

fn note_end(said: &mut Shadow<Said>, end: ServeEnd)
    ensures { said.new ≡ ended_by said.old end }
{
    said.go_to(&end);
}

/// The session ends so.
fn end_by(said: &mut Shadow<Said>, ended: &mut Option<ServeEnd>, end: ServeEnd)
    ensures said { said.new ≡ ended_by said.old end }
    ensures ended { ended.new ≡ Some end }
{
    note_end(said, end);
    *ended = Some(end);
}

/// How the session ends where the frame at this place isn't taken.
fn end_of_fault(fault: TakeFault, at: u64) -> ServeEnd
    ensures { result ≡ end_of_fault fault at }
{
    match fault {
        TakeFault::Refused => ServeEnd::Refused { at },
        TakeFault::Memory => ServeEnd::Memory,
    }
}

/// The length of the frame's spelling.
fn spelled_length(frame: &Frame) -> usize
    requires { FrameFits frame.now }
    ensures { result ≡ length (spelling frame.now) }
{
    HEADER + body_length(frame)
}

/// What was appended since there were so many bytes.
fn told_since(out: &Vec<u8>, before: usize) -> &[u8]
    requires { before ≤ vec_len out.now }
    ensures { result.now ≡ drop before out.now.items }
{
    &out[before..]
}

/// A place, and so many bytes further.
fn further(at: u64, more: usize) -> u64
    requires { at ≤ 2 ^ 62 }
    ensures { result ≡ min (at + more) (2 ^ 62) }
{
    at.saturating_add(more as u64).min(MOST_BYTES)
}

/// A worker that takes frames in any pieces: first the load of its part, then orders, each of which it answers by a frame.
#[derive(Drop)]
pub struct Session {
    alloc: Global,
    said: Shadow<Said>,
    decoder: Decoder,
    stage: Stage,
    /// The place of the next frame: how many bytes stand before it, up to 2^62.
    at: u64,
    ended: Option<ServeEnd>,
}

impl Model for Session {
    ghost use Rattle.worker_serve.specs.Talks.{Talk};
    ghost use Rattle.worker_serve.specs.Stages.{KeepsTalk};

    ghost Value = { Talk };

    ghost view = { λ s. s.said };

    ghost invariant = { λ s. KeepsTalk s.said s.decoder s.stage s.at s.ended };
}

impl Session {
    ghost use Rattle.std.specs.Prelude.{◌≡◌, ℕ, List, Some, None, Err};
    ghost use Rattle.worker_serve.specs.declared.end.ServeEnd.{ServeEnd as EndData};
    ghost use Rattle.worker_serve.specs.Talks.{nothing_said, IsFed};
    ghost use Rattle.px_base.specs.declared.frame.Frame.{Frame as FrameData};
    ghost use Rattle.px_base.specs.FrameFits.{AreFramesOf};
    ghost use Rattle.worker_serve.specs.Stages.{AreStepped, IsStep, IsEndAt};

    /// A session that was fed nothing. A setup has to come first.
    pub fn new(alloc: Global) -> Session
        ensures { result ≡ nothing_said }
    {
        Session {
            alloc,
            said: Shadow::of(&Said {}),
            decoder: Decoder::new(alloc),
            stage: Stage::Waiting,
            at: 0,
            ended: None,
        }
    }

    /// Takes the next frame of the bytes that were fed, and says whether there was one.
    fn step<R: Threads + Sync>(&mut self, rt: &R, out: &mut Vec<u8>) -> Result<bool, ServeEnd>
        requires { self.old.end ≡ None }
        ensures { IsStep self.old self.new out.old.items out.new.items result }
    {
        let before = out.len();
        let Some(frame) = self.decoder.next() else {
            return Ok(false);
        };
        let length = spelled_length(&frame);
        let stage = mem::replace(&mut self.stage, Stage::Waiting);
        match next_stage(rt, self.alloc, stage, frame, out) {
            Ok(next) => {
                self.stage = next;
                self.at = further(self.at, length);
                note_taken(&mut self.said, told_since(out, before));
                Ok(true)
            }
            Err(fault) => {
                let end = end_of_fault(fault, self.at);
                end_by(&mut self.said, &mut self.ended, end);
                Err(end)
            }
        }
    }

    /// Takes all frames of the bytes that were fed.
    fn take_all<R: Threads + Sync>(&mut self, rt: &R, out: &mut Vec<u8>) -> Result<(), ServeEnd>
        requires { self.old.end ≡ None }
        ensures { AreStepped self.old self.new out.old.items out.new.items result }
    {
        loop {
            match self.step(rt, out) {
                Ok(true) => {}
                Ok(false) => return Ok(()),
                Err(end) => return Err(end),
            }
        }
    }

    /// Takes the next piece of the bytes: loads the part, steps its world, and appends the answers' frames. Errors: what
    /// follows the frames is torn; a session doesn't take the next frame; want of memory. The answers to the frames before are
    /// appended then too, and the session has ended: it answers the same to each later piece, and appends nothing.
    pub fn feed<R: Threads + Sync>(
        &mut self,
        rt: &R,
        piece: &[u8],
        out: &mut Vec<u8>,
    ) -> Result<(), ServeEnd>
        ensures fed { self.old.end ≡ None → IsFed self.old piece.now self.new out.old.items out.new.items result }
        ensures again { (why : EndData) → self.old.end ≡ Some why → result ≡ Err why }
        ensures kept { (why : EndData) → self.old.end ≡ Some why → self.new ≡ self.old }
        ensures silent { (why : EndData) → self.old.end ≡ Some why → out.new.items ≡ out.old.items }
    {
        if let Some(end) = self.ended {
            return Err(end);
        }
        let fed = self.decoder.feed(piece);
        note_fed(&mut self.said, piece);
        match fed {
            Ok(()) => self.take_all(rt, out),
            Err(FeedFault::Torn { at }) => match self.take_all(rt, out) {
                Ok(()) => {
                    end_by(&mut self.said, &mut self.ended, ServeEnd::Torn { at });
                    Err(ServeEnd::Torn { at })
                }
                Err(end) => Err(end),
            },
            Err(FeedFault::Memory) => {
                end_by(&mut self.said, &mut self.ended, ServeEnd::Memory);
                Err(ServeEnd::Memory)
            }
        }
    }

    /// How the session ends where no more bytes come: between two frames, or inside one.
    pub fn at_end(&self) -> ServeEnd
        requires { self.now.end ≡ None }
        ensures { (frames : List FrameData) (rest : List ℕ) → AreFramesOf self.now.bytes frames rest → IsEndAt frames rest result }
    {
        if self.decoder.between() {
            ServeEnd::End
        } else {
            ServeEnd::Cut {
                at: self.decoder.taken(),
            }
        }
    }
}
