//! A part on its way to a worker: a setup, then entries in frames, and at last the part.
ghost use Rattle.std.specs.Prelude.{◌≡◌};
ghost use Rattle.part_loads.specs.Loads.{is_piece, with_piece};

use crate::assembly::{are_counted, are_rows, joined_part};
use crate::entries::Entries;
use frame_bodies::{SETUP, kind_of};
use px_base::{Frame, Memory, Part, Setup, part_fits};
use shadow::Shadow;
use std::alloc::Global;
use std::marker::Model;

/// Why a frame isn't taken into a load.
#[derive(Clone, Copy, Debug, PartialEq, Eq)]
pub enum LoadFault {
    /// It brings no entries, or those of a kind that comes before one that was there.
    OutOfPlace,
    /// Memory was wanting.
    Memory,
}

/// What was given to a load. No value of it is kept.
#[derive(Drop)]
struct Given {
    setup: Setup,
}

impl Model for Given {
    ghost use Rattle.part_loads.specs.Loads.{LoadData, begun_with};

    ghost Value = { LoadData };

    ghost view = { λ given. begun_with given.setup };
}

/// Notes that the frame was taken.
fn note_piece(given: &mut Shadow<Given>, piece: &Shadow<Frame>)
    ensures { given.new ≡ with_piece given.old piece.now }
{
    given.go_to(piece);
}

/// Whether the frame brings entries.
fn is_piece(frame: &Frame) -> bool
    ensures { result ≡ is_piece frame.now }
{
    matches!(
        frame,
        Frame::Starts(_) | Frame::Mirrors(_) | Frame::Boundary(_) | Frame::Reads(_)
    )
}

/// A part on its way to a worker: its setup, and the entries that came so far.
#[derive(Drop)]
pub struct Load {
    alloc: Global,
    given: Shadow<Given>,
    setup: Setup,
    /// The kind of the last frame.
    last: u8,
    entries: Entries,
}

impl Model for Load {
    ghost use Rattle.part_loads.specs.Loads.{LoadData};
    ghost use Rattle.part_loads.specs.Keeping.{Keeps};

    ghost Value = { LoadData };

    ghost view = { λ load. load.given };

    ghost invariant = { λ load. Keeps load.given load.setup load.last load.entries };
}

impl Load {
    ghost use Rattle.px_base.specs.declared.TheConstants.{MOST_READS};
    ghost use Rattle.std.specs.Prelude.{◌≡◌, ◌≤◌, [], ◌∷◌, ◌++◌, OnOk, OnErr, IfOk, IfSome, IfNone, Err};
    ghost use Rattle.px_base.specs.Graphs.{HasWeights, read_count};
    ghost use Rattle.px_base.specs.Parts.{PartFits};
    ghost use Rattle.px_base.specs.FrameFits.{FrameFits, SetupFits};
    ghost use Rattle.part_loads.specs.Loads.{AreInOrder, IsWhole, begun_with, loaded_part, with_piece};

    /// A load with this setup, and no entries yet.
    #[tactic(auto, using(crate::proofs::Keeps::keeps_nothing))]
    pub fn new(alloc: Global, setup: Setup) -> Load
        requires { SetupFits setup }
        ensures { result ≡ begun_with setup }
    {
        Load {
            alloc,
            given: Shadow::of(&Given { setup }),
            setup,
            last: SETUP,
            entries: Entries::new(alloc),
        }
    }

    /// The setup, which fits.
    pub fn setup(&self) -> Setup
        ensures setup { result ≡ self.now.setup }
        ensures fits { SetupFits result }
    {
        self.setup
    }

    /// Takes a frame with entries. Errors: the frame brings none, or those of a kind that comes before one that was there;
    /// want of memory. An error changes nothing.
    pub fn add(&mut self, frame: Frame) -> Result<(), LoadFault>
        requires { FrameFits frame }
        ensures ok { OnOk result (self.new ≡ with_piece self.old frame) }
        ensures order { OnOk result (AreInOrder self.new.pieces) }
        ensures refused { result ≡ Err LoadFault.OutOfPlace → AreInOrder (self.old.pieces ++ frame ∷ []) → ⊥ }
        ensures kept { OnErr result (self.new ≡ self.old) }
    {
        let kind = kind_of(&frame);
        if !is_piece(&frame) || kind < self.last {
            return Err(LoadFault::OutOfPlace);
        }
        let piece = Shadow::of(&frame);
        match self.entries.join(frame) {
            Ok(()) => {
                note_piece(&mut self.given, &piece);
                self.last = kind;
                Ok(())
            }
            Err(_) => Err(LoadFault::Memory),
        }
    }

    /// The part that the load makes, or none where it isn't whole. Errors: want of memory.
    pub fn finish(self) -> Result<Option<Part>, Memory>
        ensures part { IfOk result (λ it. IfSome it (λ part. part ≡ loaded_part self)) }
        ensures whole { IfOk result (λ it. IfSome it (λ _. IsWhole self)) }
        ensures refused { IfOk result (λ it. IfNone it (IsWhole self → ⊥)) }
        ensures fits { IfOk result (λ it. IfSome it (λ part. PartFits part)) }
        ensures weights { IfOk result (λ it. IfSome it (λ part. HasWeights part.rows)) }
        ensures reads { IfOk result (λ it. IfSome it (λ part. read_count part.rows ≤ MOST_READS)) }
    {
        let Load {
            alloc,
            given: _,
            setup,
            last: _,
            entries,
        } = self;
        if !are_counted(&setup, &entries) || !are_rows(&setup, &entries) {
            return Ok(None);
        }
        let part = joined_part(alloc, &setup, entries)?;
        if !part_fits(&part) {
            return Ok(None);
        }
        Ok(Some(part))
    }
}
