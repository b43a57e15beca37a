//! How far a session has come, and which frame it takes there.
ghost use Rattle.std.specs.Prelude.{◌≡◌, ◌++◌, ◌∷◌, [], ◌≤◌, List, OnOk, OnErr, IfOk, IsOk, IsErr, Err, false};
ghost use Rattle.px_base.specs.declared.wire.Answer.{Answer as AnswerData};
ghost use Rattle.px_base.specs.declared.wire.Order.{Order as OrderData};
ghost use Rattle.px_base.specs.declared.frame.Frame.{Frame as FrameData};
ghost use Rattle.px_base.specs.declared.frame.Frame.TheVariants as frame;
ghost use Rattle.px_base.specs.Classes.{class_of};
ghost use Rattle.px_base.specs.FrameFits.{FrameFits};
ghost use Rattle.worker_serve.specs.Sessions.{Refuses};
ghost use Rattle.part_loads.specs.Loads.{IsWhole};
ghost use Rattle.worker_serve.specs.Sessions.{AreLoading};
ghost use Rattle.worker_serve.specs.declared.stage.Stage.TheVariants as stage;
ghost use Rattle.worker_serve.specs.Stages.{IsStageAfter, IsStageNext, setup_in, order_in, is_ready};
ghost use Rattle.worker_serve.specs.Talks.{answer_bytes};

use class_checker::classify;
use part_loads::{Load, LoadFault};
use px_base::{Frame, Memory, Order, Setup, StepFault};
use px_frames::write_frame;
use std::alloc::Global;
use std::thread::Threads;
use value_laws::core_form;
use worker_world::World;

/// How far a session has come.
#[derive(Drop)]
pub enum Stage {
    /// No frame came yet.
    Waiting,
    /// The setup came, and maybe some of the entries.
    Loading(Load),
    /// The part is whole, and its world takes orders.
    Serving(World),
}

/// Why a frame isn't taken.
#[derive(Clone, Copy, Debug, PartialEq, Eq)]
pub enum TakeFault {
    /// A session doesn't take it there.
    Refused,
    /// Memory was wanting.
    Memory,
}

impl From<Memory> for TakeFault {
    ghost use Rattle.std.specs.Prelude.{◌≡◌};
    ghost use Rattle.worker_serve.specs.declared.stage.TakeFault.TheVariants as fault;

    ghost from_gives = { λ _ e. e ≡ fault.Memory };

    fn from(_e: Memory) -> TakeFault {
        TakeFault::Memory
    }
}

impl From<StepFault> for TakeFault {
    ghost use Rattle.std.specs.Prelude.{◌≡◌};
    ghost use Rattle.worker_serve.specs.Stages.{fault_of_step};

    ghost from_gives = { λ fault e. e ≡ fault_of_step fault };

    fn from(fault: StepFault) -> TakeFault {
        match fault {
            StepFault::WrongEpoch { .. } => TakeFault::Refused,
            StepFault::Foreign { .. } => TakeFault::Refused,
            StepFault::Memory => TakeFault::Memory,
        }
    }
}

/// The setup of a frame that is one.
fn setup_in(frame: &Frame) -> Option<Setup>
    ensures { result ≡ setup_in frame.now }
{
    match frame {
        Frame::Setup(setup) => Some(*setup),
        Frame::Starts(_) => None,
        Frame::Mirrors(_) => None,
        Frame::Boundary(_) => None,
        Frame::Reads(_) => None,
        Frame::Ready => None,
        Frame::Order(_) => None,
        Frame::Answer(_) => None,
    }
}

/// The order of a frame that is one.
fn order_in(frame: Frame) -> Option<Order>
    ensures { result ≡ order_in frame }
{
    match frame {
        Frame::Order(order) => Some(order),
        Frame::Setup(_) => None,
        Frame::Starts(_) => None,
        Frame::Mirrors(_) => None,
        Frame::Boundary(_) => None,
        Frame::Reads(_) => None,
        Frame::Ready => None,
        Frame::Answer(_) => None,
    }
}

/// Whether the frame ends a load.
fn is_ready(frame: &Frame) -> bool
    ensures { result ≡ is_ready frame.now }
{
    match frame {
        Frame::Ready => true,
        Frame::Setup(_) => false,
        Frame::Starts(_) => false,
        Frame::Mirrors(_) => false,
        Frame::Boundary(_) => false,
        Frame::Reads(_) => false,
        Frame::Order(_) => false,
        Frame::Answer(_) => false,
    }
}

/// The first frame: a setup whose program has a class.
fn begin(alloc: Global, frame: Frame) -> Result<Stage, TakeFault>
    requires { FrameFits frame }
    ensures ok { IfOk result (λ next. IsStageAfter (frame ∷ []) [] next) }
    ensures refused { IsErr result → Refuses (frame ∷ []) }
{
    let Some(setup) = setup_in(&frame) else {
        return Err(TakeFault::Refused);
    };
    if classify(&setup.program).is_err() {
        return Err(TakeFault::Refused);
    }
    Ok(Stage::Loading(Load::new(alloc, setup)))
}

/// A frame after the setup that doesn't end the load.
#[tactic(auto, using(crate::proofs::Staging::loads_on))]
fn add_piece(load: Load, frame: Frame) -> Result<Stage, TakeFault>
    requires fits { FrameFits frame }
    requires not_ready { is_ready frame ≡ false }
    ensures ok { (frames : List FrameData) → AreLoading load frames → IfOk result (λ next. IsStageAfter (frames ++ frame ∷ []) [] next) }
    ensures refused { (frames : List FrameData) → AreLoading load frames → result ≡ Err TakeFault.Refused → Refuses (frames ++ frame ∷ []) }
{
    let mut load = load;
    match load.add(frame) {
        Ok(()) => Ok(Stage::Loading(load)),
        Err(LoadFault::OutOfPlace) => Err(TakeFault::Refused),
        Err(LoadFault::Memory) => Err(TakeFault::Memory),
    }
}

/// The end of the load: its world is made, where the part is whole.
fn make_world(alloc: Global, load: Load) -> Result<Stage, TakeFault>
    ensures ok { (frames : List FrameData) → AreLoading load frames → IfOk result (λ next. IsStageAfter (frames ++ frame.Ready ∷ []) [] next) }
    ensures refused { (frames : List FrameData) → AreLoading load frames → result ≡ Err TakeFault.Refused → Refuses (frames ++ frame.Ready ∷ []) }
{
    let setup = load.setup();
    let core = core_form(&setup.program);
    let Some(part) = load.finish()? else {
        return Err(TakeFault::Refused);
    };
    let world = World::new(alloc, part, core, setup.chunks)?;
    Ok(Stage::Serving(world))
}

/// A frame after the setup.
fn load_on(alloc: Global, load: Load, frame: Frame) -> Result<Stage, TakeFault>
    requires { FrameFits frame }
    ensures ok { (frames : List FrameData) → AreLoading load frames → IfOk result (λ next. IsStageAfter (frames ++ frame ∷ []) [] next) }
    ensures refused { (frames : List FrameData) → AreLoading load frames → result ≡ Err TakeFault.Refused → Refuses (frames ++ frame ∷ []) }
{
    if is_ready(&frame) {
        make_world(alloc, load)
    } else {
        add_piece(load, frame)
    }
}

/// A frame after the load: the world answers the order, and the answer's frame is appended. After an `Err` nothing is.
fn obey<R: Threads + Sync>(
    rt: &R,
    world: &mut World,
    frame: Frame,
    out: &mut Vec<u8>,
) -> Result<(), TakeFault>
    requires { FrameFits frame }
    ensures ok { (frames : List FrameData) (answers : List AnswerData) → IsStageAfter frames answers (stage.Serving world.old) → OnOk result (IsStageNext frames answers frame out.old.items out.new.items (stage.Serving world.new)) }
    ensures refused { (frames : List FrameData) (answers : List AnswerData) → IsStageAfter frames answers (stage.Serving world.old) → result ≡ Err TakeFault.Refused → Refuses (frames ++ frame ∷ []) }
    ensures silent { OnErr result (out.new.items ≡ out.old.items) }
{
    let Some(order) = order_in(frame) else {
        return Err(TakeFault::Refused);
    };
    let answer = world.step(rt, &order)?;
    write_frame(out, &Frame::Answer(answer))?;
    Ok(())
}

/// Takes the next frame. What it is answered is appended, and after an `Err` nothing is.
pub fn next_stage<R: Threads + Sync>(
    rt: &R,
    alloc: Global,
    stage: Stage,
    frame: Frame,
    out: &mut Vec<u8>,
) -> Result<Stage, TakeFault>
    requires { FrameFits frame }
    ensures ok { (frames : List FrameData) (answers : List AnswerData) → IsStageAfter frames answers stage → IfOk result (λ next. IsStageNext frames answers frame out.old.items out.new.items next) }
    ensures refused { (frames : List FrameData) (answers : List AnswerData) → IsStageAfter frames answers stage → result ≡ Err TakeFault.Refused → Refuses (frames ++ frame ∷ []) }
    ensures silent { OnErr result (out.new.items ≡ out.old.items) }
{
    match stage {
        Stage::Waiting => begin(alloc, frame),
        Stage::Loading(load) => load_on(alloc, load, frame),
        Stage::Serving(mut world) => {
            obey(rt, &mut world, frame, out)?;
            Ok(Stage::Serving(world))
        }
    }
}
