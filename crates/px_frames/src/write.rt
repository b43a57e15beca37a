//! Writers of frames, from what is lent: one for each kind, and one for any frame, which calls these.
ghost use Rattle.std.specs.Prelude.{◌≡◌, ◌+◌, ◌^◌, ◌≤◌, ◌∷◌, ◌++◌, OnOk, OnErr, vec_len, vec_capacity};
ghost use Rattle.px_base.specs.Frames.{four_bytes, spelling};
ghost use Rattle.px_base.specs.FrameFits.{FrameFits};

use frame_bodies::{
    BOUNDARY, MIRRORS, READS, READY, SETUP, SETUP_LENGTH, STARTS, answer_kind, answer_length,
    order_kind, order_length, pairs_length, put, put_answer, put_four, put_order, put_pairs,
    put_setup, put_triples, put_values, put_vertices, triples_length, values_length,
    vertices_length,
};
use px_base::{Answer, Frame, Memory, Order, Pos, Setup, Triple, Update, Value};

/// The first byte of each frame.
pub const MARK: u8 = 0x50;

/// The version of these spellings.
pub const VERSION: u8 = 1;

/// The length of a header in bytes.
pub const HEADER: usize = 8;

/// Appends the header of a frame, and makes room for its body, so that nothing after it can fail. After an `Err`
/// nothing is appended.
#[tactic(auto, using(std::proofs::lemmas::List::append_assoc))]
fn write_header(out: &mut Vec<u8>, kind: u8, length: usize) -> Result<(), Memory>
    requires { length ≤ 2 ^ 26 }
    ensures ok { OnOk result (out.new.items ≡ out.old.items ++ (80 ∷ 1 ∷ kind ∷ 0 ∷ four_bytes length)) }
    ensures room { OnOk result (vec_len out.new + length ≤ vec_capacity out.new) }
    ensures err { OnErr result (out.new.items ≡ out.old.items) }
{
    out.reserve(HEADER + length)?;
    put(out, &[MARK, VERSION, kind, 0]);
    put_four(out, length as u32);
    Ok(())
}

/// Appends the one spelling of the setup's frame. After an `Err` nothing is appended.
#[tactic(auto, using(std::proofs::lemmas::List::append_assoc))]
fn write_setup(out: &mut Vec<u8>, setup: &Setup) -> Result<(), Memory>
    requires { FrameFits (Frame.Setup setup.now) }
    ensures ok { OnOk result (out.new.items ≡ out.old.items ++ spelling (Frame.Setup setup.now)) }
    ensures err { OnErr result (out.new.items ≡ out.old.items) }
{
    write_header(out, SETUP, SETUP_LENGTH)?;
    put_setup(out, setup);
    Ok(())
}

/// Appends the one spelling of the values' frame of a load. After an `Err` nothing is appended.
#[tactic(auto, using(std::proofs::lemmas::List::append_assoc))]
pub fn write_starts(out: &mut Vec<u8>, values: &[Value]) -> Result<(), Memory>
    requires { FrameFits (Frame.Starts values.now) }
    ensures ok { OnOk result (out.new.items ≡ out.old.items ++ spelling (Frame.Starts values.now)) }
    ensures err { OnErr result (out.new.items ≡ out.old.items) }
{
    write_header(out, STARTS, values_length(values))?;
    put_values(out, values);
    Ok(())
}

/// Appends the one spelling of the frame of mirrors and their values. After an `Err` nothing is appended.
#[tactic(auto, using(std::proofs::lemmas::List::append_assoc))]
pub fn write_mirrors(out: &mut Vec<u8>, pairs: &[Update]) -> Result<(), Memory>
    requires { FrameFits (Frame.Mirrors pairs.now) }
    ensures ok { OnOk result (out.new.items ≡ out.old.items ++ spelling (Frame.Mirrors pairs.now)) }
    ensures err { OnErr result (out.new.items ≡ out.old.items) }
{
    write_header(out, MIRRORS, pairs_length(pairs))?;
    put_pairs(out, pairs);
    Ok(())
}

/// Appends the one spelling of the frame of boundary vertices. After an `Err` nothing is appended.
#[tactic(auto, using(std::proofs::lemmas::List::append_assoc))]
pub fn write_boundary(out: &mut Vec<u8>, vertices: &[Pos]) -> Result<(), Memory>
    requires { FrameFits (Frame.Boundary vertices.now) }
    ensures ok { OnOk result (out.new.items ≡ out.old.items ++ spelling (Frame.Boundary vertices.now)) }
    ensures err { OnErr result (out.new.items ≡ out.old.items) }
{
    write_header(out, BOUNDARY, vertices_length(vertices))?;
    put_vertices(out, vertices);
    Ok(())
}

/// Appends the one spelling of the frame of reads. After an `Err` nothing is appended.
#[tactic(auto, using(std::proofs::lemmas::List::append_assoc))]
pub fn write_reads(out: &mut Vec<u8>, triples: &[Triple]) -> Result<(), Memory>
    requires { FrameFits (Frame.Reads triples.now) }
    ensures ok { OnOk result (out.new.items ≡ out.old.items ++ spelling (Frame.Reads triples.now)) }
    ensures err { OnErr result (out.new.items ≡ out.old.items) }
{
    write_header(out, READS, triples_length(triples))?;
    put_triples(out, triples);
    Ok(())
}

/// Appends the one spelling of the order's frame. After an `Err` nothing is appended.
#[tactic(auto, using(std::proofs::lemmas::List::append_assoc))]
pub fn write_order(out: &mut Vec<u8>, order: &Order) -> Result<(), Memory>
    requires { FrameFits (Frame.Order order.now) }
    ensures ok { OnOk result (out.new.items ≡ out.old.items ++ spelling (Frame.Order order.now)) }
    ensures err { OnErr result (out.new.items ≡ out.old.items) }
{
    write_header(out, order_kind(order), order_length(order))?;
    put_order(out, order);
    Ok(())
}

/// Appends the one spelling of the answer's frame. After an `Err` nothing is appended.
#[tactic(auto, using(std::proofs::lemmas::List::append_assoc))]
fn write_answer(out: &mut Vec<u8>, answer: &Answer) -> Result<(), Memory>
    requires { FrameFits (Frame.Answer answer.now) }
    ensures ok { OnOk result (out.new.items ≡ out.old.items ++ spelling (Frame.Answer answer.now)) }
    ensures err { OnErr result (out.new.items ≡ out.old.items) }
{
    write_header(out, answer_kind(answer), answer_length(answer))?;
    put_answer(out, answer);
    Ok(())
}

/// Appends the frame's one spelling. After an `Err` nothing is appended.
pub fn write_frame(out: &mut Vec<u8>, frame: &Frame) -> Result<(), Memory>
    requires { FrameFits frame.now }
    ensures ok { OnOk result (out.new.items ≡ out.old.items ++ spelling frame.now) }
    ensures err { OnErr result (out.new.items ≡ out.old.items) }
{
    match frame {
        Frame::Setup(setup) => write_setup(out, setup),
        Frame::Starts(values) => write_starts(out, values.as_slice()),
        Frame::Mirrors(pairs) => write_mirrors(out, pairs.as_slice()),
        Frame::Boundary(vertices) => write_boundary(out, vertices.as_slice()),
        Frame::Reads(triples) => write_reads(out, triples.as_slice()),
        Frame::Ready => write_header(out, READY, 0),
        Frame::Order(order) => write_order(out, order),
        Frame::Answer(answer) => write_answer(out, answer),
    }
}
