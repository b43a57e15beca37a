//! The line that says why a command stopped.
ghost use Rattle.std.specs.Prelude.{◌≤◌, ◌++◌, decimal, flat_map};
ghost use Rattle.command_ends.specs.Lines.{IsLineAdded, frame_text, input_text, line_of, numbered, program_text, refused_text, row_fault_text, stop_line};

use crate::pieces::put_pieces;
use crate::{FrameFault, Stop};
use command_words::ProgramFault;
use edge_reader::EdgeFault;
use itoa::Buffer;
use px_base::{MOST_EDGES, MOST_VERTICES, Refused, RowFault};
use px_io::Sink;

/// Appends the pieces. Nothing comes of a fault of the sink: there is nowhere else to report it to.
#[tactic(auto)]
fn add_pieces<F: Sink>(faults: &mut F, pieces: &[&[u8]])
    ensures line { IsLineAdded (flat_map (λ piece. piece.now) pieces.now) (F.written faults.old) (F.written faults.new) (F.faults faults.old) (F.faults faults.new) (F.wants faults.old) (F.wants faults.new) }
    ensures faults_later { F.faults faults.old ≤ F.faults faults.new }
    ensures wants_later { F.wants faults.old ≤ F.wants faults.new }
{
    let _ = put_pieces(faults, pieces);
}

/// Appends the line with this text.
#[tactic(auto, unfolding(crate::specs::Lines::line_of))]
fn add_line<F: Sink>(faults: &mut F, text: &[u8])
    ensures line { IsLineAdded (line_of text.now) (F.written faults.old) (F.written faults.new) (F.faults faults.old) (F.faults faults.new) (F.wants faults.old) (F.wants faults.new) }
    ensures faults_later { F.faults faults.old ≤ F.faults faults.new }
    ensures wants_later { F.wants faults.old ≤ F.wants faults.new }
{
    add_pieces(faults, &[b"phoenix: ", text, b"\n"]);
}

/// Appends the line that has the number between the texts.
#[tactic(auto, using(crate::proofs::Growing::one_number), unfolding(crate::specs::Lines::line_of, crate::specs::Lines::numbered))]
fn add_numbered<F: Sink>(faults: &mut F, before: &[u8], number: u64, after: &[u8])
    ensures line { IsLineAdded (line_of (numbered before.now number after.now)) (F.written faults.old) (F.written faults.new) (F.faults faults.old) (F.faults faults.new) (F.wants faults.old) (F.wants faults.new) }
    ensures faults_later { F.faults faults.old ≤ F.faults faults.new }
    ensures wants_later { F.wants faults.old ≤ F.wants faults.new }
{
    let mut digits = Buffer::new();
    let number = digits.format(number).as_bytes();
    add_pieces(faults, &[b"phoenix: ", before, number, after, b"\n"]);
}

/// Appends the line that has a number between the texts, and another at its end.
#[tactic(auto, using(crate::proofs::Growing::two_numbers), unfolding(crate::specs::Lines::line_of, crate::specs::Lines::numbered))]
fn add_two_numbers<F: Sink>(faults: &mut F, before: &[u8], first: u64, between: &[u8], last: u64)
    ensures line { IsLineAdded (line_of (numbered before.now first (between.now ++ decimal last))) (F.written faults.old) (F.written faults.new) (F.faults faults.old) (F.faults faults.new) (F.wants faults.old) (F.wants faults.new) }
    ensures faults_later { F.faults faults.old ≤ F.faults faults.new }
    ensures wants_later { F.wants faults.old ≤ F.wants faults.new }
{
    let (mut digits, mut last_digits) = (Buffer::new(), Buffer::new());
    let first = digits.format(first).as_bytes();
    let last = last_digits.format(last).as_bytes();
    add_pieces(faults, &[b"phoenix: ", before, first, between, last, b"\n"]);
}

/// Appends the line of a fault of the input.
fn add_input<F: Sink>(faults: &mut F, fault: EdgeFault)
    ensures line { IsLineAdded (line_of (input_text fault)) (F.written faults.old) (F.written faults.new) (F.faults faults.old) (F.faults faults.new) (F.wants faults.old) (F.wants faults.new) }
    ensures faults_later { F.faults faults.old ≤ F.faults faults.new }
    ensures wants_later { F.wants faults.old ≤ F.wants faults.new }
{
    match fault {
        EdgeFault::Missing { line } => add_numbered(faults, b"line ", line, b": vertex missing"),
        EdgeFault::BadId { line } => add_numbered(faults, b"line ", line, b": bad vertex"),
        EdgeFault::BadWeight { line } => add_numbered(faults, b"line ", line, b": bad weight"),
        EdgeFault::TooManyVertices => {
            add_numbered(
                faults,
                b"more than ",
                u64::from(MOST_VERTICES),
                b" vertices",
            )
        }
        EdgeFault::TooManyEdges => {
            add_numbered(faults, b"more than ", MOST_EDGES as u64, b" edge lines")
        }
        EdgeFault::TooLong => add_line(faults, b"more than 4294967295 bytes"),
        EdgeFault::ReadFault => add_line(faults, b"read fault"),
        EdgeFault::Memory => add_line(faults, b"out of memory"),
    }
}

/// Appends the line of a fault of a row.
fn add_row<F: Sink>(faults: &mut F, fault: RowFault)
    ensures line { IsLineAdded (line_of (row_fault_text fault)) (F.written faults.old) (F.written faults.new) (F.faults faults.old) (F.faults faults.new) (F.wants faults.old) (F.wants faults.new) }
    ensures faults_later { F.faults faults.old ≤ F.faults faults.new }
    ensures wants_later { F.wants faults.old ≤ F.wants faults.new }
{
    let before = b"row field ";
    match fault {
        RowFault::Missing { field } => {
            add_numbered(faults, before, u64::from(field), b": missing")
        }
        RowFault::Unknown { field } => {
            add_numbered(faults, before, u64::from(field), b": unknown word")
        }
        RowFault::Number { field } => {
            add_numbered(faults, before, u64::from(field), b": bad number")
        }
        RowFault::Trailing => add_line(faults, b"row: more than six fields"),
    }
}

/// Appends the line of a word that is no program.
fn add_program<F: Sink>(faults: &mut F, fault: ProgramFault)
    ensures line { IsLineAdded (line_of (program_text fault)) (F.written faults.old) (F.written faults.new) (F.faults faults.old) (F.faults faults.new) (F.wants faults.old) (F.wants faults.new) }
    ensures faults_later { F.faults faults.old ≤ F.faults faults.new }
    ensures wants_later { F.wants faults.old ≤ F.wants faults.new }
{
    match fault {
        ProgramFault::Unknown => add_line(faults, b"unknown program"),
        ProgramFault::BadRow(what) => add_row(faults, what),
    }
}

/// Appends the line of a program without a class.
fn add_refused<F: Sink>(faults: &mut F, why: Refused)
    ensures line { IsLineAdded (line_of (refused_text why)) (F.written faults.old) (F.written faults.new) (F.faults faults.old) (F.faults faults.new) (F.wants faults.old) (F.wants faults.new) }
    ensures faults_later { F.faults faults.old ≤ F.faults faults.new }
    ensures wants_later { F.wants faults.old ≤ F.wants faults.new }
{
    match why {
        Refused::CountForm => add_line(faults, b"program refused: count needs the k-core form"),
        Refused::MexKept => add_line(faults, b"program refused: mex needs drop"),
        Refused::Cyclic => add_line(faults, b"program refused: drop needs an earlier order"),
        Refused::Improves { x, w } => {
            let before = b"program refused: edge value improves ";
            add_two_numbers(faults, before, x, b" at weight ", w)
        }
    }
}

/// Appends the line of a fault of the frame at this place.
fn add_frame<F: Sink>(faults: &mut F, at: u64, what: FrameFault)
    ensures line { IsLineAdded (line_of (frame_text at what)) (F.written faults.old) (F.written faults.new) (F.faults faults.old) (F.faults faults.new) (F.wants faults.old) (F.wants faults.new) }
    ensures faults_later { F.faults faults.old ≤ F.faults faults.new }
    ensures wants_later { F.wants faults.old ≤ F.wants faults.new }
{
    let before = b"frame at byte ";
    match what {
        FrameFault::NotAFrame => add_numbered(faults, before, at, b": not a frame"),
        FrameFault::Cut => add_numbered(faults, before, at, b": cut"),
        FrameFault::Refused => add_numbered(faults, before, at, b": refused"),
    }
}

/// Appends the one line that says why the command stopped, in pieces that take no memory. Where the sink fails a prefix of
/// it is appended, the sink is asked no more, and nothing else comes of that.
pub fn report<F: Sink>(faults: &mut F, stop: Stop)
    ensures line { IsLineAdded (stop_line stop) (F.written faults.old) (F.written faults.new) (F.faults faults.old) (F.faults faults.new) (F.wants faults.old) (F.wants faults.new) }
    ensures faults_later { F.faults faults.old ≤ F.faults faults.new }
    ensures wants_later { F.wants faults.old ≤ F.wants faults.new }
{
    match stop {
        Stop::BadWords => add_line(faults, b"bad words"),
        Stop::NeedsSource => add_line(faults, b"this program needs a source"),
        Stop::TakesNoSource => add_line(faults, b"this program takes no source"),
        Stop::Program(fault) => add_program(faults, fault),
        Stop::Refused(why) => add_refused(faults, why),
        Stop::ClassNotBuilt => add_line(faults, b"class not built"),
        Stop::Input(fault) => add_input(faults, fault),
        Stop::UnknownSource { id } => {
            add_numbered(faults, b"source ", id, b" is in no edge line")
        }
        Stop::Frame { at, what } => add_frame(faults, at, what),
        Stop::TooManyFrameBytes => add_line(faults, b"too many frame bytes"),
        Stop::WriteFault => add_line(faults, b"write fault"),
        Stop::Memory => add_line(faults, b"out of memory"),
    }
}
