//! The body of a setup.
ghost use Rattle.std.specs.Prelude.{◌≡◌, ◌+◌, ◌<◌, ◌≤◌, ◌++◌, MatchOption, length, vec_len, vec_capacity, List, ℕ};
ghost use Rattle.px_base.specs.declared.program.Program.{Program as ProgramData};
ghost use Rattle.px_base.specs.declared.frame.Setup.{Setup as SetupData};
ghost use Rattle.px_base.specs.Frames.{four_bytes, program_bytes, setup_bytes};
ghost use Rattle.px_base.specs.FrameFits.{IsWord};
ghost use Rattle.frame_bodies.specs.Widths.{ProgramHasRoom, SetupHasRoom};
ghost use Rattle.frame_bodies.specs.Setups.{HasNumbers, program_numbers_bytes, NumbersHaveRoom, IsProgramFront};

use crate::codes::{along_numbers, fold_numbers, form_code, own_code, reads_code, start_numbers};
use crate::numbers::{put, put_eight, put_four};
use crate::read_codes::{along_of, fold_of, form_of, own_of, reads_of, start_of};
use crate::take::{take_byte, take_eight, take_four};
use px_base::{Pos, Program, Setup};

/// The length of a setup's body in bytes.
pub const SETUP_LENGTH: usize = 62;

/// The codes and numbers by which a program is written.
#[derive(Clone, Copy)]
pub struct ProgramNumbers {
    form: u8,
    reads: u8,
    start: u8,
    first: u64,
    second: u64,
    along: u8,
    number: u64,
    fold: u8,
    count: u32,
    own: u8,
}

/// The codes and numbers in the first 34 bytes, and the bytes after them.
fn take_numbers(bytes: &[u8]) -> Option<(ProgramNumbers, &[u8])>
    ensures { MatchOption result (length bytes.now < 34) (λ p. (bytes.now ≡ program_numbers_bytes p.0 ++ p.1.now) × NumbersHaveRoom p.0) }
{
    let (form, rest) = take_byte(bytes)?;
    let (reads, rest) = take_byte(rest)?;
    let (start, rest) = take_byte(rest)?;
    let (first, rest) = take_eight(rest)?;
    let (second, rest) = take_eight(rest)?;
    let (along, rest) = take_byte(rest)?;
    let (number, rest) = take_eight(rest)?;
    let (fold, rest) = take_byte(rest)?;
    let (count, rest) = take_four(rest)?;
    let (own, rest) = take_byte(rest)?;
    let numbers = ProgramNumbers {
        form,
        reads,
        start,
        first,
        second,
        along,
        number,
        fold,
        count,
        own,
    };
    Some((numbers, rest))
}

/// The program that is written by these codes and numbers.
fn program_of(numbers: ProgramNumbers) -> Option<Program>
    ensures { MatchOption result ((p : ProgramData) → HasNumbers p numbers → ⊥) (λ p. HasNumbers p numbers) }
{
    Some(Program {
        form: form_of(numbers.form)?,
        reads: reads_of(numbers.reads)?,
        start: start_of(numbers.start, numbers.first, numbers.second)?,
        along: along_of(numbers.along, numbers.number)?,
        fold: fold_of(numbers.fold, numbers.count)?,
        own: own_of(numbers.own)?,
    })
}

/// The program in the first 34 bytes, and the bytes after it.
fn take_program(bytes: &[u8]) -> Option<(Program, &[u8])>
    ensures { MatchOption result ((p : ProgramData) (more : List ℕ) → ProgramHasRoom p → bytes.now ≡ program_bytes p ++ more → ⊥) (λ p. IsProgramFront bytes.now p.0 p.1.now) }
{
    let (numbers, rest) = take_numbers(bytes)?;
    let program = program_of(numbers)?;
    Some((program, rest))
}

/// The index and the range in the first twelve bytes, and the bytes after them.
fn take_range(bytes: &[u8]) -> Option<(u32, Pos, Pos, &[u8])>
    ensures { MatchOption result (length bytes.now < 12) (λ p. (bytes.now ≡ four_bytes p.0 ++ (four_bytes p.1 ++ (four_bytes p.2 ++ p.3.now))) × IsWord p.0 × IsWord p.1 × IsWord p.2) }
{
    let (index, rest) = take_four(bytes)?;
    let (low, rest) = take_four(rest)?;
    let (high, rest) = take_four(rest)?;
    Some((index, low, high, rest))
}

/// The setup that is written by these bytes.
pub fn read_setup(bytes: &[u8]) -> Option<Setup>
    ensures { MatchOption result ((s : SetupData) → SetupHasRoom s → setup_bytes s ≡ bytes.now → ⊥) (λ s. SetupHasRoom s × (setup_bytes s ≡ bytes.now)) }
{
    let (index, low, high, rest) = take_range(bytes)?;
    let (program, rest) = take_program(rest)?;
    let (chunks, mirrors, boundary, rest) = take_range(rest)?;
    let (reads, rest) = take_four(rest)?;
    if !rest.is_empty() {
        return None;
    }
    Some(Setup {
        index,
        low,
        high,
        program,
        chunks,
        mirrors,
        boundary,
        reads,
    })
}

/// Appends the program's bytes, for which there is room.
#[tactic(auto, using(std::proofs::lemmas::List::append_assoc))]
fn put_program(out: &mut Vec<u8>, program: &Program)
    requires { vec_len out.old + 34 ≤ vec_capacity out.old }
    ensures items { out.new.items ≡ out.old.items ++ program_bytes program.now }
    ensures len { vec_len out.new ≡ vec_len out.old + 34 }
    ensures room { vec_capacity out.old ≤ vec_capacity out.new }
{
    let (start, first, second) = start_numbers(program.start);
    let (along, number) = along_numbers(program.along);
    let (fold, count) = fold_numbers(program.fold);
    let form = form_code(program.form);
    let reads = reads_code(program.reads);
    put(out, &[form, reads, start]);
    put_eight(out, first);
    put_eight(out, second);
    put(out, &[along]);
    put_eight(out, number);
    put(out, &[fold]);
    put_four(out, count);
    put(out, &[own_code(program.own)]);
}

/// Appends the setup's body, for which there is room.
#[tactic(auto, using(std::proofs::lemmas::List::append_assoc))]
pub fn put_setup(out: &mut Vec<u8>, setup: &Setup)
    requires { vec_len out.old + 62 ≤ vec_capacity out.old }
    ensures { out.new.items ≡ out.old.items ++ setup_bytes setup.now }
{
    put_four(out, setup.index);
    put_four(out, setup.low);
    put_four(out, setup.high);
    put_program(out, &setup.program);
    put_four(out, setup.chunks);
    put_four(out, setup.mirrors);
    put_four(out, setup.boundary);
    put_four(out, setup.reads);
}
