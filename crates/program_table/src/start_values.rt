//! The values that the vertices start at, as the program says them and as core values.
ghost use Rattle.std.specs.Prelude.{◌≡◌, ◌==◌, ◌<◌, ℕ, All, IfOk, length, slice_index, if◌then◌else◌};
ghost use Rattle.px_base.specs.Core.{core_value};
ghost use Rattle.px_base.specs.Starts.{core_starts_of, starts_of};
ghost use Rattle.px_base.specs.Values.{IsValue, IsValueList, by_position, is_listed};
ghost use Rattle.program_table.specs.StartRanges.{IsValueStart};

use px_base::{CoreProgram, Id, Memory, Pos, Program, Start, Value};
use std::alloc::Global;
use value_laws::flip;

/// Writes the value at the place, where there is such a place.
fn put(values: &mut [Value], at: Pos, value: Value)
    ensures { (v : ℕ) → v < length values.old → slice_index values.new v ≡ (if at == v then value else slice_index values.old v) }
{
    if (at as usize) < values.len() {
        values[at as usize] = value;
    }
}

/// Writes the value at each source.
#[tactic(auto, using(crate::proofs::StartLists::source_more))]
fn put_sources(values: &mut [Value], sources: &[Pos], at_source: Value)
    ensures { (v : ℕ) → v < length values.old → slice_index values.new v ≡ (if is_listed sources.now v then at_source else slice_index values.old v) }
{
    for source in sources {
        put(values, *source, at_source);
    }
}

#[tactic(auto, using(crate::proofs::StartLists::same_starts_are))]
fn same_starts(alloc: Global, n: usize, value: Value) -> Result<Vec<Value>, Memory>
    ensures { IfOk result (λ found. found.items ≡ by_position n (λ v. value)) }
{
    Ok(vec![in alloc; value; n]?)
}

/// One value at the sources, and another elsewhere.
fn source_starts(
    alloc: Global,
    n: usize,
    sources: &[Pos],
    at_source: Value,
    elsewhere: Value,
) -> Result<Vec<Value>, Memory>
    ensures { IfOk result (λ found. found.items ≡ by_position n (λ v. if is_listed sources.now v then at_source else elsewhere)) }
{
    let mut found = same_starts(alloc, n, elsewhere)?;
    put_sources(&mut found, sources, at_source);
    Ok(found)
}

#[tactic(auto, using(crate::proofs::StartLists::own_starts_are))]
fn own_starts(alloc: Global, ids: &[Id]) -> Result<Vec<Value>, Memory>
    ensures { IfOk result (λ found. found.items ≡ by_position (length ids.now) (slice_index ids.now)) }
{
    Ok(Vec::from_slice(alloc, ids)?)
}

fn starts_by(alloc: Global, start: Start, ids: &[Id], sources: &[Pos]) -> Result<Vec<Value>, Memory>
    ensures { IfOk result (λ found. found.items ≡ starts_of start ids.now sources.now) }
{
    match start {
        Start::Source(at_source, elsewhere) => {
            source_starts(alloc, ids.len(), sources, at_source, elsewhere)
        }
        Start::Each(value) => same_starts(alloc, ids.len(), value),
        Start::OwnId => own_starts(alloc, ids),
    }
}

/// The program's start value of each vertex, in the order of the ids, where the vertices at these positions are the
/// sources. A position past the last vertex is nobody's.
///
/// # Errors
/// `Memory` where there is no room for the values.
#[tactic(auto, using(crate::proofs::StartLists::starts_are_values))]
pub fn starts(
    alloc: Global,
    program: &Program,
    ids: &[Id],
    sources: &[Pos],
) -> Result<Vec<Value>, Memory>
    ensures starts { IfOk result (λ found. found.items ≡ starts_of program.now.start ids.now sources.now) }
    ensures values { IsValueStart program.now.start → All IsValue ids.now → IfOk result (λ found. IsValueList (length ids.now) found.items) }
{
    let found = starts_by(alloc, program.start, ids, sources)?;
    Ok(found)
}

fn core_value(core: &CoreProgram, value: Value) -> Value
    requires { IsValue value }
    ensures value { result ≡ core_value core.now value }
    ensures range { IsValue result }
{
    if core.flipped { flip(value) } else { value }
}

/// These start values as core values.
///
/// # Errors
/// `Memory` where there is no room for the values.
pub fn core_starts(
    alloc: Global,
    core: &CoreProgram,
    starts: &[Value],
) -> Result<Vec<Value>, Memory>
    requires { All IsValue starts.now }
    ensures core { IfOk result (λ found. found.items ≡ core_starts_of core.now starts.now) }
    ensures values { IfOk result (λ found. IsValueList (length starts.now) found.items) }
{
    let mut found = Vec::with_capacity(alloc, starts.len())?;
    for start in starts {
        found.push(core_value(core, *start))?;
    }
    Ok(found)
}
