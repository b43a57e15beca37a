//! Which frames fit: their counts and numbers are within their limits, and their lists in their order.
ghost use Rattle.std.specs.Prelude.{◌≡◌, ◌<◌, ◌≤◌, ◌↔◌, All, IsTrue, length};
ghost use Rattle.std.specs.List.{AllAdjacentBelow};
ghost use Rattle.std.specs.List.Sorted.{IsStrictlyIncreasing, IsSortedBy};
ghost use Rattle.px_base.specs.declared.TheConstants.{MOST_VERTICES};
ghost use Rattle.px_base.specs.Values.{IsValue};
ghost use Rattle.px_base.specs.FrameFits.{IsVertex, IsWord, IsLoad, SetupFits, PairsFit, is_lower_triple, FrameFits};
ghost use Rattle.px_base.specs.RowTexts.{IsRowAlong, IsRowFold, IsRowProgram, IsRowStart, IsRowValue};

use px_base::{
    Along, Answer, Fold, Frame, MOST_VERTICES, Order, Pos, Program, Setup, Start, TOP, Triple,
    Update, Value,
};

/// The least number that four bytes don't hold.
const WORDS: u64 = 1 << 32;

/// The most entries of a frame of a load.
const MOST_ENTRIES: usize = 1 << 20;

/// The most updates of an order or an answer, and the most values of an answer.
const MOST_UPDATES: usize = MOST_VERTICES as usize;

/// The most reads of a part.
const MOST_READS: u32 = px_base::MOST_READS as u32;

/// The most workers, and the most chunks.
const MOST_WORKERS: u32 = 64;

fn is_word(number: u64) -> bool
    ensures { IsTrue result ↔ IsWord number }
{
    number < WORDS
}

fn is_load(entries: usize) -> bool
    ensures { IsTrue result ↔ IsLoad entries }
{
    1 <= entries && entries <= MOST_ENTRIES
}

fn is_row_value(value: Value) -> bool
    ensures { IsTrue result ↔ IsRowValue value }
{
    is_word(value) || value == TOP
}

fn start_fits(start: Start) -> bool
    ensures { IsTrue result ↔ IsRowStart start }
{
    match start {
        Start::Source(a, b) => is_row_value(a) && is_row_value(b),
        Start::Each(a) => is_row_value(a),
        Start::OwnId => true,
    }
}

fn along_fits(along: Along) -> bool
    ensures { IsTrue result ↔ IsRowAlong along }
{
    match along {
        Along::Plus(n) => is_word(n),
        Along::Minus(n) => is_word(n),
        Along::Same | Along::PlusWeight | Along::FloorWeight | Along::CapWeight => true,
    }
}

fn fold_fits(fold: Fold) -> bool
    ensures { IsTrue result ↔ IsRowFold fold }
{
    match fold {
        Fold::Count(k) => is_word(u64::from(k)),
        Fold::Least | Fold::Greatest | Fold::Mex => true,
    }
}

fn program_fits(program: &Program) -> bool
    ensures { IsTrue result ↔ IsRowProgram program.now }
{
    start_fits(program.start) && along_fits(program.along) && fold_fits(program.fold)
}

fn setup_fits(setup: &Setup) -> bool
    ensures { IsTrue result ↔ SetupFits setup.now }
{
    setup.index < MOST_WORKERS
        && setup.low <= setup.high
        && setup.high <= MOST_VERTICES
        && program_fits(&setup.program)
        && 1 <= setup.chunks
        && setup.chunks <= MOST_WORKERS
        && setup.mirrors <= MOST_VERTICES
        && setup.boundary <= MOST_VERTICES
        && setup.reads <= MOST_READS
}

fn are_values(values: &[Value]) -> bool
    ensures { IsTrue result ↔ All IsValue values.now }
{
    values.iter().all(|x| *x <= TOP)
}

fn rise(vertices: &[Pos]) -> bool
    ensures { IsTrue result ↔ IsStrictlyIncreasing vertices.now }
{
    vertices.windows(2).all(|pair| pair[0] < pair[1])
}

fn are_vertices(vertices: &[Pos]) -> bool
    ensures { IsTrue result ↔ All IsVertex vertices.now }
{
    vertices.iter().all(|v| *v < MOST_VERTICES)
}

fn pairs_rise(pairs: &[Update]) -> bool
    ensures { IsTrue result ↔ AllAdjacentBelow (λ a b. a.vertex < b.vertex) pairs.now (length pairs.now) }
{
    pairs.windows(2).all(|pair| pair[0].vertex < pair[1].vertex)
}

fn are_pairs(pairs: &[Update]) -> bool
    ensures { IsTrue result ↔ All (λ u. IsVertex u.vertex × IsValue u.value) pairs.now }
{
    pairs
        .iter()
        .all(|u| u.vertex < MOST_VERTICES && u.value <= TOP)
}

fn pairs_fit(pairs: &[Update]) -> bool
    ensures { IsTrue result ↔ PairsFit pairs.now }
{
    pairs_rise(pairs) && are_pairs(pairs)
}

fn is_lower_triple(a: &Triple, b: &Triple) -> bool
    ensures { result ≡ is_lower_triple a.now b.now }
{
    a.target < b.target
        || (a.target == b.target
            && (a.source < b.source || (a.source == b.source && a.weight < b.weight)))
}

/// Whether no triple stands before the one in front of it.
pub fn never_fall(triples: &[Triple]) -> bool
    ensures { IsTrue result ↔ IsSortedBy is_lower_triple triples.now }
{
    triples
        .windows(2)
        .all(|pair| !is_lower_triple(&pair[1], &pair[0]))
}

fn are_triples(triples: &[Triple]) -> bool
    ensures { IsTrue result ↔ All (λ t. IsVertex t.target × IsVertex t.source × IsWord t.weight) triples.now }
{
    triples.iter().all(|t| t.target < MOST_VERTICES && t.source < MOST_VERTICES && t.weight < WORDS)
}

fn updates_fit(updates: &[Update]) -> bool
    ensures { IsTrue result ↔ ((length updates.now ≤ MOST_VERTICES) × PairsFit updates.now) }
{
    updates.len() <= MOST_UPDATES && pairs_fit(updates)
}

/// Whether the order's frame has a spelling: there are at most 2^22 updates, by rising vertex, and each has a position and
/// a value.
pub fn order_fits(order: &Order) -> bool
    ensures { IsTrue result ↔ FrameFits (Frame.Order order.now) }
{
    match order {
        Order::Step {
            epoch,
            round,
            updates,
        } => {
            let _numbers = (*epoch, *round);
            updates_fit(updates.as_slice())
        }
        Order::Report { epoch } => {
            let _number = *epoch;
            true
        }
    }
}

fn answer_fits(answer: &Answer) -> bool
    ensures { IsTrue result ↔ FrameFits (Frame.Answer answer.now) }
{
    match answer {
        Answer::Stepped {
            epoch,
            round,
            updates,
            ..
        } => {
            let _numbers = (*epoch, *round);
            updates_fit(updates.as_slice())
        }
        Answer::Reported { epoch, values } => {
            let _number = *epoch;
            values.as_slice().len() <= MOST_UPDATES && are_values(values.as_slice())
        }
    }
}

/// Whether the values' frame has a spelling: there are 1 to 2^20, and each is a value.
pub fn starts_fit(values: &[Value]) -> bool
    ensures { IsTrue result ↔ FrameFits (Frame.Starts values.now) }
{
    is_load(values.len()) && are_values(values)
}

/// Whether the pairs' frame has a spelling: there are 1 to 2^20, by rising vertex, and each has a position and a value.
pub fn mirrors_fit(pairs: &[Update]) -> bool
    ensures { IsTrue result ↔ FrameFits (Frame.Mirrors pairs.now) }
{
    is_load(pairs.len()) && pairs_fit(pairs)
}

/// Whether the vertices' frame has a spelling: there are 1 to 2^20, they rise, and each is a position.
pub fn boundary_fits(vertices: &[Pos]) -> bool
    ensures { IsTrue result ↔ FrameFits (Frame.Boundary vertices.now) }
{
    is_load(vertices.len()) && rise(vertices) && are_vertices(vertices)
}

/// Whether the triples' frame has a spelling: there are 1 to 2^20, they never fall, and their numbers are within limits.
pub fn reads_fit(triples: &[Triple]) -> bool
    ensures { IsTrue result ↔ FrameFits (Frame.Reads triples.now) }
{
    is_load(triples.len()) && never_fall(triples) && are_triples(triples)
}

/// Whether the frame has a spelling: its counts and numbers are within their limits, and its lists in their order.
pub fn frame_fits(frame: &Frame) -> bool
    ensures { IsTrue result ↔ FrameFits frame.now }
{
    match frame {
        Frame::Setup(setup) => setup_fits(setup),
        Frame::Starts(values) => starts_fit(values.as_slice()),
        Frame::Mirrors(pairs) => mirrors_fit(pairs.as_slice()),
        Frame::Boundary(vertices) => boundary_fits(vertices.as_slice()),
        Frame::Reads(triples) => reads_fit(triples.as_slice()),
        Frame::Ready => true,
        Frame::Order(order) => order_fits(order),
        Frame::Answer(answer) => answer_fits(answer),
    }
}
