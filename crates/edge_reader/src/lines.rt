//! The lines that have ended, and how a piece of the text adds to them.
ghost use Rattle.std.specs.Prelude.{◌≡◌, ℕ, ◌+◌, ◌<◌, ◌≤◌, ◌^◌, List, [], ◌∷◌, ◌++◌, Ok, take, IfOk, OnOk, IfErr, length};
ghost use Rattle.px_base.specs.Lines.{line_of};
ghost use Rattle.px_base.specs.Inputs.{input_limits};
ghost use Rattle.edge_reader.specs.Scans.{line_said};
ghost use Rattle.edge_reader.specs.Lists.{AreRead, Adds, RefusesEdge, IsFed, Feeds, FeedsOn, FeedsUpTo};

use crate::EdgeFault;
use crate::scan::{Said, Scan};
use px_base::MOST_EDGES;
use std::alloc::Global;

/// The lines that have ended: the ids of both ends of each edge, one after the other, and its weight.
#[derive(Drop)]
pub struct ReadLines {
    /// Whether the third field of a line is read as a weight. Where it isn't, each weight is 1.
    pub weighted: bool,
    /// The number of the next line.
    pub line: u64,
    /// The ids of both ends of each edge, its source first: two for each weight.
    pub ends: Vec<u32>,
    /// The weight of each edge, in the order of the lines.
    pub weights: Vec<u32>,
}

impl ReadLines {
    /// No line has ended yet, and line 1 is next.
    pub fn new(alloc: Global, weighted: bool) -> ReadLines
        ensures read { AreRead [] result }
        ensures weighted { result.weighted ≡ weighted }
    {
        ReadLines {
            weighted,
            line: 1,
            ends: Vec::new(alloc),
            weights: Vec::new(alloc),
        }
    }

    /// Adds an edge. After an error part of it may have been added.
    fn add(&mut self, source: u32, target: u32, weight: u32) -> Result<(), EdgeFault>
        ensures ends { OnOk result (self.new.ends.items ≡ self.old.ends.items ++ source ∷ target ∷ []) }
        ensures weights { OnOk result (self.new.weights.items ≡ self.old.weights.items ++ weight ∷ []) }
        ensures room { OnOk result (length self.old.weights.items < input_limits.edges) }
        ensures refused { IfErr result (λ fault. RefusesEdge (length self.old.weights.items) fault) }
        ensures line { self.new.line ≡ self.old.line }
        ensures weighted { self.new.weighted ≡ self.old.weighted }
    {
        if self.weights.len() >= MOST_EDGES {
            return Err(EdgeFault::TooManyEdges);
        }
        self.ends.push(source)?;
        self.ends.push(target)?;
        self.weights.push(weight)?;
        Ok(())
    }

    /// Ends a line that says this.
    pub fn end_line(&mut self, said: Said) -> Result<(), EdgeFault>
        ensures weighted { self.new.weighted ≡ self.old.weighted }
        ensures adds { (lines : List (List ℕ)) (line : List ℕ) → AreRead lines self.old → line_of self.old.weighted line ≡ line_said said → length lines < 2 ^ 32 → Adds (lines ++ line ∷ []) self.new result }
    {
        let line = self.line;
        self.line = line.saturating_add(1);
        match said {
            Said::Skipped => Ok(()),
            Said::Edge {
                source,
                target,
                weight,
            } => self.add(source, target, weight),
            Said::Missing => Err(EdgeFault::Missing { line }),
            Said::BadId => Err(EdgeFault::BadId { line }),
            Said::BadWeight => Err(EdgeFault::BadWeight { line }),
        }
    }

    fn one_byte(&mut self, scan: &mut Scan, byte: u8) -> Result<(), EdgeFault>
        ensures weighted { self.new.weighted ≡ self.old.weighted }
        ensures fed { (text : List ℕ) → IsFed text self.old scan.old → length text < 2 ^ 32 → Feeds (text ++ byte ∷ []) self.new scan.new result }
    {
        if byte == b'\n' {
            self.end_line(scan.judged())?;
            *scan = Scan::new();
            Ok(())
        } else {
            scan.next_byte(self.weighted, byte);
            Ok(())
        }
    }

    /// Reads the digits of a number from this place of the piece on, and the byte after them. It answers the next place.
    fn digits_and_byte(
        &mut self,
        scan: &mut Scan,
        piece: &[u8],
        from: usize,
    ) -> Result<usize, EdgeFault>
        requires { from < length piece.now }
        ensures weighted { self.new.weighted ≡ self.old.weighted }
        ensures within { IfOk result (λ next. (from < next) × (next ≤ length piece.now)) }
        ensures fed { (text : List ℕ) → IsFed (text ++ take from piece.now) self.old scan.old → length (text ++ piece.now) < 2 ^ 32 → FeedsUpTo text piece.now self.new scan.new result }
    {
        let at = scan.take_digits(piece, from);
        if at == piece.len() {
            return Ok(at);
        }
        self.one_byte(scan, piece[at])?;
        Ok(at + 1)
    }

    /// Reads on in a piece of the text. The scan knows the line that is open.
    pub fn feed(&mut self, mut scan: Scan, piece: &[u8]) -> Result<Scan, EdgeFault>
        ensures weighted { self.new.weighted ≡ self.old.weighted }
        ensures fed { (text : List ℕ) → IsFed text self.old scan → length (text ++ piece.now) < 2 ^ 32 → FeedsOn (text ++ piece.now) self.new result }
    {
        let mut at = 0;
        while at < piece.len() {
            at = self.digits_and_byte(&mut scan, piece, at)?;
        }
        Ok(scan)
    }
}
