//! One line of an edge list, byte by byte: how far it is understood, and what it says.
ghost use Rattle.std.specs.Prelude.{◌≡◌, ◌==◌, ◌||◌, ◌≤◌, Some, length};
ghost use Rattle.px_base.specs.Lines.{is_blank};
ghost use Rattle.edge_reader.specs.Scans.{with_digit, in_source, in_target, in_weight, in_third, after_blank, at_start, in_field, next_in_line, let_go, next_byte, line_start, judged, line_said, with_digits, bytes_between, TakesDigits};

/// How far a line is understood.
#[derive(Clone, Copy)]
pub enum Stage {
    /// Before the first byte.
    Start,
    /// The line began with `#` or `%`: nothing more of it counts.
    Comment,
    /// After blanks alone.
    Indent,
    /// In the digits of the first id.
    Source,
    /// After the first id and a blank.
    AfterSource,
    /// In the digits of the second id.
    Target,
    /// After the second id and a blank.
    AfterTarget,
    /// In the digits of the weight.
    Weight,
    /// Past all that is read: further fields are skipped.
    Rest,
    /// An id was no number below 2^32.
    WrongId,
    /// The weight was no number below 2^32.
    WrongWeight,
}

/// What is known of a line after some of its bytes. A carriage return is held back until the byte after it is seen,
/// since the last one of a line doesn't count.
#[derive(Clone, Copy)]
pub struct Scan {
    /// How far the line is understood.
    pub stage: Stage,
    /// Whether a carriage return is held back.
    pub held: bool,
    /// The first id, as far as its digits were read.
    pub source: u32,
    /// The second id, as far as its digits were read.
    pub target: u32,
    /// The weight, as far as its digits were read, and 1 before that.
    pub weight: u32,
}

/// What a line says.
#[derive(Clone, Copy)]
pub enum Said {
    /// Nothing: it is a comment, or has no field.
    Skipped,
    /// An edge.
    Edge {
        /// The first id.
        source: u32,
        /// The second id.
        target: u32,
        /// The weight, 1 where none was read.
        weight: u32,
    },
    /// One field alone.
    Missing,
    /// An end that is no number below 2^32.
    BadId,
    /// A weight that is no number below 2^32.
    BadWeight,
}

fn is_blank(byte: u8) -> bool
    ensures { result ≡ is_blank byte }
{
    byte == b' ' || byte == b'\t'
}

/// The number with one more digit, where the byte is one and the number stays below 2^32.
fn with_digit(number: u32, byte: u8) -> Option<u32>
    ensures { result ≡ with_digit number byte }
{
    if !byte.is_ascii_digit() {
        return None;
    }
    let more = u64::from(number) * 10 + u64::from(byte - b'0');
    if more < 1 << 32 {
        Some(more as u32)
    } else {
        None
    }
}

/// A number and the place after its digits.
#[derive(Clone, Copy)]
struct Run {
    number: u32,
    end: usize,
}

/// The number with the digits from this place on, as far as they go and it stays below 2^32.
fn digits_from(number: u32, piece: &[u8], from: usize) -> Run
    requires { from ≤ length piece.now }
    ensures within { (from ≤ result.end) × (result.end ≤ length piece.now) }
    ensures number { with_digits number (bytes_between piece.now from result.end) ≡ Some result.number }
{
    let mut number = number;
    let mut end = from;
    while end < piece.len() {
        let Some(more) = with_digit(number, piece[end]) else {
            break;
        };
        number = more;
        end += 1;
    }
    Run { number, end }
}

/// The stage after a blank or a tab.
fn after_blank(stage: Stage) -> Stage
    ensures { result ≡ after_blank stage }
{
    match stage {
        Stage::Start => Stage::Indent,
        Stage::Source => Stage::AfterSource,
        Stage::Target => Stage::AfterTarget,
        Stage::Weight => Stage::Rest,
        other => other,
    }
}

impl Scan {
    /// Before the first byte of a line.
    pub fn new() -> Scan
        ensures { result ≡ line_start }
    {
        Scan {
            stage: Stage::Start,
            held: false,
            source: 0,
            target: 0,
            weight: 1,
        }
    }

    fn in_source(&mut self, number: u32, byte: u8)
        ensures { self.new ≡ in_source self.old number byte }
    {
        match with_digit(number, byte) {
            Some(source) => {
                self.stage = Stage::Source;
                self.source = source;
            }
            None => self.stage = Stage::WrongId,
        }
    }

    fn in_target(&mut self, number: u32, byte: u8)
        ensures { self.new ≡ in_target self.old number byte }
    {
        match with_digit(number, byte) {
            Some(target) => {
                self.stage = Stage::Target;
                self.target = target;
            }
            None => self.stage = Stage::WrongId,
        }
    }

    fn in_weight(&mut self, number: u32, byte: u8)
        ensures { self.new ≡ in_weight self.old number byte }
    {
        match with_digit(number, byte) {
            Some(weight) => {
                self.stage = Stage::Weight;
                self.weight = weight;
            }
            None => self.stage = Stage::WrongWeight,
        }
    }

    fn in_third(&mut self, weighted: bool, byte: u8)
        ensures { self.new ≡ in_third weighted self.old byte }
    {
        if weighted {
            self.in_weight(0, byte);
        } else {
            self.stage = Stage::Rest;
            self.weight = 1;
        }
    }

    fn at_start(&mut self, byte: u8)
        ensures { self.new ≡ at_start self.old byte }
    {
        if byte == b'#' || byte == b'%' {
            self.stage = Stage::Comment;
        } else {
            self.in_source(0, byte);
        }
    }

    fn in_field(&mut self, weighted: bool, byte: u8)
        ensures { self.new ≡ in_field weighted self.old.stage self.old byte }
    {
        match self.stage {
            Stage::Start => self.at_start(byte),
            Stage::Indent => self.in_source(0, byte),
            Stage::Source => self.in_source(self.source, byte),
            Stage::AfterSource => self.in_target(0, byte),
            Stage::Target => self.in_target(self.target, byte),
            Stage::AfterTarget => self.in_third(weighted, byte),
            Stage::Weight => self.in_weight(self.weight, byte),
            Stage::Comment | Stage::Rest | Stage::WrongId | Stage::WrongWeight => {}
        }
    }

    fn next_in_line(&mut self, weighted: bool, byte: u8)
        ensures { self.new ≡ next_in_line weighted self.old byte }
    {
        if is_blank(byte) {
            self.stage = after_blank(self.stage);
        } else {
            self.in_field(weighted, byte);
        }
    }

    fn let_go(&mut self, weighted: bool)
        ensures { self.new ≡ let_go weighted self.old }
    {
        if self.held {
            self.held = false;
            self.next_in_line(weighted, b'\r');
        }
    }

    /// Takes one more byte of the line.
    pub fn next_byte(&mut self, weighted: bool, byte: u8)
        ensures { self.new ≡ next_byte weighted self.old byte }
    {
        self.let_go(weighted);
        if byte == b'\r' {
            self.held = true;
        } else {
            self.next_in_line(weighted, byte);
        }
    }

    /// Takes the digits from this place on that belong to the number of the field, and answers where they end. It takes
    /// none at the first byte of a field.
    pub fn take_digits(&mut self, piece: &[u8], from: usize) -> usize
        requires { from ≤ length piece.now }
        ensures within { (from ≤ result) × (result ≤ length piece.now) }
        ensures taken { TakesDigits self.old self.new (bytes_between piece.now from result) }
    {
        if self.held {
            return from;
        }
        match self.stage {
            Stage::Source => {
                let run = digits_from(self.source, piece, from);
                self.source = run.number;
                run.end
            }
            Stage::Target => {
                let run = digits_from(self.target, piece, from);
                self.target = run.number;
                run.end
            }
            Stage::Weight => {
                let run = digits_from(self.weight, piece, from);
                self.weight = run.number;
                run.end
            }
            _ => from,
        }
    }

    /// What the line says if it ends here.
    pub fn judged(self) -> Said
        ensures { line_said result ≡ judged self }
    {
        match self.stage {
            Stage::Start | Stage::Comment | Stage::Indent => Said::Skipped,
            Stage::Source | Stage::AfterSource => Said::Missing,
            Stage::Target | Stage::AfterTarget => Said::Edge {
                source: self.source,
                target: self.target,
                weight: 1,
            },
            Stage::Weight | Stage::Rest => Said::Edge {
                source: self.source,
                target: self.target,
                weight: self.weight,
            },
            Stage::WrongId => Said::BadId,
            Stage::WrongWeight => Said::BadWeight,
        }
    }
}
