//! The entries of the frames of a load, joined by kind.
ghost use Rattle.std.specs.Prelude.{◌≡◌, ◌++◌, OnOk, OnErr};
ghost use Rattle.part_loads.specs.Keeping.{no_entries, with_entries};

use px_base::{Frame, Items, Memory, Pos, Triple, Update, Value};
use std::alloc::{AllocError, Global};
use std::marker::Model;

/// The entries of the frames of a load, each kind joined.
#[derive(Drop)]
pub struct Entries {
    /// The core start of each master, as far as they came.
    pub starts: Vec<Value>,
    /// Each mirror with its core start.
    pub mirrors: Vec<Update>,
    /// The boundary: the masters that other parts read.
    pub boundary: Vec<Pos>,
    /// The reads of the masters, each with the master that reads.
    pub reads: Vec<Triple>,
}

impl Model for Entries {
    ghost use Rattle.part_loads.specs.Keeping.{EntryLists};

    ghost Value = { EntryLists };

    ghost view = { λ e. record { starts = e.starts.items; mirrors = e.mirrors.items; boundary = e.boundary.items; reads = e.reads.items } };
}

/// Puts the items behind those of the list. An empty list takes them over as they lie. An error changes nothing.
fn append<T: Drop>(list: &mut Vec<T>, items: Items<T>) -> Result<(), Memory>
    ensures ok { OnOk result (list.new.items ≡ list.old.items ++ items) }
    ensures kept { OnErr result (list.new.items ≡ list.old.items) }
{
    let mut more = items.into_vec();
    if list.is_empty() {
        *list = more;
        return Ok(());
    }
    list.append(&mut more)?;
    Ok(())
}

impl Entries {
    /// No entries yet.
    pub fn new(alloc: Global) -> Entries
        ensures { result ≡ no_entries }
    {
        Entries {
            starts: Vec::new(alloc),
            mirrors: Vec::new(alloc),
            boundary: Vec::new(alloc),
            reads: Vec::new(alloc),
        }
    }

    /// Takes the entries of the frame, which may have none. An error changes nothing.
    pub fn join(&mut self, frame: Frame) -> Result<(), Memory>
        ensures ok { OnOk result (self.new ≡ with_entries self.old frame) }
        ensures kept { OnErr result (self.new ≡ self.old) }
    {
        match frame {
            Frame::Starts(values) => append(&mut self.starts, values),
            Frame::Mirrors(pairs) => append(&mut self.mirrors, pairs),
            Frame::Boundary(vertices) => append(&mut self.boundary, vertices),
            Frame::Reads(triples) => append(&mut self.reads, triples),
            _ => Ok(()),
        }
    }
}
