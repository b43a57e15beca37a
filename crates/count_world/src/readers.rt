//! Which masters of a part read which.
ghost use Rattle.std.specs.Prelude.{◌≡◌, ◌==◌, ◌<◌, ◌+◌, ◌-◌, ℕ, All, IfOk, OnOk, length, if◌then◌else◌, slice_index};
ghost use Rattle.px_base.specs.Values.{one_if};
ghost use Rattle.px_base.specs.Graphs.{reads_passing};
ghost use Rattle.px_base.specs.Parts.{PartFits, is_within};
ghost use Rattle.count_world.specs.Readers.{AreMasters, HasGrown, AreReaders, times_listed};
ghost use Rattle.count_world.specs.Sets.{counts_off};
ghost use Rattle.count_world.specs.Census.{IsCensus, KeepsCensus};

use crate::census::{Census, master_count};
use px_base::{Memory, Part, Pos, Read, Row};
use reader_chains::Readers;
use std::alloc::Global;

/// Whether the part's own masters are read.
fn is_inner(part: &Part, u: Pos) -> bool
    ensures { result ≡ is_within part.now.low part.now.high u }
{
    part.low <= u && u < part.high
}

/// How many reads of masters the rows have. It only says how much room to make, so no clause speaks of it.
fn inner_reads(part: &Part) -> usize {
    let sources = part.rows.flat().sources;
    sources.iter().filter(|u| is_inner(part, **u)).count()
}

/// Adds the reader to the master that the read is of, if it is of one.
fn add_read(readers: &mut Readers, part: &Part, reader: u32, read: Read) -> Result<(), Memory>
    requires masters { AreMasters (part.now.high - part.now.low) readers.old }
    requires reader { reader < part.now.high - part.now.low }
    ensures { OnOk result (HasGrown (part.now.high - part.now.low) readers.old readers.new (λ k j. if reader == j then one_if (read.source == part.now.low + k) else 0)) }
{
    if is_inner(part, read.source) {
        readers.add((read.source - part.low) as usize, reader)?;
    }
    Ok(())
}

/// Adds the reader to each master in its row, once for each read.
fn add_row(readers: &mut Readers, part: &Part, reader: u32, row: &Row<'_>) -> Result<(), Memory>
    requires masters { AreMasters (part.now.high - part.now.low) readers.old }
    requires reader { reader < part.now.high - part.now.low }
    ensures { OnOk result (HasGrown (part.now.high - part.now.low) readers.old readers.new (λ k j. if reader == j then reads_passing (λ u. u == part.now.low + k) row.now else 0)) }
{
    for k in 0..row.len() {
        add_read(readers, part, reader, row.read(k))?;
    }
    Ok(())
}

/// For each master those that read it, once for each read, in one pass over the part's rows.
pub fn gather_readers(alloc: Global, part: &Part) -> Result<Readers, Memory>
    requires fits { PartFits part.now }
    ensures { IfOk result (λ readers. AreReaders part.now readers) }
{
    let mut readers = Readers::new(alloc, master_count(part), inner_reads(part))?;
    for j in 0..part.rows.row_count() {
        add_row(&mut readers, part, j as u32, &part.rows.row(j))?;
    }
    Ok(readers)
}

/// Takes one off the count of each reader of master `k` for each time that it reads the master.
fn take_reads_of(readers: &Readers, k: usize, census: &mut Census)
    requires masters { AreMasters (length census.old.alive.items) readers.now }
    requires k { k < length census.old.alive.items }
    requires census { IsCensus census.old }
    ensures kept { KeepsCensus census.old census.new }
    ensures counts { (j : ℕ) → j < length census.old.counts.items → slice_index census.new.counts.items j ≡ slice_index census.old.counts.items j - times_listed readers.now k j }
{
    for reader in readers.of(k) {
        census.lower(reader as usize, 1);
    }
}

/// Takes off each count how often it reads the members of the list. It looks at the readers of the members alone.
pub fn take_off(readers: &Readers, members: &[u32], census: &mut Census)
    requires masters { AreMasters (length census.old.alive.items) readers.now }
    requires members { All (λ k. k < length census.old.alive.items) members.now }
    requires census { IsCensus census.old }
    ensures kept { KeepsCensus census.old census.new }
    ensures counts { census.new.counts.items ≡ counts_off readers.now members.now census.old.counts.items }
{
    for k in members {
        take_reads_of(readers, *k as usize, census);
    }
}
