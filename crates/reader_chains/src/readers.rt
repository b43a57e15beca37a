//! The readers of all places, in one list of links.
use crate::chain::{Chain, Link};
use px_base::Memory;
use std::alloc::Global;
use std::marker::Model;

/// For each place its readers, as often as they were added. It takes 8 bytes for each reader and 4 for each place: all
/// links stand in one list, and of each place the number of the last one's link is kept.
#[derive(Drop)]
pub struct Readers {
    first: Vec<u32>,
    links: Vec<Link>,
}

impl Model for Readers {
    ghost use Rattle.std.specs.Prelude.{ℕ, List};

    ghost Value = { List (List ℕ) };

    ghost use Rattle.reader_chains.specs.Chains.{chains, AreLinked};

    ghost view = { λ r. chains r.first.items r.links.items };

    ghost invariant = { λ r. AreLinked r.first.items r.links.items };
}

impl Readers {
    ghost use Rattle.std.specs.Prelude.{◌≡◌, ◌<◌, [], ◌∷◌, IfOk, OnErr, OnOk, length, replicate, slice_set};
    ghost use Rattle.reader_chains.specs.Readers.{readers_of};

    /// So many places without a reader. There is room for so many readers before more memory is taken. Errors: want of
    /// memory.
    pub fn new(alloc: Global, places: usize, room: usize) -> Result<Readers, Memory>
        ensures { IfOk result (λ readers. readers ≡ replicate places []) }
    {
        Ok(Readers {
            first: vec![in alloc; 0; places]?,
            links: Vec::with_capacity(alloc, room)?,
        })
    }

    /// Puts the reader before the others of the place. Errors: want of memory, also where there would be more readers than
    /// a `u32` can number.
    pub fn add(&mut self, place: usize, reader: u32) -> Result<(), Memory>
        requires place { place < length self.old }
        ensures added { OnOk result (self.new ≡ slice_set self.old place (reader ∷ readers_of self.old place)) }
        ensures kept { OnErr result (self.new ≡ self.old) }
    {
        let Ok(number) = u32::try_from(self.links.len() + 1) else {
            return Err(Memory);
        };
        let next = self.first[place];
        self.links.push(Link { reader, next })?;
        self.first[place] = number;
        Ok(())
    }

    /// The readers of a place, the one added last first.
    #[inline(always)]
    pub fn of(&self, place: usize) -> Chain<'_>
        requires place { place < length self.now }
        ensures { result ≡ readers_of self.now place }
    {
        Chain::from_link(self.links.as_slice(), self.first[place])
    }
}
