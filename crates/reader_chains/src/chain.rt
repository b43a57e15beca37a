//! The readers of one place, gone through from link to link.
use std::marker::Model;

/// A reader of a place, and the link of the one that was added before. Links are numbered from 1 on, and 0 ends a chain.
#[derive(Clone, Copy)]
pub(crate) struct Link {
    /// The reader.
    pub reader: u32,
    /// The number of the link of the one added before, or 0.
    pub next: u32,
}

/// The readers of a place that are left, the one added last first.
#[derive(Drop)]
pub struct Chain<'a> {
    links: &'a [Link],
    at: u32,
}

impl<'a> Model for Chain<'a> {
    ghost use Rattle.std.specs.Prelude.{ℕ, List};

    ghost Value = { List ℕ };

    ghost use Rattle.reader_chains.specs.Chains.{readers_from, IsWithin};

    ghost view = { λ c. readers_from c.links.now c.at };

    ghost invariant = { λ c. IsWithin c.links.now c.at };
}

impl<'a> Chain<'a> {
    ghost use Rattle.std.specs.Prelude.{◌≡◌};
    ghost use Rattle.reader_chains.specs.Chains.{readers_from, IsWithin};

    /// The chain that begins with a link.
    pub(crate) fn from_link(links: &'a [Link], at: u32) -> Chain<'a>
        requires { IsWithin links.now at }
        ensures { result ≡ readers_from links.now at }
    {
        Chain { links, at }
    }
}

impl<'a> Iterator for Chain<'a> {
    ghost use Rattle.std.specs.Iterator.{item_count, YieldsFirst};

    type Item = u32;

    ghost next_gives = { YieldsFirst (λ c. c) };

    ghost remaining = { item_count (λ c. c) };

    /// The first of the readers that are left, which are then those after it.
    #[inline(always)]
    fn next(&mut self) -> Option<u32> {
        if self.at == 0 {
            return None;
        }
        let link = self.links[self.at as usize - 1];
        self.at = link.next;
        Some(link.reader)
    }
}
