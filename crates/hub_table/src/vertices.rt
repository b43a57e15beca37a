//! Which vertices each worker mirrors, from their routes.
ghost use Rattle.std.specs.Prelude.{◌≡◌, ℕ, ◌<◌, ◌≤◌, ◌++◌, ◌∷◌, [], All, IfOk, OnOk, filter, length, slice_index_or, if◌then◌else◌};
ghost use Rattle.std.specs.List.Sorted.{IsStrictlyIncreasing};
ghost use Rattle.px_base.specs.declared.TheConstants.{MOST_VERTICES};
ghost use Rattle.px_base.specs.Values.{is_listed, positions_below};
ghost use Rattle.hub_terms.specs.Inboxes.{route_at};
ghost use Rattle.list_laws.specs.Routes.{AreRoutes};

use px_base::{Items, Memory, Pos};
use std::alloc::Global;
use std::marker::Model;

/// A list of vertices that grows.
#[derive(Drop)]
pub struct Vertices {
    items: Vec<Pos>,
}

impl Model for Vertices {
    ghost use Rattle.std.specs.Prelude.{ℕ, List};

    ghost Value = { List ℕ };

    ghost view = { λ v. v.items.items };
}

impl Vertices {
    /// No vertices.
    pub fn new(alloc: Global) -> Vertices
        ensures { result ≡ [] }
    {
        Vertices {
            items: Vec::new(alloc),
        }
    }

    /// Puts a vertex at the end. Errors: want of memory.
    pub fn push(&mut self, v: Pos) -> Result<(), Memory>
        ensures { OnOk result (self.new ≡ self.old ++ v ∷ []) }
    {
        self.items.push(v)?;
        Ok(())
    }

    /// The vertices.
    pub fn into_vec(self) -> Vec<Pos>
        ensures { result.items ≡ self }
    {
        let Vertices { items } = self;
        items
    }
}

/// So many empty lists. Errors: want of memory.
fn empty_lists(alloc: Global, count: usize) -> Result<Vec<Vertices>, Memory>
    ensures count { IfOk result (λ lists. length lists.items ≡ count) }
    ensures empty { IfOk result (λ lists. (j : ℕ) → slice_index_or lists.items j [] ≡ []) }
{
    let mut lists = Vec::with_capacity(alloc, count)?;
    for _ in 0..count {
        lists.push(Vertices::new(alloc))?;
    }
    Ok(lists)
}

/// Adds the vertex to the list of each worker on its route. Errors: want of memory.
fn add_to(lists: &mut Vec<Vertices>, route: &[u32], v: Pos) -> Result<(), Memory>
    requires rises { IsStrictlyIncreasing route.now }
    requires within { All (λ j. j < length lists.old.items) route.now }
    ensures count { OnOk result (length lists.new.items ≡ length lists.old.items) }
    ensures lists { OnOk result ((j : ℕ) → j < length lists.old.items →
        slice_index_or lists.new.items j [] ≡ slice_index_or lists.old.items j [] ++ (if is_listed route.now j then v ∷ [] else [])) }
{
    for j in route {
        lists[*j as usize].push(v)?;
    }
    Ok(())
}

/// For each worker the vertices whose route names it, rising. Errors: want of memory.
pub fn mirror_lists(
    alloc: Global,
    routes: &[Items<u32>],
    count: usize,
) -> Result<Vec<Vertices>, Memory>
    requires routes { AreRoutes count routes.now }
    requires few { length routes.now ≤ MOST_VERTICES }
    ensures count { IfOk result (λ lists. length lists.items ≡ count) }
    ensures lists { IfOk result (λ lists. (j : ℕ) → j < count →
        slice_index_or lists.items j [] ≡ filter (λ v. is_listed (route_at routes.now v) j) (positions_below (length routes.now))) }
{
    let mut lists = empty_lists(alloc, count)?;
    for v in 0..routes.len() {
        add_to(&mut lists, routes[v].as_slice(), v as Pos)?;
    }
    Ok(lists)
}
