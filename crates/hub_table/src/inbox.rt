//! What waits for one worker.
use crate::places::Places;
use crate::slots::{add_if, combined, copy_filled, copy_used, empty_at, is_free};
use px_base::{Memory, Pos, Update, Value};
use std::alloc::Global;
use std::marker::Model;

/// What waits for one worker. There is a slot for each vertex of which it may get an update, and a list of the slots that are
/// filled, in no order. The place after that of the last update is kept, since the next one often goes there. Only `new` takes
/// memory.
#[derive(Drop)]
pub struct Inbox {
    places: Places,
    next: u32,
    slots: Vec<Option<Value>>,
    used: Vec<u32>,
}

impl Model for Inbox {
    ghost use Rattle.std.specs.Prelude.{vec_capacity};
    ghost use Rattle.hub_table.specs.Slots.{InboxState, IsInbox, mail_of};

    ghost Value = { InboxState };

    ghost view = { λ b. record { vertices = b.places; mail = mail_of b.places b.slots.items } };

    ghost invariant = { λ b. IsInbox b.places b.slots.items b.used.items (vec_capacity b.used) };
}

impl Inbox {
    ghost use Rattle.std.specs.Prelude.{◌≡◌, ◌==◌, ◌≤◌, ◌+◌, ◌++◌, [], true, IfOk, length, vec_len, vec_capacity};
    ghost use Rattle.px_base.specs.Values.{is_listed};
    ghost use Rattle.hub_terms.specs.Inboxes.{box_with};
    ghost use Rattle.hub_table.specs.Slots.{InboxState};

    /// An empty inbox for updates of these vertices. Errors: want of memory.
    pub fn new(alloc: Global, places: Places) -> Result<Inbox, Memory>
        ensures { IfOk result (λ inbox. inbox ≡ record { vertices = places; mail = [] }) }
    {
        let count = places.len();
        let slots = vec![in alloc; None; count]?;
        let used = Vec::with_capacity(alloc, count)?;
        Ok(Inbox {
            places,
            next: 0,
            slots,
            used,
        })
    }

    /// How many updates wait.
    pub fn len(&self) -> u32
        ensures { result ≡ length self.now.mail }
    {
        self.used.len() as u32
    }

    /// Whether nothing waits.
    pub fn is_empty(&self) -> bool
        ensures { result ≡ (length self.now.mail == 0) }
    {
        self.used.is_empty()
    }

    /// One update more.
    pub fn send(&mut self, counting: bool, vertex: Pos, value: Value)
        requires { is_listed self.old.vertices vertex ≡ true }
        ensures { self.new ≡ record self.old { mail = box_with counting (record { vertex = vertex; value = value }) self.old.mail } }
    {
        if let Some(at) = self.places.find(self.next as usize, vertex) {
            self.next = at as u32 + 1;
            let slot = self.slots[at];
            add_if(is_free(slot), at as u32, &mut self.used);
            self.slots[at] = Some(combined(counting, slot, value));
        }
    }

    /// Empties the inbox. It takes the time of what waits.
    pub fn clear(&mut self)
        ensures { self.new ≡ record self.old { mail = [] } }
    {
        empty_at(&self.used, &mut self.slots);
        self.used.clear();
    }

    /// Appends all updates, by rising vertex, and empties the inbox. Where few slots are filled, they are put in order first;
    /// else all are gone through, which is faster.
    pub fn drain(&mut self, out: &mut Vec<Update>)
        requires { vec_len out.old + length self.old.mail ≤ vec_capacity out.old }
        ensures given { out.new.items ≡ out.old.items ++ self.old.mail }
        ensures emptied { self.new ≡ record self.old { mail = [] } }
    {
        if self.used.len() < self.slots.len() / 16 {
            self.copy_sorted(out);
        } else {
            copy_filled(&self.places, &self.slots, out);
        }
        self.clear();
    }

    /// Appends all updates, by rising vertex.
    fn copy_sorted(&mut self, out: &mut Vec<Update>)
        requires { vec_len out.old + length self.old.mail ≤ vec_capacity out.old }
        ensures given { out.new.items ≡ out.old.items ++ self.old.mail }
        ensures kept { self.new ≡ self.old }
    {
        self.used.sort_unstable();
        copy_used(&self.used, &self.places, &self.slots, out);
    }
}
