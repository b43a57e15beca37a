//! A content that contracts speak of and that has no bytes at run time.
ghost use Rattle.std.specs.Prelude.{◌≡◌};

use std::marker::Model;
use std::snapshot::Snapshot;

/// A content of plain data, kept for contracts alone. It has no bytes.
pub struct Shadow<T> {
    kept: Snapshot<T>,
}

impl<T> Model for Shadow<T> {
    ghost Value = { T };

    ghost view = { λ s. s.kept.value };
}

impl<T> Drop for Shadow<T> {
    fn drop(self) {
        let Shadow { kept: _ } = self;
    }
}

impl<T> Shadow<T> {
    /// The content of a value that is there.
    pub fn of(x: &T) -> Shadow<T>
        ensures { result ≡ x.now }
    {
        Shadow {
            kept: Snapshot::of(x),
        }
    }

    /// Gives it its next content, which the caller's proof names from the old one and from what it lends.
    pub fn go_to<B>(&mut self, by: &B)
        ghost next: { T }
        ensures { self.new ≡ next }
    {
        becoming(&mut self.kept, by);
    }
}

/// The same snapshot, seen as another value: a snapshot's value is in no byte.
fn becoming<T, B>(it: &mut Snapshot<T>, by: &B)
    ghost next: { T }
    ensures { it.new.value ≡ next }
{
    let _ = by;
    let _ = it;
}
