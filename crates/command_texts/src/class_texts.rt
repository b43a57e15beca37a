//! The text of a class.
ghost use Rattle.std.specs.Prelude.{◌≡◌, IfOk};
ghost use Rattle.command_texts.specs.Texts.{class_text};

use px_base::{Class, Memory};
use std::alloc::Global;

/// The name of the class, as a line.
pub fn class_text(alloc: Global, class: Class) -> Result<Vec<u8>, Memory>
    ensures { IfOk result (λ text. text.items ≡ class_text class) }
{
    let text: &[u8] = match class {
        Class::SelfStabilising => b"self-stabilising\n",
        Class::LocallyCorrecting => b"locally correcting\n",
        Class::GloballyCorrecting => b"globally correcting\n",
    };
    Ok(Vec::from_slice(alloc, text)?)
}
