//! The text of an answer: a line with its id and its value for each vertex.
ghost use Rattle.std.specs.Prelude.{◌≡◌, ◌++◌, OnErr, OnOk, length};
ghost use Rattle.px_base.specs.Text.{GrowsByPrefix, answer_line, answer_text};

use px_base::{Id, Memory, Value, write_number, write_value};

/// Appends the line of one vertex. After an `Err` the first bytes of the line may be appended.
fn answer_line(out: &mut Vec<u8>, id: Id, value: Value) -> Result<(), Memory>
    ensures ok { OnOk result (out.new.items ≡ out.old.items ++ answer_line id value) }
    ensures err { OnErr result (GrowsByPrefix out.old.items out.new.items (answer_line id value)) }
{
    write_number(out, id)?;
    out.push(b' ')?;
    write_value(out, value)?;
    out.push(b'\n')?;
    Ok(())
}

/// Appends one line for each vertex: its id, a blank, its value and a newline. After an `Err` the first bytes of that text
/// may be appended.
pub fn answer_text(out: &mut Vec<u8>, ids: &[Id], values: &[Value]) -> Result<(), Memory>
    requires { length ids.now ≡ length values.now }
    ensures ok { OnOk result (out.new.items ≡ out.old.items ++ answer_text ids.now values.now) }
    ensures err { OnErr result (GrowsByPrefix out.old.items out.new.items (answer_text ids.now values.now)) }
{
    for (at, id) in ids.iter().enumerate() {
        answer_line(out, *id, values[at])?;
    }
    Ok(())
}
