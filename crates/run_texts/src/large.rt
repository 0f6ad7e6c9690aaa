//! The lines of workflows whose trees are too large.

ghost use Rattle.std.specs.Prelude.{◌≡◌, ◌++◌, IfOk, OnOk, codes};
ghost use Rattle.run_texts.specs.RunTexts as texts;

use base_types::{Bytes, Memory, Text};
use std::alloc::Global;

fn push_line(text: &mut Bytes, name: &Text) -> Result<(), Memory>
    ensures { OnOk result (text.new ≡ text.old ++ texts.too_large_line name.now) }
{
    text.extend(b"argo: too large: ")?;
    push_name(text, name)?;
    Ok(())
}

// Adds a name and a line feed.
fn push_name(text: &mut Bytes, name: &Text) -> Result<(), Memory>
    ensures { OnOk result (text.new ≡ text.old ++ (name.now ++ codes "\n")) }
{
    text.extend(name.as_str().as_bytes())?;
    text.push(b'\n')
}

/// A line for each of these workflows, in their order.
pub fn too_large_text(alloc: Global, names: &[Text]) -> Result<Bytes, Memory>
    ensures { IfOk result (λ text. text ≡ texts.too_large_text names.now) }
{
    let mut text = Bytes::new(alloc);
    for name in names {
        push_line(&mut text, name)?;
    }
    Ok(text)
}
