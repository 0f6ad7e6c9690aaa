//! The name of a node below another.

ghost use Rattle.std.specs.Prelude.{◌≡◌, ◌++◌, IfOk};
ghost use Rattle.node_names.specs.Names as names;
ghost use Rattle.node_names.specs.Names.{suffix, IsSound};

use crate::Seg;
use base_types::{Memory, Text, is_name};

/// The name of the node below this one.
pub fn child_name(parent: &Text, seg: &Seg) -> Result<Text, Memory>
    requires { IsSound seg.now }
    ensures { IfOk result (λ name. name ≡ parent.now ++ suffix seg.now) }
{
    let alloc = parent.allocator();
    let name = match seg {
        Seg::Exit => format!(in alloc; "{parent}.onExit")?,
        Seg::Group(i) => format!(in alloc; "{parent}[{i}]")?,
        Seg::Call(step) => format!(in alloc; "{parent}.{step}")?,
        Seg::Item(i, text) => format!(in alloc; "{parent}({i}:{text})")?,
        Seg::Attempt(k) => format!(in alloc; "{parent}({k})")?,
    };
    Ok(Text::from_string(name)?)
}

/// Whether a text is the name of a step or task, as a valid manifest has it.
pub fn is_step_name(name: &str) -> bool
    ensures { result ≡ names.is_step_name name.now }
{
    is_name(name) && name != "onExit" && name != "hooks"
}
