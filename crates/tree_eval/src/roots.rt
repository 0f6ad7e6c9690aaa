//! The nodes of the entrypoint and of the exit handler: where they stand.

ghost use Rattle.std.specs.Prelude.{◌≡◌, IfOk};
ghost use Rattle.meaning.specs.Calls.{kind_named};
ghost use Rattle.meaning.specs.Trees as trees;

use base_types::{Memory, TryCopy};
use call_nodes::kind_of;
use meaning::Place;
use node_names::{Seg, child_name};
use tree_types::{Kind, Sel, Sels};
use wf_manifest::Manifest;

/// The place of the entrypoint's node.
pub fn root_place(manifest: &Manifest) -> Result<Place, Memory>
    ensures { IfOk result (λ place. place ≡ trees.root manifest.now) }
{
    Ok(Place {
        sels: Sels::from_slice(manifest.name.allocator(), &[Sel::Main])?,
        name: manifest.name.copy()?,
        depth: 1,
    })
}

/// The place of the exit handler's node.
pub fn exit_place(manifest: &Manifest) -> Result<Place, Memory>
    ensures { IfOk result (λ place. place ≡ trees.exit_root manifest.now) }
{
    Ok(Place {
        sels: Sels::from_slice(manifest.name.allocator(), &[Sel::Exit])?,
        name: child_name(&manifest.name, &Seg::Exit)?,
        depth: 1,
    })
}

/// The kind of the entrypoint's node.
pub fn root_kind(manifest: &Manifest) -> Kind
    ensures { result ≡ kind_named manifest.now manifest.now.entrypoint }
{
    for template in manifest.templates.as_slice() {
        if template.name == manifest.entrypoint {
            return kind_of(template);
        }
    }
    Kind::Pod
}
