//! What a text says, or its fault.

ghost use Rattle.scopes.specs.Substitution as meant;
ghost use Rattle.call_texts.specs.Told.{Says};

use crate::Halt;
use base_types::Text;
use scopes::{Scope, SubstRefused, subst};
use tag_text::TagText;
use tree_types::Note;

/// What a text says in a scope, or its leftmost tag without a value.
pub fn said(text: &TagText, scope: &Scope) -> Result<Text, Halt>
    ensures { Says result (meant.said scope.now text.now) }
{
    match subst(text, scope) {
        Ok(text) => Ok(text),
        Err(SubstRefused::Unresolved { tag }) => Err(Halt::Fault(Note::Unresolved(tag))),
        Err(SubstRefused::Memory) => Err(Halt::Memory),
    }
}

/// What a text says that may be absent.
pub fn said_option(text: &Option<TagText>, scope: &Scope) -> Result<Option<Text>, Halt>
    ensures { Says result (meant.said_option scope.now text.now) }
{
    match text {
        None => Ok(None),
        Some(text) => Ok(Some(said(text, scope)?)),
    }
}
