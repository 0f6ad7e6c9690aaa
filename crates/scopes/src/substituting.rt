//! What a text with tags says.

ghost use Rattle.std.specs.Prelude.{◌≡◌, MatchResult, Ok, Err};
ghost use Rattle.tree_types.specs.declared.node.Note.TheVariants as note;
ghost use Rattle.tag_text.specs.Pieces.{part_of};
ghost use Rattle.scopes.specs.Substitution.{part_said, said};
ghost use Rattle.scopes.specs.Values.{Tells};

use crate::{Scope, SubstRefused};
use base_types::Text;
use tag_text::{Piece, TagText};

// What a piece says, or else the tag that has no value.
fn said_of<'a>(scope: &'a Scope, piece: Piece<'a>) -> Result<&'a str, &'a str>
    ensures { MatchResult result
        (λ front. part_said scope.now (part_of piece.entry) ≡ Ok front.now)
        (λ tag. part_said scope.now (part_of piece.entry) ≡ Err (note.Unresolved tag.now)) }
{
    match piece {
        Piece::Plain(plain) => Ok(plain),
        Piece::Tag(tag) => match scope.value_of(tag) {
            Some(value) => Ok(value.as_str()),
            None => Err(tag),
        },
    }
}

/// What a text says in a scope: each tag is replaced once by its value, from left to right, and what was put in is
/// not looked at again. The leftmost tag without a value is refused.
pub fn subst(text: &TagText, scope: &Scope) -> Result<Text, SubstRefused>
    ensures { Tells result (said scope.now text.now) }
{
    let alloc = scope.allocator();
    let mut front = Text::new(alloc)?;
    for i in 0..text.len() {
        match said_of(scope, text.piece(i)) {
            Ok(more) => front.push(more)?,
            Err(tag) => {
                return Err(SubstRefused::Unresolved {
                    tag: Text::from_text(alloc, tag)?,
                });
            }
        }
    }
    Ok(front)
}
