//! The law, as the contract of a function that does nothing.

ghost use Rattle.generated_laws.specs.Generated.{AreDocuments};

use wf_check::law::checked_valid;

/// Whatever the seed, what is made is a document: no rule finds anything in it. Its workflows are named as they were drawn,
/// each is valid, and there are no commands.
pub fn are_documents()
    ensures { AreDocuments }
{
    // That the workflows are valid rests on this law.
    checked_valid();
}
