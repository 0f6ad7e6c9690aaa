//! A question by which held paths are looked for.

ghost use Rattle.std.specs.Prelude.{◌≡◌, Bool};
ghost use Rattle.tree_types.specs.declared.path.Path.{Path as Place};

use tree_types::Path;

/// A question to a path.
pub trait PathTest {
    /// Which paths pass.
    ghost accepts: { Self → Place → Bool };

    fn accepts(&self, path: &Path) -> bool
        ensures { result ≡ accepts self.now path.now };
}
