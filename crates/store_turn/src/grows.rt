//! Values whose entries can only become more.
ghost use Rattle.std.specs.Prelude.{◌≡◌, List, length};

/// A value that is seen as a list of entries, which only grows while the value is under the turn.
pub trait Grows: Drop {
    type Item;

    /// What never changes while the value is under the turn.
    type Base;

    ghost list: { Self → List Self.Item };

    ghost base: { Self → Self.Base };

    /// How many entries there are, without walking over them.
    fn len(&self) -> u64
        ensures { result ≡ length (list self.now) };
}
