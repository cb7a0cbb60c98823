//! What is wrong with files.

ghost use Rattle.std.specs.Prelude.{◌≡◌, ◌||◌};

// Whether one of two things is wrong.
pub(crate) fn either(one: bool, other: bool) -> bool
    ensures { result ≡ (one || other) }
{
    one || other
}
