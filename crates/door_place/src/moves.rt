//! The test that a value may move to another thread.
ghost use Rattle.std.specs.Prelude.{◌≡◌};

/// Returns the value. A call compiles only if it is proved that values of this type may move to another thread.
#[inline(always)]
pub(crate) fn may_move<T: Send>(value: T) -> T
    ensures { result ≡ value }
{
    value
}
