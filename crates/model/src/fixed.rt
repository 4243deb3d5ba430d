//! What has a fixed number of bytes in a model, such as a number, a plane or a place.

ghost use Rattle.std.specs.Prelude.{◌≡◌, ℕ, ◌+◌, ◌≤◌, List, ◌++◌, length, drop};
ghost use Rattle.std.specs.List.{between};
ghost use Rattle.model.specs.Finds.{Decoded};

/// What has SIZE bytes.
pub trait Fixed {
    const SIZE: usize;

    ghost SIZE: { ℕ };

    // Its bytes.
    ghost bytes: { Self → List ℕ };

    // What can be written: each number fits its bytes.
    ghost range: { Self → Type 0 };

    // Small enough that the length of a list of them fits a number.
    ghost small: { SIZE ≤ 32 };
}

/// What can be written.
pub trait Put: Fixed {
    /// Writes it at the front of a lent part and leaves the rest.
    fn put(self, out: &mut [u8])
        requires range { Self.range self }
        requires room { Self.SIZE ≤ length out.old }
        ensures { out.new ≡ Self.bytes self ++ drop Self.SIZE out.old };
}

/// What can be read from any bytes.
pub trait Read: Fixed {
    /// What stands at the byte `at`.
    fn read(model: &[u8], at: usize) -> Self
        requires there { at + Self.SIZE ≤ length model.now }
        ensures { Decoded Self.bytes Self.range (between at (at + Self.SIZE) model.now) result };
}

/// The N bytes from `at` on.
pub(super) fn array_at<const N: usize>(model: &[u8], at: usize) -> [u8; N]
    requires there { at + N ≤ length model.now }
    ensures { result ≡ between at (at + N) model.now }
{
    *model[at..].first_chunk().unwrap()
}

/// Writes N bytes at the front of a lent part.
pub(super) fn put_array<const N: usize>(out: &mut [u8], bytes: [u8; N])
    requires room { N ≤ length out.old }
    ensures { out.new ≡ bytes.entry ++ drop N out.old }
{
    out[..N].copy_from_slice(&bytes);
}
