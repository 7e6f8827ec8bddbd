//! Parts of a text.

ghost use Rattle.std.specs.Prelude.{◌≡◌, ◌≤◌, ◌-◌, length, take, drop};

/// So many bytes of the front.
pub fn front(text: &[u8], size: usize) -> &[u8]
    requires { size ≤ length text.now }
    ensures { result.now ≡ take size text.now }
{
    text.split_at(size).0
}

/// What is behind so many bytes.
pub fn behind(text: &[u8], size: usize) -> &[u8]
    requires { size ≤ length text.now }
    ensures rest { result.now ≡ drop size text.now }
    ensures size { length result.now ≡ length text.now - size }
{
    text.split_at(size).1
}
