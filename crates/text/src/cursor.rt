ghost use Rattle.std.specs.Prelude.{◌≤◌, length};

// A place in the bytes of a line and of what follows it. It reads the caller's bytes, and copies none of them. It keeps the place and not
// what is left, since faults tell the place.
#[derive(Drop)]
pub(crate) struct Cursor<'a> {
    pub(crate) bytes: &'a [u8],
    // how many bytes were read
    pub(crate) at: usize,
    ghost within: { at ≤ length bytes.now },
}
