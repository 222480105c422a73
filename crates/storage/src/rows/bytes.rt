// Bytes copied from one slice to another.
ghost use Rattle.std.specs.Prelude.{◌≡◌, ◌+◌, ◌≤◌, length};
ghost use Rattle.storage.specs.Rows.Part.{put};

// Copies bytes to `at`.
pub fn copy_bytes(out: &mut [u8], at: usize, bytes: &[u8])
    requires { at + length bytes.now ≤ length out.old }
    ensures { out.new ≡ put at bytes.now out.old }
{
    let n = bytes.len();
    let place = &mut out[at..at + n];
    place.copy_from_slice(bytes);
}
