// Bytes put into a buffer.
ghost use Rattle.std.specs.Prelude.{◌≡◌, ◌≤◌, length};
ghost use Rattle.buffers.specs.Buffers.{put_over};

// Puts bytes at the front, leaves what is past them, and answers how many they are.
pub fn put(out: &mut [u8], bytes: &[u8]) -> usize
    requires { length bytes.now ≤ length out.old }
    ensures count { result ≡ length bytes.now }
    ensures buffer { out.new ≡ put_over out.old bytes.now }
{
    let count = bytes.len();
    out[0..count].copy_from_slice(bytes);
    count
}
