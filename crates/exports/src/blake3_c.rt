// BLAKE3 for a program in C or Rust to link: bench/blake3 calls it.
ghost use Rattle.std.specs.Prelude.{◌≡◌};
ghost use Rattle.blake3.specs.Blake3.{blake3};

// Writes the 32 bytes of the BLAKE3 of a content.
#[unsafe(no_mangle)]
pub extern "C" fn blake3_hash_into(content: &[u8], out: &mut [u8; 32])
    ensures { out.new ≡ blake3 content.now }
{
    blake3::hash_into(content, out);
}
