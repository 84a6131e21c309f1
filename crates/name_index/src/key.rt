ghost use Rattle.std.specs.Prelude.{◌≡◌};
ghost use Rattle.name_index.specs.Keys.{key_of};

/// The key of the empty name, which is that of the hash FNV-1a of 64 bits.
pub const FIRST_KEY: u64 = 14695981039346656037;

/// By this number the key is multiplied at each byte, as in FNV-1a.
pub const MULTIPLIER: u64 = 1099511628211;

/// The key of a name.
pub fn key_of(name: &str) -> u64
    ensures { result ≡ key_of name.now }
{
    let mut key = FIRST_KEY;
    for byte in name.as_bytes() {
        key = key.wrapping_add(u64::from(*byte)).wrapping_mul(MULTIPLIER);
    }
    key
}
