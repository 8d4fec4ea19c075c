// The lent buffer: its content before a call, and the hash over it after the call.
ghost use Rattle.std.specs.Prelude.{◌≡◌, ℕ, ◌+◌, ◌*◌, ◌%◌, ◌<◌, length, slice_index};
ghost use Rattle.std.specs.List.{fold};

// What the hash is counted by.
const MODULUS: u64 = 2147483647;

// Byte i of a buffer before a call is (7 + 31 i) mod 256.
pub fn fill(lent: &mut [u8])
    ensures { (i : ℕ) → i < length lent.new → slice_index lent.new i ≡ (7 + 31 * i) % 256 }
{
    let mut x: u8 = 7;
    for byte in lent {
        *byte = x;
        x = x.wrapping_add(31);
    }
}

// From 0, for each byte: (hash × 257 + byte + 1) mod 2,147,483,647.
pub fn hash(lent: &[u8]) -> u64
    ensures { result ≡ fold (λ h x. (h * 257 + x + 1) % 2147483647) 0 lent.now }
{
    let mut h = 0;
    for byte in lent {
        h = (h * 257 + u64::from(*byte) + 1) % MODULUS;
    }
    h
}
