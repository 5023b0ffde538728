//! Digests of what rows are found by, and the keys that are found by their digest alone.
//!
//! A digest begins with a number of its kind, so that keys of different kinds seldom meet. The
//! polynomial is fixed: what is made to collide makes look-ups long, and never wrong.
ghost use Rattle.std.specs.Prelude.{◌≡◌, fold};
ghost use Rattle.row_index.specs.Digests.{mix};
ghost use Rattle.row_index.specs.Index.{digest_key, digest_range};

/// The digest with a number mixed into it.
pub fn mix(digest: u64, number: u64) -> u64
    ensures { result ≡ mix digest number }
{
    digest.wrapping_mul(1_099_511_628_211).wrapping_add(number)
}

/// The digest with bytes mixed into it, one by one.
pub fn mix_bytes(digest: u64, bytes: &[u8]) -> u64
    ensures { result ≡ fold mix digest bytes.now }
{
    let mut mixed = digest;
    for byte in bytes {
        mixed = mix(mixed, u64::from(*byte));
    }
    mixed
}

/// The key that is found by its digest alone.
pub fn digest_key(digest: u64) -> (u64, i64)
    ensures { result ≡ digest_key digest }
{
    (digest, 0)
}

/// The range of that key.
pub fn digest_range(digest: u64) -> ((u64, i64), i64)
    ensures { result ≡ digest_range digest }
{
    ((digest, 0), 1)
}
