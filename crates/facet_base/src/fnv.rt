ghost use Rattle.std.specs.Prelude.{◌≡◌};
ghost use Rattle.facet_base.specs.Fnv.{fnv};

/// The 128-bit FNV-1a hash of no bytes.
pub const FNV_START: u128 = 144066263297769815596495629667062367629;

const FNV_PRIME: u128 = 309485009821345068724781371;

/// The 128-bit FNV-1a hash of some bytes behind those whose hash is `state`.
pub fn fnv1a_128(state: u128, bytes: &[u8]) -> u128
    ensures { result ≡ fnv state bytes.now }
{
    let mut hash = state;
    for byte in bytes {
        hash = (hash ^ u128::from(*byte)).wrapping_mul(FNV_PRIME);
    }
    hash
}
