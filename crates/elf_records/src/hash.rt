//! The hash number of a name (gABI, "Hash Table").

ghost use Rattle.std.specs.Prelude.{◌≡◌, ◌<◌, ◌^◌};
ghost use Rattle.elf_records.specs.HashNumber.{hash_number};

/// The hash number of a name, which selects its bucket in a hash table.
pub fn hash(name: &str) -> u32
    ensures number { result ≡ hash_number name.now }
    ensures below { result < 2 ^ 28 }
{
    hash_of_bytes(name.as_bytes())
}

/// The hash number of a name by its bytes, whether or not they are UTF-8.
#[tactic(auto, unfolding(crate::specs::HashNumber::hash_number))]
pub fn hash_of_bytes(name: &[u8]) -> u32
    ensures number { result ≡ hash_number name.now }
    ensures below { result < 2 ^ 28 }
{
    // The loop keeps 16 times the hash number, to which a byte is added in fewer operations.
    let mut shifted: u32 = 0;
    for byte in name {
        let sum = shifted.wrapping_add(u32::from(*byte));
        shifted = (16 * (sum % 0x1000_0000)) ^ (256 * (sum / 0x1000_0000));
    }
    shifted / 16
}
