//! The hasher of tables by names, which takes the hash that a name carries as it is.
ghost use Rattle.std.specs.Prelude.{◌≡◌, length};
ghost use Rattle.std.specs.Hash.FoldHasher as folding;
ghost use Rattle.std.specs.Int.{from_le_bytes, w64};
ghost use Rattle.dm_base.specs.NameHashers as names;

use std::hash::{BuildHasher, FoldHasher, Hasher};

/// A hasher that joins numbers of eight bytes to what it has, and leaves all else to `FoldHasher`. So the hash of a name,
/// which is one such number, costs nothing to make again, while ids are hashed as elsewhere.
#[derive(Clone, Copy)]
pub struct NameHasher {
    carried: u64,
    folded: FoldHasher,
}

impl Default for NameHasher {
    ghost is_default = { λ h. h ≡ names.initial };

    fn default() -> NameHasher {
        NameHasher {
            carried: 0,
            folded: FoldHasher::default(),
        }
    }
}

/// Makes the hashers of a table, each from nothing. It takes no room in the table.
#[derive(Clone, Copy)]
pub struct NameHasherBuilder;

impl BuildHasher for NameHasherBuilder {
    type Hasher = NameHasher;

    ghost build_hasher = { λ _. names.initial };

    fn build_hasher(&self) -> NameHasher {
        NameHasher::default()
    }
}

impl Hasher for NameHasher {
    ghost write = { names.write };

    ghost finish = { names.finish };

    fn finish(&self) -> u64 {
        self.carried ^ self.folded.finish()
    }

    fn write(&mut self, bytes: &[u8]) {
        if bytes.len() == 8 {
            self.carried ^= number(bytes);
        } else {
            self.folded.write(bytes);
        }
    }
}

/// The number of eight bytes, of which the lowest is the first.
fn number(bytes: &[u8]) -> u64
    requires { length bytes.now ≡ 8 }
    ensures { result ≡ from_le_bytes w64 bytes.now }
{
    u64::from_le_bytes([
        bytes[0], bytes[1], bytes[2], bytes[3], bytes[4], bytes[5], bytes[6], bytes[7],
    ])
}
