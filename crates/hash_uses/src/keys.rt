//! A key type of a caller's own, of a string and two numbers. Its `Hash` is derived, and its hash is that of its parts' bytes.
ghost use Rattle.std.specs.Prelude.{◌≡◌, ◌++◌, ◌∷◌};
ghost use Rattle.std.specs.Hash.{le_bytes};

use hashers::build::hash_one_joined;
use hashers::laws::{Streamed, string_is_a_text};

/// A server's name, its port, and the number of its owner.
#[derive(Clone, Copy, PartialEq, Eq, Hash, Drop)]
pub struct Server<'a> {
    pub name: &'a str,
    pub port: u16,
    pub owner: u64,
}

/// The hash of such a key: that of the name's bytes, 0xFF, and the bytes of the two numbers, the lowest first.
pub fn hash_of_server<H: Streamed>(key: Server) -> u64
    ensures { result
        ≡ H.hash_of (key.entry.name.now ++ 0xFF ∷ (le_bytes 2 key.entry.port ++ le_bytes 8 key.entry.owner)) }
{
    string_is_a_text(key.name);
    hash_one_joined::<H, Server>(key)
}
