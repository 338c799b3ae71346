// The kind of blocks: a constant is 16 bytes.
ghost use Rattle.std.specs.Prelude.{◌≡◌};
ghost use Rattle.kinds.specs.Blocks.{blocks};
ghost use Rattle.kinds.specs.BlockLaws.{blocks_lawful};

use crate::Kind;
use std::array;

// The bytes of a block.
pub const BLOCK_BYTES: usize = 16;

#[derive(Clone, Copy, Debug, PartialEq, Eq)]
pub struct Block {
    pub bytes: [u8; BLOCK_BYTES],
}

impl Kind for Block {
    ghost ops = { blocks };

    ghost lawful = { blocks_lawful };

    #[tactic(auto, unfolding(crate::specs::Blocks::row))]
    fn zero() -> Block {
        Block {
            bytes: [0; BLOCK_BYTES],
        }
    }

    fn join(self, other: Block) -> Block {
        Block {
            bytes: array::from_fn(|i| self.bytes[i] ^ other.bytes[i]),
        }
    }

    fn same(&self, other: &Block) -> bool {
        self == other
    }
}
