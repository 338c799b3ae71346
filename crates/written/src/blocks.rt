// Blocks as text: a block is one literal, and zero is none.
ghost use Rattle.std.specs.Prelude.{◌≡◌, ℕ, ◌<◌, refl, slice_index, IsTrue, ◌↔◌, EachIndex};
ghost use Rattle.std.proofs.Math.Dec.{lit≤};
ghost use Rattle.kinds.specs.Blocks.{byte};
ghost use Rattle.written.specs.Scripts.{block_unless_zero, blocks_script};

use crate::hex::block_of;
use crate::{Literal, Spelling, WrittenKind};
use kinds::Kind;
use kinds::blocks::Block;
use kinds::names::Names;

// Whether all of these bytes are zero. A slice, and no comparison with the zero block: of a slice it is known that each of
// its elements is a byte.
fn all_zero(bytes: &[u8]) -> bool
    ensures value { IsTrue result ↔ EachIndex bytes.now (λ i. slice_index bytes.now i ≡ 0) }
    ensures below { (i : ℕ) → slice_index bytes.now i < 256 }
{
    bytes.iter().all(|byte| *byte == 0)
}

// The block, unless it is zero.
pub(crate) fn unless_zero(block: &Block) -> Option<Block>
    ensures value { result ≡ block_unless_zero block.now }
    ensures below { (i : ℕ) → byte block.now i < 256 }
{
    if all_zero(&block.bytes) {
        None
    } else {
        Some(*block)
    }
}

impl WrittenKind for Block {
    const LONGEST: usize = 33;

    ghost LONGEST = { blocks_script.longest };

    ghost script = { blocks_script };

    fn take(literal: Literal) -> Option<Block> {
        match literal {
            Literal::Name(_) => None,
            Literal::Block(digits) => Some(block_of(digits)),
        }
    }

    fn spell(&self) -> Spelling {
        Spelling::new(Names::zero(), unless_zero(self))
    }

    ghost longest = { refl };

    ghost most = { lit≤ tt };
}
