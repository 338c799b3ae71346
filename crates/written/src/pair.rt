// Names with a block as text: the names first, then the block. No other pair is written.
ghost use Rattle.std.specs.Prelude.{◌≡◌, refl};
ghost use Rattle.std.proofs.Math.Dec.{lit≤};
ghost use Rattle.written.specs.Scripts.{pair_script};

use crate::blocks::unless_zero;
use crate::hex::block_of;
use crate::names::name_of;
use crate::{Literal, Spelling, WrittenKind};
use kinds::Kind;
use kinds::blocks::Block;
use kinds::names::Names;
use kinds::pair::Pair;

impl WrittenKind for Pair<Names, Block> {
    const LONGEST: usize = 737;

    ghost LONGEST = { pair_script.longest };

    ghost script = { pair_script };

    fn take(literal: Literal) -> Option<Pair<Names, Block>> {
        match literal {
            Literal::Name(number) => Some(Pair {
                first: name_of(number),
                second: Block::zero(),
            }),
            Literal::Block(digits) => Some(Pair {
                first: Names::zero(),
                second: block_of(digits),
            }),
        }
    }

    fn spell(&self) -> Spelling {
        Spelling::new(self.first, unless_zero(&self.second))
    }

    ghost longest = { refl };

    ghost most = { lit≤ tt };
}
