// Do two variants of a design allow the same? Two sessions are compared by the images that they show.
ghost use Rattle.session.specs.Comparing.{Compared, Agreed};

use crate::Session;
use kinds::Kind;
use refusals::Refusal;
use rows::same_images;

#[derive(Clone, Copy, Debug, PartialEq, Eq)]
pub enum Comparison {
    // the same images: the same substitutions meet the standing equations of both
    Same,
    // other images: some substitution meets those of one and not those of the other
    Different,
    // the sessions are of different sizes
    Sizes,
}

// Compares two sessions and changes nothing. A closed one is refused.
pub fn compare<K: Kind>(first: &Session<K>, second: &Session<K>) -> Result<Comparison, Refusal>
    ensures result { Compared K.ops first.now second.now result }
    ensures solutions { Agreed K.ops first.now second.now result }
{
    let n = first.opened()?.size;
    if n != second.opened()?.size {
        return Ok(Comparison::Sizes);
    }
    if same_images(&first.slots[..n], &second.slots[..n]) {
        Ok(Comparison::Same)
    } else {
        Ok(Comparison::Different)
    }
}
