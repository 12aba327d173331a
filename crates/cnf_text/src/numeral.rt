ghost use Rattle.std.specs.Prelude.{◌≡◌, IfSome};
ghost use Rattle.cnf_text.specs.Numeral.{IsShortAtFront};

use crate::token::MOST_TOKEN_BYTES;
use lit_base::{Numeral, numeral_at_front};

/// The most digits of a number that is read at once.
const MOST_DIGITS: usize = 8;

/// The number that the text begins with, where a blank follows it. A number that is long or large may be left out.
pub(crate) fn short_numeral(bytes: &[u8]) -> Option<Numeral>
    ensures { IfSome result (λ numeral. IsShortAtFront numeral bytes.now) }
{
    match numeral_at_front(bytes, MOST_DIGITS) {
        Some(numeral) => {
            if numeral.len > MOST_TOKEN_BYTES {
                return None;
            }
            Some(numeral)
        }
        None => None,
    }
}
