// Tests that a call makes before it works.
ghost use Rattle.std.specs.Prelude.{◌≡◌};
ghost use Rattle.calls.specs.Chains.{areas_fit, sized};

use crate::areas::AREA_WORDS;
use crate::refusal::{Buffer, Refusal};

/// Refuses a length that is not the one wanted.
pub fn expect(have: usize, want: usize, refusal: Refusal) -> Result<(), Refusal>
    ensures { result ≡ sized have want refusal }
{
    if have == want { Ok(()) } else { Err(refusal) }
}

/// Refuses working areas of a wrong length: the secret area first.
pub fn expect_areas(secret_words: usize, product_words: usize) -> Result<(), Refusal>
    ensures { result ≡ areas_fit secret_words product_words }
{
    expect(
        secret_words,
        AREA_WORDS,
        Refusal::WrongBuffer(Buffer::SecretArea),
    )?;
    expect(
        product_words,
        AREA_WORDS,
        Refusal::WrongBuffer(Buffer::ProductArea),
    )
}
