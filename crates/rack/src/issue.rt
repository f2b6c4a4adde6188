// Issue and publish, without their guards.
ghost use Rattle.std.specs.Prelude.{◌≡◌, ◌+◌, ◌≤◌, length, Ok, Err, MatchResult};
ghost use Rattle.calls.specs.Chains.{Answers};
ghost use Rattle.rack.specs.Calls.{expands, issue_checks, issued, published};

use crate::keys::make_key;
use crate::rack::Rack;
use crate::record::{COIN_BYTES, Coins};
use calls::{Buffer, Input, Refusal, expect, expect_areas};
use params::MOST;
use params::set::Set;
use ring::Coefficient;
use sampler::SamplerFault;
use scheme::{expand_polynomial, expand_positions};
use source::Source;

// Expands both seeds of coins, and forgets what they give.
fn try_coins<S: Source>(
    set: &Set,
    source: &mut S,
    coins: &Coins,
    secret: &mut [u16],
    product: &mut [u16],
) -> Result<(), SamplerFault>
    requires secret { set.now.h ≤ length secret.old }
    requires product { set.now.n + 1 ≤ length product.old }
    ensures book { S.book source.new ≡ S.book source.old }
    ensures answer { result ≡ expands (S.book source.old) set.now coins.now }
{
    let n = set.n as usize;
    let mut a = [Coefficient(0); MOST];
    expand_polynomial(
        set,
        source,
        &coins.sigma,
        &mut product[0..n + 1],
        &mut a[0..n],
    )?;
    expand_positions(set, source, &coins.seed, &mut secret[0..set.h as usize])?;
    Ok(())
}

impl<S: Source> Rack<S> {
    // Everything that issue tests before any work, in the order of the refusals; and the bytes of the coins.
    fn check_issue<'c>(
        &self,
        place: u8,
        secret_words: usize,
        product_words: usize,
        coins: &'c [u8],
    ) -> Result<&'c [u8; COIN_BYTES], Refusal>
        ensures { MatchResult result
            (λ bytes. (issue_checks self.now.places place secret_words product_words coins.now ≡ Ok tt) × (bytes.now ≡ coins.now))
            (λ e. issue_checks self.now.places place secret_words product_words coins.now ≡ Err e) }
    {
        self.check_unused(place)?;
        expect_areas(secret_words, product_words)?;
        coins
            .as_array()
            .ok_or(Refusal::WrongInput(Input::First, coins.len()))
    }

    pub(crate) fn issue_within(
        &mut self,
        place: u8,
        coins: &[u8],
        secret: &mut [u16],
        product: &mut [u16],
    ) -> Result<(), Refusal>
        ensures kept { (self.new.set ≡ self.old.set) × (S.book self.new.source ≡ S.book self.old.source) }
        ensures cases { Answers result
            (issued (S.book self.old.source) self.old.set self.old.places place (length secret.old) (length product.old) coins.now)
            self.new.places self.old.places }
    {
        let bytes = self.check_issue(place, secret.len(), product.len(), coins)?;
        let coins = Coins::from(bytes);
        try_coins(&self.set, &mut self.source, &coins, secret, product)?;
        self.places[place as usize] = Some(coins);
        Ok(())
    }

    pub(crate) fn publish_within(
        &mut self,
        place: u8,
        key: &mut [u8],
        secret: &mut [u16],
        product: &mut [u16],
    ) -> Result<(), Refusal>
        ensures kept { (self.new.set ≡ self.old.set) × (S.book self.new.source ≡ S.book self.old.source) }
        ensures places { self.new.places ≡ self.old.places }
        ensures cases { Answers result
            (published (S.book self.old.source) self.old.set self.old.places place (length key.old) (length secret.old) (length product.old))
            key.new key.old }
    {
        let coins = self.find_coins(place)?;
        expect(
            key.len(),
            self.set.key_len(),
            Refusal::WrongBuffer(Buffer::Output),
        )?;
        expect_areas(secret.len(), product.len())?;
        let h = self.set.h as usize;
        let words = self.set.n as usize + 1;
        make_key(
            &self.set,
            &mut self.source,
            &coins,
            key,
            &mut secret[0..h],
            &mut product[0..words],
        )?;
        Ok(())
    }
}
