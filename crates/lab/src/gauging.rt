// Gauge.
ghost use Rattle.std.specs.Prelude.{◌≡◌, ◌+◌, ◌^◌, ◌≤◌, length, Ok, Err, MatchResult};
ghost use Rattle.ring.specs.Lists.{words_q};
ghost use Rattle.rounding.specs.Symbols.{out_of_band};
ghost use Rattle.calls.specs.Areas.{zeros};
ghost use Rattle.calls.specs.Chains.{Answers};
ghost use Rattle.lab.specs.Lab.{gauge_checks, gauging, gauged, noise_between};

use calls::{AREA_WORDS, Buffer, Input, Refusal, Wiped, expect, expect_areas, thirds};
use params::MOST;
use params::set::Set;
use ring::{Coefficient, Rounded, multiply_signed};
use rounding::{Product, out_of_band};
use sampler::SamplerFault;
use scheme::{Secret, expand_polynomial, expand_positions};
use source::Source;

// Everything that is tested before any work, in the order of the refusals: answers the three seeds that the bytes are.
fn check_gauge<'a>(
    set: &Set,
    noise: usize,
    secret_words: usize,
    product_words: usize,
    seeds: &'a [u8],
) -> Result<&'a [u8; 96], Refusal>
    ensures { MatchResult result
        (λ s. (s.now ≡ seeds.now) × (gauge_checks set.now noise secret_words product_words seeds.now ≡ Ok tt))
        (λ e. gauge_checks set.now noise secret_words product_words seeds.now ≡ Err e) }
{
    expect(
        noise,
        set.code.mu as usize,
        Refusal::WrongBuffer(Buffer::Output),
    )?;
    expect_areas(secret_words, product_words)?;
    seeds
        .as_array()
        .ok_or(Refusal::WrongInput(Input::First, seeds.len()))
}

// The noise between two secrets.
fn fill_noise(
    a: &[Coefficient],
    till: &Secret<'_>,
    station: &Secret<'_>,
    product: &mut [u16],
    out: &mut [i32],
)
    requires same { station.now.set.now ≡ till.now.set.now }
    requires long { length a.now ≡ till.now.set.now.n }
    requires few { length till.now.positions.now ≤ 2 ^ 14 }
    requires few_too { length station.now.positions.now ≤ 2 ^ 14 }
    requires room { length product.old ≡ till.now.set.now.n + 1 }
    requires out { length out.old ≡ till.now.set.now.code.mu }
    ensures { out.new ≡ noise_between till.now.set.now (words_q a.now) till.now.positions.now station.now.positions.now }
{
    let n = till.set.n as usize;
    let moduli = till.set.moduli;
    let mut b = [Rounded(0); MOST];
    let mut till_slips = [0i32; MOST];
    let mut station_slips = [0i32; MOST];
    let mut first = [0i32; AREA_WORDS];
    let mut second = [0i32; AREA_WORDS];
    let b = &mut b[0..n];
    let till_slips = &mut till_slips[0..n];
    let station_slips = &mut station_slips[0..n];
    let first = &mut first[0..n + 1];
    let second = &mut second[0..n + 1];
    let rounded = Product::of(a, till.positions, product);
    rounded.round(moduli, b);
    rounded.slips(moduli, till_slips);
    Product::of(a, station.positions, product).slips(moduli, station_slips);
    multiply_signed(till_slips, station.positions, first);
    multiply_signed(station_slips, till.positions, second);
    Product::of(b, station.positions, product).noise(moduli, first, second, out);
}

// With the parts of the working areas that the set takes. The station's secret has no place in the areas: it is held here, and wiped.
// Kept: the parts are slices of h and of n + 1 words, since a struct around them would promise at each call that its set is as before.
fn gauge_in<S: Source>(
    set: &Set,
    source: &mut S,
    seeds: &[u8; 96],
    noise: &mut [i32],
    secret: &mut [u16],
    product: &mut [u16],
) -> Result<(), SamplerFault>
    requires noise { length noise.old ≡ set.now.code.mu }
    requires secret { length secret.old ≡ set.now.h }
    requires product { length product.old ≡ set.now.n + 1 }
    ensures book { S.book source.new ≡ S.book source.old }
    ensures cases { MatchResult result
        (λ _. gauging (S.book source.old) set.now seeds.now ≡ Ok noise.new)
        (λ e. (gauging (S.book source.old) set.now seeds.now ≡ Err e) × (noise.new ≡ noise.old)) }
{
    let [sigma, till, station] = thirds(seeds);
    let mut a = [Coefficient(0); MOST];
    let mut area = [0u16; MOST];
    let area = Wiped { area: &mut area };
    let a = &mut a[0..set.n as usize];
    let room = &mut area.area[0..set.h as usize];
    expand_polynomial(set, source, &sigma, product, a)?;
    expand_positions(set, source, &till, secret)?;
    expand_positions(set, source, &station, room)?;
    let till = Secret {
        set,
        positions: secret,
    };
    let station = Secret {
        set,
        positions: room,
    };
    fill_noise(a, &till, &station, product, noise);
    Ok(())
}

/// Gauge: fills the buffer with the noise of each symbol between the till's and the station's secret, from σ and their two seeds, and
/// answers how many symbols are out of band. Both working areas are all zeros on every way out; on a refusal the buffer is as before.
pub fn gauge<S: Source>(
    set: &Set,
    source: &mut S,
    seeds: &[u8],
    noise: &mut [i32],
    secret_area: &mut [u16],
    product_area: &mut [u16],
) -> Result<usize, Refusal>
    ensures book { S.book source.new ≡ S.book source.old }
    ensures secret_wiped { secret_area.new ≡ zeros secret_area.old }
    ensures product_wiped { product_area.new ≡ zeros product_area.old }
    ensures cases { MatchResult result
        (λ count. (gauged (S.book source.old) set.now (length noise.old) (length secret_area.old) (length product_area.old) seeds.now ≡ Ok noise.new) × (count ≡ out_of_band set.now.moduli noise.new))
        (λ e. (gauged (S.book source.old) set.now (length noise.old) (length secret_area.old) (length product_area.old) seeds.now ≡ Err e) × (noise.new ≡ noise.old)) }
{
    let secret_area = Wiped { area: secret_area };
    let product_area = Wiped { area: product_area };
    let seeds = check_gauge(
        set,
        noise.len(),
        secret_area.area.len(),
        product_area.area.len(),
        seeds,
    )?;
    let secret = &mut secret_area.area[0..set.h as usize];
    let product = &mut product_area.area[0..set.n as usize + 1];
    gauge_in(set, source, seeds, noise, secret, product)?;
    Ok(out_of_band(set.moduli, noise))
}
