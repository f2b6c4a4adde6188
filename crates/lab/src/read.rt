// Raw read.
ghost use Rattle.std.specs.Prelude.{◌≡◌, length, Ok, Err, MatchResult};
ghost use Rattle.calls.specs.Areas.{zeros};
ghost use Rattle.calls.specs.Chains.{Answers};
ghost use Rattle.lab.specs.Lab.{read_checks, raw_read};

use calls::{Buffer, Input, Refusal, Wiped, expect, expect_areas};
use params::set::Set;
use scheme::{Secret, expand_positions};
use source::Source;
use wire::Parcel;

// Everything that is tested before any work, in the order of the refusals: answers the parcel and the seed that the bytes are.
fn check_read<'a>(
    set: &'a Set,
    raw: usize,
    secret_words: usize,
    product_words: usize,
    parcel: &'a [u8],
    seed: &'a [u8],
) -> Result<(Parcel<'a>, &'a [u8; 32]), Refusal>
    ensures { MatchResult result
        (λ r. (r.0.set.now ≡ set.now) × (r.0.bytes.now ≡ parcel.now) × (r.1.now ≡ seed.now) × (read_checks set.now raw secret_words product_words parcel.now seed.now ≡ Ok tt))
        (λ e. read_checks set.now raw secret_words product_words parcel.now seed.now ≡ Err e) }
{
    expect(
        raw,
        set.code.mu as usize,
        Refusal::WrongBuffer(Buffer::Output),
    )?;
    expect_areas(secret_words, product_words)?;
    expect(
        parcel.len(),
        set.parcel_len(),
        Refusal::WrongInput(Input::First, parcel.len()),
    )?;
    let refusal = Refusal::WrongInput(Input::Second, seed.len());
    let seed = seed.as_array().ok_or(refusal)?;
    Ok((Parcel::check(set, parcel)?, seed))
}

/// Raw read: the μ bits, each a byte 0 or 1, that the secret of a seed reads from a parcel, before any correction. Both working areas are
/// all zeros on every way out; on a refusal the output is as before.
pub fn raw_read<S: Source>(
    set: &Set,
    source: &mut S,
    parcel: &[u8],
    seed: &[u8],
    raw: &mut [u8],
    secret_area: &mut [u16],
    product_area: &mut [u16],
) -> Result<(), Refusal>
    ensures book { S.book source.new ≡ S.book source.old }
    ensures secret_wiped { secret_area.new ≡ zeros secret_area.old }
    ensures product_wiped { product_area.new ≡ zeros product_area.old }
    ensures cases { Answers result
        (raw_read (S.book source.old) set.now (length raw.old) (length secret_area.old) (length product_area.old) parcel.now seed.now)
        raw.new raw.old }
{
    let secret_area = Wiped { area: secret_area };
    let product_area = Wiped { area: product_area };
    let (parcel, seed) = check_read(
        set,
        raw.len(),
        secret_area.area.len(),
        product_area.area.len(),
        parcel,
        seed,
    )?;
    let secret = &mut secret_area.area[0..set.h as usize];
    let product = &mut product_area.area[0..set.n as usize + 1];
    expand_positions(set, source, seed, secret)?;
    let secret = Secret {
        set,
        positions: secret,
    };
    secret.read_parcel_bits(&parcel, product, raw);
    Ok(())
}
