// Unpacking, and the test of the fill bits.
ghost use Rattle.std.specs.Prelude.{◌≡◌, ◌+◌, ◌-◌, ◌*◌, ◌<◌, ◌≤◌, map, length, Ok, Err, MatchResult, ◌==◌};
ghost use Rattle.params.specs.Sizes.{bytes_for};
ghost use Rattle.pack.specs.Packing.{fields_at, fill_after, fill_form, unpacked};

use crate::bit_reader::BitReader;
use crate::field::Field;
use params::moduli::Moduli;

// Why bytes are refused: a bit that fills the last byte is not zero.
#[derive(Clone, Copy, Debug, PartialEq, Eq)]
pub enum PackFault {
    Fill,
}

// The fields that stand in the bytes, xs first and then ys, whatever the fill bits are. Every call hands as many bytes as the run takes.
pub fn fields<F: Field, G: Field>(moduli: Moduli, bytes: &[u8], xs: &mut [F], ys: &mut [G])
    requires { length bytes.now ≡ bytes_for (length xs.old * F.width moduli + length ys.old * G.width moduli) }
    ensures first { xs.new ≡ map F.made (fields_at 0 (length xs.old) (F.width moduli) bytes.now) }
    ensures second { ys.new ≡ map G.made (fields_at (length xs.old * F.width moduli) (length ys.old) (G.width moduli) bytes.now) }
{
    let mut reader = BitReader::new(bytes);
    reader.get_all(moduli, xs);
    reader.get_all(moduli, ys);
}

// Whether the last `spare` bits are zero.
fn ends_in_zeros(bytes: &[u8], spare: u32) -> bool
    requires { (spare < 8) × (spare ≤ length bytes.now * 8) }
    ensures { result ≡ (fill_after (length bytes.now * 8 - spare) bytes.now == 0) }
{
    match bytes {
        [.., last] => *last % (1u8 << spare) == 0,
        [] => true,
    }
}

// How many bits fill the last byte, for n fields of one sort and then m of another. Only remainders by 8 count, so that no product wraps.
fn fill_count<F: Field, G: Field>(moduli: Moduli, n: usize, m: usize) -> u32
    ensures few { result < 8 }
    ensures ends { n * F.width moduli + m * G.width moduli + result ≡ bytes_for (n * F.width moduli + m * G.width moduli) * 8 }
{
    let v = F::field_width(moduli);
    let w = G::field_width(moduli);
    let used = (n % 8) as u32 * v + (m % 8) as u32 * w;
    (8 - used % 8) % 8
}

// Refuses bytes in which a fill bit is not zero, for n fields of one sort and then m of another. Every call hands as many bytes as the run takes.
pub fn check_fill<F: Field, G: Field>(
    moduli: Moduli,
    n: usize,
    m: usize,
    bytes: &[u8],
) -> Result<(), PackFault>
    requires { length bytes.now ≡ bytes_for (n * F.width moduli + m * G.width moduli) }
    ensures { result ≡ fill_form (n * F.width moduli + m * G.width moduli) bytes.now }
{
    let spare = fill_count::<F, G>(moduli, n, m);
    if ends_in_zeros(bytes, spare) {
        Ok(())
    } else {
        Err(PackFault::Fill)
    }
}

// Unpacks xs and then ys, or refuses and leaves them as they were. Every call hands as many bytes as the run takes.
pub fn unpack<F: Field, G: Field>(
    moduli: Moduli,
    bytes: &[u8],
    xs: &mut [F],
    ys: &mut [G],
) -> Result<(), PackFault>
    requires { length bytes.now ≡ bytes_for (length xs.old * F.width moduli + length ys.old * G.width moduli) }
    ensures { MatchResult result (λ _. unpacked (length xs.old) (F.width moduli) (length ys.old) (G.width moduli) bytes.now ≡ Ok (map F.bare xs.new, map G.bare ys.new)) (λ e. (unpacked (length xs.old) (F.width moduli) (length ys.old) (G.width moduli) bytes.now ≡ Err e) × (xs.new ≡ xs.old) × (ys.new ≡ ys.old)) }
{
    check_fill::<F, G>(moduli, xs.len(), ys.len(), bytes)?;
    fields(moduli, bytes, xs, ys);
    Ok(())
}
