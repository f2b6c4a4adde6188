// Packing.
ghost use Rattle.std.specs.Prelude.{◌≡◌, ◌+◌, ◌*◌, map, length};
ghost use Rattle.params.specs.Sizes.{bytes_for};
ghost use Rattle.pack.specs.Packing.{packed};

use crate::bit_writer::BitWriter;
use crate::field::Field;
use params::moduli::Moduli;

// Packs the fields xs and then the fields ys in one run, each by the low bits of its own width: the most significant bit first, without gaps,
// with zero bits to the end of the last byte. One list alone is packed beside an empty one. Every call lends as many bytes as the run takes.
pub fn pack<F: Field, G: Field>(moduli: Moduli, xs: &[F], ys: &[G], out: &mut [u8])
    requires { length out.old ≡ bytes_for (length xs.now * F.width moduli + length ys.now * G.width moduli) }
    ensures { out.new ≡ packed (F.width moduli) (map F.bare xs.now) (G.width moduli) (map G.bare ys.now) }
{
    let mut writer = BitWriter::new(out);
    writer.put_all(moduli, xs);
    writer.put_all(moduli, ys);
    writer.finish();
}
