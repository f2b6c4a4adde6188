// The worked case of a small code.
ghost use Rattle.codecases.specs.Worked.{Worked};

// The worked case holds.
pub fn worked_case() -> u8
    ensures { Worked }
{
    0
}
