// The line to note beside a till's serial number: its set, the bound and a quarter of q, and what is promised of a parcel that nobody touched.
#![tactic(auto)]

ghost use Rattle.std.specs.Prelude.{◌≡◌, IfOk, string_bytes};
ghost use Rattle.card.specs.Line.{spaced, mark, checks_text, code_text, ring_text, promise, bound_text, card_line};

use params::code::Code;
use params::set::Set;
use std::alloc::{AllocError, Global};

// Numbers, each behind a space.
fn spaced(heap: Global, numbers: &[u16]) -> Result<String, AllocError>
    ensures { IfOk result (λ s. string_bytes s ≡ spaced numbers.now) }
{
    let mut text = String::new(heap);
    for x in numbers {
        write!(text, " {x}")?;
    }
    Ok(text)
}

// The check lengths of a code and its mark, or nothing where it has no checks.
fn checks_text(heap: Global, code: &Code) -> Result<String, AllocError>
    ensures { IfOk result (λ s. string_bytes s ≡ checks_text code.now.shape) }
{
    let f = code.shape.f;
    if f == 0 {
        return Ok(String::new(heap));
    }
    let lengths = spaced(heap, &code.shape.lengths[0..2 * f as usize])?;
    let mark = if code.shape.block { ", blocks" } else { "" };
    format!(in heap; ", lengths{lengths}{mark}")
}

// The numbers of a code.
fn code_text(heap: Global, code: &Code) -> Result<String, AllocError>
    ensures { IfOk result (λ s. string_bytes s ≡ code_text code.now.shape) }
{
    let kappa = code.shape.kappa;
    let f = code.shape.f;
    let checks = checks_text(heap, code)?;
    format!(in heap; "kappa {kappa}, f {f}{checks}")
}

// The numbers of a set, but for its code.
fn ring_text(heap: Global, set: &Set) -> Result<String, AllocError>
    ensures { IfOk result (λ s. string_bytes s ≡ ring_text set.now) }
{
    let n = set.n;
    let h = set.h;
    let qb = set.moduli.qb;
    let pb = set.moduli.pb;
    let tb = set.moduli.tb;
    format!(in heap; "n {n}, h {h}, qb {qb}, pb {pb}, tb {tb}")
}

// What is promised of a parcel that nobody touched.
fn promise_of(set: &Set) -> &'static str
    ensures { result.now ≡ promise set.now }
{
    if set.bound() < set.moduli.q() / 4 {
        "a parcel that nobody touched never fails to open"
    } else {
        "a parcel that nobody touched opens if at most f of its symbols are out of band, and that is not promised"
    }
}

// The bound of a set, a quarter of its q, and what is promised.
fn bound_text(heap: Global, set: &Set) -> Result<String, AllocError>
    ensures { IfOk result (λ s. string_bytes s ≡ bound_text set.now) }
{
    let bound = set.bound();
    let quarter = set.moduli.q() / 4;
    let promise = promise_of(set);
    format!(in heap; "B = {bound}, q/4 = {quarter}; {promise}")
}

/// The line of a till with this serial number and set.
pub fn card(heap: Global, serial: &str, set: &Set) -> Result<String, AllocError>
    ensures { IfOk result (λ s. string_bytes s ≡ card_line serial.now set.now) }
{
    let ring = ring_text(heap, set)?;
    let code = code_text(heap, &set.code)?;
    let bound = bound_text(heap, set)?;
    format!(in heap; "till {serial}: {ring}, {code}; {bound}")
}
