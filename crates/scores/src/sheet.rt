// The sheet's fields: numbers read from bytes and written to bytes, low byte first, and the scores among them.
ghost use Rattle.std.specs.Prelude.{◌≡◌, ◌+◌, ◌*◌, ◌≤◌, ◌<◌, length, take, drop, IfOk};
ghost use Rattle.std.proofs.Math.Seq.{paste};
ghost use Rattle.std.specs.Int.{w16};
ghost use Rattle.std.proofs.Common.{to_z};
ghost use Rattle.graph.specs.Refusal.{refusal};
ghost use Rattle.scores.specs.Scale.{half};
ghost use Rattle.scores.specs.Sheet.{field, score_at, sheet_length, score_bytes, trailer as trailer_bytes};
ghost use Rattle.scores.specs.Reader.{layout_fault, sheet_fault};
ghost use Rattle.scores.specs.Inner.{scores_in, trailer_of};

use crate::{Trailer, scale};
use graph::Refusal;

// The N bytes at a place.
fn bytes<const N: usize>(s: &[u8], at: usize) -> [u8; N]
    requires { at + N ≤ length s.now }
    ensures { result ≡ take N (drop at s.now) }
{
    s[at..at + N].try_into().unwrap()
}

// `number2`, `number4`, `signed2` stay three: std has from_le_bytes by type, no trait; docs/PROMISES.md names each.
// The number in the two bytes at a place.
pub fn number2(s: &[u8], at: usize) -> u16
    requires { at + 2 ≤ length s.now }
    ensures { result ≡ field s.now at 2 }
{
    u16::from_le_bytes(bytes(s, at))
}

// The number in the four bytes at a place. `as` widens: `usize` has no From<u32>.
pub fn number4(s: &[u8], at: usize) -> usize
    requires { at + 4 ≤ length s.now }
    ensures { result ≡ field s.now at 4 }
{
    u32::from_le_bytes(bytes(s, at)) as usize
}

// The signed number in the two bytes at a place.
pub fn signed2(s: &[u8], at: usize) -> i16
    requires { at + 2 ≤ length s.now }
    ensures { result ≡ to_z w16 (field s.now at 2) }
{
    i16::from_le_bytes(bytes(s, at))
}

// The k-th score behind p bytes of notes.
fn score_at(sheet: &[u8], p: usize, k: usize) -> i16
    requires { p + 2 * k + 2 ≤ length sheet.now }
    ensures { result ≡ score_at sheet.now p k }
{
    signed2(sheet, p + 2 * k)
}

// The n(n-1)/2 scores behind p bytes of notes.
// n and p are bounded by clauses, here and below: `laid_out` tries them one by one, and `Trailer` is public.
pub fn take_scores(sheet: &[u8], p: usize, n: usize, scores: &mut [i16])
    requires n_bound { n ≤ 128 }
    requires sheet_len { length sheet.now ≡ sheet_length p n }
    requires n_in_bounds { half n ≤ length scores.old }
    ensures { scores.new ≡ paste scores.old 0 (scores_in sheet.now p n) (half n) }
{
    for (k, s) in scores[..graph::pairs_of(n)].iter_mut().enumerate() {
        *s = score_at(sheet, p, k);
    }
}

// The notes, from the buffer's start.
pub fn put_notes(buf: &mut [u8], notes: &[u8])
    requires { length notes.now ≤ length buf.old }
    ensures { buf.new ≡ paste buf.old 0 notes.now (length notes.now) }
{
    buf[..notes.len()].copy_from_slice(notes);
}

// The scores, from the start of the part of the buffer that is lent.
pub fn put_scores(buf: &mut [u8], scores: &[i16])
    requires { 2 * length scores.now ≤ length buf.old }
    ensures { buf.new ≡ paste buf.old 0 (score_bytes scores.now) (2 * length scores.now) }
{
    // Tried, and the proof did not close: after `buf.chunks_exact_mut(2).zip(scores)` the kit says nothing of the buffer's bytes.
    for (k, s) in scores.iter().enumerate() {
        buf[2 * k..2 * k + 2].copy_from_slice(&s.to_le_bytes());
    }
}

// The trailer, from the start of the part of the buffer that is lent.
pub fn put_trailer(buf: &mut [u8], trailer: Trailer)
    requires in_bounds { 8 ≤ length buf.old }
    requires p_bound { trailer.p ≤ 32768 }
    requires n_bound { trailer.n ≤ 128 }
    ensures { buf.new ≡ paste buf.old 0 (trailer_bytes trailer.p trailer.n trailer.t) 8 }
{
    // `as`, as p_bound and n_bound have the range: try_into would be a refusal that never comes.
    buf[..4].copy_from_slice(&(trailer.p as u32).to_le_bytes());
    buf[4..6].copy_from_slice(&(trailer.n as u16).to_le_bytes());
    buf[6..8].copy_from_slice(&trailer.t.to_le_bytes());
}

// p + n(n-1) + 8.
#[tactic(auto, using(crate::proofs::Places::half_twice, crate::proofs::Places::half_small))]
pub fn length_of(p: usize, n: usize) -> usize
    requires n_bound { n ≤ 128 }
    requires p_bound { p < 4294967296 }
    ensures { result ≡ sheet_length p n }
{
    p + 2 * graph::pairs_of(n) + 8
}

// The trailer of a sheet that has one.
fn trailer_of(sheet: &[u8]) -> Trailer
    requires { 8 ≤ length sheet.now }
    ensures { result ≡ trailer_of sheet.now }
{
    let end = sheet.len();
    Trailer {
        p: number4(sheet, end - 8),
        n: usize::from(number2(sheet, end - 4)),
        t: signed2(sheet, end - 2),
    }
}

// 11, 1 and 11: the trailer, n, and p and the length; else the trailer.
fn laid_out(sheet: &[u8]) -> Result<Trailer, Refusal>
    ensures refused { refusal result ≡ layout_fault sheet.now }
    ensures trailer { IfOk result (λ h. h ≡ trailer_of sheet.now) }
{
    if sheet.len() < 8 {
        return Err(Refusal::BadSheet);
    }
    let trailer = trailer_of(sheet);
    if 128 < trailer.n {
        return Err(Refusal::TooManyVertices);
    }
    if 32768 < trailer.p || sheet.len() != length_of(trailer.p, trailer.n) {
        return Err(Refusal::BadSheet);
    }
    Ok(trailer)
}

// All that a sheet is refused for but room; else its trailer.
pub fn checked(sheet: &[u8]) -> Result<Trailer, Refusal>
    ensures refused { refusal result ≡ sheet_fault sheet.now }
    ensures trailer { IfOk result (λ h. h ≡ trailer_of sheet.now) }
{
    let trailer = laid_out(sheet)?;
    scale::all_on_scale(trailer.n, trailer.t, |k| score_at(sheet, trailer.p, k))?;
    Ok(trailer)
}
