// Scores: the scale, the graph and the prices of scores, and the sheet that carries them.
#![tactic(auto)]

ghost use Rattle.std.specs.Prelude.{◌≡◌, ◌++◌, ◌≤◌, length, drop, IfOk};
ghost use Rattle.graph.specs.Refusal.{refusal};
ghost use Rattle.scores.specs.Sheet.{sheet_bytes, sheet_length};
ghost use Rattle.scores.specs.Drawing.{Promise as Drawn};
ghost use Rattle.scores.specs.Reader.{Promise as Read, shown};
ghost use Rattle.scores.specs.Writer.{Promise as Wrote, write_fault};

use crate::scale::Scores;
use graph::Refusal;

mod draw;
mod scale;
mod sheet;

// What a sheet says of itself: how many bytes of notes it has, how many vertices, and the threshold.
#[derive(Clone, Copy, Debug, PartialEq, Eq)]
pub struct Trailer {
    pub p: usize,
    pub n: usize,
    pub t: i16,
}

// The graph and the prices of the scores of n vertices under the threshold t.
pub fn to_graph(
    n: usize,
    t: i16,
    scores: &[i16],
    graph: &mut [u8],
    prices: &mut [u16],
) -> Result<(), Refusal>
    ensures { Drawn n t scores.now graph.old prices.old result graph.new prices.new }
{
    let scores = Scores::new(n, scores)?;
    scores.scale_fault(t)?;
    if graph.len() < n * n || prices.len() < n * n {
        return Err(Refusal::NoRoom);
    }
    draw::draw(&scores, t, graph, prices);
    Ok(())
}

// Reads a sheet: the scores into the lent list, and p, n and t.
pub fn read(sheet: &[u8], scores: &mut [i16]) -> Result<Trailer, Refusal>
    ensures { Read sheet.now scores.old result scores.new }
{
    let trailer = sheet::checked(sheet)?;
    if scores.len() < graph::pairs_of(trailer.n) {
        return Err(Refusal::NoRoom);
    }
    sheet::take_scores(sheet, trailer.p, trailer.n, scores);
    Ok(trailer)
}

// The notes, as a part of the sheet; empty, and not an Option, where the reader would refuse the sheet for anything but room: so
// document 01 has it, and `shown`.
pub fn notes(sheet: &[u8]) -> &[u8]
    ensures { result.now ≡ shown sheet.now }
{
    match sheet::checked(sheet) {
        Ok(trailer) => &sheet[..trailer.p],
        Err(_) => &sheet[..0],
    }
}

// All that the writer refuses but the room; else the scores.
fn writable<'a>(notes: &[u8], scores: &'a [i16], n: usize, t: i16) -> Result<Scores<'a>, Refusal>
    ensures refused { refusal result ≡ write_fault notes.now scores.now n t }
    ensures same { IfOk result (λ s. (s.n ≡ n) × (s.list.now ≡ scores.now)) }
    ensures short { IfOk result (λ s. length notes.now ≤ 32768) }
{
    let scores = Scores::new(n, scores)?;
    if 32768 < notes.len() {
        return Err(Refusal::BadSheet);
    }
    scores.scale_fault(t)?;
    Ok(scores)
}

// The sheet's bytes, from the buffer's start.
fn put_sheet(buf: &mut [u8], notes: &[u8], scores: &Scores, t: i16)
    requires notes_len_bound { length notes.now ≤ 32768 }
    requires room { sheet_length (length notes.now) scores.now.n ≤ length buf.old }
    ensures { buf.new ≡ sheet_bytes notes.now scores.now.list.now scores.now.n t
        ++ drop (sheet_length (length notes.now) scores.now.n) buf.old }
{
    let p = notes.len();
    sheet::put_notes(buf, notes);
    sheet::put_scores(&mut buf[p..], scores.list);
    let q = p + 2 * scores.list.len();
    sheet::put_trailer(&mut buf[q..], Trailer { p, n: scores.n, t });
}

// Writes a sheet from the buffer's start, and gives its length.
// Lent memory and a length, no Vec: docs/CONTRACTS.md, `Ok(size)`.
pub fn write(
    notes: &[u8],
    scores: &[i16],
    n: usize,
    t: i16,
    buf: &mut [u8],
) -> Result<usize, Refusal>
    ensures { Wrote notes.now scores.now n t buf.old result buf.new }
{
    let scores = writable(notes, scores, n, t)?;
    let size = sheet::length_of(notes.len(), n);
    if buf.len() < size {
        return Err(Refusal::NoRoom);
    }
    put_sheet(buf, notes, &scores, t);
    Ok(size)
}
