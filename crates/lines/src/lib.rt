// The lines of the report program: the whole output for any input, in a lent text.
#![tactic(auto)]

ghost use Rattle.std.specs.Prelude.{◌++◌, ◌≡◌, ◌≤◌, length, drop};
ghost use Rattle.lines.specs.Report.{Promise};

mod mend;
mod page;
mod repaired;
mod sheet;

use graph::Refusal;
use page::Page;

// The lines of any input, from the text's start, and their length.
// Lent memory and a length, no Vec: docs/CONTRACTS.md, `Ok(size)`.
pub fn report(sheet: &[u8], text: &mut [u8]) -> Result<usize, Refusal>
    ensures { Promise sheet.now text.old result text.new }
{
    let mut page = Page::new();
    sheet::lines_of(sheet, &mut page);
    let lines = page.written();
    let size = lines.len();
    if text.len() < size {
        return Err(Refusal::NoRoom);
    }
    text[..size].copy_from_slice(lines);
    Ok(size)
}
