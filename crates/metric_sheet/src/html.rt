//! Tables as HTML, for a page.
ghost use Rattle.std.specs.Prelude.{◌≡◌, ◌++◌, OnOk};
ghost use Rattle.metric_sheet.specs.Html.{html_byte, html_text};

use crate::cell::Cell;
use crate::columns::letters;
use crate::sheet::Sheet;
use metric_text::{push_byte, push_number, push_text};
use std::alloc::{AllocError, Global};

// A text of so many letters is short.
const SHORT: usize = 20;

/// Puts a text last as HTML shows it: what would be read as markup stands as a reference, and what moves a terminal's
/// cursor as `?`. Fails only when out of memory.
#[tactic(auto, unfolding(crate::specs::Html::html_text), using(metric_text::specs::ListLaws::steps))]
pub fn push_html_text(page: &mut Vec<u8>, text: &str) -> Result<(), AllocError>
    ensures { OnOk result (page.new.items ≡ page.old.items ++ html_text text.now) }
{
    for byte in text.as_bytes() {
        push_html_byte(page, *byte)?;
    }
    Ok(())
}

fn push_html_byte(page: &mut Vec<u8>, byte: u8) -> Result<(), AllocError>
    ensures { OnOk result (page.new.items ≡ page.old.items ++ html_byte byte) }
{
    match byte {
        b'&' => push_text(page, "&amp;"),
        b'<' => push_text(page, "&lt;"),
        b'>' => push_text(page, "&gt;"),
        b'"' => push_text(page, "&quot;"),
        b'\'' => push_text(page, "&#39;"),
        0..=31 | 127 => push_byte(page, b'?'),
        _ => push_byte(page, byte),
    }
}

/// Puts a table last: what it is of, a row of titles, and one for each row of the sheet. Where `shares` has a number for
/// a row, a bar shows it behind the row as so many ten-thousandths of what is allowed; without any there is no such
/// column. A short text stands in one line, and a flag that is set has a class of its own. Fails only when out of memory.
pub fn push_html_table<S: Sheet>(
    alloc: Global,
    page: &mut Vec<u8>,
    caption: &str,
    sheet: &S,
    shares: &[u64],
) -> Result<(), AllocError> {
    push_text(
        page,
        "<div class=\"table\" tabindex=\"0\"><table>\n<caption>",
    )?;
    push_html_text(page, caption)?;
    push_text(page, "</caption>\n")?;
    push_titles(page, sheet.titles(), !shares.is_empty())?;
    for number in 0..sheet.rows() {
        let row = sheet.row(alloc, number)?;
        push_row(alloc, page, &row, shares.get(number).copied())?;
    }
    push_text(page, "</tbody></table></div>\n")
}

fn push_titles(page: &mut Vec<u8>, titles: &[&str], has_shares: bool) -> Result<(), AllocError> {
    push_text(page, "<thead><tr>")?;
    for title in titles {
        push_text(page, "<th scope=\"col\">")?;
        push_html_text(page, title)?;
        push_text(page, "</th>")?;
    }
    if has_shares {
        push_text(page, "<th scope=\"col\">full</th>")?;
    }
    push_text(page, "</tr></thead>\n<tbody>\n")
}

fn push_row(
    alloc: Global,
    page: &mut Vec<u8>,
    row: &[Cell],
    share: Option<u64>,
) -> Result<(), AllocError> {
    push_text(page, "<tr>")?;
    for cell in row {
        push_cell(alloc, page, cell)?;
    }
    if let Some(share) = share {
        push_share(page, share)?;
    }
    push_text(page, "</tr>\n")
}

fn push_cell(alloc: Global, page: &mut Vec<u8>, cell: &Cell) -> Result<(), AllocError> {
    let shown = cell.shown(alloc)?;
    push_text(page, begin_of(cell, shown.as_str()))?;
    push_html_text(page, shown.as_str())?;
    push_text(page, "</td>")
}

// How a cell begins.
fn begin_of(cell: &Cell, shown: &str) -> &'static str {
    match cell {
        Cell::Number(_) => "<td class=\"number\">",
        Cell::Flag(true) => "<td class=\"yes\">",
        _ if letters(shown) <= SHORT => "<td class=\"short\" dir=\"auto\">",
        _ => "<td dir=\"auto\">",
    }
}

// A bar, and its number for those who do not see it: in hundredths, or how many times what is allowed.
fn push_share(page: &mut Vec<u8>, share: u64) -> Result<(), AllocError> {
    let hundredths = share.div_ceil(100);
    push_text(
        page,
        "<td class=\"number\"><meter aria-label=\"full\" max=\"101\" low=\"70\" high=\"100\" optimum=\"0\" value=\"",
    )?;
    push_number(page, hundredths.min(101))?;
    push_text(page, "\"></meter> ")?;
    if hundredths < 200 {
        push_text(
            page,
            if 0 < share && share < 100 {
                "under "
            } else {
                ""
            },
        )?;
        push_number(page, hundredths)?;
        push_text(page, " %</td>")
    } else {
        push_number(page, share / 10_000)?;
        push_text(page, " times</td>")
    }
}
