//! The source itself, its lines numbered.
use crate::html::Html;
use std::alloc::AllocError;

/// A line without the carriage return at its end.
fn without_return(line: &[u8]) -> &[u8] {
    match line {
        [front @ .., b'\r'] => front,
        _ => line,
    }
}

/// Adds a line with its number, which leads to it.
fn add_line(page: &mut Html, number: usize, line: &[u8]) -> Result<(), AllocError> {
    page.open("div", "L", number)?;
    page.open_link("L", number)?;
    page.count(number)?;
    page.markup("</a>")?;
    page.text(without_return(line))?;
    page.markup("</div>\n")
}

/// Adds the source.
pub fn add_source(page: &mut Html, source: &[u8]) -> Result<(), AllocError> {
    page.heading("source", "Source")?;
    page.markup("<div class=\"source\">\n")?;
    let mut number = 0usize;
    for line in source.split(|byte| *byte == b'\n') {
        number = number.saturating_add(1);
        add_line(page, number, line)?;
    }
    page.markup("</div>\n")
}
