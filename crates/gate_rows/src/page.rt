use crate::script::Line;
use std::alloc::{AllocError, Global};

/// The commands and the answers that a page shows, each in the page's order.
#[derive(Drop)]
pub struct Page<'a> {
    pub commands: Vec<Line<'a>>,
    pub answers: Vec<Line<'a>>,
    /// The answers that stand in the page's tables.
    pub in_tables: Vec<Line<'a>>,
}

/// What the text of a page shows: its commands and answers are indented by four blanks, and a command begins with its
/// member `do`; the answers of a table stand between back quotes.
pub fn page_of<'a>(alloc: Global, text: &'a str) -> Result<Page<'a>, AllocError> {
    let mut page = Page {
        commands: Vec::new(alloc),
        answers: Vec::new(alloc),
        in_tables: Vec::new(alloc),
    };
    for (place, text) in text.lines().enumerate() {
        let number = place.saturating_add(1);
        add(&mut page, Line { number, text })?;
    }
    Ok(page)
}

/// Adds what one line of the page shows.
fn add<'a>(page: &mut Page<'a>, line: Line<'a>) -> Result<(), AllocError> {
    let Some(text) = line.text.strip_prefix("    ") else {
        return add_of_table(page, line);
    };
    let number = line.number;
    if text.starts_with("{\"do\":") {
        page.commands.push(Line { number, text })?;
    } else if text.starts_with("{") {
        page.answers.push(Line { number, text })?;
    }
    Ok(())
}

/// Adds the answers with a version that stand in a line of a table.
fn add_of_table<'a>(page: &mut Page<'a>, line: Line<'a>) -> Result<(), AllocError> {
    if !line.text.starts_with("| `") {
        return Ok(());
    }
    let number = line.number;
    for text in line.text.split('`') {
        if text.starts_with("{\"") && text.contains("\"version\":") && !text.contains("..") {
            page.in_tables.push(Line { number, text })?;
        }
    }
    Ok(())
}
