use std::alloc::Global;
use std::io;

/// A line of a file of runs, and its number in the file.
#[derive(Clone, Copy)]
pub struct Line<'a> {
    pub number: usize,
    pub text: &'a str,
}

/// A case, or a part that cases share: its name, the number of its first line, and its lines.
#[derive(Drop)]
pub struct Section<'a> {
    pub is_case: bool,
    pub name: &'a str,
    pub number: usize,
    pub lines: Vec<Line<'a>>,
}

/// The cases and parts of a text. A line `with PART` stands for the lines of a part before it; empty lines and those
/// that begin with `#` are left out.
pub fn sections_of<'a>(alloc: Global, text: &'a str) -> io::Result<Vec<Section<'a>>> {
    let mut sections = Vec::new(alloc);
    for (place, text) in text.split('\n').enumerate() {
        let number = place.saturating_add(1);
        if !text.is_empty() && !text.starts_with('#') {
            add(alloc, &mut sections, Line { number, text })?;
        }
    }
    Ok(sections)
}

/// Adds a line: it begins a case or a part, or stands in the one that was begun last.
fn add<'a>(alloc: Global, sections: &mut Vec<Section<'a>>, line: Line<'a>) -> io::Result<()> {
    match line.text.split_once(' ') {
        Some(("case", name)) => begin(alloc, sections, true, name, line.number),
        Some(("part", name)) => begin(alloc, sections, false, name, line.number),
        Some(("with", name)) => {
            let lines = lines_of(alloc, sections.as_slice(), name, line)?;
            add_to_last(alloc, sections, lines.as_slice())
        }
        _ => add_to_last(alloc, sections, &[line]),
    }
}

/// Begins a case or a part.
fn begin<'a>(
    alloc: Global,
    sections: &mut Vec<Section<'a>>,
    is_case: bool,
    name: &'a str,
    number: usize,
) -> io::Result<()> {
    let lines = Vec::new(alloc);
    sections.push(Section {
        is_case,
        name,
        number,
        lines,
    })?;
    Ok(())
}

/// The lines of a part; the line that asks for it where there is no such part, which then fails its case.
fn lines_of<'a>(
    alloc: Global,
    sections: &[Section<'a>],
    name: &str,
    line: Line<'a>,
) -> io::Result<Vec<Line<'a>>> {
    let part = sections
        .iter()
        .find(|section| !section.is_case && section.name == name);
    match part {
        Some(part) => Ok(part.lines.as_slice().to_vec(alloc)?),
        None => Ok(vec![in alloc; line]?),
    }
}

/// Adds lines to the section that was begun last. Those before all sections make a case without a name.
fn add_to_last<'a>(
    alloc: Global,
    sections: &mut Vec<Section<'a>>,
    lines: &[Line<'a>],
) -> io::Result<()> {
    if sections.is_empty() {
        begin(alloc, sections, true, "", 0)?;
    }
    if let Some(section) = sections.last_mut() {
        section.lines.extend_from_slice(lines)?;
    }
    Ok(())
}
