//! A row of a table: what is done, an arrow, and what comes of it.

/// A line of a table that says something.
#[derive(Clone, Copy)]
pub struct Row<'a> {
    /// What is done.
    pub action: &'a str,
    /// What has to come of it; empty if the line has no arrow.
    pub wanted: &'a str,
}

impl<'a> Row<'a> {
    /// The row of a line, `action -> wanted`. None if the line is empty or a comment, which begins with `#`.
    pub fn of(line: &'a str) -> Option<Row<'a>> {
        let line = line.trim();
        if line.is_empty() || line.starts_with('#') {
            return None;
        }
        let (action, wanted) = line.split_once("->").unwrap_or((line, ""));
        Some(Row {
            action: action.trim(),
            wanted: wanted.trim(),
        })
    }
}
