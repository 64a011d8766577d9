// A line as it prints, with marks below one of its fields.
use std::fmt;

// A byte as it prints: itself, or an escape where it is a tab or does not print.
#[derive(Clone, Copy)]
struct Shown(u8);

impl Shown {
    // How many columns it takes.
    fn width(self) -> usize {
        match self.0 {
            b'\t' => 2,
            b' '..=b'~' => 1,
            _ => 4,
        }
    }
}

impl fmt::Display for Shown {
    fn fmt<W: fmt::Write>(&self, f: &mut fmt::Formatter<W>) -> fmt::Result {
        match self.0 {
            b'\t' => f.write_str("\\t"),
            byte @ b' '..=b'~' => f.write_char(char::from(byte)),
            byte => write!(f, "\\x{byte:02x}"),
        }
    }
}

// Columns are added saturating: a `sum` would require a bound on the line, which nothing here knows.
fn width(bytes: &[u8]) -> usize {
    bytes
        .iter()
        .fold(0, |n, b| n.saturating_add(Shown(*b).width()))
}

// A line, and under it marks below the field that comes after so many, if one is to be marked.
#[derive(Clone, Copy)]
pub(crate) struct Marked<'a> {
    pub(crate) line: &'a [u8],
    pub(crate) earlier: Option<usize>,
}

impl Marked<'_> {
    // The columns before the field, and those that the field takes. A field that is empty or missing gets one mark.
    fn place(&self, earlier: usize) -> (usize, usize) {
        let mut fields = self.line.split_inclusive(|b| *b == b'\t');
        let before = fields
            .by_ref()
            .take(earlier)
            .fold(0, |n: usize, field| n.saturating_add(width(field)));
        let field = fields.next().unwrap_or(b"");
        let marks = width(field.strip_suffix(b"\t").unwrap_or(field));
        (before, marks.max(1))
    }
}

impl fmt::Display for Marked<'_> {
    fn fmt<W: fmt::Write>(&self, f: &mut fmt::Formatter<W>) -> fmt::Result {
        for b in self.line {
            Shown(*b).fmt(f)?;
        }
        writeln!(f)?;
        let Some(earlier) = self.earlier else {
            return Ok(());
        };
        let (before, marks) = self.place(earlier);
        writeln!(f, "{:before$}{:^<marks$}", "", "")
    }
}
