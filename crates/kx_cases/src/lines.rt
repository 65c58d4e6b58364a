//! The lines of a file of cases.
ghost use Rattle.kx_cases.specs.Lines.{Says};

/// What a line says.
#[derive(Clone, Copy)]
pub enum Line<'a> {
    /// An empty line, or a comment.
    Nothing,
    /// A case begins.
    Case(&'a str),
    /// Bytes have this name from here on.
    Bytes { name: &'a str, bytes: &'a str },
    /// A step, and the answer that it has to give.
    Step { step: &'a str, answer: &'a str },
    /// The line has none of these forms.
    Bad,
}

/// What a line of a file of cases says.
pub fn read_line(line: &str) -> Line<'_>
    ensures { Says line.now result }
{
    if line.is_empty() || line.starts_with('#') {
        return Line::Nothing;
    }
    if let Some(name) = line.strip_prefix("case ") {
        return Line::Case(name);
    }
    let Some((step, answer)) = line.split_once(" = ") else {
        return Line::Bad;
    };
    match step.strip_prefix("bytes ") {
        Some(name) => Line::Bytes {
            name,
            bytes: answer,
        },
        None => Line::Step { step, answer },
    }
}
