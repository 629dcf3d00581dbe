// Cases that stand in one text.

/// Returns what stands before a mark and what stands after it: the whole text and `other` if the mark
/// is not there.
pub fn halves<'a>(text: &'a str, mark: &str, other: &'a str) -> (&'a str, &'a str) {
    match text.split_once(mark) {
        Some(both) => both,
        None => (text, other),
    }
}

/// A case: its first line without its remark, its text and what is wanted.
#[derive(Clone, Copy)]
pub struct Case<'a> {
    pub head: &'a str,
    pub text: &'a str,
    pub want: &'a str,
}

/// Cuts a case apart. A remark stands after ` -- `, and what is wanted after `== `.
pub fn cut(case: &str) -> Case<'_> {
    let (line, rest) = halves(case, "\n", "");
    let (head, _) = halves(line, " -- ", "");
    let (text, want) = halves(rest, "\n== ", "no case");
    Case {
        head: head.trim(),
        text,
        want,
    }
}
