// A test for the lines that name gates and wires, and what such lines do before a pattern's text.
ghost use Rattle.std.specs.Prelude.{◌≡◌, ◌++◌, ◌∷◌, ◌↔◌, ◌≢◌, ℕ, List, IsTrue, IfSome, None, All};
ghost use Rattle.pattern_reading.specs.Laws.{IsLineText};
ghost use Rattle.route_lines.specs.GateLines.{AreGateLines, BeginsWith, IsGateLine, IsOfGate, KeepsPattern, KeepsPorts};

// Whether bytes hold no line feed and no carriage return.
fn is_in_line(bytes: &[u8]) -> bool
    ensures { IsTrue result ↔ IsLineText bytes.now }
{
    bytes.iter().all(|byte| *byte != b'\n' && *byte != b'\r')
}

// Whether bytes begin with these.
fn begins_with(front: &[u8], bytes: &[u8]) -> bool
    ensures { IsTrue result ↔ BeginsWith front.now bytes.now }
{
    bytes.starts_with(front)
}

// Whether a line begins as those of gates or of wires do.
fn is_of_gate(line: &[u8]) -> bool
    ensures { IsTrue result ↔ IsOfGate line.now }
{
    begins_with(b"#C gate ", line) || begins_with(b"#C wire ", line)
}

// Whether a line without its end begins as those of gates or of wires do, and lies in one line.
fn is_gate_line(line: &[u8]) -> bool
    ensures { IsTrue result ↔ IsGateLine line.now }
{
    is_of_gate(line) && is_in_line(line)
}

/// Returns the first line without its line feed, and the bytes after it; `None` if there is no line feed.
pub fn first_line(bytes: &[u8]) -> Option<(&[u8], &[u8])>
    ensures cut { IfSome result (λ parts. bytes.now ≡ parts.0.now ++ 10 ∷ parts.1.now) }
    ensures feedless { IfSome result (λ parts. All (λ b. b ≢ 10) parts.0.now) }
    ensures none { result ≡ None → All (λ b. b ≢ 10) bytes.now }
{
    for end in 0..bytes.len() {
        if bytes[end] == b'\n' {
            return Some((&bytes[..end], &bytes[end + 1..]));
        }
    }
    None
}

/// Returns whether bytes are lines that begin with `#C gate ` or `#C wire `, each with a line feed
/// and without carriage returns. No bytes are no lines.
pub fn are_gate_lines(bytes: &[u8]) -> bool
    ensures { IsTrue result ↔ AreGateLines bytes.now }
{
    let mut rest = bytes;
    while !rest.is_empty() {
        let Some((line, after)) = first_line(rest) else {
            return false;
        };
        if !is_gate_line(line) {
            return false;
        }
        rest = after;
    }
    true
}

/// Lines of gates and wires before a text change neither the pattern nor the port table that the
/// text reads as.
pub fn gate_lines_are_skipped()
    ensures pattern { (lines text : List ℕ) → KeepsPattern lines text }
    ensures ports { (lines text : List ℕ) → KeepsPorts lines text }
{}
