ghost use Rattle.std.specs.Prelude.{◌≡◌, ◌↔◌, ◌<◌, ◌==◌, not, [], ◌∷◌, length, IfSome, IsNone, find, position};
ghost use Rattle.presentation_text.specs.Lines as spec;
ghost use Rattle.presentation_text.specs.Laws.{LinesAreDefined};

pub(crate) fn is_blank(byte: u8) -> bool
    ensures { result ≡ spec.is_blank byte }
{
    byte == b' ' || byte == b'\t' || byte == b'\r'
}

// Where the first line feed stands.
fn line_end(text: &[u8]) -> Option<usize>
    ensures { result ≡ position (λ byte. byte == 10) text.now }
{
    text.iter().position(|byte| *byte == b'\n')
}

/// The first line, without its line feed, and the text behind it, which is shorter than the whole;
/// `None` exactly for the empty text.
pub fn next_line(text: &[u8]) -> Option<(&[u8], &[u8])>
    ensures none { IsNone result ↔ (text.now ≡ []) }
    ensures split { IfSome result (λ found. spec.IsFirstLine text.now found.0.now found.1.now) }
    ensures lines { IfSome result
        (λ found. spec.lines text.now ≡ found.0.now ∷ spec.lines found.1.now) }
    ensures shorter { IfSome result (λ found. length found.1.now < length text.now) }
    ensures end { IfSome result (λ found. spec.EndsWith text.now found.1.now) }
{
    if text.is_empty() {
        return None;
    }
    match line_end(text) {
        Some(end) => Some((&text[..end], &text[end + 1..])),
        None => Some((text, &[])),
    }
}

// The first byte that isn't a blank.
fn first_visible(line: &[u8]) -> Option<u8>
    ensures { result ≡ find (λ byte. not (spec.is_blank byte)) line.now }
{
    line.iter().copied().find(|byte| !is_blank(*byte))
}

/// Whether a line counts: not if it has blanks alone (space, tab, carriage return),
/// nor if its first byte that isn't a blank is `#`.
pub fn counts(line: &[u8]) -> bool
    ensures { result ≡ spec.counts line.now }
{
    match first_visible(line) {
        Some(byte) => byte != b'#',
        None => false,
    }
}

/// Law: what the lines of a text are, and the function that gives them.
pub fn lines_are_defined()
    ensures law { LinesAreDefined }
{}
