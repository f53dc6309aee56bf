// Cuts a text into its lines, and a line into its words.
ghost use Rattle.std.specs.Prelude.{◌≡◌, ◌<◌, ◌≤◌, [], ◌∷◌, length, take, drop, Some, None, ◌==◌};
ghost use Rattle.std.specs.List.{prefix_len};
ghost use Rattle.std.specs.Iterator.{YieldsFirstRef, item_count};
ghost use Rattle.setup.specs.Grammar.{blank, other, newline, hash, lines, words, uncommented};

fn is_blank(byte: u8) -> bool
    ensures { result ≡ blank byte }
{
    matches!(byte, b' ' | b'\t' | b'\r')
}

// Each of these three is a function of its own, since the check finds what a chain counts where it is returned, and not where it is used further. The last two stop at opposite bytes: a flag to tell them apart would be no plainer.

// How many bytes stand before the first `end`.
fn len_before(text: &[u8], end: u8) -> usize
    ensures { result ≡ prefix_len (other (λ c. c == end)) text.now }
{
    text.iter().take_while(|byte| **byte != end).count()
}

// How many blanks the text begins with.
fn blank_len(text: &[u8]) -> usize
    ensures { result ≡ prefix_len blank text.now }
{
    text.iter().take_while(|byte| is_blank(**byte)).count()
}

// How many bytes stand before the first blank.
fn word_len(text: &[u8]) -> usize
    ensures { result ≡ prefix_len (other blank) text.now }
{
    text.iter().take_while(|byte| !is_blank(**byte)).count()
}

// The first line and the text after it; none where the text is empty.
pub fn split_line(text: &[u8]) -> Option<(&[u8], &[u8])>
    ensures first { elim result [ None ↦ lines text.now ≡ [] | Some p ↦ lines text.now ≡ p.0.now ∷ lines p.1.now ] }
    ensures shorter { elim result [ None ↦ Unit {0} | Some p ↦ length p.1.now < length text.now ] }
{
    if text.is_empty() {
        return None;
    }
    let end = len_before(text, b'\n');
    if end < text.len() {
        Some((&text[..end], &text[end + 1..]))
    } else {
        Some((text, b""))
    }
}

// The bytes before the first `end`.
pub fn before(text: &[u8], end: u8) -> &[u8]
    ensures { result.now ≡ take (prefix_len (other (λ c. c == end)) text.now) text.now }
{
    &text[..len_before(text, end)]
}

// The bytes before a '#'.
#[tactic(auto, using(crate::proofs::FirstWord::uncommented_is))]
pub(crate) fn without_comment(line: &[u8]) -> &[u8]
    ensures { result.now ≡ uncommented line.now }
{
    before(line, b'#')
}

// The line from its first word on.
#[tactic(auto, using(crate::proofs::FirstWord::leading))]
fn skip_blanks(line: &[u8]) -> &[u8]
    ensures { result.now ≡ drop (prefix_len blank line.now) line.now }
{
    &line[blank_len(line)..]
}

// The first word and what follows it; none where there is no word.
pub fn split_word(line: &[u8]) -> Option<(&[u8], &[u8])>
    ensures { elim result [ None ↦ words line.now ≡ [] | Some p ↦ words line.now ≡ p.0.now ∷ words p.1.now ] }
{
    let start = skip_blanks(line);
    if start.is_empty() {
        return None;
    }
    Some(start.split_at(word_len(start)))
}

// The lines of what is left of a text.
#[derive(Debug, Drop)]
pub struct Lines<'a> {
    rest: &'a [u8],
}

impl<'a> Iterator for Lines<'a> {
    type Item = &'a [u8];

    ghost next_gives = { YieldsFirstRef (λ s. lines s.rest.now) };

    ghost remaining = { item_count (λ s. lines s.rest.now) };

    fn next(&mut self) -> Option<&'a [u8]> {
        let (line, after) = split_line(self.rest)?;
        self.rest = after;
        Some(line)
    }
}

// The words of what is left of a line. A type of its own beside `Lines`, since one for both would need a trait for the cut, with its law, and two impls of it, for these few lines.
#[derive(Debug, Drop)]
pub struct Words<'a> {
    rest: &'a [u8],
}

impl<'a> Iterator for Words<'a> {
    type Item = &'a [u8];

    ghost next_gives = { YieldsFirstRef (λ s. words s.rest.now) };

    ghost remaining = { item_count (λ s. words s.rest.now) };

    fn next(&mut self) -> Option<&'a [u8]> {
        let (word, rest) = split_word(self.rest)?;
        self.rest = rest;
        Some(word)
    }
}

// The lines of the text, in order.
#[tactic(auto, using(crate::proofs::Pieces::lines_few))]
pub fn lines_of(text: &[u8]) -> Lines
    ensures all { result.rest.now ≡ text.now }
    ensures few { length (lines text.now) ≤ length text.now }
{
    Lines { rest: text }
}

// The words of the line, in order.
#[tactic(auto, using(crate::proofs::FirstWord::words_few))]
pub fn words_of(line: &[u8]) -> Words
    ensures all { result.rest.now ≡ line.now }
    ensures few { length (words line.now) ≤ length line.now }
{
    Words { rest: line }
}

// How many lines the text has.
pub fn count_lines(text: &[u8]) -> usize
    ensures { result ≡ length (lines text.now) }
{
    lines_of(text).count()
}

// How many words the line has.
pub(crate) fn count_words(line: &[u8]) -> usize
    ensures { result ≡ length (words line.now) }
{
    words_of(line).count()
}
