//! Where the next word begins.
ghost use Rattle.std.specs.Prelude.{◌≡◌, ◌+◌, ◌≤◌, ◌<◌, ◌^◌, ◌==◌, MatchOption, IfSome, length};
ghost use Rattle.rc_words.specs.Spelling.{begins_with};
ghost use Rattle.rc_jobtext.specs.Lexing.{Between, ahead, begins_comment, is_blank, is_dropped, nothing};
ghost use Rattle.rc_jobtext.specs.Starts.{gap_at, started};

/// A word that begins: the number of its line, its first character and what follows that.
#[derive(Clone, Copy)]
pub(crate) struct Start<'a> {
    pub place: u64,
    pub first: char,
    pub rest: &'a [char],
}

// What a character between two words is.
#[derive(Clone, Copy)]
pub(crate) enum Gap {
    LineEnd,
    Blank,
    // The first one of a comment.
    Comment,
    // The first one of a word.
    Word,
}

/// The next word that begins in a text, whose first line has this number.
pub(crate) fn next_start(place: u64, text: &[char]) -> Option<Start<'_>>
    requires { place + length text.now < 2 ^ 64 }
    ensures begins { MatchOption result
        (ahead place Between text.now ≡ nothing)
        (λ s. ahead place Between text.now ≡ started s.place s.first s.rest.now) }
    ensures counted { IfSome result
        (λ s. s.place + length s.rest.now ≤ place + length text.now) }
    ensures shorter { IfSome result (λ s. length s.rest.now < length text.now) }
{
    let mut line = place;
    let mut in_comment = false;
    let mut rest = text;
    'gaps: while let [c, later @ ..] = rest {
        match gap_at(in_comment, *c, later) {
            Gap::LineEnd => {
                line += 1;
                in_comment = false;
            }
            Gap::Blank => {}
            Gap::Comment => in_comment = true,
            Gap::Word => {
                return Some(Start {
                    place: line,
                    first: *c,
                    rest: later,
                });
            }
        }
        rest = later;
    }
    None
}

fn gap_at(in_comment: bool, c: char, later: &[char]) -> Gap
    ensures { result ≡ gap_at in_comment c later.now }
{
    if c == '\n' {
        Gap::LineEnd
    } else if in_comment || is_blank(c) || is_dropped(c, later) {
        Gap::Blank
    } else if c == '"' {
        Gap::Word
    } else if begins_comment(c, later) {
        Gap::Comment
    } else {
        Gap::Word
    }
}

/// A space or a tab.
pub(crate) fn is_blank(c: char) -> bool
    ensures { result ≡ is_blank c }
{
    c == ' ' || c == '\t'
}

/// A carriage return before a line feed.
pub(crate) fn is_dropped(c: char, later: &[char]) -> bool
    ensures { result ≡ is_dropped c later.now }
{
    c == '\r' && begins_with('\n', later)
}

fn begins_comment(c: char, later: &[char]) -> bool
    ensures { result ≡ begins_comment c later.now }
{
    c == ':' && begins_with(':', later)
}

fn begins_with(c: char, text: &[char]) -> bool
    ensures { result ≡ begins_with c text.now }
{
    match text {
        [] => false,
        [first, ..] => *first == c,
    }
}
