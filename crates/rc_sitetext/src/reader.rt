//! A site, read line by line.

ghost use Rattle.std.specs.Prelude.{◌≡◌, ◌<◌, ◌^◌, ◌∷◌, ◌==◌, ℕ, None, [], length, position, IfErr, IfOk, IfSome, MatchResult};
ghost use Rattle.rc_volume.specs.Site.{Told};
ghost use Rattle.rc_mem.specs.MemSite.{IsFreshSite, seen_by, told_by};
ghost use Rattle.rc_sitetext.specs.Drafts.{seen};
ghost use Rattle.rc_sitetext.specs.Faults.{Follows, Refuses, begun, ended, line_at, lines_in, text_fault, text_read_whole};
ghost use Rattle.rc_sitetext.specs.SiteText.{Jobs, Spells};

use crate::draft::Draft;
use crate::err::{FaultKind, LineErr, SiteTextErr};
use crate::site_file::SiteFile;
use rc_tree::NoMemory;
use std::alloc::Global;

/// The site, the moment and the job files that `text` spells, or the first fault of a text that spells none: that of the
/// first line that has one, and of that line the first in the order of [`FaultKind`].
pub fn read_site(alloc: Global, text: &[u8]) -> Result<SiteFile, SiteTextErr>
    // What is read is spelled so.
    ensures found { IfOk result
        (λ file. Spells text.now file.moment (told_by file.site) file.jobs) }
    ensures fresh { IfOk result (λ file. IsFreshSite (told_by file.site) (seen_by file.site)) }
    // What is spelled so is read, unless memory runs out.
    ensures only { (moment : ℕ) (told : Told) (jobs : Jobs) → Spells text.now moment told jobs →
        MatchResult result
        (λ file. (file.moment ≡ moment) × (told_by file.site ≡ told) × (file.jobs ≡ jobs))
        (λ e. e ≡ SiteTextErr.NoMemory) }
    // It is refused exactly where it has a fault, by its first one.
    ensures refused { Refuses result (text_fault text.now) }
{
    match read_draft(alloc, text) {
        Ok(draft) => file_of(alloc, draft),
        Err(e) => Err(e),
    }
}

// What the draft says.
fn file_of(alloc: Global, draft: Draft) -> Result<SiteFile, SiteTextErr>
    ensures moment { IfOk result (λ file. file.moment ≡ draft.moment) }
    ensures told { IfOk result (λ file. told_by file.site
        ≡ record { source = draft.source; target = draft.target; notes = draft.notes.items }) }
    ensures jobs { IfOk result (λ file. file.jobs ≡ draft.jobs) }
    ensures fresh { IfOk result (λ file. IsFreshSite (told_by file.site) (seen_by file.site)) }
    ensures memory { IfErr result (λ e. e ≡ SiteTextErr.NoMemory) }
{
    match draft.into_file(alloc) {
        Ok(file) => Ok(file),
        Err(NoMemory) => Err(SiteTextErr::NoMemory),
    }
}

// What all lines of the text say.
fn read_draft(alloc: Global, text: &[u8]) -> Result<Draft, SiteTextErr>
    ensures { Follows seen result (text_read_whole text.now) }
{
    keeps_length(text);
    let mut draft = Draft::new(alloc);
    let mut rest = text;
    let mut number = 1;
    'lines: while let Some(first) = first_line(rest) {
        match draft.with_line(alloc, first.line) {
            Ok(more) => draft = more,
            Err(e) => return Err(line_at(number, e)),
        }
        rest = first.rest;
        number += 1;
    }
    ended(number, draft, rest)
}

// No slice has more bytes than can be counted.
fn keeps_length(text: &[u8])
    ensures { length text.now < 2 ^ 63 }
{
    let _len = text.len();
}

// The first line of a text, without its end, and what comes behind it.
#[derive(Clone, Copy, Debug)]
struct FirstLine<'a> {
    line: &'a [u8],
    rest: &'a [u8],
}

fn first_line(text: &[u8]) -> Option<FirstLine<'_>>
    ensures found { IfSome result (λ first.
        lines_in text.now ≡ first.line.now ∷ lines_in first.rest.now) }
    ensures shorter { IfSome result (λ first. length first.rest.now < length text.now) }
    ensures last { result ≡ None → lines_in text.now ≡ text.now ∷ [] }
{
    match line_end(text) {
        Some(end) => Some(FirstLine {
            line: &text[..end],
            rest: &text[end + 1..],
        }),
        None => None,
    }
}

// Where the first line ends.
fn line_end(text: &[u8]) -> Option<usize>
    ensures { result ≡ position (λ b. b == 10) text.now }
{
    text.iter().position(|b| *b == b'\n')
}

// The fault of this line.
fn line_at(line: u64, err: LineErr) -> SiteTextErr
    ensures { result ≡ line_at line err }
{
    match err {
        LineErr::Fault(kind) => SiteTextErr::At { line, kind },
        LineErr::NoMemory => SiteTextErr::NoMemory,
    }
}

// The draft, where the text ends behind its last line: `rest` is what comes behind the line end before this line.
fn ended(line: u64, draft: Draft, rest: &[u8]) -> Result<Draft, SiteTextErr>
    ensures { Follows seen result (ended line (seen draft) rest.now) }
{
    if draft.is_done() && rest.is_empty() {
        return Ok(draft);
    }
    Err(SiteTextErr::At {
        line: begun(line, rest),
        kind: FaultKind::End,
    })
}

// The number of the last line that was begun.
fn begun(line: u64, rest: &[u8]) -> u64
    ensures { result ≡ begun line rest.now }
{
    if rest.is_empty() && line > 1 {
        line - 1
    } else {
        line
    }
}
