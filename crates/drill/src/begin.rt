//! What a run begins on: the site that the input spells, or one that is generated.

ghost use Rattle.std.specs.Prelude.{◌≡◌, ◌+◌, ◌<◌, ◌≤◌, ◌++◌, ℕ, None, true, false, [], length, vec_len, drop, IfOk, IfErr, OnOk, OnErr};
ghost use Rattle.std.specs.Option.{is_some};
ghost use Rattle.rc_tree.specs.declared.moment.TheConstants.{GREATEST_MOMENT};
ghost use Rattle.rc_mem.specs.MemSite.{IsFreshSite, seen_by, told_by};
ghost use Rattle.rc_volume.specs.Faults.{RisesIf};
ghost use Rattle.rc_volume.specs.Streams.{input_failed};
ghost use Rattle.drill.specs.Drilling.{Begins, IsMade, IsRefusedAt, IsSiteText, OfSome};
ghost use Rattle.drill.specs.Finishing.{IsStop, refuses_text, start_of, stop_failed};

use rc_generate::{Generated, MOMENT, generate};
use rc_mem::{MemJobs, MemSite};
use rc_sitetext::{SiteFile, SiteTextErr, read_site};
use rc_tree::NoMemory;
use rc_volume::{Input, InputErr};
use std::alloc::{AllocError, Global};

/// How many bytes a site text has at most.
pub const GREATEST_TEXT: usize = 268435456;

// How many bytes of the input are read at once at most.
const PIECE: usize = 65536;

/// Why there is no site to run on.
#[derive(Clone, Copy, Debug, PartialEq, Eq)]
pub(crate) enum Stop {
    Input,
    /// The text is refused: the number of the line, or 0 for its length, and of the kind.
    SiteText { line: u64, kind: u8 },
    NoMemory,
}

/// The site that is generated from the number, or else the one that the input's bytes spell.
pub(crate) fn begin<I: Input>(
    alloc: Global,
    number: Option<u64>,
    input: &mut I,
) -> Result<SiteFile, Stop>
    ensures file { IfOk result (λ file. OfSome I.tells (I.rest input.old)
        (λ text. Begins number text (start_of file))) }
    ensures fresh { IfOk result (λ file. IsFreshSite (told_by file.site) (seen_by file.site)) }
    ensures moment { IfOk result (λ file. file.moment ≤ GREATEST_MOMENT) }
    ensures stop { IfErr result (λ stop. OfSome I.tells (I.rest input.old)
        (λ text. IsStop number text stop)) }
    ensures read { I.tells ≡ true → number ≡ None → OnOk result
        (I.rest input.new ≡ drop (GREATEST_TEXT + 1) (I.rest input.old)) }
    ensures read_all { I.tells ≡ true → number ≡ None → refuses_text result ≡ true →
        I.rest input.new ≡ drop (GREATEST_TEXT + 1) (I.rest input.old) }
    ensures no_further { I.tells ≡ true → (n : ℕ) × (n ≤ GREATEST_TEXT + 1)
        × (I.rest input.new ≡ drop n (I.rest input.old)) }
    ensures unread { is_some number ≡ true → input.new ≡ input.old }
    ensures cause { RisesIf (stop_failed result) (I.faults input.old) (I.faults input.new) }
{
    match number {
        Some(number) => match made_file(alloc, number) {
            Ok(file) => Ok(file),
            Err(NoMemory) => Err(Stop::NoMemory),
        },
        None => read_file(alloc, input),
    }
}

// The site that is generated from a number.
fn made_file(alloc: Global, number: u64) -> Result<SiteFile, NoMemory>
    ensures made { IfOk result (λ file. IsMade number (start_of file)) }
    ensures fresh { IfOk result (λ file. IsFreshSite (told_by file.site) (seen_by file.site)) }
    ensures moment { IfOk result (λ file. file.moment ≤ GREATEST_MOMENT) }
{
    let Generated { source, target } = generate(alloc, number)?;
    Ok(SiteFile {
        site: MemSite::new(alloc, source, target, Vec::new(alloc))?,
        moment: MOMENT,
        jobs: MemJobs::new(alloc),
    })
}

// The site that the input's bytes spell.
fn read_file<I: Input>(alloc: Global, input: &mut I) -> Result<SiteFile, Stop>
    ensures file { IfOk result (λ file. OfSome I.tells (I.rest input.old)
        (λ text. IsSiteText text (start_of file))) }
    ensures fresh { IfOk result (λ file. IsFreshSite (told_by file.site) (seen_by file.site)) }
    ensures moment { IfOk result (λ file. file.moment ≤ GREATEST_MOMENT) }
    ensures stop { IfErr result (λ stop. OfSome I.tells (I.rest input.old)
        (λ text. IsStop None text stop)) }
    ensures read { I.tells ≡ true → OnOk result
        (I.rest input.new ≡ drop (GREATEST_TEXT + 1) (I.rest input.old)) }
    ensures read_all { I.tells ≡ true → refuses_text result ≡ true →
        I.rest input.new ≡ drop (GREATEST_TEXT + 1) (I.rest input.old) }
    ensures no_further { I.tells ≡ true → (n : ℕ) × (n ≤ GREATEST_TEXT + 1)
        × (I.rest input.new ≡ drop n (I.rest input.old)) }
    ensures cause { RisesIf (stop_failed result) (I.faults input.old) (I.faults input.new) }
{
    match read_text(alloc, input) {
        Ok(text) => file_of(alloc, &text),
        Err(InputErr::Failed) => Err(Stop::Input),
        Err(InputErr::NoMemory) => Err(Stop::NoMemory),
    }
}

// The site that the text spells, where it is not too long.
fn file_of(alloc: Global, text: &[u8]) -> Result<SiteFile, Stop>
    ensures file { IfOk result (λ file. IsSiteText text.now (start_of file)) }
    ensures fresh { IfOk result (λ file. IsFreshSite (told_by file.site) (seen_by file.site)) }
    ensures moment { IfOk result (λ file. file.moment ≤ GREATEST_MOMENT) }
    ensures stop { IfErr result (λ stop. IsStop None text.now stop) }
    ensures not_input { stop_failed result ≡ false }
{
    if text.len() > GREATEST_TEXT {
        return Err(Stop::SiteText { line: 0, kind: 9 });
    }
    match read_site(alloc, text) {
        Ok(file) => Ok(file),
        Err(SiteTextErr::At { line, kind }) => Err(Stop::SiteText {
            line,
            kind: kind.number(),
        }),
        Err(SiteTextErr::NoMemory) => Err(Stop::NoMemory),
    }
}

// The bytes of the input to its end, or one more than a site text has.
fn read_text<I: Input>(alloc: Global, input: &mut I) -> Result<Vec<u8>, InputErr>
    ensures bound { IfOk result (λ text. vec_len text ≤ GREATEST_TEXT + 1) }
    ensures taken { I.tells ≡ true → IfOk result
        (λ text. I.rest input.old ≡ text.items ++ I.rest input.new) }
    ensures end { I.tells ≡ true → IfOk result
        (λ text. vec_len text ≤ GREATEST_TEXT → I.rest input.new ≡ []) }
    ensures lost { I.tells ≡ true → OnErr result ((n : ℕ) × (n ≤ GREATEST_TEXT + 1)
        × (I.rest input.new ≡ drop n (I.rest input.old))) }
    ensures cause { RisesIf (input_failed result) (I.faults input.old) (I.faults input.new) }
{
    let mut text = Vec::new(alloc);
    let Ok(mut buf) = buffer(alloc) else {
        return Err(InputErr::NoMemory);
    };
    'pieces: loop {
        let count = read_piece(alloc, input, &mut text, &mut buf)?;
        if count == 0 || text.len() > GREATEST_TEXT {
            return Ok(text);
        }
    }
}

fn buffer(alloc: Global) -> Result<Vec<u8>, AllocError>
    ensures { IfOk result (λ buf. 0 < vec_len buf) }
{
    vec![in alloc; 0; PIECE]
}

// Adds the next bytes of the input, as many as `buf` holds and as a site text may still have, and answers how many.
fn read_piece<I: Input>(
    alloc: Global,
    input: &mut I,
    text: &mut Vec<u8>,
    buf: &mut [u8],
) -> Result<usize, InputErr>
    requires room { 0 < length buf.old }
    requires short { vec_len text.old ≤ GREATEST_TEXT }
    ensures longer { IfOk result (λ count. vec_len text.new ≡ vec_len text.old + count) }
    ensures bound { OnOk result (vec_len text.new ≤ GREATEST_TEXT + 1) }
    ensures taken { I.tells ≡ true → OnOk result
        (text.old.items ++ I.rest input.old ≡ text.new.items ++ I.rest input.new) }
    ensures end { I.tells ≡ true → IfOk result (λ count. count ≡ 0 → I.rest input.new ≡ []) }
    ensures lost { I.tells ≡ true → OnErr result ((n : ℕ)
        × (vec_len text.old + n ≤ GREATEST_TEXT + 1)
        × (I.rest input.new ≡ drop n (I.rest input.old))) }
    ensures cause { RisesIf (input_failed result) (I.faults input.old) (I.faults input.new) }
{
    let room = buf.len().min(GREATEST_TEXT + 1 - text.len());
    let count = input.read(alloc, &mut buf[..room])?;
    match text.extend_from_slice(&buf[..count]) {
        Ok(()) => Ok(count),
        Err(_) => Err(InputErr::NoMemory),
    }
}
