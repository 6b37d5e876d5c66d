//! When two roots overlap.
ghost use Rattle.std.specs.Prelude.{◌≡◌, ◌++◌, IfOk, OnOk, chars};
ghost use Rattle.rc_tree.specs.Name.{folded};
ghost use Rattle.rc_wild.specs.PathPattern.{parts_of};
ghost use Rattle.rc_jobfiles.specs.Roots.{begins_apart, behind_each, normal_form, is_at_or_below, overlap};

use rc_tree::NoMemory;
use rc_wild::{is_separator, next_part};
use std::alloc::Global;
use unicode::case::simple_fold;

/// Whether two roots are the same or one is below the other, by their folded normal forms.
#[tactic(auto, unfolding(crate::specs::Roots::overlap))]
pub(crate) fn overlap(alloc: Global, one: &str, two: &str) -> Result<bool, NoMemory>
    ensures { IfOk result (λ is. is ≡ overlap (chars one.now) (chars two.now)) }
{
    let first = folded_form(alloc, one)?;
    let second = folded_form(alloc, two)?;
    Ok(is_at_or_below(&first, &second) || is_at_or_below(&second, &first))
}

// Whether a normal form is another, or that one followed by `\` and more.
fn is_at_or_below(root: &[char], below: &[char]) -> bool
    ensures { result ≡ is_at_or_below root.now below.now }
{
    let mut left = root;
    let mut rest = below;
    'chars: while let [own, more @ ..] = left {
        match rest {
            [other, later @ ..] if own == other => {
                left = more;
                rest = later;
            }
            _ => return false,
        }
    }
    match rest {
        [] => true,
        [next, more @ ..] => *next == '\\' && !more.is_empty(),
    }
}

fn folded_form(alloc: Global, root: &str) -> Result<Vec<char>, NoMemory>
    ensures { IfOk result (λ form. form.items ≡ folded (normal_form (chars root.now))) }
{
    let form = normal_form(alloc, root)?;
    Ok(form.iter().map(|c| simple_fold(*c)).collect(alloc)?)
}

// Its parts with `\` between them, and behind a `\` where it begins with a separator.
fn normal_form(alloc: Global, root: &str) -> Result<Vec<char>, NoMemory>
    ensures { IfOk result (λ form. form.items ≡ normal_form (chars root.now)) }
{
    let mut form = Vec::new(alloc);
    if begins_apart(root) {
        form.push('\\')?;
    }
    if let Some((part, rest)) = next_part(root) {
        push_chars(&mut form, part)?;
        push_later(&mut form, rest)?;
    }
    Ok(form)
}

// The parts of a text, each behind a `\`.
fn push_later(form: &mut Vec<char>, text: &str) -> Result<(), NoMemory>
    ensures { OnOk result
        (form.new.items ≡ form.old.items ++ behind_each (parts_of (chars text.now))) }
{
    let mut left = text;
    'parts: while let Some((part, rest)) = next_part(left) {
        form.push('\\')?;
        push_chars(form, part)?;
        left = rest;
    }
    Ok(())
}

#[tactic(auto, using(std::proofs::lemmas::Str::chars_from_encodes))]
fn push_chars(form: &mut Vec<char>, text: &str) -> Result<(), NoMemory>
    ensures { OnOk result (form.new.items ≡ form.old.items ++ chars text.now) }
{
    for c in text.chars() {
        form.push(c)?;
    }
    Ok(())
}

#[tactic(auto, using(std::proofs::lemmas::Str::chars_past_char))]
fn begins_apart(text: &str) -> bool
    ensures { result ≡ begins_apart (chars text.now) }
{
    match text.chars().next() {
        Some(c) => is_separator(c),
        None => false,
    }
}
