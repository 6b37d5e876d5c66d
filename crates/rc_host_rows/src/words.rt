//! Paths, properties and entries as words of a table.

use rc_tree::{
    Attr, Entry, GREATEST_MOMENT, GREATEST_SECURITY, Kind, Moment, Path, Props, Security,
};
use rc_volume::Side;
use std::alloc::Global;
use std::test::Fail;

// The side and the path of an entry that stands below the folder of a test, in `s` or in `t`.
pub(crate) fn side_and_path(alloc: Global, at: &str) -> Result<(Side, Path), Fail> {
    let (root, names) = match at.split_once('/') {
        Some(split) => split,
        None => (at, ""),
    };
    let side = if root == "s" {
        Side::Source
    } else {
        Side::Target
    };
    if names.is_empty() {
        return Ok((side, Path::root(alloc)));
    }
    let text: String = names.chars().map(backslashed).collect(alloc)?;
    Ok((side, Path::read(alloc, text.as_str())?))
}

fn backslashed(c: char) -> char {
    if c == '/' { '\\' } else { c }
}

// A number and the words behind it.
pub(crate) fn number_and(text: &str) -> Result<(u64, &str), Fail> {
    match text.split_once(' ') {
        Some((number, rest)) => Ok((number.parse::<u64>()?, rest)),
        None => Ok((text.parse::<u64>()?, "")),
    }
}

// Properties: the letters of the attributes, when it was made, when written, and the three security
// strings, where `-` is nothing.
pub(crate) fn read_props(alloc: Global, text: &str) -> Result<Props, Fail> {
    let mut words = text.split(' ');
    Ok(Props {
        attr: read_attr(words.next().ok_or("no attributes")?)?,
        created: read_moment(words.next().ok_or("no moment")?)?,
        written: read_moment(words.next().ok_or("no moment")?)?,
        access: read_security(alloc, words.next().ok_or("no security")?)?,
        owner: read_security(alloc, words.next().ok_or("no security")?)?,
        audit: read_security(alloc, words.next().ok_or("no security")?)?,
    })
}

fn read_attr(letters: &str) -> Result<Attr, Fail> {
    let mut attr = Attr::NONE;
    for letter in letters.chars() {
        match letter {
            'R' => attr.readonly = true,
            'H' => attr.hidden = true,
            'S' => attr.system = true,
            'A' => attr.archive = true,
            '-' => {}
            _ => return Err("no attribute")?,
        }
    }
    Ok(attr)
}

pub(crate) fn read_moment(word: &str) -> Result<Moment, Fail> {
    let units = word.parse::<u64>()?;
    if units > GREATEST_MOMENT {
        return Err("too late")?;
    }
    Ok(Moment::new(units))
}

fn read_security(alloc: Global, word: &str) -> Result<Security, Fail> {
    if word == "-" {
        return Ok(Security::empty(alloc));
    }
    let bytes = word.as_bytes().to_vec(alloc)?;
    if bytes.len() > GREATEST_SECURITY {
        return Err("too long")?;
    }
    Ok(Security::new(bytes))
}

// The properties in the same words.
pub(crate) fn write_props(alloc: Global, props: &Props) -> Result<String, Fail> {
    let mut text = String::new(alloc);
    push_attr(&mut text, props.attr)?;
    push_number(alloc, &mut text, props.created.units())?;
    push_number(alloc, &mut text, props.written.units())?;
    push_security(&mut text, props.access.bytes())?;
    push_security(&mut text, props.owner.bytes())?;
    push_security(&mut text, props.audit.bytes())?;
    Ok(text)
}

fn push_attr(text: &mut String, attr: Attr) -> Result<(), Fail> {
    let letters = [
        (attr.readonly, 'R'),
        (attr.hidden, 'H'),
        (attr.system, 'S'),
        (attr.archive, 'A'),
        (attr == Attr::NONE, '-'),
    ];
    for (is_set, letter) in letters {
        if is_set {
            text.push(letter)?;
        }
    }
    Ok(())
}

fn push_number(alloc: Global, text: &mut String, number: u64) -> Result<(), Fail> {
    let word = format!(in alloc; " {number}")?;
    text.push_str(word.as_str())?;
    Ok(())
}

fn push_security(text: &mut String, bytes: &[u8]) -> Result<(), Fail> {
    text.push(' ')?;
    if bytes.is_empty() {
        text.push('-')?;
    }
    for byte in bytes {
        text.push(char::from(*byte))?;
    }
    Ok(())
}

// An entry in a listing: a directory's name with `/`, and a file's with `:` and its size.
pub(crate) fn write_entry(alloc: Global, entry: &Entry) -> Result<String, Fail> {
    let name = entry.name.text();
    let size = entry.size;
    Ok(match entry.kind {
        Kind::Dir => format!(in alloc; "{name}/")?,
        Kind::File => format!(in alloc; "{name}:{size}")?,
    })
}
