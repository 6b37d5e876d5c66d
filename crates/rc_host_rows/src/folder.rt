//! A folder of the host for each test, and looks at it by the host's own calls.

use std::collections::BTreeSet;
use std::env::temp_dir;
use std::fs::{self, Permissions};
use std::io::{self, ErrorKind};
use std::os::unix::fs::{PermissionsExt, symlink};
use std::process::id;
use std::test::Fail;

// Makes the folder of a test anew, in the system's folder for such, and gives its path. It is the
// running process's own, so that tests in two copies do not meet.
pub(crate) fn make_folder(rt: &HostRuntime, name: &str) -> Result<String, Fail> {
    let above = temp_dir(rt)?;
    let process = id(rt.process());
    let folder = format!(in rt.alloc(); "{}/wandujo-host-{process}-{name}", above.display())?;
    if fs::exists(rt, &folder)? {
        fs::remove_dir_all(rt, &folder)?;
    }
    fs::create_dir(rt, &folder)?;
    Ok(folder)
}

// A call of the host on what stands at this place below a folder; none where it is no call of the
// host.
pub(crate) fn host_answer(
    rt: &HostRuntime,
    folder: &str,
    call: &str,
    at: &str,
    with: &str,
) -> Result<Option<String>, Fail> {
    let place = place(rt, folder, at)?;
    let place = place.as_str();
    Ok(Some(match call {
        "host dir" => done(rt, fs::create_dir_all(rt, place))?,
        "host file" => done(rt, fs::write(rt, place, with))?,
        "host link" => {
            let original = self::place(rt, folder, with)?;
            done(rt, symlink(rt, original.as_str(), place))?
        }
        "host remove" => done(rt, fs::remove_file(rt, place))?,
        "host clear" => done(rt, fs::remove_dir_all(rt, place))?,
        "host close" => done(
            rt,
            fs::set_permissions(rt, place, Permissions::from_mode(0)),
        )?,
        "host open" => done(
            rt,
            fs::set_permissions(rt, place, Permissions::from_mode(0o755)),
        )?,
        "host look" => look(rt, place)?,
        "host size" => size(rt, place)?,
        _ => return Ok(None),
    }))
}

// A place below a folder; one that begins with `/` is whole.
fn place(rt: &HostRuntime, folder: &str, at: &str) -> Result<String, Fail> {
    let alloc = rt.alloc();
    if at.starts_with('/') {
        return Ok(String::from_str(alloc, at)?);
    }
    Ok(format!(in alloc; "{folder}/{at}")?)
}

fn done(rt: &HostRuntime, answer: io::Result<()>) -> Result<String, Fail> {
    let word = match answer {
        Ok(()) => "done",
        Err(_) => "refused",
    };
    Ok(String::from_str(rt.alloc(), word)?)
}

// What stands at a place: `none`, `dir` with its names, or `file` with its bytes.
fn look(rt: &HostRuntime, place: &str) -> Result<String, Fail> {
    let alloc = rt.alloc();
    match fs::symlink_metadata(rt, place) {
        Ok(metadata) if metadata.is_dir() => names(rt, place),
        Ok(_) => {
            let bytes = fs::read(rt, place)?;
            let text = shown(rt, bytes.as_slice())?;
            Ok(format!(in alloc; "file {text}")?)
        }
        Err(error) if error.kind() == ErrorKind::NotFound => Ok(String::from_str(alloc, "none")?),
        Err(error) => Err(error)?,
    }
}

// The names in a directory, but for the file that a database keeps beside its own, which may be
// there or not.
fn names(rt: &HostRuntime, place: &str) -> Result<String, Fail> {
    let alloc = rt.alloc();
    let mut names = BTreeSet::new(alloc);
    for entry in fs::read_dir(rt, place)? {
        let entry = entry?;
        if !entry.file_name().ends_with(".rct-wal") {
            names.insert(String::from_str(alloc, entry.file_name())?)?;
        }
    }
    let mut text = String::from_str(alloc, "dir")?;
    for name in &names {
        text.push(' ')?;
        text.push_str(name.as_str())?;
    }
    Ok(text)
}

// The bytes as text, with a `.` for each 0.
pub(crate) fn shown(rt: &HostRuntime, bytes: &[u8]) -> Result<String, Fail> {
    let mut text = String::new(rt.alloc());
    for byte in bytes {
        text.push(if *byte == 0 { '.' } else { char::from(*byte) })?;
    }
    Ok(text)
}

fn size(rt: &HostRuntime, place: &str) -> Result<String, Fail> {
    let size = fs::metadata(rt, place)?.len();
    Ok(format!(in rt.alloc(); "{size}")?)
}
