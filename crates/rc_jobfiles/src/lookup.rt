//! What stands among settings, by the numbers of the switch table, and the values that they give.
ghost use Rattle.std.specs.Prelude.{◌≡◌, IfOk, option_map};
ghost use Rattle.rc_jobfiles.specs.Merge.{attr_in, copy_in, directory_in, given, has, number_in, number_of, root_in, scan_in, small, small_in, small_or};

use rc_job::{CopyFlags, DirectoryFlags};
use rc_tree::{Attr, NoMemory, Scan, Text};
use rc_words::{Placed, Setting};
use std::alloc::Global;

/// The number of the switch that a setting is of.
pub(crate) fn number_of(setting: &Setting) -> u8
    ensures { result ≡ number_of setting.now }
{
    match setting {
        Setting::Source(_) => 0,
        Setting::Target(_) => 1,
        Setting::File(_) => 4,
        Setting::ExcludeFile(_) => 27,
        Setting::ExcludeDir(_) => 28,
        Setting::Switch { number } => *number,
        Setting::Copy(_) => 13,
        Setting::Directory(_) => 17,
        Setting::Attributes { number, .. } => *number,
        Setting::Number { number, .. } => *number,
        Setting::Scanning(_) => 60,
        Setting::JobFile(_) => 68,
        Setting::Save(_) => 69,
    }
}

/// The first setting of a switch.
pub(crate) fn given(settings: &[Placed], number: u8) -> Option<&Setting>
    ensures { option_map (λ s. s.now) result ≡ given number settings.now }
{
    let mut rest = settings;
    'settings: while let [first, later @ ..] = rest {
        if number_of(&first.setting) == number {
            return Some(&first.setting);
        }
        rest = later;
    }
    None
}

/// Whether a switch was given.
pub(crate) fn has(settings: &[Placed], number: u8) -> bool
    ensures { result ≡ has number settings.now }
{
    given(settings, number).is_some()
}

pub(crate) fn root_in(alloc: Global, setting: Option<&Setting>) -> Result<Option<Text>, NoMemory>
    ensures { IfOk result (λ root. root ≡ root_in (option_map (λ s. s.now) setting.entry)) }
{
    match setting {
        Some(Setting::Source(root)) => Ok(Some(root.copy(alloc)?)),
        Some(Setting::Target(root)) => Ok(Some(root.copy(alloc)?)),
        _ => Ok(None),
    }
}

pub(crate) fn number_in(setting: Option<&Setting>) -> Option<u64>
    ensures { result ≡ number_in (option_map (λ s. s.now) setting.entry) }
{
    match setting {
        Some(Setting::Number { value, .. }) => Some(*value),
        _ => None,
    }
}

pub(crate) fn small_in(setting: Option<&Setting>) -> Option<u32>
    ensures { result ≡ small_in (option_map (λ s. s.now) setting.entry) }
{
    match setting {
        Some(Setting::Number { value, .. }) => Some(small(*value)),
        _ => None,
    }
}

pub(crate) fn small_or(default: u32, setting: Option<&Setting>) -> u32
    ensures { result ≡ small_or default (option_map (λ s. s.now) setting.entry) }
{
    match setting {
        Some(Setting::Number { value, .. }) => small(*value),
        _ => default,
    }
}

// A number of 32 bits, a greater one as the greatest.
fn small(value: u64) -> u32
    ensures { result ≡ small value }
{
    value.min(4294967295) as u32
}

pub(crate) fn attr_in(setting: Option<&Setting>) -> Attr
    ensures { result ≡ attr_in (option_map (λ s. s.now) setting.entry) }
{
    match setting {
        Some(Setting::Attributes { attr, .. }) => *attr,
        _ => Attr::NONE,
    }
}

pub(crate) fn scan_in(setting: Option<&Setting>) -> Scan
    ensures { result ≡ scan_in (option_map (λ s. s.now) setting.entry) }
{
    match setting {
        Some(Setting::Scanning(scan)) => *scan,
        _ => Scan::Size,
    }
}

pub(crate) fn copy_in(setting: Option<&Setting>) -> CopyFlags
    ensures { result ≡ copy_in (option_map (λ s. s.now) setting.entry) }
{
    match setting {
        Some(Setting::Copy(flags)) => *flags,
        _ => CopyFlags {
            data_bytes: false,
            attributes: false,
            times: false,
            security: false,
            owner: false,
            auditing: false,
        },
    }
}

pub(crate) fn directory_in(setting: Option<&Setting>) -> DirectoryFlags
    ensures { result ≡ directory_in (option_map (λ s. s.now) setting.entry) }
{
    match setting {
        Some(Setting::Directory(flags)) => *flags,
        _ => DirectoryFlags {
            attributes: false,
            times: false,
        },
    }
}
