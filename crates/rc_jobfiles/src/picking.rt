//! The job that lists of words make. Switches are named by their numbers in the switch table of `rc_words`.
ghost use Rattle.std.specs.Prelude.{◌≡◌, IfOk, option_map};
ghost use Rattle.std.specs.Option.{unwrap_or};
ghost use Rattle.rc_job.specs.Job.{dat, attributes_alone};
ghost use Rattle.rc_jobfiles.specs.Merge.{given, has};
ghost use Rattle.rc_jobfiles.specs.Picking.{copy_given, directory_given, job_by, moving_by, sub_by, workers_given};
ghost use Rattle.rc_jobfiles.specs.Reading.{any_has, last_given, last_setting, picks_in};

use crate::listed::{ListValues, OwnSettings, files_or_all};
use crate::lookup::{
    attr_in, copy_in, directory_in, given, has, number_in, root_in, scan_in, small_in, small_or,
};
use rc_job::{CopyFlags, DirectoryFlags, Excludes, Job, Moving, Sub};
use rc_tree::NoMemory;
use rc_words::{Placed, Setting};
use std::alloc::Global;

/// The job of lists of words, each of which wins over those before it, and of the values of lists that they gave.
#[tactic(auto, unfolding(crate::specs::Picking::job_by))]
pub(crate) fn pick(
    alloc: Global,
    lists: &[OwnSettings],
    values: ListValues,
) -> Result<Job, NoMemory>
    ensures { IfOk result (λ job. job ≡ job_by (picks_in lists.now values)) }
{
    Ok(Job {
        source: root_in(alloc, last_given(lists, 0))?,
        target: root_in(alloc, last_given(lists, 1))?,
        no_source: any_has(lists, 2),
        no_target: any_has(lists, 3),
        files: files_or_all(alloc, values.files)?,
        sub: sub_by(lists),
        lev: small_in(last_given(lists, 7)),
        purge: any_has(lists, 8) || any_has(lists, 9),
        moving: moving_by(lists),
        create: any_has(lists, 12),
        copy: copy_by(lists),
        dcopy: directory_by(lists),
        secfix: any_has(lists, 19),
        timfix: any_has(lists, 20),
        plus: attr_in(last_given(lists, 21)),
        minus: attr_in(last_given(lists, 22)),
        only_a: any_has(lists, 23),
        only_m: any_has(lists, 24),
        ia: attr_in(last_given(lists, 25)),
        xa: attr_in(last_given(lists, 26)),
        xf: Excludes::new(values.excluded_files),
        xd: Excludes::new(values.excluded_dirs),
        xc: any_has(lists, 29),
        xn: any_has(lists, 30),
        xo: any_has(lists, 31),
        xl: any_has(lists, 32),
        xx: any_has(lists, 33),
        with_same: any_has(lists, 34),
        with_tweaked: any_has(lists, 35),
        max: number_in(last_given(lists, 36)),
        min: number_in(last_given(lists, 37)),
        maxage: small_in(last_given(lists, 38)),
        minage: small_in(last_given(lists, 39)),
        fft: any_has(lists, 40),
        dst: any_has(lists, 41),
        all_extras: any_has(lists, 42),
        strides: any_has(lists, 43) || any_has(lists, 44),
        workers: workers_by(lists),
        retries: small_or(1000000, last_given(lists, 47)),
        wait: small_or(30, last_given(lists, 48)),
        list_only: any_has(lists, 49),
        verbose: any_has(lists, 50),
        nfl: any_has(lists, 51),
        ndl: any_has(lists, 52),
        nc: any_has(lists, 53),
        ns: any_has(lists, 54),
        njh: any_has(lists, 55),
        njs: any_has(lists, 56),
        plain_bytes: any_has(lists, 57),
        full_path: any_has(lists, 58),
        with_time: any_has(lists, 59),
        scan: scan_in(last_given(lists, 60)),
    })
}

// Whether a switch stands in one of these lists.
#[tactic(auto, unfolding(crate::specs::Reading::any_has))]
fn any_has(lists: &[OwnSettings], number: u8) -> bool
    ensures { result ≡ any_has lists.now number }
{
    lists.iter().any(|list| has(list.settings(), number))
}

fn sub_by(lists: &[OwnSettings]) -> Sub
    ensures { result ≡ sub_by (any_has lists.now) }
{
    if any_has(lists, 6) || any_has(lists, 9) {
        Sub::All
    } else if any_has(lists, 5) {
        Sub::NonEmpty
    } else {
        Sub::None
    }
}

fn moving_by(lists: &[OwnSettings]) -> Moving
    ensures { result ≡ moving_by (any_has lists.now) }
{
    if any_has(lists, 11) {
        Moving::All
    } else if any_has(lists, 10) {
        Moving::Files
    } else {
        Moving::No
    }
}

// The setting of a switch in the last list that has one.
#[tactic(auto, unfolding(crate::specs::Reading::last_setting))]
fn last_given(lists: &[OwnSettings], number: u8) -> Option<&Setting>
    ensures { option_map (λ s. s.now) result ≡ last_setting lists.now number }
{
    let mut found = None;
    let mut rest = lists;
    'lists: while let [list, later @ ..] = rest {
        if let Some(setting) = given(list.settings(), number) {
            found = Some(setting);
        }
        rest = later;
    }
    found
}

fn copy_by(lists: &[OwnSettings]) -> CopyFlags
    ensures { result ≡ unwrap_or (last_given copy_given lists.now) dat }
{
    last_copy(lists).unwrap_or(CopyFlags::dat())
}

fn directory_by(lists: &[OwnSettings]) -> DirectoryFlags
    ensures { result ≡ unwrap_or (last_given directory_given lists.now) attributes_alone }
{
    last_directory(lists).unwrap_or(DirectoryFlags::attributes_alone())
}

fn workers_by(lists: &[OwnSettings]) -> u8
    ensures { result ≡ unwrap_or (last_given workers_given lists.now) 1 }
{
    last_workers(lists).unwrap_or(1)
}

fn last_copy(lists: &[OwnSettings]) -> Option<CopyFlags>
    ensures { result ≡ last_given copy_given lists.now }
{
    let mut found = None;
    let mut rest = lists;
    'lists: while let [list, later @ ..] = rest {
        found = copy_given(list.settings()).or(found);
        rest = later;
    }
    found
}

fn last_directory(lists: &[OwnSettings]) -> Option<DirectoryFlags>
    ensures { result ≡ last_given directory_given lists.now }
{
    let mut found = None;
    let mut rest = lists;
    'lists: while let [list, later @ ..] = rest {
        found = directory_given(list.settings()).or(found);
        rest = later;
    }
    found
}

fn last_workers(lists: &[OwnSettings]) -> Option<u8>
    ensures { result ≡ last_given workers_given lists.now }
{
    let mut found = None;
    let mut rest = lists;
    'lists: while let [list, later @ ..] = rest {
        found = workers_given(list.settings()).or(found);
        rest = later;
    }
    found
}

// The copy flags that the words of one list give.
fn copy_given(settings: &[Placed]) -> Option<CopyFlags>
    ensures { result ≡ copy_given settings.now }
{
    let letters = copy_in(given(settings, 13));
    let all = has(settings, 15);
    let dats = has(settings, 14) || all;
    if !has(settings, 13) && !has(settings, 16) && !dats {
        return None;
    }
    Some(CopyFlags {
        data_bytes: letters.data_bytes || dats,
        attributes: letters.attributes || dats,
        times: letters.times || dats,
        security: letters.security || dats,
        owner: letters.owner || all,
        auditing: letters.auditing || all,
    })
}

fn directory_given(settings: &[Placed]) -> Option<DirectoryFlags>
    ensures { result ≡ directory_given settings.now }
{
    if has(settings, 17) || has(settings, 18) {
        Some(directory_in(given(settings, 17)))
    } else {
        None
    }
}

fn workers_given(settings: &[Placed]) -> Option<u8>
    ensures { result ≡ workers_given settings.now }
{
    match given(settings, 46) {
        Some(Setting::Number { value, .. }) => Some((*value).min(255) as u8),
        _ if has(settings, 45) => Some(8),
        _ => None,
    }
}
