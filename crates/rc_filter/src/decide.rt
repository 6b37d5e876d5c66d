//! The calls that decide what the source has. None of them takes memory.

ghost use Rattle.std.specs.Prelude.{◌≡◌, ◌⊎◌, true, option_map, IsSomeAnd};
ghost use Rattle.std.specs.Option.{option_copied};
ghost use Rattle.rc_tree.specs.declared.attr.Kind.TheVariants.{File};
ghost use Rattle.rc_tree.specs.Path.{key_of};
ghost use Rattle.rc_class.specs.Class.{class_against};
ghost use Rattle.rc_filter.specs.Acts.{are_same_times, class_act, copies_bytes, differ, directory_act, file_act, grain_of, is_all, is_excluded_class, is_mended, kept_for, lonely_act, mended, rules_of, kind_and_props, standing_act};
ghost use Rattle.rc_filter.specs.Scope.{reaches};

use crate::filters::{is_wrong_age, is_wrong_attr, is_wrong_size};
use crate::matching::{is_excluded_directory, is_excluded_file, is_named};
use rc_class::{Act, Class, Facts, Grain, Reason, Rules, class_of, same_attr};
use rc_job::{DirectoryFlags, Job, Sub};
use rc_tree::{Entry, Kind, Moment, Path, Props};

/// How exactly a job compares written times.
pub fn grain(job: &Job) -> Grain
    ensures { result ≡ grain_of job.now }
{
    Grain {
        fft: job.fft,
        dst: job.dst,
    }
}

/// What a job does with the source file of a decided path, where the target has that there, at a moment.
pub fn decide_file(
    job: &Job,
    moment: Moment,
    path: &Path,
    source: Facts,
    target: Option<Facts>,
) -> Act
    requires { source.kind ≡ File }
    ensures { result ≡ file_act job.now moment (key_of path.now) source target }
{
    let class = class_against(job, &source, target);
    class_act(job, moment, path, &source, class)
}

/// What a job does with the source directory of a decided path, where the target has that there. `some_copied` says
/// whether some file below it is copied.
pub fn decide_dir(
    job: &Job,
    path: &Path,
    source: &Props,
    target: Option<&Entry>,
    some_copied: bool,
) -> Act
    requires { (reaches job.now (key_of path.now) ≡ true)
        ⊎ IsSomeAnd target (λ there. there.now.kind ≡ File) }
    ensures { result ≡ directory_act job.now (key_of path.now) source.now
        (option_map kind_and_props (option_copied target.entry)) some_copied }
{
    match target {
        None => lonely_act(job, path, some_copied),
        Some(there) => standing_act(job, path, source, there),
    }
}

/// What of a source entry goes to the target's, besides a file's bytes.
pub fn rules(job: &Job) -> Rules
    ensures { result ≡ rules_of job.now }
{
    Rules {
        attr: job.copy.attributes,
        times: job.copy.times,
        access: job.copy.security,
        owner: job.copy.owner,
        audit: job.copy.auditing,
        dir_attr: job.dcopy.attributes,
        dir_times: job.dcopy.times,
        plus: job.plus,
        minus: job.minus,
        secfix: job.secfix,
        timfix: job.timfix,
    }
}

/// Whether copies have the source's bytes: under D of `/COPY`, and not under `/CREATE`.
pub fn copies_bytes(job: &Job) -> bool
    ensures { result ≡ copies_bytes job.now }
{
    job.copy.data_bytes && !job.create
}

// Files

// The class of a source file.
fn class_against(job: &Job, source: &Facts, target: Option<Facts>) -> Class
    ensures { result ≡ class_against (grain_of job.now) source.now target }
{
    class_of(Some(*source), target, grain(job)).unwrap_or(Class::Lonely)
}

fn class_act(job: &Job, moment: Moment, path: &Path, source: &Facts, class: Class) -> Act
    ensures { result ≡ class_act job.now moment (key_of path.now) source.now class }
{
    if class == Class::Mismatched {
        return Act::Mismatch;
    }
    let act = match kept_for(job, moment, path, source, class) {
        None => Act::Copy,
        Some(reason) => Act::Keep(reason),
    };
    mended(is_mended(job, class), act)
}

// An act; but where files are mended, one that would be kept for its class is.
fn mended(mends: bool, act: Act) -> Act
    ensures { result ≡ mended mends act }
{
    match act {
        Act::Keep(Reason::Class) if mends => Act::Fix,
        _ => act,
    }
}

// Whether a file of this class stands on both sides, and times or security are mended.
fn is_mended(job: &Job, class: Class) -> bool
    ensures { result ≡ is_mended job.now class }
{
    class != Class::Lonely && class != Class::Extra && (job.secfix || job.timfix)
}

// Why a source file of a class is not copied: the first reason that holds.
fn kept_for(job: &Job, moment: Moment, path: &Path, source: &Facts, class: Class) -> Option<Reason>
    ensures { result ≡ kept_for job.now moment (key_of path.now) source.now class }
{
    if !is_named(job, path) {
        Some(Reason::NotNamed)
    } else if is_excluded_file(job, path) {
        Some(Reason::Excluded)
    } else if is_wrong_attr(job, source.attr) {
        Some(Reason::Attr)
    } else if is_wrong_size(job, source.size) {
        Some(Reason::Size)
    } else if is_wrong_age(job, moment, source.written) {
        Some(Reason::Age)
    } else if is_excluded_class(job, class) {
        Some(Reason::Class)
    } else {
        None
    }
}

// Whether a job leaves files of a class as they are.
fn is_excluded_class(job: &Job, class: Class) -> bool
    ensures { result ≡ is_excluded_class job.now class }
{
    match class {
        Class::Lonely => job.xl,
        Class::Newer => job.xn,
        Class::Older => job.xo,
        Class::Changed => job.xc,
        Class::Same => !job.with_same,
        Class::Tweaked => !job.with_tweaked,
        Class::Extra | Class::Mismatched => false,
    }
}

// Directories

// Of a source directory where the target has nothing.
fn lonely_act(job: &Job, path: &Path, some_copied: bool) -> Act
    ensures { result ≡ lonely_act job.now (key_of path.now) some_copied }
{
    if is_excluded_directory(job, path) {
        Act::Keep(Reason::Excluded)
    } else if job.xl {
        Act::Keep(Reason::Class)
    } else if is_all(job.sub) || some_copied {
        Act::Make
    } else {
        Act::Keep(Reason::Empty)
    }
}

fn is_all(sub: Sub) -> bool
    ensures { result ≡ is_all sub }
{
    sub == Sub::All
}

// And where it has this entry.
fn standing_act(job: &Job, path: &Path, source: &Props, target: &Entry) -> Act
    ensures { result ≡ standing_act job.now (key_of path.now) source.now
        target.now.kind target.now.props }
{
    if target.kind == Kind::File {
        Act::Mismatch
    } else if is_excluded_directory(job, path) {
        Act::Keep(Reason::Excluded)
    } else if differ(job.dcopy, source, &target.props) {
        Act::Touch
    } else {
        Act::Keep(Reason::Same)
    }
}

// Whether the flags name a property in which two differ.
fn differ(flags: DirectoryFlags, source: &Props, target: &Props) -> bool
    ensures { result ≡ differ flags source.now target.now }
{
    let attributes = flags.attributes && !same_attr(source.attr, target.attr);
    let times = flags.times && !are_same_times(source, target);
    attributes || times
}

// Whether both times are exactly the same.
fn are_same_times(source: &Props, target: &Props) -> bool
    ensures { result ≡ are_same_times source.now target.now }
{
    source.created == target.created && source.written == target.written
}
