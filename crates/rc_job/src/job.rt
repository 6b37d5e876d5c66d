//! A job.
ghost use Rattle.std.specs.Prelude.{◌≡◌, ◌∷◌, [], IfOk, codes};
ghost use Rattle.std.specs.Option.{option_copied};
ghost use Rattle.rc_job.specs.Job.{default_job};

use crate::{CopyFlags, DirectoryFlags, Excludes, Moving, Patterns, Sub};
use rc_tree::{Attr, NoMemory, Scan, Text};
use rc_wild::Pattern;
use std::alloc::Global;

/// The settings of a job.
#[derive(Debug, Drop)]
pub struct Job {
    /// `/SD`, or the first word that is no switch: the source root as it was given.
    pub source: Option<Text>,
    /// `/DD`, or the second such word: the target root.
    pub target: Option<Text>,
    /// `/NOSD`: a job file without a source.
    pub no_source: bool,
    /// `/NODD`: a job file without a target.
    pub no_target: bool,
    /// `/IF` and the further words: which files are asked for, by their names.
    pub files: Patterns,
    /// `/S` and `/E`.
    pub sub: Sub,
    /// `/LEV`: how many levels of directories are mirrored, the root's the first; from 1 to 65535.
    pub lev: Option<u32>,
    /// `/PURGE`: what the source lacks is removed from the target.
    pub purge: bool,
    /// `/MOV` and `/MOVE`.
    pub moving: Moving,
    /// `/CREATE`: files are copied without their bytes.
    pub create: bool,
    /// `/COPY`, `/SEC`, `/COPYALL` and `/NOCOPY`.
    pub copy: CopyFlags,
    /// `/DCOPY` and `/NODCOPY`.
    pub dcopy: DirectoryFlags,
    /// `/SECFIX`: security is brought over to files that are not copied.
    pub secfix: bool,
    /// `/TIMFIX`: times are.
    pub timfix: bool,
    /// `/A+`: attributes that copied files get. Sparse, compressed, offline and encrypted are never among them.
    pub plus: Attr,
    /// `/A-`: attributes that copied files lose. Sparse, compressed, offline and encrypted are never among them.
    pub minus: Attr,
    /// `/A`: only files with the attribute ARCHIVE are copied.
    pub only_a: bool,
    /// `/M`: the same, and the source's attribute is cleared.
    pub only_m: bool,
    /// `/IA`: only files with one of these attributes are copied; none where it was not given. Sparse is never among
    /// them.
    pub ia: Attr,
    /// `/XA`: files with one of these are not. Sparse is never among them.
    pub xa: Attr,
    /// `/XF`: files that are left out.
    pub xf: Excludes,
    /// `/XD`: directories that are.
    pub xd: Excludes,
    /// `/XC`: changed files are kept as they are.
    pub xc: bool,
    /// `/XN`: newer ones are.
    pub xn: bool,
    /// `/XO`: older ones are.
    pub xo: bool,
    /// `/XL`: entries that the target lacks are not copied.
    pub xl: bool,
    /// `/XX`: entries that the source lacks are left alone.
    pub xx: bool,
    /// `/IS`: files in which nothing differs are copied too.
    pub with_same: bool,
    /// `/IT`: files that differ in a compared attribute alone are copied too.
    pub with_tweaked: bool,
    /// `/MAX`: the greatest size of a file that is copied, in bytes.
    pub max: Option<u64>,
    /// `/MIN`: the least.
    pub min: Option<u64>,
    /// `/MAXAGE`: the oldest a file may be: below 1900 in days, else a date YYYYMMDD.
    pub maxage: Option<u32>,
    /// `/MINAGE`: the newest, in the same way.
    pub minage: Option<u32>,
    /// `/FFT`: written times two seconds apart are the same.
    pub fft: bool,
    /// `/DST`: written times one hour apart are the same too.
    pub dst: bool,
    /// `/X`: extra files that no pattern names are reported too.
    pub all_extras: bool,
    /// `/Z` and `/ZB`: files are copied by strides of 1 MiB, each with a mark of its own.
    pub strides: bool,
    /// `/MT`: how many workers copy, from 1 to 128.
    pub workers: u8,
    /// `/R`: how often a failed call is tried again, up to 1000000000 times.
    pub retries: u32,
    /// `/W`: the seconds between two tries, up to 1000000000.
    pub wait: u32,
    /// `/L`: the plan is listed and nothing is changed.
    pub list_only: bool,
    /// `/V`: the report has skipped files too.
    pub verbose: bool,
    /// `/NFL`: the report has no files.
    pub nfl: bool,
    /// `/NDL`: it has no directories.
    pub ndl: bool,
    /// `/NC`: it has no classes.
    pub nc: bool,
    /// `/NS`: it has no sizes.
    pub ns: bool,
    /// `/NJH`: it has no header.
    pub njh: bool,
    /// `/NJS`: it has no summary.
    pub njs: bool,
    /// `/BYTES`: sizes are plain numbers of bytes.
    pub plain_bytes: bool,
    /// `/FP`: paths begin with their root.
    pub full_path: bool,
    /// `/TS`: the report has written times.
    pub with_time: bool,
    /// `/SCAN`: how a site without change times finds changed files.
    pub scan: Scan,
}

impl Job {
    /// The job of no settings: each has its default, and the files are `*.*`.
    pub fn new(alloc: Global) -> Result<Job, NoMemory>
        ensures { IfOk result (λ job. job ≡ default_job) }
    {
        Ok(Job {
            source: None,
            target: None,
            no_source: false,
            no_target: false,
            files: all_files(alloc)?,
            sub: Sub::None,
            lev: None,
            purge: false,
            moving: Moving::No,
            create: false,
            copy: CopyFlags::dat(),
            dcopy: DirectoryFlags::attributes_alone(),
            secfix: false,
            timfix: false,
            plus: Attr::NONE,
            minus: Attr::NONE,
            only_a: false,
            only_m: false,
            ia: Attr::NONE,
            xa: Attr::NONE,
            xf: Excludes::new(Vec::new(alloc)),
            xd: Excludes::new(Vec::new(alloc)),
            xc: false,
            xn: false,
            xo: false,
            xl: false,
            xx: false,
            with_same: false,
            with_tweaked: false,
            max: None,
            min: None,
            maxage: None,
            minage: None,
            fft: false,
            dst: false,
            all_extras: false,
            strides: false,
            workers: 1,
            retries: 1000000,
            wait: 30,
            list_only: false,
            verbose: false,
            nfl: false,
            ndl: false,
            nc: false,
            ns: false,
            njh: false,
            njs: false,
            plain_bytes: false,
            full_path: false,
            with_time: false,
            scan: Scan::Size,
        })
    }

    /// An equal job.
    pub fn copy(&self, alloc: Global) -> Result<Job, NoMemory>
        ensures { IfOk result (λ copy. copy ≡ self.now) }
    {
        Ok(Job {
            source: copy_root(alloc, &self.source)?,
            target: copy_root(alloc, &self.target)?,
            no_source: self.no_source,
            no_target: self.no_target,
            files: self.files.copy(alloc)?,
            sub: self.sub,
            lev: self.lev,
            purge: self.purge,
            moving: self.moving,
            create: self.create,
            copy: self.copy,
            dcopy: self.dcopy,
            secfix: self.secfix,
            timfix: self.timfix,
            plus: self.plus,
            minus: self.minus,
            only_a: self.only_a,
            only_m: self.only_m,
            ia: self.ia,
            xa: self.xa,
            xf: self.xf.copy(alloc)?,
            xd: self.xd.copy(alloc)?,
            xc: self.xc,
            xn: self.xn,
            xo: self.xo,
            xl: self.xl,
            xx: self.xx,
            with_same: self.with_same,
            with_tweaked: self.with_tweaked,
            max: self.max,
            min: self.min,
            maxage: self.maxage,
            minage: self.minage,
            fft: self.fft,
            dst: self.dst,
            all_extras: self.all_extras,
            strides: self.strides,
            workers: self.workers,
            retries: self.retries,
            wait: self.wait,
            list_only: self.list_only,
            verbose: self.verbose,
            nfl: self.nfl,
            ndl: self.ndl,
            nc: self.nc,
            ns: self.ns,
            njh: self.njh,
            njs: self.njs,
            plain_bytes: self.plain_bytes,
            full_path: self.full_path,
            with_time: self.with_time,
            scan: self.scan,
        })
    }
}

// The patterns of a job that names none.
fn all_files(alloc: Global) -> Result<Patterns, NoMemory>
    ensures { IfOk result (λ files. files ≡ codes "*.*" ∷ []) }
{
    match Pattern::read(alloc, "*.*") {
        Ok(pattern) => Ok(Patterns::new(vec![in alloc; pattern]?)),
        Err(_) => Err(NoMemory),
    }
}

fn copy_root(alloc: Global, root: &Option<Text>) -> Result<Option<Text>, NoMemory>
    ensures { IfOk result (λ copy. copy ≡ root.now) }
{
    match root {
        Some(text) => Ok(Some(text.copy(alloc)?)),
        None => Ok(None),
    }
}
