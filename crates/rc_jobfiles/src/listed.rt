//! The values of lists that settings give.
ghost use Rattle.std.specs.Prelude.{◌≡◌, [], ◌∷◌, IfOk, OnOk, codes};
ghost use Rattle.rc_words.specs.declared.setting.Placed.{Placed};
ghost use Rattle.rc_jobfiles.specs.Merge.{files_or_all};
ghost use Rattle.rc_jobfiles.specs.Reading.{Joins};

use rc_job::{Exclude, Job, Patterns};
use rc_tree::NoMemory;
use rc_wild::Pattern;
use rc_words::{Placed, Setting};
use std::alloc::Global;
use std::marker::Model;

/// The settings that the words of one list give. Contracts see the list.
#[derive(Debug, Drop)]
pub(crate) struct OwnSettings {
    settings: Vec<Placed>,
}

impl Model for OwnSettings {
    ghost use Rattle.std.specs.Prelude.{List};
    ghost use Rattle.rc_words.specs.declared.setting.Placed.{Placed};

    ghost Value = { List Placed };

    ghost view = { λ o. o.settings.items };
}

impl OwnSettings {
    pub(crate) fn new(settings: Vec<Placed>) -> OwnSettings
        ensures { result ≡ settings.items }
    {
        OwnSettings { settings }
    }

    pub(crate) fn settings(&self) -> &[Placed]
        ensures { result.now ≡ self.now }
    {
        self.settings.as_slice()
    }
}

/// Patterns of files that are asked for, and what is left out, each in the order of the words.
#[derive(Debug, Drop)]
pub(crate) struct ListValues {
    pub files: Vec<Pattern>,
    pub excluded_files: Vec<Exclude>,
    pub excluded_dirs: Vec<Exclude>,
}

impl ListValues {
    pub(crate) fn new(alloc: Global) -> ListValues
        ensures files { result.files.items ≡ [] }
        ensures excluded_files { result.excluded_files.items ≡ [] }
        ensures excluded_dirs { result.excluded_dirs.items ≡ [] }
    {
        ListValues {
            files: Vec::new(alloc),
            excluded_files: Vec::new(alloc),
            excluded_dirs: Vec::new(alloc),
        }
    }

    /// Joins the value that a setting gives of a list, where it does.
    pub(crate) fn join(&mut self, alloc: Global, placed: &Placed) -> Result<(), NoMemory>
        ensures { OnOk result (Joins self.old self.new (placed.now ∷ [])) }
    {
        match &placed.setting {
            Setting::File(pattern) => self.files.push(pattern.copy(alloc)?)?,
            Setting::ExcludeFile(value) => self.excluded_files.push(value.copy(alloc)?)?,
            Setting::ExcludeDir(value) => self.excluded_dirs.push(value.copy(alloc)?)?,
            _ => {}
        }
        Ok(())
    }
}

/// These patterns, or that of all files where there is none.
pub(crate) fn files_or_all(alloc: Global, files: Vec<Pattern>) -> Result<Patterns, NoMemory>
    ensures { IfOk result (λ made. made ≡ files_or_all files.items) }
{
    if files.is_empty() {
        return all_files(alloc);
    }
    Ok(Patterns::new(files))
}

// Those of a job that names none.
fn all_files(alloc: Global) -> Result<Patterns, NoMemory>
    ensures { IfOk result (λ files. files ≡ codes "*.*" ∷ []) }
{
    match Job::new(alloc) {
        Ok(job) => Ok(job.files),
        Err(e) => Err(e),
    }
}
