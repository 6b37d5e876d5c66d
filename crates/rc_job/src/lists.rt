//! Settings that are lists of patterns.
ghost use Rattle.std.specs.Prelude.{◌≡◌, IfOk, chars};

use rc_tree::NoMemory;
use rc_wild::{PathPattern, Pattern};
use std::alloc::Global;
use std::marker::Model;

/// The patterns of `/IF` and of the words that are no switch: which files are asked for. Contracts see it as the list
/// of the patterns.
#[derive(Debug, Drop)]
pub struct Patterns {
    patterns: Vec<Pattern>,
}

impl Model for Patterns {
    ghost use Rattle.std.specs.Prelude.{List, ℕ};

    ghost Value = { List (List ℕ) };

    ghost view = { λ p. p.patterns.items };
}

impl Patterns {
    /// These patterns.
    pub fn new(patterns: Vec<Pattern>) -> Patterns
        ensures { result ≡ patterns.items }
    {
        Patterns { patterns }
    }

    /// The patterns, in their order.
    pub fn as_slice(&self) -> &[Pattern]
        ensures { result.now ≡ self.now }
    {
        self.patterns.as_slice()
    }

    /// The patterns, without taking memory.
    pub fn into_vec(self) -> Vec<Pattern>
        ensures { result.items ≡ self }
    {
        let Patterns { patterns } = self;
        patterns
    }

    /// Equal patterns.
    pub fn copy(&self, alloc: Global) -> Result<Patterns, NoMemory>
        ensures { IfOk result (λ copy. copy ≡ self.now) }
    {
        Ok(Patterns {
            patterns: copy_patterns(alloc, self.patterns.as_slice())?,
        })
    }
}

/// A value of `/XF` or `/XD`: what is excluded.
#[derive(Debug, Drop)]
pub enum Exclude {
    /// What has a name that the pattern matches.
    Name(Pattern),
    /// What has a path that the pattern matches.
    Path(PathPattern),
}

impl Exclude {
    ghost use Rattle.rc_job.specs.Values.{exclude_text};

    /// The value as it was read.
    pub fn text(&self) -> &str
        ensures { chars result.now ≡ exclude_text self.now }
    {
        match self {
            Exclude::Name(pattern) => pattern.text(),
            Exclude::Path(pattern) => pattern.text(),
        }
    }

    /// An equal value.
    pub fn copy(&self, alloc: Global) -> Result<Exclude, NoMemory>
        ensures { IfOk result (λ copy. copy ≡ self.now) }
    {
        match self {
            Exclude::Name(pattern) => Ok(Exclude::Name(pattern.copy(alloc)?)),
            Exclude::Path(pattern) => Ok(Exclude::Path(pattern.copy(alloc)?)),
        }
    }
}

/// The values of `/XF` or `/XD`. Contracts see it as the list of them.
#[derive(Debug, Drop)]
pub struct Excludes {
    values: Vec<Exclude>,
}

impl Model for Excludes {
    ghost use Rattle.std.specs.Prelude.{List};
    ghost use Rattle.rc_job.specs.declared.lists.Exclude.{Exclude};

    ghost Value = { List Exclude };

    ghost view = { λ e. e.values.items };
}

impl Excludes {
    /// These values.
    pub fn new(values: Vec<Exclude>) -> Excludes
        ensures { result ≡ values.items }
    {
        Excludes { values }
    }

    /// The values, in their order.
    pub fn as_slice(&self) -> &[Exclude]
        ensures { result.now ≡ self.now }
    {
        self.values.as_slice()
    }

    /// The values, without taking memory.
    pub fn into_vec(self) -> Vec<Exclude>
        ensures { result.items ≡ self }
    {
        let Excludes { values } = self;
        values
    }

    /// Equal values.
    pub fn copy(&self, alloc: Global) -> Result<Excludes, NoMemory>
        ensures { IfOk result (λ copy. copy ≡ self.now) }
    {
        Ok(Excludes {
            values: copy_values(alloc, self.values.as_slice())?,
        })
    }
}

fn copy_patterns(alloc: Global, patterns: &[Pattern]) -> Result<Vec<Pattern>, NoMemory>
    ensures { IfOk result (λ copy. copy.items ≡ patterns.now) }
{
    let mut copy = Vec::with_capacity(alloc, patterns.len())?;
    for pattern in patterns {
        copy.push(pattern.copy(alloc)?)?;
    }
    Ok(copy)
}

fn copy_values(alloc: Global, values: &[Exclude]) -> Result<Vec<Exclude>, NoMemory>
    ensures { IfOk result (λ copy. copy.items ≡ values.now) }
{
    let mut copy = Vec::with_capacity(alloc, values.len())?;
    for value in values {
        copy.push(value.copy(alloc)?)?;
    }
    Ok(copy)
}
