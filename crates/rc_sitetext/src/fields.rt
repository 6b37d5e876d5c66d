//! The fields of a line, with a tab between them.

ghost use Rattle.std.specs.Prelude.{◌≡◌, IfErr};
ghost use Rattle.rc_sitetext.specs.Reading.{Gives, cut, last_field, value_behind, kind_of, last_texts, entry_texts, job_texts};
ghost use Rattle.rc_sitetext.specs.Lines.{texts_of, last_of_texts};

use crate::err::ValueErr;
use rc_tree::Kind;

/// The fields of an entry's line. A directory has the size 0 and the content of no bytes.
#[derive(Clone, Copy, Debug)]
pub(crate) struct EntryTexts<'a> {
    pub(crate) kind: Kind,
    pub(crate) path: &'a str,
    pub(crate) attr: &'a str,
    pub(crate) created: &'a str,
    pub(crate) written: &'a str,
    pub(crate) access: &'a str,
    pub(crate) owner: &'a str,
    pub(crate) last: LastTexts<'a>,
}

/// The last ones of them.
#[derive(Clone, Copy, Debug)]
pub(crate) struct LastTexts<'a> {
    pub(crate) audit: &'a str,
    pub(crate) size: &'a str,
    pub(crate) content: &'a str,
}

// What is left of a line.
#[derive(Drop)]
struct Fields<'a> {
    rest: &'a str,
}

impl<'a> Fields<'a> {
    // The next field, where another one comes behind it.
    fn next(&mut self) -> Result<&'a str, ValueErr>
        ensures field { Gives (λ f. (f.now, self.new.rest.now)) result
            (cut 9 self.old.rest.now) }
        ensures refused { IfErr result (λ e. e ≡ ValueErr.Refused) }
    {
        match self.rest.split_once('\t') {
            Some((field, rest)) => {
                self.rest = rest;
                Ok(field)
            }
            None => Err(ValueErr::Refused),
        }
    }

    // The last field.
    #[tactic(auto, unfolding(crate::specs::Reading::last_field))]
    fn last(&self) -> Result<&'a str, ValueErr>
        ensures field { Gives (λ f. f.now) result (last_field self.now.rest.now) }
        ensures refused { IfErr result (λ e. e ≡ ValueErr.Refused) }
    {
        match self.rest.split_once('\t') {
            Some(_) => Err(ValueErr::Refused),
            None => Ok(self.rest),
        }
    }

    #[tactic(auto, unfolding(crate::specs::Reading::last_texts))]
    fn last_texts(&mut self, kind: Kind) -> Result<LastTexts<'a>, ValueErr>
        ensures { Gives last_of_texts result (last_texts kind self.old.rest.now) }
    {
        match kind {
            Kind::Dir => Ok(LastTexts {
                audit: self.last()?,
                size: "0",
                content: "-",
            }),
            Kind::File => {
                let audit = self.next()?;
                let size = self.next()?;
                let content = self.last()?;
                Ok(LastTexts {
                    audit,
                    size,
                    content,
                })
            }
        }
    }
}

/// The field behind `tag`, where the line has just these two.
#[tactic(auto, unfolding(crate::specs::Reading::value_behind))]
pub(crate) fn value_behind<'a>(line: &'a str, tag: &str) -> Result<&'a str, ValueErr>
    ensures field { Gives (λ f. f.now) result (value_behind tag.now line.now) }
    ensures refused { IfErr result (λ e. e ≡ ValueErr.Refused) }
{
    let mut fields = Fields { rest: line };
    if fields.next()? == tag {
        fields.last()
    } else {
        Err(ValueErr::Refused)
    }
}

// The kind that this letter stands for.
fn kind_of(text: &str) -> Result<Kind, ValueErr>
    ensures { Gives (λ k. k) result (kind_of text.now) }
{
    if text == "F" {
        Ok(Kind::File)
    } else if text == "D" {
        Ok(Kind::Dir)
    } else {
        Err(ValueErr::Refused)
    }
}

/// The fields of an entry's line: ten of a file, eight of a directory.
#[tactic(auto, unfolding(crate::specs::Reading::entry_texts))]
pub(crate) fn entry_texts(line: &str) -> Result<EntryTexts<'_>, ValueErr>
    ensures { Gives texts_of result (entry_texts line.now) }
{
    let mut fields = Fields { rest: line };
    let kind = kind_of(fields.next()?)?;
    let path = fields.next()?;
    let attr = fields.next()?;
    let created = fields.next()?;
    let written = fields.next()?;
    let access = fields.next()?;
    let owner = fields.next()?;
    let last = fields.last_texts(kind)?;
    Ok(EntryTexts {
        kind,
        path,
        attr,
        created,
        written,
        access,
        owner,
        last,
    })
}

/// The name and the bytes of a job file's line.
#[derive(Clone, Copy, Debug)]
pub(crate) struct JobTexts<'a> {
    pub(crate) name: &'a str,
    pub(crate) bytes: &'a str,
}

#[tactic(auto, unfolding(crate::specs::Reading::job_texts))]
pub(crate) fn job_texts(line: &str) -> Result<JobTexts<'_>, ValueErr>
    ensures { Gives (λ t. (t.name.now, t.bytes.now)) result (job_texts line.now) }
{
    let mut fields = Fields { rest: line };
    if fields.next()? != "JOB" {
        return Err(ValueErr::Refused);
    }
    let name = fields.next()?;
    let bytes = fields.last()?;
    Ok(JobTexts { name, bytes })
}
