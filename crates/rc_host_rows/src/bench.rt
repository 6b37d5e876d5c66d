//! A site over two folders of the host, whose calls are made by the words of a table.

use crate::change::change_answer;
use crate::folder::{host_answer, make_folder};
use crate::jobs::job_answer;
use crate::looks::look_answer;
use crate::reads::read_answer;
use crate::record::record_answer;
use crate::rows::row_answer;
use crate::words::{read_moment, side_and_path};
use rc_host::HostSite;
use rc_tree::Scan;
use rc_volume::{BindErr, Side, Site};
use std::alloc::Global;
use std::fs;
use std::test::Fail;

// A call, the entry or the file that it is on, what else it takes, and its answer in words. A call
// that begins with `host` is one of the host itself. A place is named from the folder of the test
// on, in which `s` and `t` are the roots.
pub(crate) type Step = (&'static str, &'static str, &'static str, &'static str);

// The folder of a test, the texts of the roots, and a site.
#[derive(Drop)]
pub(crate) struct Bench {
    pub(crate) rt: HostRuntime,
    pub(crate) folder: String,
    source: String,
    target: String,
    pub(crate) site: HostSite,
}

// Makes the calls of a table, one after another, in a folder of this name. Answers which step is
// not answered as it is to be, and how; nothing where all are.
pub(crate) fn miss(rt: &HostRuntime, name: &str, steps: &[Step]) -> Result<String, Fail> {
    let mut bench = Bench::new(rt, name)?;
    let miss = bench.miss(steps)?;
    bench.end()?;
    Ok(miss)
}

impl Bench {
    // A bench in a folder of this name, with a site that is not bound.
    pub(crate) fn new(rt: &HostRuntime, name: &str) -> Result<Bench, Fail> {
        let alloc = rt.alloc();
        let folder = make_folder(rt, name)?;
        Ok(Bench {
            rt: *rt,
            source: format!(in alloc; "{folder}/s")?,
            target: format!(in alloc; "{folder}/t")?,
            folder,
            site: HostSite::new(rt, alloc),
        })
    }

    // Lets the site go, and removes the folder.
    pub(crate) fn end(self) -> Result<(), Fail> {
        let Bench {
            rt,
            folder,
            source: _,
            target: _,
            site,
        } = self;
        drop(site);
        fs::remove_dir_all(&rt, &folder)?;
        Ok(())
    }

    pub(crate) fn miss(&mut self, steps: &[Step]) -> Result<String, Fail> {
        let alloc = self.rt.alloc();
        for (number, (call, at, with, wanted)) in steps.iter().enumerate() {
            let answer = self.answer(call, at, with)?;
            if answer.as_str() != *wanted {
                return Ok(format!(in alloc; "step {number} answers {answer}")?);
            }
        }
        Ok(String::new(alloc))
    }

    // The answer of a call.
    pub(crate) fn answer(&mut self, call: &str, at: &str, with: &str) -> Result<String, Fail> {
        let alloc = self.rt.alloc();
        if let Some(answer) = outer_answer(&self.rt, self.folder.as_str(), call, at, with)? {
            return Ok(answer);
        }
        if let Some(word) = self.bind_answer(alloc, call, at, with)? {
            return Ok(String::from_str(alloc, word)?);
        }
        site_answer(
            &mut self.site,
            &self.rt,
            self.folder.as_str(),
            call,
            at,
            with,
        )
    }

    // The calls that bind the roots, or say which they are.
    fn bind_answer(
        &mut self,
        alloc: Global,
        call: &str,
        at: &str,
        with: &str,
    ) -> Result<Option<&'static str>, Fail> {
        Ok(Some(match call {
            "roots" => self.name_roots(alloc, at, with)?,
            "leave" => self.leave(alloc),
            "open" => {
                self.leave(alloc);
                self.bind(alloc, at, with)?
            }
            "bind" => self.bind(alloc, at, with)?,
            "open beside" => self.bind_another(alloc),
            _ => return Ok(None),
        }))
    }

    // Names the roots by texts, from the folder on; `.` stays as it is.
    fn name_roots(
        &mut self,
        alloc: Global,
        source: &str,
        target: &str,
    ) -> Result<&'static str, Fail> {
        self.source = root_text(alloc, self.folder.as_str(), source)?;
        self.target = root_text(alloc, self.folder.as_str(), target)?;
        Ok("named")
    }

    // Lets the site go and takes another, which is not bound.
    fn leave(&mut self, alloc: Global) -> &'static str {
        self.site = HostSite::new(&self.rt, alloc);
        "left"
    }

    // Binds the roots at a moment, with changes found by `size` or by `digest`.
    fn bind(&mut self, alloc: Global, scan: &str, moment: &str) -> Result<&'static str, Fail> {
        let scan = match scan {
            "size" => Scan::Size,
            "digest" => Scan::Digest,
            _ => return Err("no scan")?,
        };
        let moment = read_moment(moment)?.units();
        let source = self.source.as_str();
        let target = self.target.as_str();
        Ok(bind_word(&self.site.bind(alloc, source, target, scan, moment)))
    }

    // Binds another site to the roots, which the bench's own still has.
    fn bind_another(&self, alloc: Global) -> &'static str {
        let mut other = HostSite::new(&self.rt, alloc);
        let source = self.source.as_str();
        let target = self.target.as_str();
        bind_word(&other.bind(alloc, source, target, Scan::Size, 1))
    }
}

fn root_text(alloc: Global, folder: &str, text: &str) -> Result<String, Fail> {
    if text == "." {
        return Ok(String::from_str(alloc, text)?);
    }
    Ok(format!(in alloc; "{folder}/{text}")?)
}

fn bind_word(bound: &Result<(), BindErr>) -> &'static str {
    match bound {
        Ok(()) => "done",
        Err(BindErr::Failed { side: Side::Source }) => "source refused",
        Err(BindErr::Failed { side: Side::Target }) => "target refused",
        Err(BindErr::NoMemory) => "no memory",
    }
}

// The calls that need no site.
fn outer_answer(
    rt: &HostRuntime,
    folder: &str,
    call: &str,
    at: &str,
    with: &str,
) -> Result<Option<String>, Fail> {
    if let Some(answer) = host_answer(rt, folder, call, at, with)? {
        return Ok(Some(answer));
    }
    if let Some(answer) = job_answer(rt, folder, call, at, with)? {
        return Ok(Some(answer));
    }
    row_answer(rt, folder, call, at)
}

// The calls of a site, but for `bind`.
fn site_answer(
    site: &mut HostSite,
    rt: &HostRuntime,
    folder: &str,
    call: &str,
    at: &str,
    with: &str,
) -> Result<String, Fail> {
    let alloc = rt.alloc();
    if let Some(answer) = record_answer(site, alloc, call, with)? {
        return Ok(answer);
    }
    let (side, path) = side_and_path(alloc, at)?;
    if let Some(answer) = look_answer(site, alloc, call, side, &path, with)? {
        return Ok(answer);
    }
    if let Some(answer) = read_answer(site, rt, folder, call, &path, at, with)? {
        return Ok(answer);
    }
    change_answer(site, alloc, call, side, &path, with)
}
