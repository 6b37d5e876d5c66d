//! A site, written line by line.

ghost use Rattle.std.specs.Prelude.{◌≡◌, ◌<◌, ◌++◌, ◌∷◌, [], List, true, map, codes, IfOk, OnOk, OnErr, string_bytes, if◌then◌else◌};
ghost use Rattle.std.specs.List.{flat_map, join_with_byte};
ghost use Rattle.std.specs.Str.{encode_utf8_all};
ghost use Rattle.hex.specs.Hex.{encode_lower};
ghost use Rattle.rc_volume.specs.Faults.{RisesIf};
ghost use Rattle.rc_volume.specs.Streams.{AppendsFront, sink_failed};
ghost use Rattle.rc_mem.specs.MemSite.{told_by};
ghost use Rattle.rc_mem.specs.Nodes.{node_of};
ghost use Rattle.rc_sitetext.specs.SiteText.{AreFiles, JobText, letters, flags_of, marked, attr_text, hex_text, content_text, props_fields, kind_text, path_text, entry_line, tree_lines, head_text, record_line, job_line, site_text};
ghost use Rattle.rc_sitetext.specs.Writing.{job_bytes_line, job_text, jobs_text, last_text, node_line, target_text};

use crate::values::is_repeated;
use rc_mem::{JobBytes, MemJobs, MemSite, Nodes, Tree, TreeNode};
use rc_tree::{Attr, Kind, Name, Path, Props, Text};
use rc_volume::{Side, Sink, SinkErr};
use std::alloc::{AllocError, Global};
use std::collections::btree_map::Values;

// Writes the letter where it is to be there.
fn put_flag(line: &mut String, has: bool, letter: char) -> Result<(), AllocError>
    requires { letter < 128 }
    ensures { OnOk result
        (string_bytes line.new ≡ string_bytes line.old ++ (if has then letter ∷ [] else [])) }
{
    if has { line.push(letter) } else { Ok(()) }
}

fn put_flags(line: &mut String, attr: Attr) -> Result<(), AllocError>
    ensures { OnOk result
        (string_bytes line.new ≡ string_bytes line.old ++ marked letters (flags_of attr)) }
{
    put_flag(line, attr.readonly, 'R')?;
    put_flag(line, attr.archive, 'A')?;
    put_flag(line, attr.system, 'S')?;
    put_flag(line, attr.hidden, 'H')?;
    put_flag(line, attr.compressed, 'C')?;
    put_flag(line, attr.not_indexed, 'N')?;
    put_flag(line, attr.encrypted, 'E')?;
    put_flag(line, attr.temporary, 'T')?;
    put_flag(line, attr.offline, 'O')?;
    put_flag(line, attr.sparse, 'P')?;
    Ok(())
}

// Writes the letters of the attributes, or `-` where there are none.
fn put_attr(line: &mut String, attr: Attr) -> Result<(), AllocError>
    ensures { OnOk result (string_bytes line.new ≡ string_bytes line.old ++ attr_text attr) }
{
    let start = line.len();
    put_flags(line, attr)?;
    if line.len() == start {
        line.push('-')?;
    }
    Ok(())
}

// Writes bytes as lower-case hexadecimal.
fn put_hex(alloc: Global, line: &mut String, bytes: &[u8]) -> Result<(), AllocError>
    ensures { OnOk result
        (string_bytes line.new ≡ string_bytes line.old ++ encode_lower bytes.now) }
{
    line.push_str(hex::encode(alloc, bytes)?.as_str())
}

// Writes a security string: its bytes, or `-` where there are none.
fn put_security(alloc: Global, line: &mut String, bytes: &[u8]) -> Result<(), AllocError>
    ensures { OnOk result (string_bytes line.new ≡ string_bytes line.old ++ hex_text bytes.now) }
{
    if bytes.is_empty() {
        line.push('-')
    } else {
        put_hex(alloc, line, bytes)
    }
}

// Writes the content of a file, in its shortest form.
fn put_content(alloc: Global, line: &mut String, bytes: &[u8]) -> Result<(), AllocError>
    ensures { OnOk result
        (string_bytes line.new ≡ string_bytes line.old ++ content_text bytes.now) }
{
    if is_repeated(bytes) {
        line.push('*')?;
        put_hex(alloc, line, &bytes[..1])
    } else {
        put_security(alloc, line, bytes)
    }
}

// Writes the names of a path with `\` between them.
fn put_path(line: &mut String, path: &Path) -> Result<(), AllocError>
    ensures { OnOk result (string_bytes line.new ≡ string_bytes line.old ++ path_text path.now) }
{
    match path.names() {
        [] => Ok(()),
        [first, rest @ ..] => {
            line.push_str(first.text())?;
            put_below(line, rest)
        }
    }
}

// Writes each name behind a `\`.
fn put_below(line: &mut String, names: &[Name]) -> Result<(), AllocError>
    ensures { OnOk result (string_bytes line.new
        ≡ string_bytes line.old ++ flat_map (λ next. 92 ∷ encode_utf8_all next) names.now) }
{
    for name in names {
        line.push('\\')?;
        line.push_str(name.text())?;
    }
    Ok(())
}

fn put_props(alloc: Global, line: &mut String, props: &Props) -> Result<(), AllocError>
    ensures { OnOk result (string_bytes line.new
        ≡ string_bytes line.old ++ join_with_byte 9 (props_fields props.now)) }
{
    put_attr(line, props.attr)?;
    let created = props.created.units();
    let written = props.written.units();
    write!(line, "\t{created}\t{written}\t")?;
    put_security(alloc, line, props.access.bytes())?;
    line.push('\t')?;
    put_security(alloc, line, props.owner.bytes())?;
    line.push('\t')?;
    put_security(alloc, line, props.audit.bytes())?;
    Ok(())
}

// Writes the size and the content of a file. A directory has none.
fn put_last(alloc: Global, line: &mut String, node: &TreeNode) -> Result<(), AllocError>
    ensures { OnOk result (string_bytes line.new
        ≡ string_bytes line.old ++ last_text node.now.kind node.now.bytes) }
{
    match node.kind {
        Kind::Dir => Ok(()),
        Kind::File => {
            let bytes = node.bytes.as_slice();
            let size = bytes.len();
            write!(line, "\t{size}\t")?;
            put_content(alloc, line, bytes)
        }
    }
}

// Writes the line of an entry.
fn put_entry(alloc: Global, line: &mut String, node: &TreeNode) -> Result<(), AllocError>
    ensures { OnOk result (string_bytes line.new
        ≡ string_bytes line.old ++ entry_line node.now.path (node_of node.now)) }
{
    line.push_str(letter_of(node.kind))?;
    put_path(line, &node.path)?;
    line.push('\t')?;
    put_props(alloc, line, &node.props)?;
    put_last(alloc, line, node)?;
    line.push('\n')?;
    Ok(())
}

// The letter of a kind, and the tab behind it.
fn letter_of(kind: Kind) -> &'static str
    ensures { result.now ≡ kind_text kind ++ codes "\t" }
{
    match kind {
        Kind::File => "F\t",
        Kind::Dir => "D\t",
    }
}

// Writes the lines before those of the source's entries.
fn put_head(line: &mut String, moment: u64) -> Result<(), AllocError>
    ensures { OnOk result (string_bytes line.new ≡ string_bytes line.old ++ head_text moment) }
{
    write!(line, "SITE\t1\nMOMENT\t{moment}\nSOURCE\n")
}

// Writes them to the sink, in the room of `line`.
fn send_head<K: Sink>(
    alloc: Global,
    out: &mut K,
    line: &mut String,
    moment: u64,
) -> Result<(), SinkErr>
    ensures written { K.tells ≡ true → OnOk result
        (K.received out.new ≡ K.received out.old ++ head_text moment) }
    ensures front { K.tells ≡ true → OnErr result
        (AppendsFront (K.received out.old) (head_text moment) (K.received out.new)) }
    ensures cause { RisesIf (sink_failed result) (K.faults out.old) (K.faults out.new) }
{
    line.clear();
    if put_head(line, moment).is_err() {
        return Err(SinkErr::NoMemory);
    }
    out.write(alloc, line.as_bytes())
}

// Writes the line of an entry to the sink, in the room of `line`.
fn send_entry<K: Sink>(
    alloc: Global,
    out: &mut K,
    line: &mut String,
    node: &TreeNode,
) -> Result<(), SinkErr>
    ensures written { K.tells ≡ true → OnOk result
        (K.received out.new ≡ K.received out.old ++ node_line node.now) }
    ensures front { K.tells ≡ true → OnErr result
        (AppendsFront (K.received out.old) (node_line node.now) (K.received out.new)) }
    ensures cause { RisesIf (sink_failed result) (K.faults out.old) (K.faults out.new) }
{
    line.clear();
    if put_entry(alloc, line, node).is_err() {
        return Err(SinkErr::NoMemory);
    }
    out.write(alloc, line.as_bytes())
}

// Writes the lines of entries, each in the room of `line`.
fn send_entries<K: Sink>(
    alloc: Global,
    out: &mut K,
    line: &mut String,
    nodes: Nodes<'_>,
) -> Result<(), SinkErr>
    ensures written { K.tells ≡ true → OnOk result
        (K.received out.new ≡ K.received out.old ++ flat_map node_line nodes.entry) }
    ensures front { K.tells ≡ true → OnErr result
        (AppendsFront (K.received out.old) (flat_map node_line nodes.entry)
        (K.received out.new)) }
    ensures cause { RisesIf (sink_failed result) (K.faults out.old) (K.faults out.new) }
{
    for node in nodes {
        send_entry(alloc, out, line, node)?;
    }
    Ok(())
}

// Writes the lines of a tree's entries to the sink, and then what ends them.
fn send_side<K: Sink>(
    alloc: Global,
    out: &mut K,
    line: &mut String,
    tree: &Tree,
    end: &str,
) -> Result<(), SinkErr>
    ensures written { K.tells ≡ true → OnOk result
        (K.received out.new ≡ K.received out.old ++ (tree_lines tree.now ++ end.now)) }
    ensures front { K.tells ≡ true → OnErr result
        (AppendsFront (K.received out.old) (tree_lines tree.now ++ end.now) (K.received out.new)) }
    ensures cause { RisesIf (sink_failed result) (K.faults out.old) (K.faults out.new) }
{
    send_entries(alloc, out, line, tree.nodes())?;
    out.write(alloc, end.as_bytes())?;
    Ok(())
}

// The line of the record.
fn record_text(alloc: Global, notes: &[u8]) -> Result<String, AllocError>
    ensures { IfOk result (λ text. string_bytes text ≡ record_line notes.now) }
{
    let mut line = String::new(alloc);
    put_record(alloc, &mut line, notes)?;
    Ok(line)
}

fn put_record(alloc: Global, line: &mut String, notes: &[u8]) -> Result<(), AllocError>
    ensures { OnOk result (string_bytes line.new ≡ string_bytes line.old ++ record_line notes.now) }
{
    line.push_str("RECORD\t")?;
    put_security(alloc, line, notes)?;
    line.push_str("\n")
}

// Writes the target's entries and the record.
fn send_target<K: Sink>(
    alloc: Global,
    out: &mut K,
    line: &mut String,
    site: &MemSite,
) -> Result<(), SinkErr>
    ensures written { K.tells ≡ true → OnOk result (K.received out.new
        ≡ K.received out.old ++ target_text (told_by site.now)) }
    ensures front { K.tells ≡ true → OnErr result (AppendsFront (K.received out.old)
        (target_text (told_by site.now)) (K.received out.new)) }
    ensures cause { RisesIf (sink_failed result) (K.faults out.old) (K.faults out.new) }
{
    let Ok(end) = record_text(alloc, site.notes()) else {
        return Err(SinkErr::NoMemory);
    };
    send_side(alloc, out, line, site.tree(Side::Target), &end)
}

// Writes the line of a job file.
fn put_job(alloc: Global, line: &mut String, job: &JobBytes) -> Result<(), AllocError>
    ensures { OnOk result
        (string_bytes line.new ≡ string_bytes line.old ++ job_line (job_text job.now)) }
{
    line.push_str("JOB\t")?;
    line.push_str(job.name.text())?;
    line.push('\t')?;
    put_security(alloc, line, &job.bytes)?;
    line.push_str("\n")?;
    Ok(())
}

// Writes it to the sink, in the room of `line`.
fn send_job<K: Sink>(
    alloc: Global,
    out: &mut K,
    line: &mut String,
    job: &JobBytes,
) -> Result<(), SinkErr>
    ensures written { K.tells ≡ true → OnOk result
        (K.received out.new ≡ K.received out.old ++ job_line (job_text job.now)) }
    ensures front { K.tells ≡ true → OnErr result
        (AppendsFront (K.received out.old) (job_line (job_text job.now)) (K.received out.new)) }
    ensures cause { RisesIf (sink_failed result) (K.faults out.old) (K.faults out.new) }
{
    line.clear();
    if put_job(alloc, line, job).is_err() {
        return Err(SinkErr::NoMemory);
    }
    out.write(alloc, line.as_bytes())
}

// Writes the lines of job files, each in the room of `line`.
fn send_files<K: Sink>(
    alloc: Global,
    out: &mut K,
    line: &mut String,
    files: Values<'_, Text, JobBytes>,
) -> Result<(), SinkErr>
    ensures written { K.tells ≡ true → OnOk result
        (K.received out.new ≡ K.received out.old ++ flat_map job_bytes_line files.entry) }
    ensures front { K.tells ≡ true → OnErr result
        (AppendsFront (K.received out.old) (flat_map job_bytes_line files.entry)
        (K.received out.new)) }
    ensures cause { RisesIf (sink_failed result) (K.faults out.old) (K.faults out.new) }
{
    for job in files {
        send_job(alloc, out, line, job)?;
    }
    Ok(())
}

// Writes the lines of the job files and the end.
fn send_jobs<K: Sink>(
    alloc: Global,
    out: &mut K,
    line: &mut String,
    files: Values<'_, Text, JobBytes>,
) -> Result<(), SinkErr>
    ensures written { K.tells ≡ true → OnOk result
        (K.received out.new ≡ K.received out.old ++ jobs_text (map job_text files.entry)) }
    ensures front { K.tells ≡ true → OnErr result (AppendsFront (K.received out.old)
        (jobs_text (map job_text files.entry)) (K.received out.new)) }
    ensures cause { RisesIf (sink_failed result) (K.faults out.old) (K.faults out.new) }
{
    send_files(alloc, out, line, files)?;
    out.write(alloc, "END\n".as_bytes())?;
    Ok(())
}

/// Writes the site text of a site, a moment and job files.
pub fn write_site<K: Sink>(
    alloc: Global,
    out: &mut K,
    site: &MemSite,
    moment: u64,
    jobs: &MemJobs,
) -> Result<(), SinkErr>
    ensures written { K.tells ≡ true → OnOk result ((files : List JobText)
        × AreFiles jobs.now files
        × (K.received out.new ≡ K.received out.old
        ++ site_text moment (told_by site.now) files)) }
    ensures front { K.tells ≡ true → OnErr result ((files : List JobText)
        × AreFiles jobs.now files
        × AppendsFront (K.received out.old) (site_text moment (told_by site.now) files)
        (K.received out.new)) }
    ensures cause { RisesIf (sink_failed result) (K.faults out.old) (K.faults out.new) }
{
    let files = jobs.files();
    let mut line = String::new(alloc);
    send_head(alloc, out, &mut line, moment)?;
    send_side(alloc, out, &mut line, site.tree(Side::Source), "TARGET\n")?;
    send_target(alloc, out, &mut line, site)?;
    send_jobs(alloc, out, &mut line, files)?;
    Ok(())
}
