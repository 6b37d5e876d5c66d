//! Rows of job files and words, and what the words ask for.

use crate::stores::{ask, keep};
use rc_mem::MemJobs;
use std::alloc::Global;
use std::test::Fail;

// Keeps a job file; `|` stands for the ends of lines, `^` for carriage returns and `~` for tabs.
fn keep_spelled(alloc: Global, jobs: &mut MemJobs, spelled: &str) -> Result<(), Fail> {
    if let Some((name, text)) = spelled.split_once('>') {
        let mut bytes = Vec::new(alloc);
        for byte in text.bytes() {
            bytes.push(match byte {
                b'|' => b'\n',
                b'^' => b'\r',
                b'~' => b'\t',
                other => other,
            })?;
        }
        keep(alloc, jobs, name, bytes.as_slice())?;
    }
    Ok(())
}

// What a row's words ask for over its files.
fn asked(alloc: Global, files: &str, line: &str) -> Result<String, Fail> {
    let mut jobs = MemJobs::new(alloc);
    for spelled in files.split(';') {
        keep_spelled(alloc, &mut jobs, spelled)?;
    }
    ask(alloc, &mut jobs, line)
}

// Whether each row of a table has the answer that it names.
fn all_right(alloc: Global, table: &str) -> Result<bool, Fail> {
    for row in table.lines() {
        if let Some((given, wanted)) = row.split_once('=') {
            if let Some((files, line)) = given.split_once('#') {
                if asked(alloc, files, line)?.as_str() != wanted {
                    return Ok(false);
                }
            }
        }
    }
    Ok(true)
}

// Files, the words of a line, and the job or its refusal.
const REFUSED: &str = "#/JOB:none=missing none.RCJ
#SRC DST /JOB:d\\none=missing d\\none.RCJ
#SRC DST /JOB:a.b\\none=missing a.b\\none.RCJ
#SRC DST /JOB:none.x=missing none.x
#/JOB:none /R:x=U3 at 2 of 
j.RCJ>/JOB:j#/JOB:j=round j.RCJ
j.RCJ>/JOB:k;K.rcj>/JOB:J.rcj#SRC DST /JOB:j=round J.rcj
j.RCJ>/R:1 /R:2 ::|#/JOB:j=U8 at 2 of j.RCJ
j.RCJ>/R:1 /JOB:k /R:x;k.RCJ>/BAD#SRC DST /JOB:J=U3 at 3 of J.RCJ
j.RCJ>/R:1 /JOB:k /JOB:none;k.RCJ>/S /BAD#SRC DST /JOB:j=U1 at 2 of k.RCJ
j.RCJ>/E;k.RCJ>/SAVE:x#SRC DST /JOB:j /JOB:k=U1 at 1 of k.RCJ
j.RCJ>/QUIT#SRC DST /JOB:j=U1 at 1 of j.RCJ
j.RCJ>/E \"a#SRC DST /JOB:j=U13 at 1 of j.RCJ
j.RCJ>/E|:: \"|*.c \"a|/BAD#SRC DST /JOB:j=U13 at 3 of j.RCJ
j.RCJ>/MOV;k.RCJ>/CREATE#SRC DST /JOB:j /JOB:k=U9 at 0 of 
j.RCJ>/E#/JOB:j=U10 at 0 of 
j.RCJ>/SD:SRC#/JOB:j=U11 at 0 of 
j.RCJ>/SD:SRC /DD:src#/JOB:j=U12 at 0 of 
#SRC DST /XD /E=U2 at 3 of 
#/NOSD DST=U10 at 0 of 
#SRC /NODD=U11 at 0 of 
";

const MERGED: &str = "#SRC DST=/SD:SRC|/DD:DST|/IF|*.*|
#SRC DST /SAVE:j /QUIT /DROP=/SD:SRC|/DD:DST|/IF|*.*| save j quit drop
#/NOSD /NODD /QUIT=/NOSD|/NODD|/IF|*.*| quit
j.RCJ>/R:5#SRC DST /JOB:j=/SD:SRC|/DD:DST|/IF|*.*|/R:5|
j.RCJ>/R:5#SRC DST /R:2 /JOB:j=/SD:SRC|/DD:DST|/IF|*.*|/R:2|
j.RCJ>/R:5;k.RCJ>/R:7#SRC DST /JOB:j /JOB:k=/SD:SRC|/DD:DST|/IF|*.*|/R:7|
j.RCJ>/R:5;k.RCJ>/W:7#SRC DST /JOB:j /JOB:k=/SD:SRC|/DD:DST|/IF|*.*|/R:5|/W:7|
j.RCJ>/JOB:k /R:5;k.RCJ>/R:7 /W:7#SRC DST /JOB:j=/SD:SRC|/DD:DST|/IF|*.*|/R:5|/W:7|
j.RCJ>/IF :: names|/XD :: none|/E|#SRC DST /JOB:j=/SD:SRC|/DD:DST|/IF|*.*|/E|
j.RCJ>*.c /XF *.o;k.RCJ>*.d#SRC DST *.a /JOB:j *.b /JOB:k=/SD:SRC|/DD:DST|/IF|*.a|*.c|*.b|*.d|/XF|*.o|
j.RCJ>*.c#SRC DST /XF a /JOB:j b=/SD:SRC|/DD:DST|/IF|*.c|b|/XF|a|
j.RCJ>/COPY:S;k.RCJ>/COPY:O#SRC DST /JOB:j /JOB:k=/SD:SRC|/DD:DST|/IF|*.*|/COPY:O|
j.RCJ>/COPY:S;k.RCJ>/E#SRC DST /JOB:j /JOB:k=/SD:SRC|/DD:DST|/IF|*.*|/E|/COPY:S|
j.RCJ>/COPYALL#SRC DST /COPY:D /SEC /JOB:j=/SD:SRC|/DD:DST|/IF|*.*|/COPY:DATS|
j.RCJ>/COPYALL#SRC DST /NOCOPY /JOB:j=/SD:SRC|/DD:DST|/IF|*.*|/NOCOPY|
j.RCJ>/DCOPY:T;k.RCJ>/NODCOPY#SRC DST /JOB:j /JOB:k=/SD:SRC|/DD:DST|/IF|*.*|/NODCOPY|
j.RCJ>/DCOPY:AT#SRC DST /NODCOPY /JOB:j=/SD:SRC|/DD:DST|/IF|*.*|/NODCOPY|
j.RCJ>/DCOPY:AT#SRC DST /JOB:j=/SD:SRC|/DD:DST|/IF|*.*|/DCOPY:AT|
j.RCJ>/MT:3;k.RCJ>/MT#SRC DST /JOB:j /JOB:k=/SD:SRC|/DD:DST|/IF|*.*|/MT:8|
j.RCJ>/MT:3 /MT#SRC DST /JOB:j=/SD:SRC|/DD:DST|/IF|*.*|/MT:3|
j.RCJ>/MT:3#SRC DST /MT /JOB:j=/SD:SRC|/DD:DST|/IF|*.*|/MT:8|
j.RCJ>/MT#SRC DST /JOB:j /MT:2=/SD:SRC|/DD:DST|/IF|*.*|/MT:2|
j.RCJ>/S /MOV;k.RCJ>/E#SRC DST /JOB:j /JOB:k=/SD:SRC|/DD:DST|/IF|*.*|/E|/MOV|
j.RCJ>/E /MOVE#SRC DST /S /MOV /JOB:j=/SD:SRC|/DD:DST|/IF|*.*|/E|/MOVE|
j.RCJ>/MIR /XO;k.RCJ>/XN#SRC DST /JOB:j /JOB:k /XX=/SD:SRC|/DD:DST|/IF|*.*|/E|/PURGE|/XN|/XO|/XX|
j.RCJ>/A+:H#SRC DST /A+:C /JOB:j=/SD:SRC|/DD:DST|/IF|*.*|
j.RCJ>/SD:A /DD:B#SRC /NODD /JOB:j=/SD:SRC|/DD:B|/NODD|/IF|*.*|
j.RCJ>/SD:A /DD:B#/JOB:j=/SD:A|/DD:B|/IF|*.*|
j.RCJ>/SD:A /DD:B;k.RCJ>/E#/JOB:j /JOB:j /JOB:k=/SD:A|/DD:B|/IF|*.*|/E|
j.txt>/E#SRC DST /JOB:J.TXT=/SD:SRC|/DD:DST|/IF|*.*|/E|
";

// The texts of files: blanks, quotes, comments and ends of lines.
const SPELLED: &str = "j.RCJ>~ /SD:\"A B\"^|^|/DD:D^|  \"/IF\"^|#/JOB:j=U6 at 3 of j.RCJ
j.RCJ>/XF \"a b\" c\" \"d|e ::f g|h \"i\"#SRC DST /JOB:j=/SD:SRC|/DD:DST|/IF|*.*|/XF|\"a b\"|\"c d\"|e|h|i|
j.RCJ>/XD \"/E\" x|/E#SRC DST /JOB:j=/SD:SRC|/DD:DST|/IF|*.*|/E|/XD|\"/E\"|x|
j.RCJ>/XD a::b\\c :: d|\\e:|#SRC DST /JOB:j=/SD:SRC|/DD:DST|/IF|*.*|/XD|a::b\\c|\\e:|
j.RCJ>/E^#SRC DST /JOB:j=U1 at 1 of j.RCJ
j.RCJ>/E^|#SRC DST /JOB:j=/SD:SRC|/DD:DST|/IF|*.*|/E|
j.RCJ>|~|:: only|#SRC DST /JOB:j=/SD:SRC|/DD:DST|/IF|*.*|
";

#[test]
fn words_and_files_are_refused_by_the_first_that_is(rt: HostRuntime) -> Result<(), Fail> {
    assert!(rt; all_right(rt.alloc(), REFUSED)?);
    Ok(())
}

#[test]
fn lists_of_words_are_merged(rt: HostRuntime) -> Result<(), Fail> {
    assert!(rt; all_right(rt.alloc(), MERGED)?);
    Ok(())
}

#[test]
fn texts_of_files_are_words(rt: HostRuntime) -> Result<(), Fail> {
    assert!(rt; all_right(rt.alloc(), SPELLED)?);
    Ok(())
}
