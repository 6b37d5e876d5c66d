//! What words ask for that name no job file.

use crate::stores::ask;
use rc_mem::MemJobs;
use std::alloc::Global;
use std::test::Fail;

// Lines of words, and the job that they ask for.
const ASKED: &str = "SRC DST=/SD:SRC|/DD:DST|/IF|*.*|
/DD:a /SD:b=/SD:b|/DD:a|/IF|*.*|
SRC DST /S=/SD:SRC|/DD:DST|/IF|*.*|/S|
SRC DST /E /s=/SD:SRC|/DD:DST|/IF|*.*|/E|
SRC DST /lev:3=/SD:SRC|/DD:DST|/IF|*.*|/LEV:3|
SRC DST *.c /XF a b /XD c\\d /IF *.h /XF e=/SD:SRC|/DD:DST|/IF|*.c|*.h|/XF|a|b|e|/XD|c\\d|
SRC DST /COPY:D /SEC=/SD:SRC|/DD:DST|/IF|*.*|/COPY:DATS|
SRC DST /COPYALL /NOCOPY=/SD:SRC|/DD:DST|/IF|*.*|/COPY:DATSOU|
SRC DST /NOCOPY=/SD:SRC|/DD:DST|/IF|*.*|/NOCOPY|
SRC DST /COPY:X=/SD:SRC|/DD:DST|/IF|*.*|/NOCOPY|
SRC DST /COPY:O /SEC=/SD:SRC|/DD:DST|/IF|*.*|/COPY:DATSO|
SRC DST /COPY:DAT=/SD:SRC|/DD:DST|/IF|*.*|
SRC DST /DCOPY:T /NODCOPY=/SD:SRC|/DD:DST|/IF|*.*|/DCOPY:T|
SRC DST /NODCOPY=/SD:SRC|/DD:DST|/IF|*.*|/NODCOPY|
SRC DST /DCOPY:D=/SD:SRC|/DD:DST|/IF|*.*|/NODCOPY|
SRC DST /DCOPY:A=/SD:SRC|/DD:DST|/IF|*.*|
SRC DST /IS /IT /XX /XL /XO /XN /XC /DST /FFT=/SD:SRC|/DD:DST|/IF|*.*|/XC|/XN|/XO|/XL|/XX|/IS|/IT|/FFT|/DST|
a:b DST=/SD:a:b|/DD:DST|/IF|*.*|
SRC DST X=/SD:SRC|/DD:DST|/IF|X|
SRC DST /MIR=/SD:SRC|/DD:DST|/IF|*.*|/E|/PURGE|
SRC DST /PURGE=/SD:SRC|/DD:DST|/IF|*.*|/PURGE|
SRC DST /M=/SD:SRC|/DD:DST|/IF|*.*|/M|
SRC DST /MOV /MOVE=/SD:SRC|/DD:DST|/IF|*.*|/MOVE|
SRC DST /MOV=/SD:SRC|/DD:DST|/IF|*.*|/MOV|
SRC DST /V /L /NFL /NDL /NC /NS=/SD:SRC|/DD:DST|/IF|*.*|/L|/V|/NFL|/NDL|/NC|/NS|
SRC DST /SAVE:J=/SD:SRC|/DD:DST|/IF|*.*| save J
SRC DST /QUIT=/SD:SRC|/DD:DST|/IF|*.*| quit
SRC DST /B /NP /SCAN:SIZE=/SD:SRC|/DD:DST|/IF|*.*|
SRC DST /SCAN:DIGEST /Z=/SD:SRC|/DD:DST|/IF|*.*|/Z|/SCAN:DIGEST|
SRC DST /A-:A /A+:H=/SD:SRC|/DD:DST|/IF|*.*|/A+:H|/A-:A|
SRC DST /MAXAGE:1899 /MIN:3=/SD:SRC|/DD:DST|/IF|*.*|/MIN:3|/MAXAGE:1899|
SRC SRCX=/SD:SRC|/DD:SRCX|/IF|*.*|
\\a a=/SD:\\a|/DD:a|/IF|*.*|
. a=/SD:.|/DD:a|/IF|*.*|
SRC DST /MOV /COPY:AT /SEC=/SD:SRC|/DD:DST|/IF|*.*|/MOV|/COPY:DATS|
SRC DST /CREATE /NOCOPY=/SD:SRC|/DD:DST|/IF|*.*|/CREATE|/NOCOPY|
SRC DST /MT=/SD:SRC|/DD:DST|/IF|*.*|/MT:8|
SRC DST /MT:3 /MT=/SD:SRC|/DD:DST|/IF|*.*|/MT:3|
SRC DST /MT:1=/SD:SRC|/DD:DST|/IF|*.*|
SRC DST /R:5 /W:0=/SD:SRC|/DD:DST|/IF|*.*|/R:5|/W:0|
SRC DST /MAX:18446744073709551615 /MIN:0=/SD:SRC|/DD:DST|/IF|*.*|/MAX:18446744073709551615|/MIN:0|
SRC DST /MAXAGE:20240101 /MINAGE:7=/SD:SRC|/DD:DST|/IF|*.*|/MAXAGE:20240101|/MINAGE:7|
SRC DST /A+:RC /A-:h /IA:c /XA:e /A /M=/SD:SRC|/DD:DST|/IF|*.*|/A+:R|/A-:H|/A|/M|/IA:C|/XA:E|
SRC DST /ZB /X /L /SECFIX /TIMFIX=/SD:SRC|/DD:DST|/IF|*.*|/SECFIX|/TIMFIX|/X|/Z|/L|
SRC DST /V /NFL /NDL /NC /NS=/SD:SRC|/DD:DST|/IF|*.*|/V|/NFL|/NDL|/NC|/NS|
SRC DST /NJH /NJS /BYTES /FP /TS /SCAN:DIGEST=/SD:SRC|/DD:DST|/IF|*.*|/NJH|/NJS|/BYTES|/FP|/TS|/SCAN:DIGEST|
SRC DST /B /J /NP /ETA /NOOFFLOAD /COMPRESS /TEE /SAVE:x /DROP=/SD:SRC|/DD:DST|/IF|*.*| save x drop
/NOSD /NODD X /QUIT=/NOSD|/NODD|/IF|X| quit
";

// Lines of words that are refused, by a word or as a whole.
const REFUSED: &str = "-=U10 at 0 of 
SRC=U11 at 0 of 
/DD:DST=U10 at 0 of 
SRC DST /MOV /CREATE=U9 at 0 of 
SRC DST /MOVE /COPY:AT=U9 at 0 of 
SRC DST /JOB:J=missing J.RCJ
SRC DST /R:x /QUIT=U3 at 3 of 
SRC DST /MAXAGE:1900=U7 at 3 of 
/NOSD DST=U10 at 0 of 
SRC SRC /MIR=U12 at 0 of 
/MIR=U10 at 0 of 
SRC SRC /QUIT=U12 at 0 of 
/QUIT=U10 at 0 of 
SRC DST /MIR /BAD=U1 at 4 of 
SRC DST /XF=U2 at 3 of 
SRC DST /SD:X=U8 at 3 of 
/SD:SRC DST=U8 at 2 of 
SRC SRC=U12 at 0 of 
SRC src=U12 at 0 of 
SRC SRC\\a=U12 at 0 of 
src/a SRC=U12 at 0 of 
a/./b A\\\\B\\=U12 at 0 of 
. \\a=U12 at 0 of 
. .\\=U12 at 0 of 
SRC DST /MOVE /CREATE=U9 at 0 of 
SRC DST /MOV /NOCOPY=U9 at 0 of 
SRC DST /MOV /COPY:AT=U9 at 0 of 
/MOV /CREATE=U9 at 0 of 
SRC /NODD=U11 at 0 of 
/NOSD /NODD X=U10 at 0 of 
SRC DST /MOV /CREATE /QUIT=U9 at 0 of 
";

// Whether the words of each row of a table ask for what it names, over a store without a job file.
fn all_right(alloc: Global, table: &str) -> Result<bool, Fail> {
    let mut jobs = MemJobs::new(alloc);
    for row in table.lines() {
        if let Some((line, wanted)) = row.split_once('=') {
            if ask(alloc, &mut jobs, line)?.as_str() != wanted {
                return Ok(false);
            }
        }
    }
    Ok(true)
}

#[test]
fn what_words_ask_for(rt: HostRuntime) -> Result<(), Fail> {
    assert!(rt; all_right(rt.alloc(), ASKED)?);
    Ok(())
}

#[test]
fn what_words_are_refused(rt: HostRuntime) -> Result<(), Fail> {
    assert!(rt; all_right(rt.alloc(), REFUSED)?);
    Ok(())
}
