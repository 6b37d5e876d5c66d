//! Words of each switch, accepted and refused, and the settings that they give.

use rc_job::Exclude;
use rc_tree::{Attr, Scan, Text};
use rc_words::{Setting, Word, WordsErr, read_words};
use std::alloc::Global;
use std::test::Fail;

// The words of a line, with one space between two.
fn words_of(alloc: Global, line: &str) -> Result<Vec<Word>, Fail> {
    let mut words = Vec::new(alloc);
    for text in line.split(' ') {
        words.push(Word {
            text: Text::of(alloc, text)?,
            quoted: false,
        })?;
    }
    Ok(words)
}

fn bits(alloc: Global, on: &[bool]) -> Result<String, Fail> {
    let mut text = String::new(alloc);
    for bit in on {
        text.push(if *bit { '1' } else { '0' })?;
    }
    Ok(text)
}

fn attr_bits(alloc: Global, a: Attr) -> Result<String, Fail> {
    bits(
        alloc,
        &[
            a.readonly,
            a.archive,
            a.system,
            a.hidden,
            a.compressed,
            a.not_indexed,
            a.encrypted,
            a.temporary,
            a.offline,
            a.sparse,
        ],
    )
}

fn exclude_text(alloc: Global, value: &Exclude) -> Result<String, Fail> {
    Ok(match value {
        Exclude::Name(pattern) => format!(in alloc; "name {}", pattern.text())?,
        Exclude::Path(pattern) => format!(in alloc; "path {}", pattern.text())?,
    })
}

// A setting in short: its kind, its number, its value.
fn setting_text(alloc: Global, setting: &Setting) -> Result<String, Fail> {
    Ok(match setting {
        Setting::Source(root) => format!(in alloc; "source {}", root.text())?,
        Setting::Target(root) => format!(in alloc; "target {}", root.text())?,
        Setting::File(pattern) => format!(in alloc; "file {}", pattern.text())?,
        Setting::ExcludeFile(value) => format!(in alloc; "xf {}", exclude_text(alloc, value)?)?,
        Setting::ExcludeDir(value) => format!(in alloc; "xd {}", exclude_text(alloc, value)?)?,
        Setting::Switch { number } => format!(in alloc; "switch {number}")?,
        Setting::Copy(f) => {
            let flags = [
                f.data_bytes,
                f.attributes,
                f.times,
                f.security,
                f.owner,
                f.auditing,
            ];
            format!(in alloc; "copy {}", bits(alloc, &flags)?)?
        }
        Setting::Directory(f) => {
            format!(in alloc; "directory {}", bits(alloc, &[f.attributes, f.times])?)?
        }
        Setting::Attributes { number, attr } => {
            format!(in alloc; "attributes {number} {}", attr_bits(alloc, *attr)?)?
        }
        Setting::Number { number, value } => format!(in alloc; "number {number} {value}")?,
        Setting::Scanning(Scan::Size) => String::from_str(alloc, "scan size")?,
        Setting::Scanning(Scan::Digest) => String::from_str(alloc, "scan digest")?,
        Setting::JobFile(name) => format!(in alloc; "job {}", name.text())?,
        Setting::Save(name) => format!(in alloc; "save {}", name.text())?,
    })
}

// The settings of a line with their places, or its refusal.
fn shown(alloc: Global, line: &str, in_file: bool) -> Result<String, Fail> {
    let words = words_of(alloc, line)?;
    let mut out = String::new(alloc);
    match read_words(alloc, words.as_slice(), in_file) {
        Ok(read) => {
            for placed in read.settings() {
                let text = setting_text(alloc, &placed.setting)?;
                let place = placed.place;
                out.push_str(format!(in alloc; "{place} {text};")?.as_str())?;
            }
        }
        Err(WordsErr::Usage { place, kind }) => {
            out.push_str(format!(in alloc; "U{kind} at {place}")?.as_str())?;
        }
        Err(WordsErr::NoMemory) => out.push_str("no memory")?,
    }
    Ok(out)
}

// For each switch of the table words that are accepted behind two roots, and the last setting that they give.
fn accepted() -> &'static str {
    "/nosd=switch 2
/NODD=switch 3
/IF a b?=file b?
/s=switch 5
/E=switch 6
/LEV:1=number 7 1
/Lev:65535=number 7 65535
/PURGE=switch 8
/MIR=switch 9
/MOV=switch 10
/MOVE=switch 11
/CREATE=switch 12
/COPY:XudD=copy 100001
/SEC=switch 14
/COPYALL=switch 15
/NOCOPY=switch 16
/DCOPY:DxeT=directory 01
/NODCOPY=switch 18
/SECFIX=switch 19
/TIMFIX=switch 20
/A+:RASHCNETO=attributes 21 1111010100
/a-:h=attributes 22 0001000000
/A=switch 23
/M=switch 24
/IA:rashcneto=attributes 25 1111111110
/XA:oo=attributes 26 0000000010
/XF *.tmp a\\b=xf path a\\b
/XD cache=xd name cache
/XC=switch 29
/XN=switch 30
/XO=switch 31
/XL=switch 32
/XX=switch 33
/IS=switch 34
/IT=switch 35
/MAX:18446744073709551615=number 36 18446744073709551615
/MIN:000=number 37 0
/MAXAGE:1899=number 38 1899
/MAXAGE:19000101=number 38 19000101
/MINAGE:16010101=number 39 16010101
/FFT=switch 40
/DST=switch 41
/X=switch 42
/Z=switch 43
/ZB=switch 44
/MT=switch 45
/MT:128=number 46 128
/R:1000000000=number 47 1000000000
/W:0=number 48 0
/L=switch 49
/V=switch 50
/NFL=switch 51
/NDL=switch 52
/NC=switch 53
/NS=switch 54
/NJH=switch 55
/NJS=switch 56
/BYTES=switch 57
/FP=switch 58
/TS=switch 59
/SCAN:SIZE=scan size
/SCAN:DIGEST=scan digest
/B=switch 61
/J=switch 62
/NP=switch 63
/ETA=switch 64
/NOOFFLOAD=switch 65
/COMPRESS=switch 66
/TEE=switch 67
/JOB:j=job j
/JOB:j /JOB:j=job j
/SAVE:a:b=save a:b
/QUIT=switch 70
/DROP=switch 71
*.txt=file *.txt
/E *.txt=file *.txt"
}

// For each switch of the table words that are refused behind two roots.
fn refused() -> &'static str {
    "/NOPE=U1 at 3
/=U1 at 3
/:=U1 at 3
/256=U1 at 3
/SD:x=U8 at 3
/DD:x=U8 at 3
/SD=U2 at 3
/SD:=U2 at 3
/DD:\"=U6 at 3
/NOSD:=U1 at 3
/NODD:x=U1 at 3
/IF=U2 at 3
/IF:a=U1 at 3
/IF a a|b=U6 at 5
/S:=U1 at 3
/E:1=U1 at 3
/LEV=U2 at 3
/LEV:=U2 at 3
/LEV:0=U4 at 3
/LEV:65536=U4 at 3
/LEV:+1=U3 at 3
/LEV:1 /LEV:1=U8 at 4
/PURGE:=U1 at 3
/MIR:=U1 at 3
/MOV:=U1 at 3
/MOVE:=U1 at 3
/CREATE:=U1 at 3
/COPY:=U2 at 3
/COPY:Q=U5 at 3
/COPY:D /SEC /copy:A=U8 at 5
/SEC:=U1 at 3
/COPYALL:=U1 at 3
/NOCOPY:=U1 at 3
/DCOPY:S=U5 at 3
/DCOPY:A /DCOPY:A=U8 at 4
/NODCOPY:=U1 at 3
/SECFIX:=U1 at 3
/TIMFIX:=U1 at 3
/A+=U2 at 3
/A+:P=U5 at 3
/A-:=U2 at 3
/A-:C /A-:C=U8 at 4
/A:=U1 at 3
/M:=U1 at 3
/IA:1=U5 at 3
/XA:P=U5 at 3
/XF=U2 at 3
/XF a<b=U6 at 4
/XF a\\b|c=U6 at 4
/XD=U2 at 3
/XD /E=U2 at 3
/XD c: /E=U6 at 4
/XC:=U1 at 3
/XN:=U1 at 3
/XO:=U1 at 3
/XL:=U1 at 3
/XX:=U1 at 3
/IS:=U1 at 3
/IT:=U1 at 3
/MAX:18446744073709551616=U4 at 3
/MIN:99999999999999999999999=U4 at 3
/MAXAGE:1900=U7 at 3
/MAXAGE:20230229=U7 at 3
/MAXAGE:16001231=U7 at 3
/MAXAGE:4294967296=U7 at 3
/MAXAGE:99999999999999999999999=U7 at 3
/MINAGE:2024-01-01=U3 at 3
/FFT:=U1 at 3
/DST:=U1 at 3
/X:=U1 at 3
/Z:=U1 at 3
/ZB:=U1 at 3
/MT:=U2 at 3
/MT:129=U4 at 3
/MT /MT:1 /MT:2=U8 at 5
/R:x=U3 at 3
/R:1000000001=U4 at 3
/R:1 /R:2=U8 at 4
/W:1000000001=U4 at 3
/L:=U1 at 3
/V:=U1 at 3
/NFL:=U1 at 3
/NDL:=U1 at 3
/NC:=U1 at 3
/NS:=U1 at 3
/NJH:=U1 at 3
/NJS:=U1 at 3
/BYTES:=U1 at 3
/FP:=U1 at 3
/TS:=U1 at 3
/SCAN:size=U5 at 3
/SCAN:SIZE /SCAN:SIZE=U8 at 4
/B:=U1 at 3
/J:=U1 at 3
/NP:=U1 at 3
/ETA:=U1 at 3
/NOOFFLOAD:=U1 at 3
/COMPRESS:=U1 at 3
/TEE:=U1 at 3
/JOB:=U2 at 3
/SAVE:j /SAVE:j=U8 at 4
/QUIT:=U1 at 3
/DROP:=U1 at 3
a|b=U6 at 3"
}

// The last setting of what was shown.
fn last_of(text: &str) -> &str {
    let text = text.strip_suffix(';').unwrap_or(text);
    match text.rsplit_once(';') {
        Some((_, last)) => last,
        None => text,
    }
}

// Whether words behind two roots are refused so, or give such a last setting.
fn gives(alloc: Global, words: &str, expected: &str) -> Result<bool, Fail> {
    let line = format!(in alloc; "SRC DST {words}")?;
    let text = shown(alloc, line.as_str(), false)?;
    Ok(last_of(text.as_str()).ends_with(expected))
}

fn all_give(alloc: Global, rows: &str) -> Result<bool, Fail> {
    for row in rows.split('\n') {
        let Some((words, expected)) = row.split_once('=') else {
            return Ok(false);
        };
        if !gives(alloc, words, expected)? {
            return Ok(false);
        }
    }
    Ok(true)
}

#[test]
fn each_switch_is_read_or_refused(rt: HostRuntime) -> Result<(), Fail> {
    assert!(rt; all_give(rt.alloc(), accepted())?);
    assert!(rt; all_give(rt.alloc(), refused())?);
    Ok(())
}

#[test]
fn words_have_their_places(rt: HostRuntime) -> Result<(), Fail> {
    let cases = [
        (
            "SRC DST a b",
            false,
            "1 source SRC;2 target DST;3 file a;4 file b;",
        ),
        (
            "/E SRC /XF x y /L DST",
            false,
            "1 switch 6;2 source SRC;4 xf name x;5 xf name y;6 switch 49;7 target DST;",
        ),
        ("a /NOSD b", false, "1 target a;2 switch 2;3 file b;"),
        ("a /nodd b", false, "1 source a;2 switch 3;3 file b;"),
        ("/NOSD /NODD a", false, "1 switch 2;2 switch 3;3 file a;"),
        ("a b /NOSD", true, "1 file a;2 file b;3 switch 2;"),
        ("/IF /XD /SD:x", true, "3 source x;"),
        ("/SD:S /DD:T", false, "1 source S;2 target T;"),
        ("/SD:S T", false, "U8 at 2"),
        ("/QUIT", true, "U1 at 1"),
        ("/SAVE:j", true, "U1 at 1"),
        ("/DROP", true, "U1 at 1"),
        ("/SD:a b", false, "U8 at 2"),
    ];
    for (line, in_file, expected) in cases {
        assert!(rt; shown(rt.alloc(), line, in_file)?.as_str() == expected);
    }
    Ok(())
}

#[test]
fn a_quoted_word_is_no_switch(rt: HostRuntime) -> Result<(), Fail> {
    let alloc = rt.alloc();
    let mut words = words_of(alloc, "/XD /E /E")?;
    assert_eq!(rt; words.len(), 3);
    words[1].quoted = true;
    let read = read_words(alloc, words.as_slice(), true)?.into_settings();
    assert_eq!(rt; read.len(), 2);
    assert!(rt; setting_text(alloc, &read[0].setting)?.as_str() == "xd path /E");
    assert!(rt; setting_text(alloc, &read[1].setting)?.as_str() == "switch 6");
    Ok(())
}
