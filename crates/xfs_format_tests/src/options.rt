//! Whole command lines. Words stand between semicolons, and so do commands.

use crate::checks::{equal, equal_at, must};
use crate::text::{Row, line_at, line_count, refuse, tells};
use std::alloc::Global;
use std::process::Abort;
use xfs_disk::Word;
use xfs_options::{MakeLine, MakeOptions, read_debug_words, read_make_words};

/// The words of a text.
fn words(rt: &impl Abort, alloc: Global, text: &str) -> Vec<Word> {
    let mut words = Vec::new(alloc);
    for word in text.split(';') {
        must(rt, words.push(word_of(rt, alloc, word)));
    }
    words
}

fn word_of(rt: &impl Abort, alloc: Global, text: &str) -> Word {
    Word::from_vec(must(rt, Vec::from_slice(alloc, text.as_bytes())))
}

/// The text of words, each with a semicolon behind it.
fn text_of(rt: &impl Abort, alloc: Global, words: &[Word]) -> Vec<u8> {
    let mut text = Vec::new(alloc);
    for word in words {
        must(rt, text.extend_from_slice(word.bytes()));
        must(rt, text.push(b';'));
    }
    text
}

/// Words, and whether they say -r and -x, and their commands; or the number of the first that offends.
const DEBUGGER: &str = "\
V | false false |
-rxf;V | true true |
-c;agf 0;-xcwrite freeblks 5;-c;print;V | false true | agf 0;write freeblks 5;print;
-c;;-r;V | true false | ;
-c;-r;V | false false | -r;
--;-r | false false |
- | false false |
 | false false |
-x;-x;V | false true |
V;-x | Offends(2)
-n;V | Offends(1)
-r;-xn;V | Offends(2)
-r | Offends(2)
-x;-c | Offends(3)
-x;-c;V | Offends(4)
--;V;V | Offends(3)
";

#[test]
fn lines_of_the_debugger(rt: HostRuntime) {
    let rt = &rt;
    let alloc = rt.alloc();
    for i in 0..line_count(DEBUGGER) {
        let line = line_at(DEBUGGER, i);
        let mut row = Row::new(line);
        let words = words(rt, alloc, row.text());
        match read_debug_words(alloc, &words) {
            Ok(read) => {
                equal_at(
                    rt,
                    (read.read_only, read.expert),
                    (row.flag(rt), row.flag(rt)),
                    line,
                );
                let commands = text_of(rt, alloc, &read.commands);
                equal_at(rt, commands.as_slice(), row.text().as_bytes(), line);
            }
            Err(fault) => tells(rt, &fault, row.text(), line),
        }
    }
}

/// Words, and the blocks, the groups, the blocks of a group and those of the log, and the number of files that they
/// say; or why they are refused.
const MAKER: &str = "\
V | [None, None, None, None, None]
-d;size=2048b,agcount=2;-l;size=512b;V | [Some(2048), Some(2), None, Some(512), None]
-dsize=8k;-d;agsize=4096;-qfK;-G;100000;V | [Some(2), None, Some(1), None, Some(100000)]
-l;size=8s;-L;123456789012;V | [None, None, None, Some(1), None]
-d;size=0,agcount=0;-p;P;-p;Q;V | [Some(0), Some(0), None, None, None]
-d;size=9223372036854771712;V | [Some(2251799813685247), None, None, None, None]
-m;crc=1,finobt=1,rmapbt=1,reflink=0,bigtime=0,inobtcount=0;-i;size=512,sparse=1,nrext64=0;V | [None, None, None, None, None]
-s;size=512;-b;size=4096;-n;ftype=1;V | [None, None, None, None, None]
-f;-m;crc=1,reflink=1;V | BadOption { word: 3, item: 2 }
-d;size=1g;-dsize=1g;V | BadOption { word: 3, item: 1 }
-d;agcount=2,agsize=1g;V | BadOption { word: 2, item: 2 }
-d;agsize=1g;-d;size=4k,agcount=2;V | BadOption { word: 4, item: 2 }
-b;size=4k;V | BadOption { word: 2, item: 1 }
-d;;V | BadOption { word: 2, item: 1 }
-d;size=4k,;V | BadOption { word: 2, item: 2 }
-d;size=4K;V | BadOption { word: 2, item: 1 }
-d;size=4097;V | BadOption { word: 2, item: 1 }
-d;size=9223372036854775808;V | BadOption { word: 2, item: 1 }
-d;agcount=01;V | BadOption { word: 2, item: 1 }
-l;size;V | BadOption { word: 2, item: 1 }
-m;uuid=0;V | BadOption { word: 2, item: 1 }
-m;crc=10;V | BadOption { word: 2, item: 1 }
-b;size=1;-x;V | Offends(3)
-p;P;-G;3;V | Offends(3)
-G3;-qp;P;V | Offends(2)
-L;1234567890123;V | Offends(2)
-G;100001;V | Offends(2)
-G;0;V | Offends(2)
-q | Offends(2)
-d;agcount=3 | Offends(3)
";

#[test]
fn lines_of_the_maker(rt: HostRuntime) {
    let rt = &rt;
    let alloc = rt.alloc();
    for i in 0..line_count(MAKER) {
        let line = line_at(MAKER, i);
        let mut row = Row::new(line);
        let words = words(rt, alloc, row.text());
        match read_make_words(alloc, &words) {
            Ok(MakeLine { options, .. }) => {
                let numbers = [
                    options.blocks,
                    options.agcount,
                    options.agblocks,
                    options.logblocks,
                    options.generate.map(u64::from),
                ];
                tells(rt, &numbers, row.text(), line);
            }
            Err(fault) => tells(rt, &fault, row.text(), line),
        }
    }
}

#[test]
fn values_of_the_maker(rt: HostRuntime) {
    let rt = &rt;
    let alloc = rt.alloc();
    let words = words(
        rt,
        alloc,
        "-fL;a;-m;uuid=00112233-4455-6677-8899-aabbccddeeff;-pP;-qLb c;V",
    );
    let Ok(MakeLine { options, quiet }) = read_make_words(alloc, &words) else {
        refuse(rt, "the words are refused", "")
    };
    let MakeOptions {
        uuid: given,
        label,
        proto,
        force,
        ..
    } = options;
    let due = "Some([0, 17, 34, 51, 68, 85, 102, 119, 136, 153, 170, 187, 204, 221, 238, 255])";
    tells(rt, &given, due, "the identifier");
    equal(rt, label.bytes(), b"b c".as_slice());
    let Some(proto) = proto else {
        refuse(rt, "no protofile is named", "")
    };
    equal(rt, proto.bytes(), b"P".as_slice());
    equal(rt, (force, quiet), (true, true));
}
