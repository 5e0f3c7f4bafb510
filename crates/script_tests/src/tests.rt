//! Scripts with their answers, each on a fresh shelf of 1,024 records, 16,384 added bytes and 64 places.
use monoid::Monoid;
use refusal::Refusal;
use rope::record::Record;
use script::limits::MOST_ANSWER;
use script::run::{Answered, run, run_all, run_into};
use shelf_view::marked::Marked;
use std::alloc::Global;
use std::io;
use std::io::{ErrorKind, Write};
use text_shelf::shelf::Shelf;

/// A script, the place to run it from, and its answers.
struct Case {
    script: &'static [u8],
    at: usize,
    answers: &'static [u8],
}

const CASES: [Case; 24] = [
    // nothing
    Case {
        script: b"",
        at: 0,
        answers: b"",
    },
    // every command
    Case {
        script: b"11:3:put,2:ab,,9:3:put,0:,,18:3:cut,1:1,1:1,1:2,,25:6:splice,1:1,1:1,1:1,1:1,,11:4:text,1:4,,11:4:mark,1:0,,11:4:text,1:2,,",
        at: 0,
        answers: b"1:1,1:2,1:3,1:4,4:aabb,32:00000001000000000000000000000001,0:,",
    },
    // too few and too many arguments of put
    Case {
        script: b"6:3:put,,14:3:put,1:0,1:0,,",
        at: 0,
        answers: b"4:-2@0,4:-2@9,",
    },
    // too few and too many arguments of cut
    Case {
        script: b"14:3:cut,1:0,1:0,,22:3:cut,1:0,1:0,1:0,1:0,,",
        at: 0,
        answers: b"4:-2@0,5:-2@18,",
    },
    // too few and too many arguments of splice
    Case {
        script: b"21:6:splice,1:0,1:0,1:0,,29:6:splice,1:0,1:0,1:0,1:0,1:0,,",
        at: 0,
        answers: b"4:-2@0,5:-2@25,",
    },
    // too few and too many arguments of mark
    Case {
        script: b"7:4:mark,,15:4:mark,1:0,1:0,,",
        at: 0,
        answers: b"4:-2@0,5:-2@10,",
    },
    // too few and too many arguments of text
    Case {
        script: b"7:4:text,,15:4:text,1:0,1:0,,",
        at: 0,
        answers: b"4:-2@0,5:-2@10,",
    },
    // no word, and an empty one
    Case {
        script: b"0:,3:0:,,",
        at: 0,
        answers: b"4:-2@0,4:-2@3,",
    },
    // unknown words
    Case {
        script: b"15:4:take,1:0,1:0,,10:2:pu,2:ab,,12:4:puts,2:ab,,11:3:Put,2:ab,,11:4:marc,1:0,,",
        at: 0,
        answers: b"4:-2@0,5:-2@19,5:-2@33,5:-2@49,5:-2@64,",
    },
    // leading zeros, and no digit, in a number
    Case {
        script: b"11:3:put,2:ab,,12:4:mark,2:01,,12:4:mark,2:00,,10:4:mark,0:,,12:4:mark,2:-1,,19:3:cut,1:1,1:0,2:02,,",
        at: 0,
        answers: b"1:1,5:-2@15,5:-2@31,5:-2@47,5:-2@61,5:-2@77,",
    },
    // seven digits and eight
    Case {
        script: b"17:4:mark,7:9999999,,18:4:mark,8:00000001,,18:4:mark,8:10000000,,",
        at: 0,
        answers: b"4:-5@0,5:-2@21,5:-2@43,",
    },
    // documents and parts that are not there
    Case {
        script: b"11:3:put,2:ab,,11:4:mark,1:2,,18:3:cut,1:1,1:2,1:1,,18:3:cut,1:1,1:0,1:3,,25:6:splice,1:1,1:3,1:3,1:9,,25:6:splice,1:1,1:3,1:3,1:1,,",
        at: 0,
        answers: b"1:1,5:-5@15,5:-6@30,5:-6@52,5:-5@74,6:-6@103,",
    },
    // a leading zero in a length
    Case {
        script: b"02:ab,",
        at: 0,
        answers: b"4:-1@0,",
    },
    // a leading zero in the length of an argument
    Case {
        script: b"12:3:put,02:ab,,11:3:put,2:ab,,",
        at: 0,
        answers: b"4:-2@0,1:1,",
    },
    // no comma, then the end
    Case {
        script: b"11:3:put,2:ab,,11:3:put,2:ab;11:3:put,2:ab,,",
        at: 0,
        answers: b"1:1,5:-1@15,",
    },
    // a missing comma within a command
    Case {
        script: b"10:3:put2:ab,,11:3:put,2:ab,,",
        at: 0,
        answers: b"4:-2@0,1:1,",
    },
    // a length beyond the script
    Case {
        script: b"11:3:put,2:ab,,12:3:put,2:ab,",
        at: 0,
        answers: b"1:1,5:-1@15,",
    },
    // a length far beyond it
    Case {
        script: b"99999999999999999999999999999999999999:a,",
        at: 0,
        answers: b"4:-1@0,",
    },
    // a length alone
    Case {
        script: b"5",
        at: 0,
        answers: b"4:-1@0,",
    },
    // bytes behind the arguments
    Case {
        script: b"12:3:put,2:ab,x,11:3:put,2:ab,,",
        at: 0,
        answers: b"4:-2@0,1:1,",
    },
    // the second command alone
    Case {
        script: b"11:3:put,2:ab,,11:4:mark,1:1,,",
        at: 15,
        answers: b"5:-5@15,",
    },
    // the end of the script
    Case {
        script: b"11:3:put,2:ab,,",
        at: 15,
        answers: b"",
    },
    // beyond it
    Case {
        script: b"11:3:put,2:ab,,",
        at: 22,
        answers: b"",
    },
    // from within a command: netstrings that hold none, then no netstring
    Case {
        script: b"11:3:put,2:ab,,",
        at: 3,
        answers: b"4:-2@3,4:-2@9,5:-1@14,",
    },
];

/// The answers of a script from the place `at` on.
fn answers(heap: Global, script: &[u8], at: usize) -> io::Result<Vec<u8>> {
    let mut added = vec![in heap; 0; 16384]?;
    let mut records = vec![in heap; Record::blank(Marked::empty().to_row()); 1024]?;
    let mut places = vec![in heap; None; 64]?;
    let mut shelf = Shelf::new(&[], &mut added, &mut records, &mut places, 7);
    let mut said = Vec::new(heap);
    run_all(&mut shelf, script, at, &mut said)?;
    Ok(said)
}

#[test]
fn scripts_are_answered(rt: HostRuntime) -> io::Result<()> {
    for case in &CASES {
        let said = answers(rt.alloc(), case.script, case.at)?;
        assert_eq!(&rt; said.as_slice(), case.answers);
    }
    Ok(())
}

/// Writes the netstring of `content` behind `text`.
fn add(text: &mut Vec<u8>, content: &[u8]) -> io::Result<()> {
    write!(text, "{}:", content.len())?;
    text.write_all(content)?;
    text.write_all(b",")
}

/// Writes a command that puts `text` behind `script`.
fn add_put(heap: Global, script: &mut Vec<u8>, text: &[u8]) -> io::Result<()> {
    let mut command = Vec::new(heap);
    add(&mut command, b"put")?;
    add(&mut command, text)?;
    add(script, &command)
}

// 4,096 bytes are put and told; 4,097 are not put; spliced together they are a document, and too long to be told.
#[test]
fn long_texts_are_told_or_refused(rt: HostRuntime) -> io::Result<()> {
    let heap = rt.alloc();
    let longest = [b'x'; 4096];
    let longer = [b'x'; 4097];
    let mut script = Vec::new(heap);
    add_put(heap, &mut script, &longest)?;
    script.write_all(b"11:4:text,1:1,,")?;
    add_put(heap, &mut script, &longer)?;
    add_put(heap, &mut script, b"x")?;
    script.write_all(b"25:6:splice,1:1,1:7,1:7,1:2,,11:4:text,1:3,,")?;
    let said = answers(heap, &script, 0)?;
    let mut wanted = Vec::new(heap);
    wanted.write_all(b"1:1,")?;
    add(&mut wanted, &longest)?;
    wanted.write_all(b"7:-7@4129,1:2,1:3,7:-8@8287,")?;
    assert_eq!(&rt; said.as_slice(), wanted.as_slice());
    Ok(())
}

// 64 documents find a place, and the 65th none.
#[test]
fn places_run_out(rt: HostRuntime) -> io::Result<()> {
    let heap = rt.alloc();
    let mut script = Vec::new(heap);
    let mut wanted = Vec::new(heap);
    for n in 1..65 {
        add_put(heap, &mut script, b"")?;
        let number = format!(in heap; "{n}")?;
        add(&mut wanted, number.as_bytes())?;
    }
    add_put(heap, &mut script, b"")?;
    wanted.write_all(b"7:-13@768,")?;
    let said = answers(heap, &script, 0)?;
    assert_eq!(&rt; said.as_slice(), wanted.as_slice());
    Ok(())
}

// A buffer of 4,101 bytes is refused before all else; of 4,102 it is used, and what lies behind the answer stays.
#[test]
fn answers_need_a_buffer(rt: HostRuntime) {
    let mut added = [0; 8];
    let mut records = [Record::blank(Marked::empty().to_row()); 8];
    let mut places = [None; 1];
    let mut shelf = Shelf::new(&[], &mut added, &mut records, &mut places, 7);
    let mut out = [b'.'; MOST_ANSWER];
    let script = b"11:3:put,2:ab,,";
    let refused = run(&mut shelf, script, 0, &mut out[1..]);
    assert!(&rt; matches!(refused, Err(Refusal::SmallBuffer)));
    assert!(&rt; matches!(shelf.view().document(1), Err(Refusal::NoDocument)));
    let answered = run(&mut shelf, script, 0, &mut out);
    assert!(&rt; matches!(answered, Ok(Answered { len: 4, next: 15 })));
    assert_eq!(&rt; &out[..6], b"1:1,..".as_slice());
    let over = run(&mut shelf, script, 15, &mut out);
    assert!(&rt; matches!(over, Ok(Answered { len: 0, next: 15 })));
    assert_eq!(&rt; &out[..6], b"1:1,..".as_slice());
}

// From the script's end or beyond, `run_into` answers nothing and tells the end.
#[test]
fn runs_into_a_buffer_end_with_the_script(rt: HostRuntime) {
    let mut added = [0; 8];
    let mut records = [Record::blank(Marked::empty().to_row()); 8];
    let mut places = [None; 1];
    let mut shelf = Shelf::new(&[], &mut added, &mut records, &mut places, 7);
    let mut out = [b'.'; MOST_ANSWER];
    let script = b"11:3:put,2:ab,,";
    for at in [15, 16, usize::MAX] {
        let over = run_into(&mut shelf, script, at, &mut out);
        assert!(&rt; matches!(over, Ok(Answered { len: 0, next: 15 })));
        assert_eq!(&rt; &out[..6], b"......".as_slice());
    }
    let answered = run_into(&mut shelf, script, 0, &mut out);
    assert!(&rt; matches!(answered, Ok(Answered { len: 4, next: 15 })));
    assert_eq!(&rt; &out[..6], b"1:1,..".as_slice());
}

/// A writer that takes at most `most` bytes at a time, and `room` in all. Each second write is interrupted. When it is full,
/// it fails with `full`, or takes nothing where that is `None`.
#[derive(Drop)]
struct Narrow {
    held: Vec<u8>,
    room: usize,
    most: usize,
    full: Option<ErrorKind>,
    interrupted: bool,
}

impl Write for Narrow {
    fn write(&mut self, buf: &[u8]) -> io::Result<usize> {
        self.interrupted = !self.interrupted;
        if self.interrupted {
            return Err(io::Error::from(ErrorKind::Interrupted));
        }
        let free = self.room.saturating_sub(self.held.len());
        if free == 0 {
            return match self.full {
                Some(kind) => Err(io::Error::from(kind)),
                None => Ok(0),
            };
        }
        let n = buf.len().min(free).min(self.most);
        self.held.extend_from_slice(&buf[..n])?;
        Ok(n)
    }

    fn flush(&mut self) -> io::Result<()> {
        Ok(())
    }
}

// Four answers of four bytes each: a writer with less room holds that front of them. The command whose answer is cut was run,
// and none behind it.
#[test]
fn a_failing_writer_holds_a_front_of_the_answers(rt: HostRuntime) {
    let script = b"9:3:put,0:,,9:3:put,0:,,9:3:put,0:,,9:3:put,0:,,";
    let all = b"1:1,1:2,1:3,1:4,";
    for room in 0..18usize {
        for most in [1, 3, 7] {
            for full in [Some(ErrorKind::BrokenPipe), None] {
                let mut added = [0; 1];
                let mut records = [Record::blank(Marked::empty().to_row()); 1];
                let mut places = [None; 4];
                let mut shelf = Shelf::new(&[], &mut added, &mut records, &mut places, 7);
                let mut out = Narrow {
                    held: Vec::new(rt.alloc()),
                    room,
                    most,
                    full,
                    interrupted: false,
                };
                let ended = run_all(&mut shelf, script, 0, &mut out);
                assert_eq!(&rt; out.held.as_slice(), &all[..room.min(16)]);
                match ended {
                    Ok(()) => assert!(&rt; room >= 16),
                    Err(e) => {
                        assert!(&rt; room < 16);
                        assert!(&rt; e.kind() == full.unwrap_or(ErrorKind::WriteZero));
                    }
                }
                let last = (room / 4 + 1).min(4) as u32;
                assert!(&rt; shelf.view().document(last).is_ok());
                assert!(&rt; matches!(shelf.view().document(last + 1), Err(Refusal::NoDocument)));
            }
        }
    }
}
