//! The demo, and what the program is asked for.
use script_command::{Command, demo, tell_usage};
use std::alloc::{AllocError, Global};
use std::io;
use std::io::{Error, Write};
use std::process::Abort;
use std::test::Fail;
use std::thread::Threads;

/// Takes so many bytes, and fails at each call then. It may fail to flush them.
#[derive(Drop)]
struct Sink {
    taken: Vec<u8>,
    left: usize,
    flushes: bool,
}

impl Sink {
    fn of_room(alloc: Global, left: usize) -> Sink {
        Sink {
            taken: Vec::new(alloc),
            left,
            flushes: true,
        }
    }

    fn endless(alloc: Global) -> Sink {
        Sink::of_room(alloc, usize::MAX)
    }
}

impl Write for Sink {
    fn write(&mut self, buf: &[u8]) -> io::Result<usize> {
        if self.left == 0 {
            return Err(Error::other("the writer fails"));
        }
        let count = self.left.min(buf.len());
        self.taken.extend_from_slice(&buf[..count])?;
        self.left -= count;
        Ok(count)
    }

    fn flush(&mut self) -> io::Result<()> {
        if self.flushes {
            Ok(())
        } else {
            Err(Error::other("the writer fails"))
        }
    }
}

const SHOWN: &str = "e0 8 5 11\ne1 10 - 27\nok\n";

const FAILED: &str = "demo failed\n";

const USAGE: &str = "usage: shredrun [demo]\n";

// The first bytes of the text.
fn beginning(text: &str, count: usize) -> &[u8] {
    let (beginning, _) = text.as_bytes().split_at(count.min(text.len()));
    beginning
}

/// Into these the demo writes this and that, and gives this status.
fn expect_demo(
    rt: &(impl Abort + AllocGlobal + Threads + Sync),
    mut out: Sink,
    mut err: Sink,
    shown: &[u8],
    told: &[u8],
    status: u8,
) {
    assert_eq!(rt; demo(rt, rt.alloc(), &mut out, &mut err), status);
    assert_eq!(rt; out.taken.as_slice(), shown);
    assert_eq!(rt; err.taken.as_slice(), told);
}

#[test]
fn a_demo_shows_two_ticks(rt: HostRuntime) {
    let out = Sink::endless(rt.alloc());
    let err = Sink::endless(rt.alloc());
    expect_demo(&rt, out, err, SHOWN.as_bytes(), &[], 0);
}

#[test]
fn a_demo_fails_wherever_a_write_does(rt: HostRuntime) {
    for count in 0..SHOWN.len() {
        let out = Sink::of_room(rt.alloc(), count);
        let err = Sink::endless(rt.alloc());
        let shown = beginning(SHOWN, count);
        expect_demo(&rt, out, err, shown, FAILED.as_bytes(), 1);
    }
    let unflushed = Sink {
        flushes: false,
        ..Sink::endless(rt.alloc())
    };
    let err = Sink::endless(rt.alloc());
    expect_demo(&rt, unflushed, err, SHOWN.as_bytes(), FAILED.as_bytes(), 1);
}

#[test]
fn a_failure_that_is_not_told_keeps_its_status(rt: HostRuntime) {
    for count in 0..FAILED.len() {
        let out = Sink::of_room(rt.alloc(), 3);
        let err = Sink::of_room(rt.alloc(), count);
        expect_demo(&rt, out, err, b"e0 ", beginning(FAILED, count), 1);
    }
}

#[test]
fn the_usage_is_told(rt: HostRuntime) {
    for count in 0..=USAGE.len() {
        let mut err = Sink::of_room(rt.alloc(), count);
        assert_eq!(rt; tell_usage(&mut err), 1);
        assert_eq!(rt; err.taken.as_slice(), beginning(USAGE, count));
    }
}

/// Words behind the program's name, and what they ask for.
struct Asked {
    words: &'static [&'static str],
    command: Command,
}

const ASKED: &[Asked] = &[
    Asked {
        words: &[],
        command: Command::Script,
    },
    Asked {
        words: &["demo"],
        command: Command::Demo,
    },
];

/// Each of these is told the usage, and nothing is run.
const WRONG: &[&[&str]] = &[
    &[""],
    &["dem"],
    &["demos"],
    &["Demo"],
    &["demo "],
    &["-"],
    &["--demo"],
    &["script"],
    &["", "demo"],
    &["demo", ""],
    &["demo", "demo"],
    &["first.script", "second.script"],
    &["demo", "a", "b"],
];

fn strings_of(alloc: Global, words: &[&str]) -> Result<Vec<String>, AllocError> {
    let mut strings = Vec::new(alloc);
    for word in words {
        strings.push(String::from_str(alloc, word)?)?;
    }
    Ok(strings)
}

fn expect_command(
    rt: &(impl Abort + AllocGlobal),
    words: &[&str],
    command: Command,
) -> Result<(), Fail> {
    let words = strings_of(rt.alloc(), words)?;
    assert_eq!(rt; Command::by_words(&words), command);
    Ok(())
}

#[test]
fn no_word_asks_for_a_script_and_demo_alone_for_the_demo(rt: HostRuntime) -> Result<(), Fail> {
    for asked in ASKED {
        expect_command(&rt, asked.words, asked.command)?;
    }
    for words in WRONG {
        expect_command(&rt, words, Command::Usage)?;
    }
    Ok(())
}
