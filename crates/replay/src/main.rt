// Writes the listing of the log that the first argument names, or of standard input where there is
// none. Behind a first argument `--buckets` it writes, in its place, the summary of all logs that are
// named, merged. A log has at most 65,536 bytes; in place of a longer one's listing it writes only
// `too long`. What fails is said on standard error, and then nothing is written: a log that was not
// read to its end is neither listed nor counted. A log that stops is counted up to there, and that it
// does is said on standard error too. The name of a log is UTF-8.
#![tactic(auto)]

ghost use Rattle.std.specs.Prelude.{◌≤◌, ◌≡◌, length, IfSome};
ghost use Rattle.summary.specs.Summarized.{summarized};
ghost use Rattle.replay.specs.Shown.{Shown, ShownSummary};
ghost use Rattle.replay.specs.Input.{Fits, IsPrefixLen, IsRead};

use buckets::Summary;
use call::refusal::Refusal;
use std::env::{Env, FillError};
use std::io::{Error, ErrorKind, Read, Write};
use std::rt::Files;
use std::{fs, io, str};

// The system's number for a name that is longer than it takes, and for bytes that are no text.
const TOO_LONG_NAME: i32 = 36;

const NO_TEXT: i32 = 84;

// A log that was opened, if it was, and the length of its name.
#[derive(Drop)]
struct Opened<F> {
    file: Option<F>,
    name: usize,
}

// Writes to standard error. Where that fails there is nowhere to say so.
fn say(err: &impl Print, text: &[u8]) {
    let _ = err.write_all(text);
}

// The length of the words for an error at the front of zeros: up to the error's number in brackets, or
// else up to the first 0.
fn reason_length(text: &[u8]) -> usize
    ensures { IsPrefixLen result text.now }
{
    // By index: each step looks at all of the text that is left.
    for i in 0..text.len() {
        if text[i] == 0 || text[i..].starts_with(b" (os error ") {
            return i;
        }
    }
    text.len()
}

// Says on standard error what failed and why, and then what to do.
fn fail(err: &impl Print, what: &[u8], why: Error, remedy: &[u8]) {
    let mut text = [0u8; 256];
    let mut room = &mut text[..];
    let _ = write!(room, "{why}");
    let used = reason_length(&text);
    say(err, what);
    say(err, b": ");
    say(err, &text[..used]);
    say(err, b"\n");
    say(err, remedy);
}

// Writes to standard output, and says so where that fails.
fn put(out: &impl Print, err: &impl Print, text: &[u8]) {
    if let Err(why) = out.write_all(text) {
        fail(
            err,
            b"standard output",
            why,
            b"replay: not all was written; see that standard output is open and has room\n",
        );
    }
}

// The listing of a log that fits the program's buffer: all of it, and its length.
fn listing_of(log: &[u8], out: &mut [u8]) -> usize
    requires { (length log.now ≤ 65536) × (length out.old ≡ 524288) }
    ensures { Shown log.now out.old out.new result }
{
    listing::list(log, out)
}

// Writes the listing of a log.
fn show(out: &impl Print, err: &impl Print, log: &[u8])
    requires { length log.now ≤ 65536 }
{
    let mut text = [0u8; 524288];
    let used = listing_of(log, &mut text);
    put(out, err, &text[..used]);
}

// Reads a log into the front of a buffer that has one byte more than the longest log: its length, or
// nothing where it is longer than the program takes. Only a read of nothing is its end. A read that a
// signal interrupted is made again, up to a million times in all.
fn read_log<R: Read>(from: &mut R, log: &mut [u8]) -> io::Result<Option<usize>>
    requires { length log.old ≡ 65537 }
    ensures fits { Fits result }
    ensures bytes { IfSome (R.remaining from.old) (λ bytes. IsRead bytes log.new result) }
{
    let mut used: usize = 0;
    let mut again: usize = 1000000;
    while used < 65537 {
        match from.read(&mut log[used..]) {
            Ok(0) => return Ok(Some(used)),
            Ok(n) => used += n,
            Err(why) => {
                if why.kind() != ErrorKind::Interrupted || again == 0 {
                    return Err(why);
                }
                again -= 1;
            }
        }
    }
    Ok(None)
}

// Reads a log and writes its listing; `name` is what a message calls it.
fn run(out: &impl Print, err: &impl Print, from: &mut impl Read, name: &[u8]) {
    let mut log = [0u8; 65537];
    match read_log(from, &mut log) {
        Ok(Some(n)) => show(out, err, &log[..n]),
        Ok(None) => put(out, err, b"too long\n"),
        Err(why) => unread(err, name, why),
    }
}

// Says that a log could not be read to its end.
fn unread(err: &impl Print, name: &[u8], why: Error) {
    fail(
        err,
        name,
        why,
        b"replay: nothing is written, as the log was not read to its end; see that it can be read\n",
    );
}

// Says that a log stops, at which record and why.
fn say_stop(err: &impl Print, name: &[u8], number: usize, reason: Refusal) {
    let mut line = [0u8; 64];
    let used = listing::list_stop(number, u32::from(reason), &mut line);
    say(err, name);
    say(err, b": ");
    say(err, &line[..used]);
    say(
        err,
        b"replay: of this log the position verdicts before its stop are counted\n",
    );
}

// The summary of a log; where it stops, that is said.
fn summary_of(err: &impl Print, log: &[u8], name: &[u8]) -> Summary
    requires { length log.now ≤ 65536 }
    ensures { result ≡ (summarized log.now).left }
{
    let end = summary::summarize(log);
    if let Some(reason) = end.stop {
        say_stop(err, name, end.records + 1, reason);
    }
    end.left
}

// Reads a log and summarizes it, where it was read to its end.
fn count(err: &impl Print, from: &mut impl Read, name: &[u8]) -> Option<Summary> {
    let mut log = [0u8; 65537];
    match read_log(from, &mut log) {
        Ok(Some(n)) => Some(summary_of(err, &log[..n], name)),
        Ok(None) => {
            say(err, name);
            say(
                err,
                b": too long\nreplay: nothing is written; a log has at most 65536 bytes\n",
            );
            None
        }
        Err(why) => {
            unread(err, name, why);
            None
        }
    }
}

// The text of a summary in the program's buffer: all of it, and its length.
fn text_of(summary: Summary, out: &mut [u8]) -> usize
    requires { length out.old ≡ 4096 }
    ensures { ShownSummary summary out.old out.new result }
{
    listing::list_summary(summary, out)
}

// Writes a summary.
fn show_summary(out: &impl Print, err: &impl Print, summary: Summary) {
    let mut text = [0u8; 4096];
    let used = text_of(summary, &mut text);
    put(out, err, &text[..used]);
}

// Opens the log of a name.
fn open_log<R: Files>(files: &R, name: &[u8]) -> io::Result<R::File> {
    match str::from_utf8(name) {
        Ok(text) => fs::open(files, text),
        Err(_) => Err(Error::from_raw_os_error(NO_TEXT)),
    }
}

// Opens the log that an argument names; where that fails, it is said.
fn open<R: Env + Files>(rt: &R, err: &impl Print, i: usize, path: &mut [u8]) -> Opened<R::File>
    ensures { IsPrefixLen result.name path.new }
{
    let Ok(name) = rt.arg(i, path) else {
        fail(
            err,
            b"the log's name",
            Error::from_raw_os_error(TOO_LONG_NAME),
            b"replay: nothing is written; give the log a shorter name, or on standard input\n",
        );
        return Opened {
            file: None,
            name: 0,
        };
    };
    match open_log(rt, &path[..name]) {
        Ok(file) => Opened {
            file: Some(file),
            name,
        },
        Err(why) => {
            fail(
                err,
                &path[..name],
                why,
                b"replay: nothing is written; name a log that can be read\n",
            );
            Opened { file: None, name }
        }
    }
}

// Writes the summary of the log on standard input.
fn summarize_input<R: io::Input + Print>(rt: &R, err: &impl Print) {
    if let Some(summary) = count(err, &mut rt.reader(), b"standard input") {
        show_summary(rt, err, summary);
    }
}

// The summary of the log that an argument names, where it was read to its end.
fn summary_at<R: Env + Files>(rt: &R, err: &impl Print, i: usize) -> Option<Summary> {
    let mut path = [0u8; 4096];
    let Opened { file, name } = open(rt, err, i, &mut path);
    count(err, &mut file?, &path[..name])
}

// Writes the summary of the logs that the arguments from the second on name, merged.
fn summarize<R: Env + Files + Print>(rt: &R, err: &impl Print) {
    let mut day = Summary::empty();
    // The library gives an argument by its place.
    for i in 2..usize::MAX {
        if !is_given(rt, i) {
            break;
        }
        match summary_at(rt, err, i) {
            Some(summary) => day = day.merge(summary),
            None => return,
        }
    }
    show_summary(rt, err, day);
}

// Writes the listing of the log that the first argument names.
fn list<R: Env + Files + Print>(rt: &R, err: &impl Print) {
    let mut path = [0u8; 4096];
    let Opened { file, name } = open(rt, err, 1, &mut path);
    if let Some(mut log) = file {
        run(rt, err, &mut log, &path[..name]);
    }
}

// Whether there is an argument at a place.
fn is_given(rt: &impl Env, i: usize) -> bool {
    !matches!(rt.arg(i, &mut [0u8; 1]), Err(FillError::NotPresent))
}

// The first argument is the option for the summary.
fn asks_for_buckets(rt: &impl Env) -> bool {
    let mut word = [0u8; 4096];
    match rt.arg(1, &mut word) {
        Ok(length) => &word[..length] == b"--buckets".as_slice(),
        Err(_) => false,
    }
}

fn main(rt: HostRuntime) {
    let err = rt.stderr();
    if !is_given(&rt, 1) {
        run(&rt, &err, &mut rt.reader(), b"standard input");
    } else if asks_for_buckets(&rt) {
        if is_given(&rt, 2) {
            summarize(&rt, &err);
        } else {
            summarize_input(&rt, &err);
        }
    } else if is_given(&rt, 2) {
        say(
            &err,
            b"replay: more than one log\nusage: replay [LOG], or replay --buckets [LOG..]; without a log it is read from standard input\n",
        );
    } else {
        list(&rt, &err);
    }
}
