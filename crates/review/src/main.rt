// Holds builds of a module against a policy and against the approved build, and tells a person: POLICY BASELINE CANDIDATE..
#![tactic(auto)]

mod files;
mod standard_error;

ghost use Rattle.std.specs.Prelude.{◌≡◌};
ghost use Rattle.reviewed.specs.Review.{file_at, review_of, unread_of, or_no_room};

use files::{argument, argument_count, path_buffer, read_argument};
use refusal::MAX_TEXT;
use reviewed::{review_text, unread_text};
use standard_error::fail;
use std::rt::{Env, Files};

// One byte more than a policy and a build may have, so that 14 is seen; and room for a report.
const BUFFER: usize = MAX_TEXT + 1;

const ROOM: usize = 1310720;

const POLICY: usize = 1;

const BASELINE: usize = 2;

const CANDIDATES: usize = 3;

// A buffer for a file, and one for a report. Of an array that a call hands back a proof knows the length alone, and never writes it out.
fn unread() -> [u8; BUFFER] {
    [0u8; BUFFER]
}

fn blank() -> [u8; ROOM] {
    [0u8; ROOM]
}

fn main(rt: HostRuntime) {
    if argument_count(&rt) <= CANDIDATES {
        let _ = eprintln!(rt; "usage: review POLICY BASELINE CANDIDATE..");
        return;
    }
    let mut text = unread();
    let policy = read_argument(&rt, "policy", POLICY, &mut text);
    let mut file = unread();
    let baseline = read_argument(&rt, "baseline", BASELINE, &mut file);
    review_all(
        &rt,
        policy.map(|n| &text[..n]),
        baseline.map(|n| &file[..n]),
    );
}

// A report for each candidate, under a policy and against a baseline that were read.
fn review_all(
    rt: &(impl Env + Files + Print + Eprint + AllocGlobal),
    policy: Option<&[u8]>,
    baseline: Option<&[u8]>,
) {
    for i in CANDIDATES..argument_count(rt) {
        match (policy, baseline) {
            (None, _) => tell_unread(rt, b"policy ", i),
            (_, None) => tell_unread(rt, b"baseline ", i),
            (Some(text), Some(baseline)) => review_one(rt, text, baseline, i),
        }
    }
}

fn review_one(
    rt: &(impl Env + Files + Print + Eprint + AllocGlobal),
    text: &[u8],
    baseline: &[u8],
    i: usize,
) {
    let mut file = unread();
    match read_argument(rt, "candidate", i, &mut file) {
        Some(n) => review(rt, text, baseline, i, &file[..n]),
        None => tell_unread(rt, b"", i),
    }
}

fn review(
    rt: &(impl Env + Print + Eprint + AllocGlobal),
    text: &[u8],
    baseline: &[u8],
    i: usize,
    candidate: &[u8],
) {
    let mut first = path_buffer();
    let a = argument(rt, POLICY, &mut first);
    let mut second = path_buffer();
    let b = argument(rt, BASELINE, &mut second);
    let mut third = path_buffer();
    let c = argument(rt, i, &mut third);
    report(
        rt,
        &first[..a],
        text,
        &second[..b],
        baseline,
        &third[..c],
        candidate,
    );
}

fn report(
    rt: &(impl Print + Eprint + AllocGlobal),
    text_path: &[u8],
    text: &[u8],
    baseline_path: &[u8],
    baseline: &[u8],
    candidate_path: &[u8],
    candidate: &[u8],
) {
    let mut out = blank();
    let n = review_text(
        text_path,
        text,
        baseline_path,
        baseline,
        candidate_path,
        candidate,
        &mut out,
    );
    print_report(
        rt,
        text_path,
        text,
        baseline_path,
        baseline,
        candidate_path,
        candidate,
        &out[..n],
    );
}

// Nothing else is printed of a candidate that was read: the bytes are what `review_of` says of the paths and the files.
fn print_report(
    rt: &(impl Print + Eprint + AllocGlobal),
    text_path: &[u8],
    text: &[u8],
    baseline_path: &[u8],
    baseline: &[u8],
    candidate_path: &[u8],
    candidate: &[u8],
    bytes: &[u8],
)
    requires { bytes.now ≡ or_no_room 1310720 (review_of (file_at text_path.now text.now) (file_at baseline_path.now baseline.now)
        (file_at candidate_path.now candidate.now)) }
{
    write(rt, bytes);
}

// Of a candidate that was not read, or whose policy or baseline was not.
fn tell_unread(rt: &(impl Env + Print + Eprint + AllocGlobal), whose: &[u8], i: usize) {
    let mut path = path_buffer();
    let n = argument(rt, i, &mut path);
    tell_path(rt, whose, &path[..n]);
}

fn tell_path(rt: &(impl Print + Eprint + AllocGlobal), whose: &[u8], path: &[u8]) {
    let mut out = blank();
    let n = unread_text(whose, path, &mut out);
    print_unread(rt, whose, path, &out[..n]);
}

// Nor is anything else of such a candidate.
fn print_unread(rt: &(impl Print + Eprint + AllocGlobal), whose: &[u8], path: &[u8], bytes: &[u8])
    requires { bytes.now ≡ or_no_room 1310720 (unread_of whose.now path.now) }
{
    write(rt, bytes);
}

fn write(rt: &(impl Print + Eprint + AllocGlobal), bytes: &[u8]) {
    if let Err(error) = rt.write_all(bytes) {
        fail(rt, "standard output", &error);
    }
}
