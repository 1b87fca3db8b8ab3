//! Files truncated to every length.
use super::answers::links_pair;
use super::calls::Link;
use super::rows::{Row, check_all, field, fields};
use super::tables::{Check, base_named};
use crate::notation::{holds, number_of};
use std::process::Abort;

const WHOLE: &str = "segments 2 private words 4 blocks 3";

/// Which of the base host and the base library is truncated, the lengths from one on to the one
/// before another, and what is answered.
static CUTS: &str = "\
host | 0 | 512 | refused 1 ShortFile file 0
host | 512 | 530 | refused 16 Truncated file 0 slot 1
host | 530 | 1040 | refused 19 RecordsTruncated file 0 slot 1 record 0
host | 1040 | 1056 | refused 19 RecordsTruncated file 0 slot 1 record 1
host | 1056 | 1537 | segments 2 private words 4 blocks 3
library | 0 | 512 | refused 1 ShortFile file 1
library | 512 | 536 | refused 16 Truncated file 1 slot 7
library | 536 | 1056 | refused 19 RecordsTruncated file 1 slot 7 record 0
library | 1056 | 1088 | refused 19 RecordsTruncated file 1 slot 7 record 1
library | 1088 | 1104 | refused 19 RecordsTruncated file 1 slot 7 record 2
library | 1104 | 1537 | segments 2 private words 4 blocks 3";

/// Checks the answer to a host and a library, of which one is truncated to this length, and what is
/// written where they are linked.
fn answers(
    rt: &(impl Abort + AllocGlobal),
    link: &Link<'_>,
    (is_host, length): (bool, usize),
    answer: &str,
) {
    let library = link.libraries.first().copied().unwrap_or(&[]);
    let linked = if answer == WHOLE { link.linked } else { &[] };
    let files = if is_host {
        (link.host.get(..length).unwrap_or(&[]), library)
    } else {
        (link.host, library.get(..length).unwrap_or(&[]))
    };
    links_pair(rt, "a cut file", files, linked, answer)
}

/// A host and a library, each of which is cut to each length.
#[derive(Clone, Copy)]
struct Cuts;

impl Check for Cuts {
    fn check<R: Abort + AllocGlobal>(&self, rt: &R, link: &Link<'_>) {
        check_all(rt, &CutRows { link }, CUTS)
    }
}

/// The lengths of a row.
#[derive(Drop)]
struct CutRows<'a> {
    link: &'a Link<'a>,
}

impl<'a> Row for CutRows<'a> {
    fn check<R: Abort + AllocGlobal>(&self, rt: &R, row: &str) {
        let (file, rest) = field(rt, row);
        let (from, to, answer) = fields(rt, rest);
        let is_host = file == "host";
        holds(rt, is_host || file == "library", file);
        for length in number_of(rt, from)..number_of(rt, to) {
            answers(rt, self.link, (is_host, length), answer);
        }
    }
}

#[test]
fn each_length_in_either_byte_order(rt: HostRuntime) {
    base_named(&rt, "pair").check(&rt, ("", "", ""), &Cuts);
    base_named(&rt, "big pair").check(&rt, ("", "", ""), &Cuts)
}
