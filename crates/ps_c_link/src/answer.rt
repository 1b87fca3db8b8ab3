//! What a call answers.
ghost use Rattle.std.specs.Prelude.{◌≡◌, unwrap_or};
ghost use Rattle.ps_c_link.specs.Answers.{capped as capped_spec, closed_name as closed_name_spec, part, slot_part};

use crate::outcome::{Done, NotDone, Unput, Verdict, WrongInputs};
use ps_linkfile::{Summary, Unmade};
use ps_words::{Fault, Name, Reason};

/// The status of a call that was done.
pub const DONE: u32 = 0;

/// The status of a call whose files are refused.
pub const REFUSED: u32 = 1;

/// The status of a call that is not as it has to be: its lengths do not add up to what is given, it
/// has not one name for each file, or there is no such text.
pub const MISUSE: u32 = 2;

/// The status of a call to which memory was refused.
pub const NO_MEMORY: u32 = 4;

/// The status of a call that was given too little room for its result.
pub const TOO_SMALL: u32 = 5;

/// The status of a call of which a name is no UTF-8.
pub const WRONG_NAMES: u32 = 6;

/// What stands for a slot or a kind that there is not: the -1 of C.
pub const NO_NUMBER: u32 = 4_294_967_295;

/// What stands for a file, a record or a reference that there is not: the -1 of C.
pub const NO_INDEX: usize = 18_446_744_073_709_551_615;

/// The highest kind word.
const MAX_KIND: u32 = 65_535;

/// The highest number that a fault's number or a slot is kept in.
const MAX_BYTE: u32 = 255;

/// What a call answers: its status, and what goes with that status. Of all else there is none, and
/// so many as 0.
///
/// `pslink_answer` of `include/pslink.h` has the same fields, `NO_NUMBER` and `NO_INDEX` as -1.
#[repr(C)]
#[derive(Clone, Copy, Debug, PartialEq, Eq)]
pub struct Answer {
    /// `DONE`, `REFUSED`, `MISUSE`, `NO_MEMORY`, `TOO_SMALL` or `WRONG_NAMES`.
    pub status: u32,
    /// The number of the fault, from 1, or 0.
    pub fault: u32,
    /// The file at fault: 0 is the host file, k the k-th library, from 1.
    pub file: usize,
    /// The index, from 0, of the record in its segment's link information, of a fault that has one.
    pub rec: usize,
    /// The index, from 0, of the reference in its record, of a fault that has one.
    pub reference: usize,
    /// The slot of the host's segment dictionary, 0 to 15, of a fault that has one.
    pub slot: u32,
    /// The kind word of the library's entry, of a fault with number 14.
    pub kind: u32,
    /// The name of what the fault is about, and a closing 0; zeros where there is no such name.
    pub name: [u8; 9],
    /// How many segments a linked file has, at most 16.
    pub segments: u32,
    /// How many words all private variables of a linked file take together, 0 to
    /// `MAX_NEXT_FREE`.
    pub private_words: u32,
    /// How many blocks of 512 bytes a linked file has, at most `MAX_FILE_BLOCKS`.
    pub blocks: u32,
    /// How many warnings a report has.
    pub warnings: u32,
    /// How many bytes the result has, of a call that was done or that was given too little room.
    pub size: usize,
    /// 0: room for what is added.
    pub reserved: [u32; 8],
}

/// A count as a number of 32 bits: the highest such number where it is above.
fn capped(count: usize) -> u32
    ensures { result ≡ capped_spec count }
{
    count.min(NO_NUMBER as usize) as u32
}

/// The eight bytes of a name and a closing 0; zeros where there is none.
fn closed_name(name: Option<Name>) -> [u8; 9]
    ensures { result ≡ closed_name_spec name }
{
    let mut closed = [0u8; 9];
    closed[..8].copy_from_slice(&name.unwrap_or([0; 8]));
    closed
}

/// A number, or what stands for none.
fn number_of(number: Option<u16>) -> u32
    ensures { result ≡ unwrap_or number NO_NUMBER }
{
    match number {
        Some(number) => number.into(),
        None => NO_NUMBER,
    }
}

/// The slot that a number stands for.
fn slot_in(number: u32) -> Option<u8>
    ensures { result ≡ slot_part number }
{
    if number == NO_NUMBER {
        None
    } else {
        Some(number.min(MAX_BYTE) as u8)
    }
}

/// The index that a number stands for.
fn index_in(number: usize) -> Option<usize>
    ensures { result ≡ part NO_INDEX number }
{
    if number == NO_INDEX {
        None
    } else {
        Some(number)
    }
}

impl Answer {
    ghost use Rattle.ps_c_link.specs.Answers.{bare as bare_spec, capped_answer, fault_told, refusal as refusal_spec};
    ghost use Rattle.ps_c_link.specs.Outcomes.{answer_of, done_answer, not_done_answer, report_answer, unput_answer, verdict_answer};

    /// The answer with this status, and nothing else.
    pub fn bare(status: u32) -> Answer
        ensures { result ≡ bare_spec status }
    {
        Answer {
            status,
            fault: 0,
            file: NO_INDEX,
            rec: NO_INDEX,
            reference: NO_INDEX,
            slot: NO_NUMBER,
            kind: NO_NUMBER,
            name: [0; 9],
            segments: 0,
            private_words: 0,
            blocks: 0,
            warnings: 0,
            size: 0,
            reserved: [0; 8],
        }
    }

    /// The answer of a call whose linked file has this summary and so many bytes are its result.
    fn linked(summary: Summary, size: usize) -> Answer
        ensures { result ≡ capped_answer summary size }
    {
        Answer {
            segments: capped(summary.segments),
            private_words: summary.private_words.into(),
            blocks: capped(summary.blocks),
            size,
            ..Answer::bare(DONE)
        }
    }

    /// What a link of files with this verdict answers, of which nothing is written.
    fn verdict(verdict: Verdict) -> Answer
        ensures { result ≡ verdict_answer verdict }
    {
        match verdict {
            Verdict::Links(summary) => Answer::linked(summary, 0),
            Verdict::Refused(refusal) => Answer::refusal(refusal.fault, refusal.name),
        }
    }

    /// The answer of a report of so many bytes and warnings, which has what a link answers.
    fn report(verdict: Verdict, warnings: usize, size: usize) -> Answer
        ensures { result ≡ report_answer verdict warnings size }
    {
        Answer {
            status: DONE,
            warnings: capped(warnings),
            size,
            ..Answer::verdict(verdict)
        }
    }

    /// The answer of a call that was done.
    fn done(done: Done) -> Answer
        ensures { result ≡ done_answer done }
    {
        match done {
            Done::Linked { summary, size } => Answer::linked(summary, size),
            Done::Text(size) => Answer {
                size,
                ..Answer::bare(DONE)
            },
            Done::Report {
                verdict,
                warnings,
                size,
            } => Answer::report(verdict, warnings, size),
        }
    }

    /// The answer of a call that puts nothing in the room.
    #[inline(always)]
    fn unput(why: Unput) -> Answer
        ensures { result ≡ unput_answer why }
    {
        match why {
            Unput::Unmade(Unmade::Refused(refusal)) => {
                Answer::refusal(refusal.fault, refusal.name)
            }
            Unput::Unmade(Unmade::Memory) => Answer::bare(NO_MEMORY),
            Unput::TooSmall(small) => Answer {
                size: small.size,
                ..Answer::bare(TOO_SMALL)
            },
        }
    }

    /// The answer of a call that was not done.
    #[inline(always)]
    fn not_done(why: NotDone) -> Answer
        ensures { result ≡ not_done_answer why }
    {
        match why {
            NotDone::Wrong(WrongInputs::Lengths) => Answer::bare(MISUSE),
            NotDone::Wrong(WrongInputs::Names) => Answer::bare(WRONG_NAMES),
            NotDone::Unput(why) => Answer::unput(why),
        }
    }

    /// The answer of a call: its status, and what goes with that status. It is made where the caller
    /// wants it: handed up from function to function it would be copied at each.
    #[inline(always)]
    pub fn of(outcome: Result<Done, NotDone>) -> Answer
        ensures { result ≡ answer_of outcome }
    {
        match outcome {
            Ok(done) => Answer::done(done),
            Err(why) => Answer::not_done(why),
        }
    }

    /// The answer of files that are refused for this fault: `REFUSED`, the parts of the fault, and
    /// the name of what it is about, where it has one.
    #[inline(always)]
    pub fn refusal(fault: Fault, name: Option<Name>) -> Answer
        ensures { result ≡ refusal_spec fault name }
    {
        Answer {
            fault: fault.reason.number().into(),
            file: fault.file,
            rec: fault.rec.unwrap_or(NO_INDEX),
            reference: fault.reference.unwrap_or(NO_INDEX),
            slot: number_of(fault.slot.map(u16::from)),
            kind: number_of(fault.reason.kind()),
            name: closed_name(name),
            ..Answer::bare(REFUSED)
        }
    }

    /// The fault that an answer has, whole; `None` where its number is none of a fault's.
    pub fn fault(&self) -> Option<Fault>
        ensures { result ≡ fault_told self.now }
    {
        if self.fault > MAX_BYTE {
            return None;
        }
        let reason = Reason::from_number(self.fault as u8, self.kind.min(MAX_KIND) as u16)?;
        Some(Fault {
            reason,
            file: self.file,
            slot: slot_in(self.slot),
            rec: index_in(self.rec),
            reference: index_in(self.reference),
        })
    }
}
