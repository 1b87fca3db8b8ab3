//! A fault, and what the files say of it.
ghost use Rattle.std.specs.Prelude.{◌≡◌, ◌<◌, IfSome};

use ps_check_segments::{NamedFiles, ReadSegment, SegmentPart, Source, in_slot};
use ps_codefile::code_layout::NUMBERS;
use ps_codefile::dictionary_layout::SLOTS;
use ps_codefile::{Dict, Entry, ProcedureDictionary, ProcedureFault, Role};
use ps_filetype::{ShownName, is_host_type};
use ps_linkinfo::{LinkInformation, LinkRecord, Operand};
use ps_resolve::{Reading, words_before};
use ps_words::{Fault, Name, Reason};

/// The entry of an earlier slot stands in the way of that of another: a host program of a second one,
/// and a unit that the host has or wants of a second one of its name.
fn is_in_way(dict: &Dict<'_>, reason: Reason, slot: u8, earlier: u8) -> bool
    requires slot { slot < SLOTS }
    requires earlier { earlier < SLOTS }
{
    match (reason, dict.role(earlier)) {
        (Reason::TwoHosts, Ok(Role::Host)) => true,
        (Reason::DoubledSegment, Ok(Role::Unit | Role::Wanted)) => {
            dict.entry(earlier).name == dict.entry(slot).name
        }
        _ => false,
    }
}

/// The first slot before this one whose entry stands in its way.
fn first_in_way(dict: &Dict<'_>, reason: Reason, slot: u8) -> Option<u8>
    requires { slot < SLOTS }
    ensures in_range { IfSome result (λ earlier. earlier < SLOTS) }
{
    (0..slot).find(|earlier| is_in_way(dict, reason, slot, *earlier))
}

/// A fault, and what of the files it is about.
#[derive(Clone, Copy)]
pub struct Case<'c, 'a> {
    /// The files.
    pub inputs: &'c NamedFiles<'a>,
    /// The segments of the link.
    pub list: &'c [ReadSegment<'a>],
    pub fault: Fault,
    /// The segment of its slot.
    pub segment: Option<&'c ReadSegment<'a>>,
    /// The words of the private variables before the record of the fault; of all if it has none.
    pub(crate) words: u64,
    /// A warning or a note is told of its file: the file may be damaged.
    pub(crate) is_suspect: bool,
    /// A note says that the compiler of its file may count references otherwise.
    pub(crate) is_counted_otherwise: bool,
}

impl<'c, 'a> Case<'c, 'a> {
    /// The case of this fault, of the segments of a reading, where a warning or a note is told of its
    /// file or not, and a note says that the file's compiler may count references otherwise, or not.
    pub fn new(
        inputs: &'c NamedFiles<'a>,
        reading: &'c Reading<'a>,
        list: &'c [ReadSegment<'a>],
        fault: Fault,
        is_suspect: bool,
        is_counted_otherwise: bool,
    ) -> Self
        ensures inputs { result.inputs.now ≡ inputs.now }
        ensures list { result.list.now ≡ list.now }
        ensures fault { result.fault ≡ fault }
    {
        let segment = match fault.slot {
            Some(slot) => in_slot(list, slot),
            None => None,
        };
        let words = match (fault.slot, fault.rec) {
            (Some(slot), Some(rec)) => words_before(reading.segments(), slot, rec),
            _ => words_before(reading.segments(), SLOTS, 0),
        };
        Case {
            inputs,
            list,
            fault,
            segment,
            words: u64::from(words.unwrap_or(u32::MAX)),
            is_suspect,
            is_counted_otherwise,
        }
    }

    /// What the dictionary of the host says of its slot.
    /// Source: UCSD Pascal II.0 manual, code file format.
    pub(crate) fn entry(&self) -> Option<Entry> {
        match (Dict::read(self.inputs.host), self.fault.slot) {
            (Ok(dict), Some(slot)) if slot < SLOTS => Some(dict.entry(slot)),
            _ => None,
        }
    }

    /// The dictionary that has its segment, and the entry there.
    fn place(&self) -> Option<(Dict<'a>, u8)>
        ensures in_range { IfSome result (λ p. p.1 < SLOTS) }
    {
        let at = self.source()?.at;
        if at.index >= SLOTS {
            return None;
        }
        Some((self.inputs.dict(at.file)?, at.index))
    }

    /// What the dictionary of its file says of its segment.
    /// Source: UCSD Pascal II.0 manual, code file format.
    pub(crate) fn found(&self) -> Option<Entry> {
        let (dict, index) = self.place()?;
        Some(dict.entry(index))
    }

    /// The bytes of its file after the code of its segment.
    /// Source: UCSD Pascal II.0 manual, code file format.
    pub(crate) fn after(&self) -> Option<&'a [u8]> {
        let (dict, index) = self.place()?;
        Some(dict.after(index))
    }

    /// The name of the segment of its slot.
    pub(crate) fn name(&self) -> Option<Name> {
        match self.segment {
            Some(segment) => Some(segment.name),
            None => Some(self.entry()?.name),
        }
    }

    /// The record that the fault is reported with, where it can be read.
    /// Source: the published II.0 Linker source.
    pub(crate) fn record(&self) -> Option<LinkRecord<'a>> {
        match self.fault.rec {
            Some(rec) => self.records().record(rec),
            None => None,
        }
    }

    /// The records of its segment, up to the first that cannot be read.
    pub(crate) fn records(&self) -> LinkInformation<'a> {
        match self.segment {
            Some(segment) => segment.records.copy(),
            None => LinkInformation::none(),
        }
    }

    /// Where its segment comes from.
    pub(crate) fn source(&self) -> Option<Source<'a>> {
        match self.segment {
            Some(segment) => segment.source.ok(),
            None => None,
        }
    }

    /// The operand that the fault is reported with.
    /// Source: the published II.0 Linker source.
    pub(crate) fn operand(&self) -> Option<Operand> {
        match (self.record(), self.fault.reference) {
            (Some(record), Some(reference)) => record.operand(reference),
            _ => None,
        }
    }

    /// The fault is in a host that is no code file, though it can be read as one: nothing is said of
    /// its segments.
    pub(crate) fn is_in_no_code_file(&self) -> bool {
        let is_of_file = matches!(
            self.fault.reason,
            Reason::ShortFile | Reason::NoOrder | Reason::NoHost
        );
        self.fault.file == 0 && !is_of_file && !self.inputs.file_type(0).is_code()
    }

    /// The first library that has a host program.
    pub(crate) fn host_among_libraries(&self) -> Option<usize> {
        let end = self.inputs.libs.len() + 1;
        (1..end).find(|file| is_host_type(self.inputs.bytes(*file)))
    }

    /// The code of its segment, as far as it can be read.
    /// Source: UCSD Pascal II.0 manual, code file format.
    pub(crate) fn code(&self) -> &'a [u8] {
        match self.source() {
            Some(Source { code: Ok(code), .. }) => code,
            _ => &[],
        }
    }

    /// The name of the unit that no library has: the one that the record of the fault requests or,
    /// without a record, that of its segment.
    pub(crate) fn missing_unit(&self) -> Option<Name> {
        match self.fault.rec {
            Some(_) => Some(self.record()?.name),
            None => Some(self.segment?.name),
        }
    }

    /// The earlier slot that has a host program, or a unit of the name, and the name of its segment.
    pub(crate) fn earlier_entry(&self) -> Option<(u8, ShownName)> {
        match (Dict::read(self.inputs.host), self.fault.slot) {
            (Ok(dict), Some(slot)) if slot < SLOTS => {
                let earlier = first_in_way(&dict, self.fault.reason, slot)?;
                Some((earlier, ShownName(dict.entry(earlier).name)))
            }
            _ => None,
        }
    }

    /// The first thing that is wrong with the procedures of the code.
    /// Source: UCSD Pascal II.0 manual, code file format.
    pub(crate) fn procedure_fault(&self) -> Option<ProcedureFault> {
        let code = self.code();
        match (self.segment, self.source()) {
            (Some(segment), Some(source)) if NUMBERS <= code.len() => {
                let is_host = matches!(segment.part, SegmentPart::Host);
                ProcedureDictionary::read_or_fault(source.order, code, is_host).err()
            }
            _ => None,
        }
    }
}
