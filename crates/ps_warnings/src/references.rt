//! How many references of a segment lead to operands for variables of the program: as pslink counts
//! their places, and as another compiler may count them.
use crate::counting::{COUNTINGS, Counting};
use ps_check_segments::{NamedFiles, ReadSegment};
use ps_codefile::dictionary_layout::SLOTS;
use ps_linkinfo::{Body, LinkInformation, Refs};
use ps_pcode::{Ends, is_wide_variable_at, procedures_of};
use ps_resolve::EntryAt;
use ps_words::{BLOCK_SIZE, Name, Order, get_big};
use std::alloc::{AllocError, Allocator};

/// Fewer references may lead to operands by chance.
const FEWEST: usize = 4;

/// The displacement of an operand of the bytes 80 00: that of a compiler which leaves all of the place
/// of a variable to the Linker.
const ZERO_DISPLACEMENT: u16 = 0;

/// How many places a word of a set has.
const BITS: usize = 64;

/// Some of the places that references can name, each a bit, up to the word of the last one.
#[derive(Drop)]
struct PlaceSet<A: Allocator> {
    words: Vec<u64, A>,
}

impl<A: Allocator> PlaceSet<A> {
    fn none(alloc: A) -> Self {
        PlaceSet {
            words: Vec::new(alloc),
        }
    }

    /// Adds a place, and says that it is a new one.
    fn add(&mut self, place: u16) -> Result<bool, AllocError> {
        let (word, bit) = (usize::from(place) / BITS, usize::from(place) % BITS);
        if self.words.len() <= word {
            self.words.resize(word + 1, 0u64)?;
        }
        let bit = 1u64 << bit;
        let Some(word) = self.words.get_mut(word) else {
            return Ok(false);
        };
        let is_new = *word & bit == 0;
        *word |= bit;
        Ok(is_new)
    }

    fn has(&self, place: usize) -> bool {
        match self.words.get(place / BITS) {
            Some(word) => *word & (1u64 << (place % BITS)) != 0,
            None => false,
        }
    }
}

/// The places that the references of PUBLREF and PRIVREF records name.
#[derive(Drop)]
struct NamedPlaces<A: Allocator> {
    /// How many references there are.
    references: usize,
    /// The places, each once: an operand is referred to once.
    places: Vec<u16, A>,
    set: PlaceSet<A>,
}

impl<A: Allocator + Copy> NamedPlaces<A> {
    fn of(alloc: A, records: &LinkInformation<'_>) -> Result<Self, AllocError> {
        let mut named = NamedPlaces {
            references: 0,
            places: Vec::new(alloc),
            set: PlaceSet::none(alloc),
        };
        for (_, record) in records.records() {
            if let Body::PublRef(refs) | Body::PrivRef { refs, .. } = &record.body {
                named.add(refs)?;
            }
        }
        Ok(named)
    }

    fn add(&mut self, refs: &Refs<'_>) -> Result<(), AllocError> {
        for reference in 0..refs.len() {
            let place = refs.get(reference);
            if self.set.add(place)? {
                self.places.push(place)?;
            }
        }
        self.references = self.references.saturating_add(refs.len());
        Ok(())
    }
}

/// A code, and where it is in its file.
#[derive(Clone, Copy)]
struct PlacedCode<'c> {
    order: Order,
    code: &'c [u8],
    /// How many bytes of the file are before it.
    before: usize,
}

impl PlacedCode<'_> {
    /// How many places lead to operands that are counted so.
    fn led(self, places: &[u16], counting: Counting) -> usize {
        let mut led = 0usize;
        for place in places {
            let reference = usize::from(*place);
            if let Some(place) = counting.place(reference, self.code.len(), self.before) {
                led = led.saturating_add(usize::from(is_wide_variable_at(self.code, place)));
            }
        }
        led
    }

    /// How many operands of its procedures are at places of the set that are counted from where the
    /// procedure is entered. Procedures may share bytes: those are left out from the first on that has
    /// more bytes than the code has left after the ones before.
    fn led_from_procedures<A: Allocator>(self, set: &PlaceSet<A>) -> usize {
        let Some(procedures) = procedures_of(self.order, self.code) else {
            return 0;
        };
        let (mut led, mut left) = (0usize, self.code.len());
        for procedure in 1..=procedures.count() {
            let table = procedures.table(procedure).unwrap_or(0);
            let enter = match Ends::at(self.order, self.code, table) {
                Some(ends) => ends.enter,
                None => table,
            };
            let Some(rest) = left.checked_sub(table.saturating_sub(enter)) else {
                return led;
            };
            left = rest;
            led = led.saturating_add(self.led_from(enter, table, set));
        }
        led
    }

    /// How many operands before an attribute table are at places of the set that are counted from
    /// where its procedure is entered.
    fn led_from<A: Allocator>(self, enter: usize, table: usize, set: &PlaceSet<A>) -> usize {
        let mut led = 0usize;
        for place in enter..table {
            let is_named = set.has(place.saturating_sub(enter));
            let is_led = is_named && is_wide_variable_at(self.code, place);
            led = led.saturating_add(usize::from(is_led));
        }
        led
    }

    /// How many of the references lead to operands that are counted so. Where there are more such
    /// operands than references, the references are no references to these.
    fn led_by<A: Allocator>(self, named: &NamedPlaces<A>, counting: Counting) -> usize {
        if !matches!(counting, Counting::FromProcedure) {
            return self.led(named.places.as_slice(), counting);
        }
        let led = self.led_from_procedures(&named.set);
        if are_nearly(named.references, led) {
            led.min(named.references)
        } else {
            0
        }
    }

    /// The way to count by which nearly all references lead to operands, where by each other one, and
    /// as pslink counts, there are clearly fewer; and how many these are.
    fn otherwise<A: Allocator>(
        self,
        named: &NamedPlaces<A>,
        operands: usize,
    ) -> Option<(Counting, usize)> {
        let references = named.references;
        if references < FEWEST || !are_few(operands, references) {
            return None;
        }
        let mut found = None;
        for counting in &COUNTINGS {
            let led = self.led_by(named, *counting);
            if are_nearly(led, references) && found.is_none() {
                found = Some((*counting, led));
            } else if !are_few(led, references) {
                return None;
            }
        }
        found
    }
}

/// So many are as many as all of these, but for one in sixteen.
fn are_nearly(some: usize, all: usize) -> bool {
    all.saturating_mul(15) <= some.saturating_mul(16)
}

/// So many are clearly fewer than all of these: by more than one in eight, and another one.
fn are_few(some: usize, all: usize) -> bool {
    some.saturating_add(1).saturating_mul(8) <= all.saturating_mul(7)
}

/// How many references of a segment lead to operands for variables of the program.
#[derive(Clone, Copy)]
pub struct SegmentReferences<'a> {
    /// The path of the file that the segment comes from.
    pub path: &'a str,
    pub segment: Name,
    /// How many references its PUBLREF and PRIVREF records have.
    pub references: usize,
    /// How many of them lead to an operand of two bytes of LAO, LDO or SRO, each to another one.
    pub operands: usize,
    /// How many of these operands are the bytes 80 00.
    pub zeros: usize,
    /// How its compiler may count the places of its references otherwise, and how many of them lead to
    /// operands so; none where nothing says that it does.
    pub otherwise: Option<(Counting, usize)>,
}

/// How many references of each segment of a link lead to operands for variables of the program, in
/// the order of the segments; of a segment that has no such reference, or no code, nothing.
///
/// `list` has the segments of a link of the files of `inputs`, as `ps_check_segments::segments_of`
/// gives them. Returns an error where memory was refused.
///
/// Source: P-code of II.0, *(open)* in FORMAT.md.
pub fn references_of<'a, A: Allocator + Copy>(
    alloc: A,
    inputs: &NamedFiles<'a>,
    list: &[ReadSegment<'a>],
) -> Result<Vec<SegmentReferences<'a>, A>, AllocError> {
    let mut all = Vec::new(alloc);
    for segment in list {
        if let Some(found) = references_in(alloc, inputs, segment)? {
            all.push(found)?;
        }
    }
    Ok(all)
}

/// How many references of a segment lead to operands, if it has any.
fn references_in<'a, A: Allocator + Copy>(
    alloc: A,
    inputs: &NamedFiles<'a>,
    segment: &ReadSegment<'a>,
) -> Result<Option<SegmentReferences<'a>>, AllocError> {
    let Ok(source) = segment.source else {
        return Ok(None);
    };
    let Ok(code) = source.code else {
        return Ok(None);
    };
    if segment.records.references() == 0 {
        return Ok(None);
    }
    let named = NamedPlaces::of(alloc, &segment.records)?;
    if named.references == 0 {
        return Ok(None);
    }
    let placed = PlacedCode {
        order: source.order,
        code,
        before: bytes_before(inputs, source.at),
    };
    let (operands, zeros) = operands_at(code, named.places.as_slice());
    Ok(Some(SegmentReferences {
        path: inputs.path(source.at.file),
        segment: segment.name,
        references: named.references,
        operands,
        zeros,
        otherwise: placed.otherwise(&named, operands),
    }))
}

/// How many bytes of its file are before the code of an entry; 0 where the file has no such code.
fn bytes_before(inputs: &NamedFiles<'_>, at: EntryAt) -> usize {
    match inputs.dict(at.file) {
        Some(dict) if at.index < SLOTS => {
            BLOCK_SIZE.saturating_mul(usize::from(dict.entry(at.index).address))
        }
        _ => 0,
    }
}

/// How many of these places of a code are those of operands, and how many of these operands are the
/// bytes 80 00.
fn operands_at(code: &[u8], places: &[u16]) -> (usize, usize) {
    let (mut operands, mut zeros) = (0usize, 0usize);
    for place in places {
        let place = usize::from(*place);
        if is_wide_variable_at(code, place) {
            let is_zero = place + 1 < code.len() && get_big(code, place) == ZERO_DISPLACEMENT;
            operands = operands.saturating_add(1);
            zeros = zeros.saturating_add(usize::from(is_zero));
        }
    }
    (operands, zeros)
}
