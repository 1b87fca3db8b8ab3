//! What the files say of the reference that a fault is reported with.
use crate::cases::Case;
use ps_check_segments::host_of;
use ps_linkinfo::{Body, LinkInformation, LinkRecord, Operand, Sort};
use ps_pcode::procedures_of;
use ps_resolve::{RecordAt, ReferenceAt, SegmentAt, covering_reference};
use ps_words::{Fault, Name, get_big};

/// The value by which the first of these records that does defines a public variable of the name.
fn value_in(records: &LinkInformation<'_>, name: &Name) -> Option<u16> {
    let (_, record) = records.find(name, Sort::Variable)?;
    match record.body {
        Body::PublDef(value) => Some(value),
        _ => None,
    }
}

impl<'a> Case<'_, 'a> {
    /// The bytes of an operand, as far as the code has them.
    /// Source: the published II.0 Linker source.
    pub(crate) fn bytes_of(&self, operand: Operand) -> &'a [u8] {
        let rest = self.code().get(usize::from(operand.place)..).unwrap_or(&[]);
        rest.get(..usize::from(operand.width)).unwrap_or(rest)
    }

    /// The displacement in an operand, in words; 0 where the code does not have it.
    /// Source: UCSD Pascal II.0 manual, code file format.
    pub(crate) fn displacement_of(&self, operand: Operand) -> u16 {
        let bytes = self.bytes_of(operand);
        if 2 <= bytes.len() {
            get_big(bytes, 0)
        } else {
            0
        }
    }

    /// The first procedure, from 1, whose table has the first or the last byte of an operand.
    /// Source: UCSD Pascal II.0 manual, code file format.
    pub(crate) fn table_with(&self, operand: Operand) -> Option<usize> {
        let procedures = procedures_of(self.source()?.order, self.code())?;
        let first = usize::from(operand.place);
        let last = (first + usize::from(operand.width)).saturating_sub(1);
        procedures.table_with(first).or(procedures.table_with(last))
    }

    /// The earlier reference that covers a byte of this one, and its record.
    pub(crate) fn earlier_reference(&self) -> Option<(ReferenceAt, LinkRecord<'a>)> {
        let Fault {
            file,
            slot: Some(slot),
            rec: Some(rec),
            reference: Some(reference),
            ..
        } = self.fault
        else {
            return None;
        };
        let segment = SegmentAt { file, slot };
        let at = RecordAt { segment, rec };
        let operand = self.operand()?;
        let records = self.records();
        let earlier = covering_reference(&records, ReferenceAt { at, reference }, operand)?;
        Some((earlier, records.record(earlier.at.rec)?))
    }

    /// The value of the references of a record: the base offset of its private variable, or the
    /// value of the host's definition of its name; 0 where there is none.
    /// Source: the published II.0 Linker source.
    pub(crate) fn value_of(&self, record: &LinkRecord<'_>) -> u64 {
        match record.body {
            Body::PrivRef { .. } => self.base_offset(),
            _ => u64::from(self.defined_value(&record.name).unwrap_or(0)),
        }
    }

    /// The operand leads past its variable: past the words of a private one, or past all that the
    /// host program defines.
    pub(crate) fn leads_past(&self) -> bool {
        let (Some(record), Some(operand)) = (self.record(), self.operand()) else {
            return false;
        };
        let displacement = self.displacement_of(operand);
        match (&record.body, host_of(self.list)) {
            (Body::PrivRef { words, .. }, _) => *words <= displacement,
            (_, Some(host)) => {
                let place = self
                    .value_of(&record)
                    .saturating_add(u64::from(displacement));
                u64::from(host.records.next()) <= place
            }
            (_, None) => false,
        }
    }

    /// The value of the host's definition of the name.
    fn defined_value(&self, name: &Name) -> Option<u16> {
        match host_of(self.list) {
            Some(host) => value_in(&host.records, name),
            None => None,
        }
    }
}
