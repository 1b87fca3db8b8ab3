//! Words of either byte order, blocks, and faults as text.
use super::answers::is;
use crate::line::Line;
use crate::notation::{holds, holds_of};
use ps_words::{BLOCK_SIZE, Fault, Order, Reason, blocks_of, get, get_big, put, put_big};
use std::fmt;
use std::fmt::Write;
use std::process::Abort;

#[test]
fn words_of_either_order(rt: HostRuntime) {
    let mut bytes = [0x0A, 0x02, 0x77];
    let read = [get(Order::Little, &bytes, 0), get(Order::Big, &bytes, 0)];
    holds_of(&rt, read == [522, 2562], &read);
    put(Order::Little, &mut bytes, 1, 522);
    holds_of(&rt, bytes == [0x0A, 0x0A, 0x02], &bytes);
    put(Order::Big, &mut bytes, 1, 522);
    holds_of(&rt, bytes == [0x0A, 0x02, 0x0A], &bytes)
}

#[test]
fn operands(rt: HostRuntime) {
    // bit 7 is not looked at
    let read = [get_big(&[0x81, 0x02], 0), get_big(&[0x01, 0x02], 0)];
    holds_of(&rt, read == [258, 258], &read);
    let mut bytes = [0xAB, 0, 0, 0xAB];
    put_big(&mut bytes, 1, 258);
    holds_of(&rt, bytes == [0xAB, 0x81, 0x02, 0xAB], &bytes)
}

#[test]
fn blocks(rt: HostRuntime) {
    let taken = [blocks_of(0), blocks_of(BLOCK_SIZE), blocks_of(513)];
    holds_of(&rt, taken == [0, 1, 2], &taken)
}

/// A fault with every part, the last reference of the last record of a file as long as one can be.
const WHOLE: Fault = Fault {
    reason: Reason::NotAUnit { kind: 65535 },
    file: 13,
    slot: Some(15),
    rec: Some(4_194_303),
    reference: Some(65_534),
};

/// Checks the text of a fault, and the number and the name of its reason.
fn is_fault(
    rt: &(impl Abort + AllocGlobal),
    fault: &Fault,
    (number, name): (u8, &str),
    wanted: &str,
) {
    let reason = fault.reason;
    holds(rt, reason.number() == number && reason.name() == name, name);
    let mut line = Line::new(rt.alloc());
    line.shown(fault);
    is(rt, name, line, wanted)
}

#[test]
fn faults_as_text(rt: HostRuntime) {
    let wanted = "refused 14 NotAUnit kind 65535 file 13 slot 15 record 4194303 reference 65534";
    is_fault(&rt, &WHOLE, (14, "NotAUnit"), wanted);
    let fault = Fault::in_slot(1, 7, Reason::NotAUnit { kind: 5 });
    let wanted = "refused 14 NotAUnit kind 5 file 1 slot 7";
    is_fault(&rt, &fault, (14, "NotAUnit"), wanted)
}

/// A writer of which one call fails, behind so many that do not; it counts those behind the one.
#[derive(Drop)]
struct FailsOnce {
    before: u32,
    has_failed: bool,
    after: u32,
}

impl fmt::Write for FailsOnce {
    fn write_str(&mut self, _text: &str) -> fmt::Result {
        if self.has_failed {
            self.after = self.after.saturating_add(1);
            return Ok(());
        }
        if self.before == 0 {
            self.has_failed = true;
            return Err(fmt::Error);
        }
        self.before -= 1;
        Ok(())
    }
}

/// Writes a fault to a writer of which a call fails behind so many that do not. Returns whether one
/// failed: then none is made behind it.
fn fails_behind(rt: &impl Abort, before: u32) -> bool {
    let mut writer = FailsOnce {
        before,
        has_failed: false,
        after: 0,
    };
    let is_written = write!(writer, "{WHOLE}").is_ok();
    let FailsOnce {
        has_failed,
        after,
        ..
    } = writer;
    holds_of(rt, is_written != has_failed && after == 0, &before);
    has_failed
}

#[test]
fn nothing_is_written_behind_a_call_that_failed(rt: HostRuntime) {
    let mut failed = 0u32;
    for before in 0..100 {
        if fails_behind(&rt, before) {
            failed = failed.saturating_add(1);
        }
    }
    holds(&rt, failed > 0 && failed < 100, "each call failed, or none")
}
