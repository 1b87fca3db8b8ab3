//! Edits on codes, at once and block by block.
ghost use Rattle.std.specs.Prelude.{◌≡◌, [], ◌∷◌, length};
ghost use Rattle.ps_words.specs.Edits.{AreEdits};
ghost use Rattle.ps_words.specs.declared.edit.Edit.TheVariants.{Big};

use crate::code_file::put;
use crate::notation::holds_of;
use ps_patch::{Patcher, apply};
use ps_words::{Edit, Order};
use std::process::Abort;

/// The value of an operand.
const fn big(place: usize, value: u16) -> Edit
    ensures { result ≡ Big value place }
{
    Edit::Big { place, value }
}

/// Checks what a code is with these edits.
fn becomes(rt: &impl Abort, order: Order, code: &mut [u8], edits: &[Edit], wanted: &[u8])
    requires { AreEdits (length code.old) edits.now }
{
    apply(order, code, edits);
    let code = &*code;
    holds_of(rt, code == wanted, &code)
}

#[test]
fn edits_at_once(rt: HostRuntime) {
    let mut code = [0xD7, 0x80, 0x02, 0xAB];
    let edits = [big(1, 10)];
    let wanted = [0xD7, 0x80, 0x0A, 0xAB];
    becomes(&rt, Order::Little, &mut code, &edits, &wanted);
    becomes(&rt, Order::Big, &mut code, &[], &wanted);
    // a word
    let edits = [Edit::Word {
        place: 0,
        value: 18,
    }];
    becomes(
        &rt,
        Order::Big,
        &mut [0x00, 0x0A, 0xFF],
        &edits,
        &[0x00, 0x12, 0xFF],
    );
    // an operand and a byte
    let edits = [big(0, 258), Edit::Byte { place: 2, value: 7 }];
    becomes(
        &rt,
        Order::Little,
        &mut [0x00, 0x00, 0x05],
        &edits,
        &[0x81, 0x02, 0x07],
    )
}

/// Checks that a block has these bytes, and zeros behind them.
fn has(rt: &impl Abort, block: &[u8; 512], bytes: &[u8]) {
    let mut wanted = [0; 512];
    put(rt, &mut wanted, 0, bytes);
    holds_of(rt, *block == wanted, &bytes)
}

/// Checks that a patcher gives these bytes, with so many of them in each block and zeros behind them.
fn fills(rt: &impl Abort, patcher: Patcher<'_>, wanted: &[u8], counts: &[usize]) {
    let mut patcher = patcher;
    let mut left = wanted;
    for count in counts {
        let mut block = [0xEE; 512];
        holds_of(rt, patcher.fill(&mut block) == *count, count);
        let (bytes, rest) = left.split_at_checked(*count).unwrap_or((&[], &[]));
        has(rt, &block, bytes);
        left = rest;
    }
}

/// Checks the blocks of a code with one edit, whose bytes are these.
fn fills_edited(rt: &impl Abort, order: Order, edit: Edit, bytes: &[u8])
    requires { AreEdits 1024 (edit ∷ []) }
{
    let code = [0xD7; 1024];
    let mut wanted = code;
    put(rt, &mut wanted, edit.place(), bytes);
    let edits = [edit];
    fills(rt, Patcher::new(order, &code, &edits), &wanted, &[512, 512])
}

#[test]
fn blocks_of_codes_without_edits(rt: HostRuntime) {
    let long = [0xD7; 1024];
    let patcher = Patcher::new(Order::Little, &long, &[]);
    fills(&rt, patcher, &long, &[512, 512, 0, 0]);
    let short = [1, 2, 3, 4, 5];
    let patcher = Patcher::new(Order::Little, &short, &[]);
    fills(&rt, patcher, &short, &[5, 0]);
    fills(&rt, Patcher::new(Order::Little, &[], &[]), &[], &[0])
}

/// A code of 530 bytes with these at its end.
fn long_code(rt: &impl Abort, end: &[u8]) -> [u8; 530] {
    let mut code = [0xD7; 530];
    put(rt, &mut code, 510, end);
    code
}

#[test]
fn an_operand_across_two_blocks(rt: HostRuntime) {
    let code = long_code(
        &rt,
        b"\xA5\x80\xFF\xD7\xAD\0\0\0\0\0\x06\0\x0A\x02\x01\0\x02\0\x02\x01",
    );
    let wanted = long_code(
        &rt,
        b"\xA5\x81\x02\xD7\xAD\0\0\0\0\0\x06\0\x0A\x02\x01\0\x02\0\x07\x01",
    );
    let edits = [
        big(511, 258),
        Edit::Byte {
            place: 528,
            value: 7,
        },
    ];
    let patcher = Patcher::new(Order::Little, &code, &edits);
    fills(&rt, patcher, &wanted, &[512, 18, 0])
}

#[test]
fn operands_at_the_end_and_at_the_start_of_a_block(rt: HostRuntime) {
    let end = big(510, 3);
    fills_edited(&rt, Order::Little, end, &[0x80, 0x03]);
    let start = big(512, 3);
    fills_edited(&rt, Order::Big, start, &[0x80, 0x03])
}
