//! What the bytes of a record mean: the one reader of records.
ghost use Rattle.std.specs.Prelude.{◌≡◌, ◌≤◌, ◌+◌, length, take, IfOk, IfErr, Some};
ghost use Rattle.ps_words.specs.Words.{word_at};
ghost use Rattle.ps_linkinfo.specs.Records.{BeginsWith, IsBody, bad, bad_format, refs_at as refs_at_spec, refs_of, size_of, list_len as list_len_spec};

use crate::record::{Body, LinkRecord};
use crate::record_layout::{
    BIG_FORMAT, BYTE_FORMAT, CONSTDEF, CONSTREF, COUNT_PLACE, EOFMARK, EXTFUNC, EXTPROC,
    FORMAT_PLACE, GLOBDEF, GLOBREF, PRIVREF, PUBLDEF, PUBLREF, RECORD_LEN, SEPFREF, SEPFUNC,
    SEPPREF, SEPPROC, TYPE_PLACE, UNITREF, WORD_FORMAT, WORDS_PLACE, list_len,
};
use crate::refs::Refs;
use ps_words::{NAME_LEN, Name, Order, Reason, WORD_LEN, get};

/// The references of the first record, and how many bytes it takes, or why it is no reference
/// record of this format.
#[inline(always)]
fn refs_at(order: Order, rest: &[u8], format: u16) -> Result<(Refs<'_>, usize), Reason>
    requires { 16 ≤ length rest.now }
    ensures refs { IfOk result (λ read. read.0
        ≡ refs_at_spec order rest.now (word_at order rest.now 12)) }
    ensures format { IfOk result (λ _. word_at order rest.now 10 ≡ format) }
    ensures size { IfOk result (λ read. read.1 ≡ 16 + list_len_spec (length read.0)) }
    ensures whole { IfOk result (λ read. read.1 ≤ length rest.now) }
    ensures bad { IfErr result (λ why. bad_format order rest.now format ≡ Some why) }
{
    let given = get(order, rest, FORMAT_PLACE);
    if given == WORD_FORMAT {
        return Err(Reason::NativeRecord);
    }
    if given != format {
        return Err(Reason::BadFormat);
    }
    let count = get(order, rest, COUNT_PLACE) as usize;
    let size = RECORD_LEN + list_len(count);
    if rest.len() < size {
        return Err(Reason::RecordsTruncated);
    }
    let refs = Refs::new(order, &rest[RECORD_LEN..RECORD_LEN + WORD_LEN * count]);
    Ok((refs, size))
}

/// What the first record says, and how many bytes it takes, or why there is none.
#[inline(always)]
fn body_at(order: Order, rest: &[u8]) -> Result<(Body<'_>, usize), Reason>
    requires { 16 ≤ length rest.now }
    ensures body { IfOk result (λ read. IsBody order rest.now read.0) }
    ensures size { IfOk result (λ read. read.1 ≡ 16 + list_len_spec (length (refs_of read.0))) }
    ensures whole { IfOk result (λ read. read.1 ≤ length rest.now) }
    ensures bad { IfErr result (λ why. bad order rest.now ≡ Some why) }
{
    match get(order, rest, TYPE_PLACE) {
        UNITREF => {
            let (refs, size) = refs_at(order, rest, BYTE_FORMAT)?;
            Ok((Body::UnitRef(refs), size))
        }
        PUBLREF => {
            let (refs, size) = refs_at(order, rest, BIG_FORMAT)?;
            Ok((Body::PublRef(refs), size))
        }
        PRIVREF => {
            let (refs, size) = refs_at(order, rest, BIG_FORMAT)?;
            let words = get(order, rest, WORDS_PLACE);
            Ok((Body::PrivRef { words, refs }, size))
        }
        PUBLDEF => Ok((Body::PublDef(get(order, rest, FORMAT_PLACE)), RECORD_LEN)),
        CONSTDEF => Ok((Body::ConstDef(get(order, rest, FORMAT_PLACE)), RECORD_LEN)),
        EOFMARK => Ok((Body::Eof(get(order, rest, FORMAT_PLACE)), RECORD_LEN)),
        GLOBREF | CONSTREF | GLOBDEF | EXTPROC | EXTFUNC => Err(Reason::NativeRecord),
        SEPPROC | SEPFUNC | SEPPREF | SEPFREF => Err(Reason::SeparateRecord),
        _ => Err(Reason::UnknownRecord),
    }
}

/// The name of the first record.
#[inline(always)]
fn name_at(rest: &[u8]) -> Name
    requires { 16 ≤ length rest.now }
    ensures { result ≡ take 8 rest.now }
{
    let mut name = [0; NAME_LEN];
    name.copy_from_slice(&rest[..NAME_LEN]);
    name
}

/// The first record, and how many bytes it takes, or why there is none.
#[inline(always)]
pub(crate) fn first_record(order: Order, rest: &[u8]) -> Result<(LinkRecord<'_>, usize), Reason>
    ensures ok { IfOk result (λ read. BeginsWith order rest.now read.0) }
    ensures size { IfOk result (λ read. read.1 ≡ size_of read.0) }
    ensures bad { IfErr result (λ why. bad order rest.now ≡ Some why) }
{
    if rest.len() < RECORD_LEN {
        return Err(Reason::RecordsTruncated);
    }
    let (body, size) = body_at(order, rest)?;
    let record = LinkRecord {
        name: name_at(rest),
        body,
    };
    Ok((record, size))
}
