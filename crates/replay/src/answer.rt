// Our answers in words, as the oracle writes them: the number of the refusal, or 0, and what was written to the lent words. Records,
// streams and their scopes are asked through the functions of crate mitrelilac, which C gets under the same names.
use common::Refusal;
use common::buffer::ParseBuffer;
use constants::class_number;
use constants::compiler::{cpu_type, source_language};
use constants::kind::{ends_scope, starts_scope};
use mitrelilac::{
    mitrelilac_annotation, mitrelilac_check, mitrelilac_climb, mitrelilac_decode, mitrelilac_jump,
    mitrelilac_kind, mitrelilac_name, mitrelilac_preview, mitrelilac_register_entry,
    mitrelilac_step, mitrelilac_walk,
};
use names::{Part, parse_cstring, parse_u8_pascal_string};
use record_words::field::{variant_number, variant_value};
use std::convert::AsSlice;
use variant::{Variant, parse_variant};
use words::signed_word;

/// What lent words hold before a call: one that is not the answer's must hold it afterwards.
pub const FREE: u64 = 0xfeed_fedd_feed_fedd;

/// The most words of an answer.
pub const WORDS: usize = 68;

/// An answer: the number that was returned, and the words that were written.
pub type Words = [u64; WORDS];

/// The words of a call that returned this number and wrote these.
fn words_of(number: u32, written: &[u64]) -> Words {
    let mut words = [FREE; WORDS];
    words[0] = number as u64;
    for (word, x) in words[1..].iter_mut().zip(written) {
        *word = *x;
    }
    words
}

/// The words of a call that these are lent to.
fn called<A: AsSlice<u64> + Drop, F: FnOnce(&mut A) -> u32>(mut out: A, call: F) -> Words
    requires { F.IsAlwaysCallable call }
{
    let number = call(&mut out);
    words_of(number, out.as_slice())
}

/// The words of what was read, or of the refusal.
fn told<W: AsSlice<u64> + Drop>(read: Result<W, Refusal>) -> Words {
    match read {
        Ok(written) => words_of(0, written.as_slice()),
        Err(e) => words_of(e.number() as u32, &[e.position() as u64, e.detail()]),
    }
}

/// A name's part, and the position after it.
fn name(p: Part, next: usize) -> [u64; 3] {
    [p.start as u64, p.len as u64, next as u64]
}

/// The variant's place in the Rust's enum, its value, and the position after it.
fn numeric(v: Variant, next: usize) -> [u64; 3] {
    [variant_number(v), variant_value(v), next as u64]
}

/// The class of a kind, and whether it opens or closes a scope.
fn kind(k: u16) -> [u64; 3] {
    let rec = k.to_le_bytes();
    [
        class_number(k) as u64,
        starts_scope(&rec) as u64,
        ends_scope(&rec) as u64,
    ]
}

/// The answer to a case. An operation that we do not have is answered by a number that no refusal has.
pub fn answer(op: u64, arg: u64, start: u64, s: &[u8]) -> Words {
    let at = arg as usize;
    let from = start as usize;
    let mut buf = ParseBuffer { bytes: s, pos: at };
    // One match, since the oracle tells operations by number. (44, the squeeze, is asked by module squeeze.)
    match op {
        1 => told(buf.parse::<u8>().map(|x| [x as u64, buf.pos as u64])),
        2 => told(buf.parse::<u16>().map(|x| [x as u64, buf.pos as u64])),
        3 => told(buf.parse::<u32>().map(|x| [x as u64, buf.pos as u64])),
        4 => told(buf.parse::<u64>().map(|x| [x, buf.pos as u64])),
        5 => told(buf.parse::<i16>().map(|x| [signed_word(x), buf.pos as u64])),
        6 => told(buf.parse::<i32>().map(|x| [signed_word(x), buf.pos as u64])),
        7 => told(buf.parse::<i64>().map(|x| [signed_word(x), buf.pos as u64])),
        8 => told(parse_cstring(&mut buf).map(|p| name(p, buf.pos))),
        9 => told(parse_u8_pascal_string(&mut buf).map(|p| name(p, buf.pos))),
        10 => told(parse_variant(&mut buf).map(|v| numeric(v, buf.pos))),
        16 => words_of(0, &kind((arg % 0x10000) as u16)),
        17 => words_of(0, &[cpu_type((arg % 0x10000) as u16) as u64]),
        18 => words_of(0, &[source_language((arg % 0x100) as u8) as u64]),
        32 => called([FREE; 5], |out| mitrelilac_step(s, at, out)),
        33 => called([FREE; 24], |out| mitrelilac_decode(s, out)),
        34 => called([FREE; 3], |out| mitrelilac_name(s, out)),
        35 => called([FREE; 3], |out| mitrelilac_register_entry(s, at, out)),
        36 => called([FREE; 3], |out| mitrelilac_kind(s, out)),
        37 => called([FREE; 5], |out| mitrelilac_annotation(s, at, out)),
        40 => called([FREE; 6], |out| mitrelilac_check(s, from, out)),
        41 => called([FREE; 66], |out| mitrelilac_walk(s, from, at, out)),
        42 => called([FREE; 66], |out| mitrelilac_jump(s, from, at, out)),
        43 => called([FREE; 66], |out| mitrelilac_climb(s, at, out)),
        45 => called([FREE; 3], |out| mitrelilac_preview(s, from, at, out)),
        _ => words_of(u32::MAX, &[0]),
    }
}
