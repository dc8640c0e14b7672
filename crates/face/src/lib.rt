// The calls for programs in C and Rust, one each; include/last.h says in words what they answer.
//
//     last_check_mesh last_write_string last_read_string    of the connectivity part, with its promises
//     last_read_record last_write_record                    of the record part, with its promises
//
// The crate face_c exports them; there a slice is lent as pointer and length, one by one as C lends them. Every call
// answers a Reply by value, and face/specs/Reply says how it carries the answer of the call behind it.
#![tactic(auto)]

ghost use Rattle.theory.specs.Answer.{answer};
ghost use Rattle.theory.specs.Calls.{Reads, Checks, Writes};
ghost use Rattle.record.specs.Calls.{Opens, Packs, opened_of, packed_of};
ghost use Rattle.face.specs.Reply.{Bare, Refuses, WithGate, WithLength, answer_in, opened_in, packed_in};

use record::{Last, Text};
use theory::{Counts, Refusal};

// What a call answers; what it does not answer is 0, and in a refusal all but number and place are 0. It has a number
// where the calls behind it have a Result, since C reads it.
#[repr(C)]
#[derive(Clone, Copy, Debug, Default, PartialEq, Eq)]
pub struct Reply {
    pub number: u32,
    pub place: u32,
    pub t: u32,
    pub v: u32,
    pub gate: u32,
    pub length: u32,
}

impl From<Refusal> for Reply {
    ghost from_gives = { Refuses };

    fn from(refusal: Refusal) -> Reply {
        Reply {
            number: u32::from(refusal.rule),
            place: refusal.place,
            ..Reply::default()
        }
    }
}

// An answer of the connectivity part.
impl From<Result<Counts, Refusal>> for Reply {
    ghost from_gives = { λ a r. Bare (answer a) r };

    fn from(a: Result<Counts, Refusal>) -> Reply {
        match a {
            Ok(counts) => Reply {
                t: counts.t,
                v: counts.v,
                ..Reply::default()
            },
            Err(refusal) => Reply::from(refusal),
        }
    }
}

// An answer of reading a record.
impl From<Result<Last, Refusal>> for Reply {
    ghost from_gives = { λ a r. WithGate (opened_of a) r };

    fn from(a: Result<Last, Refusal>) -> Reply {
        match a {
            Ok(last) => Reply {
                t: last.counts.t,
                v: last.counts.v,
                gate: last.gate,
                ..Reply::default()
            },
            Err(refusal) => Reply::from(refusal),
        }
    }
}

// An answer of writing a record.
impl From<Result<Text, Refusal>> for Reply {
    ghost from_gives = { λ a r. WithLength (packed_of a) r };

    fn from(a: Result<Text, Refusal>) -> Reply {
        match a {
            Ok(text) => Reply {
                t: text.counts.t,
                v: text.counts.v,
                length: text.length,
                ..Reply::default()
            },
            Err(refusal) => Reply::from(refusal),
        }
    }
}

pub fn last_check_mesh(vs: &[u32], os: &[u32], v: u32, gate: u32, work: &mut [u32]) -> Reply
    ensures { Bare (answer_in result) result
        × Checks vs.now os.now v gate work.old (answer_in result) work.new }
{
    Reply::from(conn::check_mesh(vs, os, v, gate, work))
}

pub fn last_write_string(
    vs: &[u32],
    os: &[u32],
    v: u32,
    gate: u32,
    letters: &mut [u8],
    walk: &mut [u32],
    work: &mut [u32],
) -> Reply
    ensures { Bare (answer_in result) result
        × Writes vs.now os.now v gate letters.old walk.old work.old (answer_in result) letters.new walk.new work.new }
{
    Reply::from(conn::write_string(vs, os, v, gate, letters, walk, work))
}

pub fn last_read_string(letters: &[u8], vs: &mut [u32], os: &mut [u32], work: &mut [u32]) -> Reply
    ensures { Bare (answer_in result) result
        × Reads letters.now vs.old os.old work.old (answer_in result) vs.new os.new work.new }
{
    Reply::from(conn::read_string(letters, vs, os, work))
}

pub fn last_read_record(bytes: &[u8], vs: &mut [u32], os: &mut [u32], work: &mut [u32]) -> Reply
    ensures { WithGate (opened_in result) result
        × Opens bytes.now vs.old os.old work.old (opened_in result) vs.new os.new work.new }
{
    Reply::from(record::read_record(bytes, vs, os, work))
}

pub fn last_write_record(letters: &[u8], gate: u32, text: &mut [u8], work: &mut [u32]) -> Reply
    ensures { WithLength (packed_in result) result
        × Packs letters.now gate text.old work.old (packed_in result) text.new work.new }
{
    Reply::from(record::write_record(letters, gate, text, work))
}
