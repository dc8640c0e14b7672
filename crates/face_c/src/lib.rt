// The calls for programs in C and Rust, exported under the names of include/last.h: each is the call of that name in
// face, with its promise.
#![tactic(auto)]

ghost use Rattle.theory.specs.Calls.{Reads, Checks, Writes};
ghost use Rattle.record.specs.Calls.{Opens, Packs};
ghost use Rattle.face.specs.Reply.{Bare, WithGate, WithLength, answer_in, opened_in, packed_in};

use face::Reply;

#[unsafe(no_mangle)]
pub extern "C" fn last_check_mesh(
    vs: &[u32],
    os: &[u32],
    v: u32,
    gate: u32,
    work: &mut [u32],
) -> Reply
    ensures { Bare (answer_in result) result × Checks vs.now os.now v gate work.old (answer_in result) work.new }
{
    face::last_check_mesh(vs, os, v, gate, work)
}

#[unsafe(no_mangle)]
pub extern "C" fn last_write_string(
    vs: &[u32],
    os: &[u32],
    v: u32,
    gate: u32,
    letters: &mut [u8],
    walk: &mut [u32],
    work: &mut [u32],
) -> Reply
    ensures { Bare (answer_in result) result
        × Writes vs.now os.now v gate letters.old walk.old work.old (answer_in result) letters.new walk.new work.new }
{
    face::last_write_string(vs, os, v, gate, letters, walk, work)
}

#[unsafe(no_mangle)]
pub extern "C" fn last_read_string(
    letters: &[u8],
    vs: &mut [u32],
    os: &mut [u32],
    work: &mut [u32],
) -> Reply
    ensures { Bare (answer_in result) result
        × Reads letters.now vs.old os.old work.old (answer_in result) vs.new os.new work.new }
{
    face::last_read_string(letters, vs, os, work)
}

#[unsafe(no_mangle)]
pub extern "C" fn last_read_record(
    bytes: &[u8],
    vs: &mut [u32],
    os: &mut [u32],
    work: &mut [u32],
) -> Reply
    ensures { WithGate (opened_in result) result
        × Opens bytes.now vs.old os.old work.old (opened_in result) vs.new os.new work.new }
{
    face::last_read_record(bytes, vs, os, work)
}

#[unsafe(no_mangle)]
pub extern "C" fn last_write_record(
    letters: &[u8],
    gate: u32,
    text: &mut [u8],
    work: &mut [u32],
) -> Reply
    ensures { WithLength (packed_in result) result
        × Packs letters.now gate text.old work.old (packed_in result) text.new work.new }
{
    face::last_write_record(letters, gate, text, work)
}
