// Records of calls (docs/CALLS.md): each is played, and printed as a line. For programs that try the calls.
#![tactic(auto)]

mod calls;

ghost use Rattle.std.specs.Prelude.{◌≡◌, ◌<◌, ◌≤◌, ◌/◌, List, ℕ, length, take, drop, slice_range, IfOk, OnOk};
ghost use Rattle.std.specs.Io.KnownBytes.{Appends};
ghost use Rattle.little.specs.Text.{bytes};
ghost use Rattle.records.specs.Called.{Called};
ghost use Rattle.records.specs.Left.{Leaves};
ghost use Rattle.records.specs.Parts.{Ends, Next, Twice, count_at, words};
ghost use Rattle.records.specs.Records.{Line, Lines, Played};

use input::fill;
use records_print::word;
use std::io;
use std::io::{Read, Write};

// The input goes no further.
const INPUT: usize = 60000;

// As many entries as a list can have in it.
const ENTRIES: usize = 30000;

// The entries of a list, two bytes each.
fn entries(s: &[u8]) -> [u16; ENTRIES]
    requires { length s.now ≤ 60000 }
    ensures { take (length s.now / 2) result ≡ words s.now }
{
    let mut out = [0u16; ENTRIES];
    for k in 0..s.len() / 2 {
        out[k] = little::word(s, 2 * k);
    }
    out
}

// The count that a part begins with, two bytes; 0 where the input ends before them, and then the part ends behind it too.
fn count(s: &[u8], at: usize) -> usize
    ensures bound { result < 65536 }
    ensures value { result ≡ count_at s.now at }
{
    if at < s.len() && at + 1 < s.len() {
        usize::from(little::word(s, at))
    } else {
        0
    }
}

// Where the parts of a record end.
#[derive(Clone, Copy)]
struct PartEnds {
    file: usize,
    list: usize,
    marking: usize,
}

// The ends that the counts of the record at a place tell, within the input or not.
fn part_ends(s: &[u8], at: usize) -> PartEnds
    requires { at < 60000 }
    ensures bound { result.marking < 1000000 }
    ensures ends { Ends s.now at result.file result.list result.marking }
{
    let file = at + 3 + count(s, at + 1);
    let list = file + 2 + 2 * count(s, file);
    let marking = list + 2 + count(s, list);
    PartEnds {
        file,
        list,
        marking,
    }
}

// A record that is cut short, or whose letter names no call, is the last.
fn cut<W: Write>(output: &mut W, s: &[u8]) -> io::Result<usize>
    ensures end { IfOk result (λ end. end ≡ length s.now) }
    ensures text { OnOk result (Appends (W.contents output.old) (W.contents output.new) (bytes "cut\n")) }
{
    word(output, b"cut\n")?;
    Ok(s.len())
}

// One call, whose list comes as bytes; false where the letter names none.
fn with_list<W: Write>(
    output: &mut W,
    letter: u8,
    file: &[u8],
    list: &[u8],
    marking: &mut [u8],
) -> io::Result<bool>
    requires { length list.now ≤ 60000 }
    ensures line { IfOk result (λ named. (left : List ℕ) × Called letter file.now (words list.now) left marking.old marking.new
        (W.contents output.old) (W.contents output.new) named) }
    ensures left { (left : List ℕ) × Leaves letter file.now (words list.now) left marking.old marking.new }
{
    let mut transitions = entries(list);
    let n = list.len() / 2;
    calls::call(output, letter, file, &mut transitions[..n], marking)
}

// One record, and where the next begins. Its marking is lent from the second copy of the input, so that a call can write it.
fn record<W: Write>(output: &mut W, s: &[u8], copy: &mut [u8], at: usize) -> io::Result<usize>
    requires twice { Twice s.now copy.old }
    requires at_in_bounds { at < length s.now }
    ensures next { IfOk result (λ next. Next s.now at next) }
    ensures same { drop at copy.old ≡ drop at s.now → IfOk result (λ next. drop next copy.new ≡ drop next s.now) }
    ensures line { drop at copy.old ≡ drop at s.now → IfOk result (λ next.
        Line s.now at (W.contents output.old) (W.contents output.new) next) }
    ensures behind { (f l m : ℕ) → Ends s.now at f l m → drop m copy.new ≡ drop m copy.old }
{
    let ends = part_ends(s, at);
    if s.len() < ends.marking {
        return cut(output, s);
    }
    let file = &s[at + 3..ends.file];
    let list = &s[ends.file + 2..ends.list];
    let marking = &mut copy[ends.list + 2..ends.marking];
    if with_list(output, s[at], file, list, marking)? {
        return Ok(ends.marking);
    }
    cut(output, s)
}

// Every record.
fn each<W: Write>(output: &mut W, s: &[u8], copy: &mut [u8]) -> io::Result<()>
    requires { Twice s.now copy.old }
    ensures { copy.old ≡ s.now → OnOk result (Lines s.now 0 (W.contents output.old) (W.contents output.new)) }
{
    // Each record tells where the next begins.
    let mut at = 0;
    while at < s.len() {
        at = record(output, s, copy, at)?;
    }
    Ok(())
}

// Every record of the input.
pub fn play<R: Read, W: Write>(input: &mut R, output: &mut W) -> io::Result<()>
    ensures { OnOk result (Played (R.remaining input.old) (W.contents output.old) (W.contents output.new)) }
{
    let mut records = [0u8; INPUT];
    let n = fill(input, &mut records)?;
    let mut copy = records;
    each(output, &records[..n], &mut copy[..n])
}
