// ANSI labelled tapes (02, Item 1): the files of a tape, and where a tape leaves the layout.
#![tactic(auto)]

mod phases;
mod rows;

ghost use Rattle.std.specs.Prelude.{◌≡◌, ◌<◌, length, take};
ghost use Rattle.tape.specs.Steps.{Encoded};
ghost use Rattle.writing.specs.Steps.{AddsAtMost};
ghost use Rattle.ansi.specs.PhaseSteps.{known_at};
ghost use Rattle.ansi.specs.Answers.{all_bytes, front_in};
ghost use Rattle.ansi.specs.Steps.{ReadsFiles, Walks, rows_length, at_end, HandsOut};

use phases::{Block, Phase};
use refusals::Refusal;
use tape::Entry;
use writing::Text;

// Adds the file that a mark, element at, makes known, and answers where the rows end then.
fn note(out: &mut [u8], end: usize, phase: Phase, store: &[u8], at: usize) -> usize
    requires { at < 65536 }
    ensures { AddsAtMost 36 out.old end (all_bytes (known_at store.now at phase)) out.new result }
{
    match phase {
        Phase::Headers(h, g, _) => {
            let mut rows = Text::behind(out, end);
            rows::add_file(
                &mut rows,
                slices::part(store, h, 80),
                slices::part(store, g, 80),
                at + 1,
            );
            rows.len()
        }
        _ => end,
    }
}

// Why a walk stops, and how many elements were passed before.
#[derive(Clone, Copy, PartialEq, Eq, Debug)]
struct Stop {
    refusal: Refusal,
    at: usize,
}

// The answer where the tape ends, behind so many elements: with so many bytes of rows.
fn at_end(phase: Phase, end: usize, count: usize) -> Result<usize, Stop>
    ensures { result ≡ at_end phase end count }
{
    match phase {
        Phase::Done => Ok(end),
        _ => Err(Stop {
            refusal: Refusal::Labels,
            at: count,
        }),
    }
}

// Reads a list of so many elements, its files' rows to the front of out, and answers how many bytes of rows there are. The place in out is one of the
// numbers that go from element to element, with those in the list and the store. Inlined, so that where nobody asks for the rows, in `place`, none
// are written and their buffer is not cleared.
#[inline(always)]
fn walk(list: &[u8], store: &[u8], count: usize, out: &mut [u8]) -> Result<usize, Stop>
    requires { Encoded list.now store.now count × (length out.old ≡ rows_length) }
    ensures { Walks list.now store.now out.old out.new result }
{
    let mut place: usize = 0;
    let mut off: usize = 0;
    let mut end: usize = 0;
    let mut phase = Phase::Start;
    for at in 0..count {
        match tape::entry_at(list, place) {
            Entry::Mark(next) => {
                end = note(out, end, phase, store, at);
                match phases::after_mark(phase, store) {
                    Ok(p) => {
                        phase = p;
                        place = next;
                    }
                    Err(refusal) => return Err(Stop { refusal, at }),
                }
            }
            Entry::Block(len, next) => {
                let block = Block {
                    store,
                    from: off,
                    len,
                };
                match block.after(phase) {
                    Ok(p) => {
                        phase = p;
                        off += len;
                        place = next;
                    }
                    Err(refusal) => return Err(Stop { refusal, at }),
                }
            }
            Entry::Unreadable(_) => {
                return Err(Stop {
                    refusal: Refusal::Labels,
                    at,
                });
            }
            Entry::End | Entry::Bad => {
                return Err(Stop {
                    refusal: Refusal::List,
                    at,
                });
            }
        }
    }
    at_end(phase, end, count)
}

// Rows without a file.
fn empty() -> [u8; 337068]
    ensures { length result ≡ rows_length }
{
    [0; 337068]
}

// Puts the rows that stand in so many bytes of a text to the front of out, and answers how many they are.
fn hand_out(text: &[u8], end: usize, out: &mut [u8]) -> Result<usize, Refusal>
    ensures { HandsOut (take end text.now) out.old out.new result }
{
    let rows = slices::part(text, 0, end);
    slices::put(out, 0, rows)?;
    Ok(rows.len() / 36)
}

// Reads the files of an ANSI labelled tape to the front of out, 36 bytes each.
pub fn files(list: &[u8], store: &[u8], out: &mut [u8]) -> Result<usize, Refusal>
    ensures { ReadsFiles list.now store.now out.old out.new result }
{
    let count = tape::check(list, store)?;
    let mut text = empty();
    match walk(list, store, count, &mut text) {
        Ok(end) => hand_out(&text, end, out),
        Err(stop) => Err(stop.refusal),
    }
}

// How many elements at the front of a tape some tape in the layout begins with.
pub fn place(list: &[u8], store: &[u8]) -> Result<usize, Refusal>
    ensures { result ≡ front_in list.now store.now }
{
    let count = tape::check(list, store)?;
    let mut text = empty();
    match walk(list, store, count, &mut text) {
        Ok(_) => Ok(count),
        Err(stop) => Ok(stop.at),
    }
}
