// The lines, put together piece by piece. Each has a bound of its length, so that a buffer of 256 bytes has room for all.
ghost use Rattle.std.specs.Prelude.{◌+◌, length};
ghost use Rattle.volume.specs.Answers.{rescued, cut_is};
ghost use Rattle.volume.specs.AnswerSteps.{judged};
ghost use Rattle.volume.specs.Steps.{break_of, break_told};
ghost use Rattle.bench_lines.specs.Lines.{pair, refused_line, break_line, verdict_line, cut_line, rescue_line, lines_of};
ghost use Rattle.writing.specs.Steps.{GrowsByAtMost};

use refusals::Refusal;
use volume::{Break, FoundCut};
use writing::Text;

// Adds a word and two numbers with a space between.
fn add_pair(text: &mut Text<'_>, word: &[u8], a: u64, b: u64)
    ensures { GrowsByAtMost (41 + length word.now) text.old (pair word.now a b) text.new }
{
    text.add(word);
    text.add_number(a);
    text.add(b" ");
    text.add_number(b);
}

// Adds the line of a refusal.
pub fn add_refusal(text: &mut Text<'_>, refusal: Refusal)
    ensures { GrowsByAtMost 29 text.old (refused_line refusal) text.new }
{
    text.add(b"refused ");
    text.add_number(u64::from(refusal));
    text.add(b"\n");
}

// Adds the verdict's line for a break.
fn add_break(text: &mut Text<'_>, found: Break)
    ensures { GrowsByAtMost 56 text.old (break_line (break_told found).which (break_told found).number) text.new }
{
    add_pair(text, b"verdict break ", found.which(), found.number());
    text.add(b"\n");
}

// Adds the verdict's line.
fn add_verdict(text: &mut Text<'_>, found: Option<Break>)
    ensures { GrowsByAtMost 56 text.old (verdict_line (break_of found)) text.new }
{
    match found {
        Some(b) => add_break(text, b),
        None => text.add(b"verdict consistent\n"),
    }
}

// Adds the line of a cut.
fn add_cut(text: &mut Text<'_>, cut: FoundCut)
    ensures { GrowsByAtMost 125 text.old (cut_line (cut_is cut)) text.new }
{
    add_pair(text, b"cut ", cut.index_construct, cut.data_construct);
    add_pair(text, b" keep ", cut.index_kept, cut.data_kept);
    text.add(b" generation ");
    text.add_number(cut.generation.0);
    text.add(b"\n");
}

// Adds the rescue's line.
fn add_rescue(text: &mut Text<'_>, rescue: Result<FoundCut, Refusal>)
    ensures { GrowsByAtMost 125 text.old (rescue_line (rescued rescue)) text.new }
{
    match rescue {
        Ok(cut) => add_cut(text, cut),
        Err(_) => text.add(b"cut none\n"),
    }
}

// Adds both lines, or the one of a refusal.
pub fn add_lines(
    text: &mut Text<'_>,
    verdict: Result<Option<Break>, Refusal>,
    rescue: Result<FoundCut, Refusal>,
)
    ensures { GrowsByAtMost 181 text.old (lines_of (judged verdict) (rescued rescue)) text.new }
{
    match verdict {
        Ok(found) => {
            add_verdict(text, found);
            add_rescue(text, rescue);
        }
        Err(refusal) => add_refusal(text, refusal),
    }
}
