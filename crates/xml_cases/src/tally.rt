// The cases of a file, judged, and for each group how many gave what they must.
use crate::lines::{Expected, Line, Text};
use std::{fmt, io};

// What a text gave that gave what it must.
#[derive(Clone, Copy)]
enum Given {
    InForm,
    Refused,
}

// How many cases of a group gave what they must.
#[derive(Clone, Copy, Default)]
struct Tally {
    in_form: u64,
    refused: u64,
}

impl Tally {
    fn count(&mut self, given: Given) {
        match given {
            Given::InForm => self.in_form = self.in_form.wrapping_add(1),
            Given::Refused => self.refused = self.refused.wrapping_add(1),
        }
    }
}

impl fmt::Display for Tally {
    fn fmt<W: fmt::Write>(&self, f: &mut fmt::Formatter<W>) -> fmt::Result {
        let in_form = self.in_form;
        let refused = self.refused;
        write!(f, "{in_form} in the form, {refused} refused")
    }
}

// Whether the text is in the form, or can still be: all of it begins a text in the form.
fn fits(text: &[u8]) -> bool {
    match xml::check(text) {
        Ok(()) => true,
        Err(e) => e.front == text.len(),
    }
}

// Whether each front of the text can still be in the form.
fn fronts_fit(text: &[u8]) -> bool {
    (0..text.len()).all(|k| fits(&text[..k]))
}

// What the text gives; where it is something else than it must, the words for that.
fn judged(expected: Expected, text: Text) -> Result<Given, &'static str> {
    match (expected, xml::check(text.bytes)) {
        (Expected::InFormByFronts | Expected::InForm, Ok(())) => Ok(Given::InForm),
        (Expected::InFormByFronts | Expected::InForm, Err(_)) => Err("refused"),
        (Expected::NotInForm | Expected::LeavesAtMark, Ok(())) => Err("in the form"),
        (Expected::NotInForm, Err(_)) => Ok(Given::Refused),
        (Expected::LeavesAtMark, Err(e)) if e.front == text.mark => Ok(Given::Refused),
        (Expected::LeavesAtMark, Err(_)) => Err("refused elsewhere"),
    }
}

// Judges the cases of a file line by line. Those before its first group are not counted.
#[derive(Drop)]
pub(crate) struct Judge<'a, R: Print> {
    rt: &'a R,
    tally: Option<Tally>,
}

impl<'a, R: Print> Judge<'a, R> {
    pub(crate) fn new(rt: &'a R) -> Judge<'a, R> {
        Judge { rt, tally: None }
    }

    // The head of a group, or a case.
    pub(crate) fn line(&mut self, line: &[u8]) -> io::Result<()> {
        match Line::from(line) {
            Line::Group(name) => self.begin(name),
            Line::Case(expected, front, spelled) => {
                let mut room = [0u8; 8192];
                self.case(expected, Text::new(front, spelled, &mut room))
            }
        }
    }

    fn begin(&mut self, name: &[u8]) -> io::Result<()> {
        self.report()?;
        self.tally = Some(Tally::default());
        self.rt.write_all(name)
    }

    fn case(&mut self, expected: Expected, text: Text) -> io::Result<()> {
        if matches!(expected, Expected::InFormByFronts) && !fronts_fit(text.bytes) {
            self.say("a front refused", text)?;
        }
        match judged(expected, text) {
            Ok(given) => {
                if let Some(tally) = &mut self.tally {
                    tally.count(given);
                }
                Ok(())
            }
            Err(what) => self.say(what, text),
        }
    }

    // A case that gave something else.
    fn say(&self, what: &str, text: Text) -> io::Result<()> {
        print!(self.rt; "\n  {what}: ")?;
        self.rt.write_all(text.bytes)
    }

    // The end of a group's line.
    pub(crate) fn report(&self) -> io::Result<()> {
        match self.tally {
            Some(tally) => println!(self.rt; ": {tally}"),
            None => Ok(()),
        }
    }
}
