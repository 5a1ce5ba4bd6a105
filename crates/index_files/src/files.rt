// The files of an index's text, one after the other.
ghost use Rattle.std.specs.Prelude.{◌≡◌, ◌-◌, length};
ghost use Rattle.std.specs.Iterator.{at_most};
ghost use Rattle.index_files.specs.Names.{names_file, names_skipped};
ghost use Rattle.index_files.specs.FileSteps.{FileFrom};
ghost use Rattle.index_files.specs.EachFile.{IsAt, GivesFile};

use elements::{Child, Tag};

#[tactic(auto, unfolding(crate::specs::Names::names_file, slices::specs::Words::bytes))]
fn is_file(name: &[u8]) -> bool
    ensures { result ≡ names_file name.now }
{
    name == b"file".as_slice()
}

// Whether an element of that name is passed over whole.
#[tactic(auto, unfolding(crate::specs::Names::names_skipped, slices::specs::Words::bytes))]
fn is_skipped(name: &[u8]) -> bool
    ensures { result ≡ names_skipped name.now }
{
    name == b"extendedattributes".as_slice() || name == b"dataplacementpolicy".as_slice()
}

// The next file from at on, and where reading goes on behind it; the first one of an index's text from 38 on, behind its declaration. A loop, since each
// tag says where the next one is looked for.
pub fn next_file(text: &[u8], at: usize) -> Option<Child>
    ensures { FileFrom text.now at result }
{
    let mut i = at;
    loop {
        match elements::next_tag(text, i) {
            Tag::End => return None,
            Tag::Close(n) => i = n,
            Tag::Open(n) => {
                let name = elements::name_of(text, n);
                if is_file(name) {
                    let next = elements::leave(text, n);
                    return Some(Child { at: n, next });
                }
                if is_skipped(name) {
                    i = elements::leave(text, n);
                } else {
                    i = n;
                }
            }
            Tag::Empty(n) => {
                if is_file(elements::name_of(text, n)) {
                    return Some(Child { at: n, next: n });
                }
                i = n;
            }
        }
    }
}

// The files of an index's text, one after the other: the places of their tags.
#[derive(Clone, Drop)]
pub struct EachFile<'a> {
    text: &'a [u8],
    at: usize,
}

impl<'a> EachFile<'a> {
    pub fn new(text: &'a [u8]) -> EachFile<'a>
        ensures { IsAt text.now 38 result }
    {
        EachFile { text, at: 38 }
    }
}

impl<'a> Iterator for EachFile<'a> {
    type Item = usize;

    ghost next_gives = { GivesFile };

    ghost remaining = { λ s. at_most (length s.text.now - s.at) };

    fn next(&mut self) -> Option<usize> {
        let found = next_file(self.text, self.at)?;
        self.at = found.next;
        Some(found.at)
    }
}
