// The path of an entry of a table: the names from below the root down to it, with `/` between.
#![tactic(auto)]

ghost use Rattle.std.specs.Prelude.{◌≡◌, ◌+◌, ◌*◌, ◌<◌, length, get_or};
ghost use Rattle.slices.specs.Slices.{written};
ghost use Rattle.texts.specs.Decoded.{decoded};
ghost use Rattle.paths.specs.Paths.{entry_count, parent_of, name_of, is_placed, path_down, path_for};
ghost use Rattle.paths.specs.Steps.{is_answer, size_for, path_bytes, HasPath, EndsAt, WritesLast, Delivers};
ghost use Rattle.paths.specs.EachUp.{GoesFrom, CanGoUp, GoesUp};
ghost use Rattle.std.specs.Iterator.{at_most};

use refusals::Refusal;

// Entries, nine numbers each, and the text in which their names stand.
#[derive(Clone, Copy)]
struct Table<'a> {
    text: &'a [u8],
    entries: &'a [u64],
}

impl<'a> Table<'a> {
    // One of the nine numbers of an entry.
    fn number_of(&self, n: usize, k: usize) -> usize
        requires { (n < entry_count self.now.entries.now) × (k < 9) }
        ensures { result ≡ get_or self.now.entries.now (n * 9 + k) 0 }
    {
        self.entries[n * 9 + k] as usize
    }

    fn parent_of(&self, n: usize) -> usize
        requires { n < entry_count self.now.entries.now }
        ensures { result ≡ parent_of self.now.entries.now n }
    {
        self.number_of(n, 1)
    }

    // An entry's name, as spelled.
    fn name_of(&self, n: usize) -> &'a [u8]
        requires { n < entry_count self.now.entries.now }
        ensures { decoded result.now ≡ name_of self.now.text.now self.now.entries.now n }
    {
        let from = self.number_of(n, 4);
        let len = self.number_of(n, 5);
        slices::part(self.text, from, len)
    }

    // Whether an entry's parent is before it and its name lies in the text. Each function that reads an entry asks for one that is there: a number with
    // that fact in its type would be made anew for each parent.
    #[tactic(auto, unfolding(crate::specs::Paths::is_placed))]
    fn is_placed(&self, n: usize) -> bool
        requires { n < entry_count self.now.entries.now }
        ensures { result ≡ is_placed self.now.text.now self.now.entries.now n }
    {
        let parent = self.parent_of(n);
        let from = self.number_of(n, 4);
        let len = self.number_of(n, 5);
        parent < n && from <= self.text.len() && len <= self.text.len() - from
    }

    // The entry and those above it.
    fn up(&self, entry: usize) -> EachUp<'a>
        ensures { GoesFrom self.now entry result }
    {
        EachUp {
            table: *self,
            n: entry,
        }
    }

    // Whether each entry on the way up is placed.
    fn is_path(&self, entry: usize) -> bool
        requires { entry < entry_count self.now.entries.now }
        ensures { result ≡ is_answer (path_down self.now.text.now self.now.entries.now entry) }
    {
        // A for: all would need the list of these entries in specs/, for this test alone.
        for n in self.up(entry) {
            if !self.is_placed(n) {
                return false;
            }
        }
        true
    }

    // How many bytes an entry adds to its parent's path: its name, and `/` where the parent is not the root.
    fn added_len(&self, n: usize) -> usize
        requires { (0 < n) × HasPath self.now.text.now self.now.entries.now n }
        ensures { length (path_bytes self.now.text.now self.now.entries.now n)
            ≡ length (path_bytes self.now.text.now self.now.entries.now (parent_of self.now.entries.now n)) + result }
    {
        let len = texts::decoded_len(self.name_of(n));
        if self.parent_of(n) == 0 { len } else { len + 1 }
    }

    // How long the path of an entry is, as far as there is room for it.
    fn path_len(&self, entry: usize, room: usize) -> Option<usize>
        requires { HasPath self.now.text.now self.now.entries.now entry }
        ensures { result ≡ size_for room (path_bytes self.now.text.now self.now.entries.now entry) }
    {
        let mut left = room;
        for n in self.up(entry) {
            left = left.checked_sub(self.added_len(n))?;
        }
        Some(room - left)
    }

    // Writes the last name of a path that is to end at a place, with the `/` before it, and answers where it begins.
    fn put_last(&self, n: usize, out: &mut [u8], end: usize) -> usize
        requires { (0 < n) × EndsAt self.now.text.now self.now.entries.now n end out.old }
        ensures { WritesLast self.now.text.now self.now.entries.now n out.old out.new result }
    {
        let name = self.name_of(n);
        let from = end - texts::decoded_len(name);
        let _ = texts::decode(name, out, from);
        if self.parent_of(n) == 0 {
            return from;
        }
        out[from - 1] = b'/';
        from - 1
    }

    // Writes a path, from its last name on.
    fn put_path(&self, entry: usize, out: &mut [u8], len: usize)
        requires { EndsAt self.now.text.now self.now.entries.now entry len out.old }
        ensures { out.new ≡ written 0 (path_bytes self.now.text.now self.now.entries.now entry) out.old }
    {
        let mut end = len;
        for n in self.up(entry) {
            end = self.put_last(n, out, end);
        }
    }
}

// An entry and the directories that hold it, one after the other up to the root, which is left out; one whose parent is not before it is the last.
#[derive(Drop)]
struct EachUp<'a> {
    table: Table<'a>,
    n: usize,
}

impl<'a> Iterator for EachUp<'a> {
    type Item = usize;

    ghost can_next = { CanGoUp };

    ghost next_gives = { GoesUp };

    ghost remaining = { λ s. at_most s.n };

    fn next(&mut self) -> Option<usize> {
        let n = self.n;
        if n == 0 {
            return None;
        }
        let parent = self.table.parent_of(n);
        self.n = if parent < n { parent } else { 0 };
        Some(n)
    }
}

// Writes the path of an entry to the front of out.
pub fn path(text: &[u8], entries: &[u64], entry: u64, out: &mut [u8]) -> Result<usize, Refusal>
    ensures { Delivers (path_for (length out.old) text.now entries.now entry) out.old out.new result }
{
    if entries.len() % 9 != 0 {
        return Err(Refusal::Caller);
    }
    let n = entry as usize;
    if entries.len() / 9 <= n {
        return Err(Refusal::Missing);
    }
    let table = Table { text, entries };
    if !table.is_path(n) {
        return Err(Refusal::Caller);
    }
    let Some(len) = table.path_len(n, out.len()) else {
        return Err(Refusal::Short);
    };
    table.put_path(n, out, len);
    Ok(len)
}
