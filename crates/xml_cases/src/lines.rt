// What a line of cases says. The first byte says what the case must give:
//   + the declaration and then the text are in the form, and each front of them can still be
//   - the declaration and then the text are not in the form, and leave it at the mark `|`
//   * the text alone leaves the form at the mark
//   = the text alone is in the form
//   ! the text alone is not
// The text begins at the third byte. `\` and two hex digits stand for a byte. A line that begins with `#` is the head of a group, whose
// name begins at the third byte; any other is a case as by `*`.
ghost use Rattle.std.specs.Prelude.{◌<◌, ◌≤◌, length};

// What a text must give.
#[derive(Clone, Copy)]
pub(crate) enum Expected {
    // It is in the form, and each front of it can still be.
    InFormByFronts,
    InForm,
    NotInForm,
    // It leaves the form at its mark.
    LeavesAtMark,
}

// A case has what stands before its text, and how this is spelled.
#[derive(Clone, Copy)]
pub(crate) enum Line<'a> {
    Group(&'a [u8]),
    Case(Expected, &'a [u8], &'a [u8]),
}

const DECLARATION: &[u8] = b"<?xml version=\"1.0\" encoding=\"UTF-8\"?>";

impl<'a> From<&'a [u8]> for Line<'a> {
    fn from(line: &'a [u8]) -> Line<'a> {
        let rest = line.get(2..).unwrap_or(&[]);
        match line.first() {
            Some(b'#') => Line::Group(rest),
            Some(b'+') => Line::Case(Expected::InFormByFronts, DECLARATION, rest),
            Some(b'-') => Line::Case(Expected::LeavesAtMark, DECLARATION, rest),
            Some(b'=') => Line::Case(Expected::InForm, b"", rest),
            Some(b'!') => Line::Case(Expected::NotInForm, b"", rest),
            _ => Line::Case(Expected::LeavesAtMark, b"", rest),
        }
    }
}

// A text, as far as there was room for it, and where its mark stands.
#[derive(Clone, Copy)]
pub(crate) struct Text<'a> {
    pub(crate) bytes: &'a [u8],
    pub(crate) mark: usize,
    ghost in_room: { length bytes.now ≤ 8192 },
}

impl<'a> Text<'a> {
    // The front, and then what is spelled, in a lent room. A text with no mark has it behind the front. The loop is no for, since an escape takes two
    // signs more.
    pub(crate) fn new(front: &[u8], spelled: &[u8], room: &'a mut [u8; 8192]) -> Text<'a> {
        let mut len: usize = 0;
        for b in front {
            len = put(room, len, *b);
        }
        let mut mark = len;
        let mut signs = spelled.iter().copied();
        while let Some(sign) = signs.next() {
            match sign {
                b'|' => mark = len,
                b'\\' => {
                    let high = hex(signs.next());
                    let low = hex(signs.next());
                    len = put(room, len, high * 16 + low);
                }
                _ => len = put(room, len, sign),
            }
        }
        Text {
            bytes: room.get(..len).unwrap_or(&[]),
            mark,
        }
    }
}

// Puts a byte where a text ends, and answers where it ends then.
fn put(room: &mut [u8], end: usize, b: u8) -> usize {
    if end < room.len() {
        room[end] = b;
        end + 1
    } else {
        end
    }
}

// The value of a hex digit; what is none counts as 0.
fn hex(digit: Option<u8>) -> u8
    ensures { result < 16 }
{
    match digit {
        Some(b @ b'0'..=b'9') => b - b'0',
        Some(b @ b'a'..=b'f') => b - b'a' + 10,
        _ => 0,
    }
}
