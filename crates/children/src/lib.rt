// Children once each in any order, nothing else (01, LTFS label, Index): rows of elements read by a table of rules.
#![tactic(auto)]

ghost use Rattle.std.specs.Prelude.{◌≡◌, not, ◌&&◌, ◌≤◌, eqb, length, get_or};
ghost use Rattle.elements.specs.Reading.{head_at, children_at};
ghost use Rattle.children.specs.RowSteps.{is_rule_mark, rules, table_of, FirstMark, FindsRule, ReadsRow};
ghost use Rattle.children.specs.Children.{is_root, no_attribute, may_hold, below};

// A rule's number in its table, and its mark.
#[derive(Clone, Copy, PartialEq, Eq, Debug)]
pub struct RuleFound {
    pub number: usize,
    pub mark: u8,
}

// `=`, `/` or `*`.
#[tactic(auto, unfolding(crate::specs::RowSteps::is_rule_mark))]
fn is_mark(b: u8) -> bool
    ensures { result ≡ is_rule_mark b }
{
    matches!(b, b'=' | b'/' | b'*')
}

// Where the first rule of a table ends.
fn rule_end(table: &[u8]) -> Option<usize>
    ensures { FirstMark table.now result }
{
    table.iter().position(|b| is_mark(*b))
}

// The rule for a name. The rules are counted by hand: an iterator over them would be a type with an item of its own, for this loop alone.
pub fn place_of(table: &[u8], name: &[u8]) -> Option<RuleFound>
    ensures { FindsRule (rules table.now) name.now result }
{
    let mut rest = table;
    let mut number: usize = 0;
    while let Some(end) = rule_end(rest) {
        if &rest[..end] == name {
            let mark = rest[end];
            return Some(RuleFound { number, mark });
        }
        rest = &rest[end + 1..];
        number += 1;
    }
    None
}

// Whether the element at n has the name and the one attribute of a root.
#[tactic(auto, unfolding(slices::specs::Words::bytes))]
pub fn is_root(text: &[u8], n: usize, name: &[u8]) -> bool
    ensures { result ≡ is_root name.now (head_at text.now n) }
{
    elements::name_is(text, n, name) && elements::key_of(text, n) == b"version".as_slice()
}

// Whether the element at n has no attribute.
pub fn no_attribute(text: &[u8], n: usize) -> bool
    ensures { result ≡ no_attribute (head_at text.now n) }
{
    elements::key_of(text, n).is_empty()
}

// Whether the element at n holds what a mark allows.
#[tactic(auto, unfolding(crate::specs::Children::may_hold))]
pub fn holds_at(text: &[u8], n: usize, mark: u8) -> bool
    ensures { result ≡ may_hold mark (head_at text.now n) (children_at text.now n) }
{
    match mark {
        b'=' => !elements::has_children(text, n),
        b'/' => elements::has_children(text, n) || elements::is_blank(elements::text_of(text, n)),
        _ => mark == b'*',
    }
}

// Whether the element at n may stand where its rule has this mark.
fn is_known(text: &[u8], n: usize, mark: u8) -> bool
    ensures { result ≡ (no_attribute (head_at text.now n) && may_hold mark (head_at text.now n) (children_at text.now n)) }
{
    no_attribute(text, n) && holds_at(text, n, mark)
}

// Whether none of the first `must` seats is empty.
fn all_seated(seats: &[usize; 16], must: usize) -> bool
    requires { must ≤ 16 }
    ensures { result ≡ below must (λ k. not (eqb (get_or seats.now k 0) 0)) }
{
    seats[..must].iter().all(|seat| *seat != 0)
}

// Reads the row that goes on at `at` by a table of rules, of which the first `must` are required: where the element of each rule stands, 0 for none.
pub fn read_row(text: &[u8], at: usize, table: &[u8], must: usize) -> Option<[usize; 16]>
    ensures { ReadsRow text.now at (table_of table.now) must result }
{
    if must > 16 {
        return None;
    }
    let mut seats = [0usize; 16];
    let mut i = at;
    while let Some(child) = elements::next_child(text, i) {
        let rule = place_of(table, elements::name_of(text, child.at))?;
        if rule.number >= 16 || !is_known(text, child.at, rule.mark) {
            return None;
        }
        if seats[rule.number] != 0 {
            return None;
        }
        seats[rule.number] = child.at;
        i = child.next;
    }
    all_seated(&seats, must).then_some(seats)
}
