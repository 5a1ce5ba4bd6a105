// Numbers (01, Values; 02, Item 2), as XML Schema spells a nonnegative integer.
ghost use Rattle.std.specs.Prelude.{◌≡◌};
ghost use Rattle.xml.specs.Bytes.{is_space};
ghost use Rattle.xml.specs.Tree.{behind};
ghost use Rattle.digits.specs.Decimal.{run};
ghost use Rattle.values.specs.Values.{at_most, end_trimmed, signed, number};

// The text without the white space in front.
fn front_trimmed(raw: &[u8]) -> &[u8]
    ensures { result.now ≡ behind is_space raw.now }
{
    let blank = raw.iter().take_while(|b| elements::is_space(**b)).count();
    &raw[blank..]
}

// The text without the white space at its end.
fn end_trimmed(raw: &[u8]) -> &[u8]
    ensures { result.now ≡ end_trimmed raw.now }
{
    let back = raw.iter().rev();
    let blank = back.take_while(|b| elements::is_space(**b)).count();
    &raw[..raw.len() - blank]
}

// Zero, if that is what digits say.
fn read_zero(s: &[u8]) -> Option<u64>
    ensures { result ≡ at_most 0 (run s.now) }
{
    digits::read_run(s).filter(|n| *n == 0)
}

// What a sign, or none, and digits say.
#[tactic(auto, using(crate::proofs::SchemaForm::signed_plus, crate::proofs::SchemaForm::signed_minus, crate::proofs::SchemaForm::signed_digits))]
fn read_signed(s: &[u8]) -> Option<u64>
    ensures { result ≡ signed s.now }
{
    if let Some(rest) = s.strip_prefix(b"+") {
        digits::read_run(rest)
    } else if let Some(rest) = s.strip_prefix(b"-") {
        read_zero(rest)
    } else {
        digits::read_run(s)
    }
}

// The number that raw says. Mostly it is a few digits alone, which are tried first.
#[tactic(auto, using(crate::proofs::SchemaForm::number_few), unfolding(crate::specs::Values::number))]
pub fn read_number(raw: &[u8]) -> Option<u64>
    ensures { result ≡ number raw.now }
{
    digits::read_few(raw).or_else(|| read_signed(end_trimmed(front_trimmed(raw))))
}
