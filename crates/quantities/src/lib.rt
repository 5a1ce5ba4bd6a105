// Block numbers, byte counts and generation numbers: three separate quantities (01, The block list), each with an element of its own
// in 002; partition letters; and the rule of a block size.
#![tactic(auto)]

ghost use Rattle.std.specs.Prelude.{◌≡◌};
ghost use Rattle.quantities.specs.Letters.{is_letter};
ghost use Rattle.quantities.specs.Sizes.{is_block_size};

// The number of an element on a partition: blocks and file marks count from 0.
#[derive(Clone, Copy, PartialEq, Eq, Debug)]
pub struct BlockNumber(pub u64);

// A number of bytes.
#[derive(Clone, Copy, PartialEq, Eq, Debug)]
pub struct ByteCount(pub u64);

// The generation of an index.
#[derive(Clone, Copy, PartialEq, Eq, Debug)]
pub struct Generation(pub u64);

// Whether a number is the ASCII code of a partition letter.
pub fn is_letter(b: u64) -> bool
    ensures { result ≡ is_letter b }
{
    (u64::from(b'a')..=u64::from(b'z')).contains(&b)
}

// Whether a number of bytes can be a volume's block size.
pub fn is_block_size(n: u64) -> bool
    ensures { result ≡ is_block_size n }
{
    (4096..=1048576).contains(&n)
}
