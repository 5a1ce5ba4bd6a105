// Texts, and the bytes of files.
ghost use Rattle.std.specs.Prelude.{◌≡◌, Ok};
ghost use Rattle.xml.specs.CheckSteps.{require_form};
ghost use Rattle.extents.specs.Map.{byte_map};
ghost use Rattle.api.specs.Outputs.{Shown};
ghost use Rattle.api.specs.Files.{byte_place, ChecksForm};

use crate::outputs;
use extents::Stored;
use quantities::ByteCount;
use refusals::Refusal;

// What the check of the XML form answers.
fn form(text: &[u8]) -> Result<(), Refusal>
    ensures { result ≡ require_form text.now (Ok tt) }
{
    xml::check(text)?;
    Ok(())
}

// What goes with a text in the form.
fn no_front(_: ()) -> u64
    ensures { result ≡ 0 }
{
    0
}

// Whether a text is in the XML form.
#[unsafe(no_mangle)]
pub extern "C" fn klapouzen_check_form(text: &[u8], front: &mut u64) -> u64
    ensures { ChecksForm text.now result front.new }
{
    outputs::tell(form(text), no_front, outputs::front, front)
}

// Whether the byte is stored; its letter, its block, and where in the block.
fn in_place(byte: Option<Stored>) -> [u64; 4]
    ensures { result ≡ byte_place byte }
{
    match byte {
        Some(stored) => [1, u64::from(stored.letter), stored.block.0, stored.byte.0],
        None => [0; 4],
    }
}

// Where the byte at a position of a file is.
#[unsafe(no_mangle)]
pub extern "C" fn klapouzen_byte_at(
    rows: &[u64],
    length: u64,
    block_size: u64,
    position: u64,
    out: &mut [u64; 4],
) -> u64
    ensures { Shown 4 byte_place (byte_map rows.now length block_size position) result out.new }
{
    let byte = extents::byte_at(rows, ByteCount(length), block_size, ByteCount(position));
    outputs::tell(byte, in_place, outputs::zeros, out)
}
