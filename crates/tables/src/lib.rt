// Tables of numbers, asked for at any place. They are fixed arrays, since no heap is used.
#![tactic(auto)]

ghost use Rattle.std.specs.Prelude.{◌≡◌, ◌+◌, ◌≤◌, length, take, get_or, set};
ghost use Rattle.std.proofs.lemmas.List.Edits.{sets};
ghost use Rattle.tables.specs.Copying.{copied};

// What is at n, and `missing` past the end.
pub fn item<T: Copy>(table: &[T], n: usize, missing: T) -> T
    ensures { result ≡ get_or table.now n missing }
{
    table.get(n).copied().unwrap_or(missing)
}

// v at n, if the table has that place.
pub fn put<T: Copy>(table: &mut [T], n: usize, v: T)
    ensures { table.new ≡ set table.old n v }
{
    if n < table.len() {
        table[n] = v;
    }
}

// The first n of src into out from at on, if there are so many and out has the room.
pub fn copy(src: &[u64], n: usize, out: &mut [u64], at: usize)
    ensures { out.new ≡ copied src.now n out.old at }
{
    if src.len() < n || out.len() < at || out.len() - at < n {
        return;
    }
    // Compiled to memcpy, as in slices::put.
    for (k, v) in src[..n].iter().enumerate() {
        out[at + k] = *v;
    }
}
