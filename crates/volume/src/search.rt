// The search for the rescue's cut, from the index partition's last construct back.
ghost use Rattle.volume.specs.Steps.{BeginsOf};
ghost use Rattle.volume.specs.Readers.{TriesIn, SearchesIn};

use crate::filled::Filled;
use crate::filling::Tables;
use quantities::Generation;

// A cut: both construct numbers, both counts of kept elements, and the generation of the last index kept in the index partition.
#[derive(Clone, Copy)]
pub struct FoundCut {
    pub index_construct: u64,
    pub data_construct: u64,
    pub index_kept: u64,
    pub data_kept: u64,
    pub generation: Generation,
}

// What the search goes by: the volume's tables, and of the data partition's chain the generations of its indexes, and at the first block of
// each construct its number plus 1.
#[derive(Clone, Copy)]
pub struct Search<'a> {
    pub filled: Filled<'a>,
    pub generations: &'a [u64],
    pub beginnings: &'a [u32],
}

// Puts at the first block of each of the first n constructs its number plus 1.
pub fn put_beginnings(partition: &Tables, n: usize, beginnings: &mut [u32])
    ensures { BeginsOf partition.now.constructs.now n beginnings.old beginnings.new }
{
    for k in 0..n {
        let here = partition.construct(k);
        tables::put(
            beginnings,
            here.first.0 as usize,
            u32::try_from(k + 1).unwrap_or(0),
        );
    }
}

impl Search<'_> {
    // The cut after construct k of the index partition and the construct of the chain that its index points at.
    fn cut_after(&self, k: usize) -> Option<FoundCut>
        ensures { TriesIn self.now k result }
    {
        let filled = &self.filled;
        let here = filled.index.construct(k);
        let letter = filled.reader.volume.index_letter;
        let brief = filled.reader.brief_at(filled.index.store, letter, here)?;
        let place = brief.back?;
        let number = tables::item(self.beginnings, place.block.0 as usize, 0) as usize;
        let j = number.checked_sub(1)?;
        let there = filled.data.construct(j);
        let generation = Generation(tables::item(self.generations, j, 0));
        if filled.misfit(here, brief, there, generation).is_some() {
            return None;
        }
        Some(FoundCut {
            index_construct: k as u64,
            data_construct: j as u64,
            index_kept: here.end as u64,
            data_kept: there.end as u64,
            generation: brief.generation,
        })
    }

    // The first cut that fits, from the index partition's last construct back.
    pub fn first_cut(&self) -> Option<FoundCut>
        ensures { SearchesIn self.now result }
    {
        for k in (0..self.filled.index.count).rev() {
            if let Some(cut) = self.cut_after(k) {
                return Some(cut);
            }
        }
        None
    }
}
