// The data partition's chain of indexes, from its first construct on.
ghost use Rattle.std.specs.Prelude.{length};
ghost use Rattle.volume.specs.Volume.{volume_with};
ghost use Rattle.volume.specs.Steps.{LinksAt, ChainsOf};
ghost use Rattle.volume.specs.Readers.{given_to};

use crate::filling::Tables;
use crate::sound::Reader;
use quantities::Generation;

// The generation of construct k's index, if it is sound and follows the construct before, which has an index of that generation, or begins the chain.
fn link(reader: &Reader, partition: &Tables, k: usize, before: Generation) -> Option<Generation>
    ensures { LinksAt (volume_with (given_to reader.now)) partition.now.store.now partition.now.constructs.now k before.0 result }
{
    let letter = reader.volume.data_letter;
    let brief = reader.brief_at(partition.store, letter, partition.construct(k))?;
    let linked = if k == 0 {
        brief.back.is_none()
    } else {
        brief.joins(letter, partition.construct(k - 1).first, before)
    };
    linked.then_some(brief.generation)
}

// How many constructs of the data partition, from the first on, are a chain without a break; their generations go into a table.
pub fn chain(reader: &Reader, partition: &Tables, generations: &mut [u64]) -> usize
    ensures { ChainsOf (volume_with (given_to reader.now)) partition.now.store.now partition.now.constructs.now partition.now.count
        (length generations.old) generations.new result }
{
    let mut last = Generation(0);
    for k in 0..partition.count {
        let Some(generation) = link(reader, partition, k, last) else {
            return k;
        };
        tables::put(generations, k, generation.0);
        last = generation;
    }
    partition.count
}
