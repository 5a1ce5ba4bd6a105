// How far an ANSI labelled tape is read, and what an element does then.
ghost use Rattle.std.specs.Prelude.{◌≡◌, ◌<◌};
ghost use Rattle.ansi.specs.declared.phases.Phase.TheVariants as phase;
ghost use Rattle.ansi.specs.ReadingSteps.{opening};
ghost use Rattle.ansi.specs.PhaseSteps.{step_of, mark_step, passed_to, block_bytes, StepsTo, Small};

use refusals::Refusal;

// What was read last; a label is told by its place in the store.
#[derive(Clone, Copy, PartialEq, Eq, Debug)]
pub enum Phase {
    Start,
    Volume(usize),
    Header(usize),
    Headers(usize, usize, usize),
    Blocks(usize, usize),
    Trailer(usize, usize),
    Second,
    Trailers(usize),
    Between,
    Done,
}

// The phase behind a mark.
#[tactic(auto, unfolding(crate::specs::ReadingSteps::at_mark))]
pub fn after_mark(phase: Phase, store: &[u8]) -> Result<Phase, Refusal>
    ensures { step_of store.now result ≡ mark_step store.now phase }
{
    match phase {
        Phase::Headers(h, _, _) => Ok(Phase::Blocks(h, 0)),
        Phase::Blocks(h, m) => Ok(Phase::Trailer(h, m)),
        Phase::Trailers(_) => Ok(Phase::Between),
        Phase::Between => Ok(Phase::Done),
        _ => Err(Refusal::Labels),
    }
}

// The number from which on optional labels may follow behind a block, if it has the word w and a number from k on, or the word u.
#[tactic(auto, unfolding(crate::specs::PhaseSteps::passed_to))]
fn passed(x: &[u8], w: &[u8], u: &[u8], k: usize) -> Option<usize>
    ensures { result ≡ passed_to w.now u.now k x.now }
{
    if ansi_labels::is_numbered(x, w, k) {
        Some(ansi_labels::number(x) + 1)
    } else if ansi_labels::is_label(x, u) {
        Some(10)
    } else {
        None
    }
}

// A block: so many bytes from a place of the store on.
#[derive(Clone, Copy)]
pub struct Block<'a> {
    pub store: &'a [u8],
    pub from: usize,
    pub len: usize,
}

impl Block<'_> {
    fn bytes(&self) -> &[u8]
        ensures { result.now ≡ block_bytes self.now }
    {
        slices::part(self.store, self.from, self.len)
    }

    // A block at the tape's start.
    #[tactic(auto, unfolding(crate::specs::ReadingSteps::at_block, slices::specs::Words::bytes))]
    fn in_start(&self) -> Result<Phase, Refusal>
        ensures { StepsTo self.now phase.Start result }
    {
        let x = self.bytes();
        if ansi_labels::is_volume(x) {
            Ok(Phase::Volume(2))
        } else {
            Err(Refusal::Labels)
        }
    }

    // A block where a file may begin.
    #[tactic(auto, using(crate::proofs::Walks::opens_at), unfolding(crate::specs::ReadingSteps::opening, slices::specs::Words::bytes))]
    fn begin_file(&self) -> Result<Phase, Refusal>
        ensures { step_of self.now.store.now result ≡ opening (block_bytes self.now) }
    {
        let x = self.bytes();
        if ansi_labels::is_label(x, b"HDR1") {
            Ok(Phase::Header(self.from))
        } else {
            Err(Refusal::Labels)
        }
    }

    // A block among the volume's labels.
    #[tactic(auto, using(crate::proofs::Walks::passing_none, crate::proofs::Walks::passing_some), unfolding(crate::specs::ReadingSteps::at_block, slices::specs::Words::bytes))]
    fn in_volume(&self, k: usize) -> Result<Phase, Refusal>
        ensures { StepsTo self.now (phase.Volume k) result }
    {
        let x = self.bytes();
        match passed(x, b"VOL", b"UVL", k) {
            Some(next) => Ok(Phase::Volume(next)),
            None => self.begin_file(),
        }
    }

    // A block behind HDR1.
    #[tactic(auto, using(crate::proofs::Walks::header_at), unfolding(crate::specs::ReadingSteps::at_block))]
    fn in_header(&self, h: usize) -> Result<Phase, Refusal>
        ensures { StepsTo self.now (phase.Header h) result }
    {
        let x = self.bytes();
        if ansi_labels::is_header2(x) {
            Ok(Phase::Headers(h, self.from, 3))
        } else {
            Err(Refusal::Labels)
        }
    }

    // A block among the header labels.
    #[tactic(auto, using(crate::proofs::Walks::passing_none, crate::proofs::Walks::passing_some), unfolding(crate::specs::ReadingSteps::at_block, slices::specs::Words::bytes))]
    fn in_headers(&self, h: usize, g: usize, k: usize) -> Result<Phase, Refusal>
        ensures { StepsTo self.now (phase.Headers h g k) result }
    {
        let x = self.bytes();
        let next = passed(x, b"HDR", b"UHL", k).ok_or(Refusal::Labels)?;
        Ok(Phase::Headers(h, g, next))
    }

    // A block among the data blocks.
    #[tactic(auto, unfolding(crate::specs::ReadingSteps::at_block))]
    fn in_blocks(&self, h: usize, m: usize) -> Result<Phase, Refusal>
        requires { m < 65536 }
        ensures { StepsTo self.now (phase.Blocks h m) result }
    {
        let x = self.bytes();
        if ansi_labels::is_data(x) {
            Ok(Phase::Blocks(h, m + 1))
        } else {
            Err(Refusal::Labels)
        }
    }

    // A block behind the data blocks.
    #[tactic(auto, using(crate::proofs::Walks::trailer_count), unfolding(crate::specs::ReadingSteps::at_block, crate::specs::ReadingSteps::closing, slices::specs::Words::bytes))]
    fn in_trailer(&self, h: usize, m: usize) -> Result<Phase, Refusal>
        ensures { StepsTo self.now (phase.Trailer h m) result }
    {
        let x = self.bytes();
        if ansi_labels::is_trailer(x, slices::part(self.store, h, 80)) {
            if ansi_labels::has_count(x, m) {
                Ok(Phase::Second)
            } else {
                Err(Refusal::BlockCount)
            }
        } else if ansi_labels::is_label(x, b"EOV1") {
            Err(Refusal::EndOfVolume)
        } else {
            Err(Refusal::Labels)
        }
    }

    // A block behind EOF1.
    #[tactic(auto, unfolding(crate::specs::ReadingSteps::at_block, slices::specs::Words::bytes))]
    fn in_second(&self) -> Result<Phase, Refusal>
        ensures { StepsTo self.now phase.Second result }
    {
        let x = self.bytes();
        if ansi_labels::is_label(x, b"EOF2") {
            Ok(Phase::Trailers(3))
        } else {
            Err(Refusal::Labels)
        }
    }

    // A block among the trailer labels.
    #[tactic(auto, using(crate::proofs::Walks::passing_none, crate::proofs::Walks::passing_some), unfolding(crate::specs::ReadingSteps::at_block, slices::specs::Words::bytes))]
    fn in_trailers(&self, k: usize) -> Result<Phase, Refusal>
        ensures { StepsTo self.now (phase.Trailers k) result }
    {
        let x = self.bytes();
        let next = passed(x, b"EOF", b"UTL", k).ok_or(Refusal::Labels)?;
        Ok(Phase::Trailers(next))
    }

    // The phase behind the block.
    #[tactic(auto, unfolding(crate::specs::ReadingSteps::at_block))]
    pub fn after(&self, phase: Phase) -> Result<Phase, Refusal>
        requires { Small phase }
        ensures { StepsTo self.now phase result }
    {
        match phase {
            Phase::Start => self.in_start(),
            Phase::Volume(k) => self.in_volume(k),
            Phase::Header(h) => self.in_header(h),
            Phase::Headers(h, g, k) => self.in_headers(h, g, k),
            Phase::Blocks(h, m) => self.in_blocks(h, m),
            Phase::Trailer(h, m) => self.in_trailer(h, m),
            Phase::Second => self.in_second(),
            Phase::Trailers(k) => self.in_trailers(k),
            Phase::Between => self.begin_file(),
            Phase::Done => Err(Refusal::Labels),
        }
    }
}
