ghost use Rattle.std.specs.Prelude.{◌≡◌, ◌<◌, ◌≤◌, length, Ok, Err, MatchResult};
ghost use Rattle.std.specs.Option.{option_map};
ghost use Rattle.items.specs.declared.item.Header.{Header};
ghost use Rattle.model.specs.Contents.{Contents};
ghost use Rattle.model.specs.Closing.{Modelled};
ghost use Rattle.model.specs.Stands.{Stands};
ghost use Rattle.golog.specs.Points.{ways};
ghost use Rattle.text.specs.Faults.{said_fault};
ghost use Rattle.text.specs.Parse.{parsed_prog};
ghost use Rattle.jobfile.specs.Held.{Blank, ReadWell};
ghost use Rattle.jobfile.specs.Heard.{program_of, Listened};
ghost use Rattle.jobfile.specs.Refused.{Refused, TextRefused};
ghost use Rattle.jobfile.specs.Verdict.{verdict, verdict_within, listen, ended_ways};

use super::JobFile;
use faults::fault::FileFault;
use model::draft::Draft;
use model::fault::ModelFault;
use model::model::Model;
use routine::routine::Routine;
use std::alloc::Global;
use text::fault::TextFault;
use text::parsed::Parsed;
use text::parsed::reading::read;

// Reads a text, if there is one, with the names that have come; else leaves what was read.
fn hear(
    heap: Global,
    draft: &Draft<'_>,
    text: Option<&[u8]>,
    parsed: Option<Parsed>,
) -> Result<Option<Parsed>, TextFault>
    ensures { (c : Contents) → Stands draft.now c → MatchResult result (λ p. (listen (option_map (λ x. x.now) text.entry) c (program_of parsed) ≡ Ok (program_of p)) × Listened (option_map (λ x. x.now) text.entry) parsed p (length c.facts)) (λ f. TextRefused (said_fault f) (listen (option_map (λ x. x.now) text.entry) c (program_of parsed))) }
{
    let Some(text) = text else {
        return Ok(parsed);
    };
    let new = read(heap, draft.facts(), draft.acts(), text)?;
    Ok(Some(new))
}

// What a file says, record by record, up to the check for two ways.
fn modelled(heap: Global, file: &[u8]) -> Result<(Model<'_>, Parsed), FileFault>
    ensures { MatchResult result (λ m. (h : Header) × (c : Contents) × Modelled m.0 h c × (m.1.facts ≡ length c.facts) × (verdict file.now ≡ ended_ways (ways (length c.facts) (parsed_prog m.1)) h c (parsed_prog m.1))) (λ f. Refused f (verdict file.now)) }
{
    let (mut draft, mut rest) = Draft::begin(heap, file)?;
    let mut parsed = None;
    while !rest.is_empty() {
        let (more, taken) = draft.next(heap, file.len(), rest)?;
        draft = more;
        parsed = hear(heap, &draft, taken.text, parsed)?;
        rest = taken.rest;
    }
    let model = draft.close(file.len())?;
    let Some(parsed) = parsed else {
        return Err(FileFault::Model(ModelFault::Missing(file.len())));
    };
    Ok((model, parsed))
}

impl JobFile {
    // Reads a file into this place. A refused read leaves the empty job file.
    pub fn read(&mut self, heap: Global, file: &[u8]) -> Result<(), FileFault>
        ensures { MatchResult result (λ _. ReadWell self.new file.now) (λ f. Blank self.new × Refused f (verdict file.now)) }
    {
        *self = JobFile::empty(heap);
        let (model, parsed) = modelled(heap, file)?;
        let Model {
            lock,
            facts,
            acts,
            marks,
            most,
            text,
        } = model;
        let text = Vec::from_slice(heap, text)?;
        let routine = Routine::new(heap, parsed)?;
        *self = JobFile {
            lock,
            facts,
            acts,
            marks,
            most,
            text,
            routine,
        };
        Ok(())
    }

    // The same for a file of at most so many bytes; a longer one is refused whatever it holds.
    pub fn read_at_most(&mut self, heap: Global, file: &[u8], limit: usize) -> Result<(), FileFault>
        ensures { MatchResult result (λ _. (length file.now ≤ limit) × ReadWell self.new file.now) (λ f. Blank self.new × Refused f (verdict_within limit file.now)) }
    {
        if file.len() > limit {
            *self = JobFile::empty(heap);
            return Err(FileFault::TooLong(limit));
        }
        self.read(heap, file)
    }
}
