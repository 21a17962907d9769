// The shape of the words after `run` or `gen`.
ghost use Rattle.std.specs.Prelude.{◌≡◌, ◌≤◌, ⊤, List, ◌∷◌, ◌++◌, None, false, length, MatchOption, option_map, is_some};
ghost use Rattle.std.specs.Option.{option_map_or};
ghost use Rattle.command_words.specs.Words.{gen_of, joined, run_of};
ghost use Rattle.command_words.specs.Commands.{texts};
ghost use Rattle.command_words.specs.Shape.{fits, fits_gen, kind_at, kinds_of, seen_kinds};
ghost use Rattle.command_words.specs.declared.shape.PartKind.{PartKind as AnyKind};

use crate::values::{file_name, seed_of, trace_of, workers_of};

// What a part of the words is: a file, or an option with its value. Where a file's name is a seed, the
// part can be that seed too.
#[derive(Clone, Copy)]
pub enum PartKind {
    File { seed: bool },
    Workers,
    Trace,
}

// What one word is: `--workers=N`, `--trace=W` or a file.
fn kind_at(word: &str) -> Option<PartKind>
    ensures { result ≡ kind_at word.now }
{
    let bytes = word.as_bytes();
    if let Some(value) = bytes.strip_prefix(b"--workers=") {
        return workers_of(value).map(|_| PartKind::Workers);
    }
    if let Some(value) = bytes.strip_prefix(b"--trace=") {
        return trace_of(value).map(|_| PartKind::Trace);
    }
    let name = file_name(word)?;
    Some(PartKind::File {
        seed: seed_of(name).is_some(),
    })
}

// What the first part of some words is, and the words after it.
fn first_kind<'a>(word: &str, more: &'a [String]) -> Option<(PartKind, &'a [String])>
    ensures kind { MatchOption result (kinds_of (joined (word.now ∷ texts more.now)) ≡ None)
        (λ p. kinds_of (joined (word.now ∷ texts more.now))
        ≡ option_map (λ kinds. p.0 ∷ kinds) (kinds_of (joined (texts p.1.now)))) }
    ensures rest { MatchOption result ⊤ (λ p. length p.1.now ≤ length more.now) }
{
    match word {
        "--workers" => {
            let (value, rest) = more.split_first()?;
            let _ = workers_of(value.as_bytes())?;
            Some((PartKind::Workers, rest))
        }
        "--trace" => {
            let (value, rest) = more.split_first()?;
            let _ = trace_of(value.as_bytes())?;
            Some((PartKind::Trace, rest))
        }
        _ => Some((kind_at(word)?, more)),
    }
}

// Which parts the words had so far, and whether the name of the file is a seed.
#[derive(Clone, Copy, Default)]
pub struct Seen {
    pub file: bool,
    pub seed: bool,
    pub workers: bool,
    pub trace: bool,
}

impl Seen {
    // The same with one more part, unless such a part was seen before.
    fn with(self, kind: PartKind) -> Option<Seen>
        ensures run { (kinds : List AnyKind) → fits (seen_kinds self ++ kind ∷ kinds)
            ≡ option_map_or (λ seen. fits (seen_kinds seen ++ kinds)) result false }
        ensures gen_ { (kinds : List AnyKind) → fits_gen (seen_kinds self ++ kind ∷ kinds)
            ≡ option_map_or (λ seen. fits_gen (seen_kinds seen ++ kinds)) result false }
    {
        match kind {
            PartKind::File { seed } if !self.file => Some(Seen {
                file: true,
                seed,
                ..self
            }),
            PartKind::Workers if !self.workers => Some(Seen {
                workers: true,
                ..self
            }),
            PartKind::Trace if !self.trace => Some(Seen {
                trace: true,
                ..self
            }),
            _ => None,
        }
    }
}

// Which parts the words have, where each word is a part and none comes twice.
fn seen_in(words: &[String]) -> Option<Seen>
    ensures run { option_map_or (λ seen. fits (seen_kinds seen)) result false ≡ is_some (run_of (texts words.now)) }
    ensures gen_ { option_map_or (λ seen. fits_gen (seen_kinds seen)) result false ≡ is_some (gen_of (texts words.now)) }
{
    let mut seen = Seen::default();
    let mut rest = words;
    while let Some((word, more)) = rest.split_first() {
        let (kind, after) = first_kind(word.as_str(), more)?;
        seen = seen.with(kind)?;
        rest = after;
    }
    Some(seen)
}

// Whether these are the words after `run` of a command line: one file, and each option at most once.
pub fn has_run_shape(words: &[String]) -> bool
    ensures { result ≡ is_some (run_of (texts words.now)) }
{
    seen_in(words).is_some_and(|seen| seen.file)
}

// Whether these are the words after `gen` of a command line: one seed, and the number of workers at
// most once.
pub fn has_gen_shape(words: &[String]) -> bool
    ensures { result ≡ is_some (gen_of (texts words.now)) }
{
    seen_in(words).is_some_and(|seen| seen.file && seen.seed && !seen.trace)
}
